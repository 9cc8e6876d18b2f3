// Values: their dims and atoms, and which dims an array may have.
ghost use Rattle.std.specs.Prelude.{◌≡◌, ◌^◌, ◌+◌, ◌-◌, ◌++◌, min};
ghost use Rattle.core_syntax.specs.Fits.{forms as meets_forms};
ghost use Rattle.core_syntax.specs.Lists.{each, product};
ghost use Rattle.core_syntax.specs.RefineTerms.{term_of, terms_of, cell_of};
ghost use Rattle.core_syntax.specs.Rules.{dims_of, atoms_of};
ghost use Rattle.core_syntax.specs.Typed.{typed_rules};
ghost use Rattle.term_values.specs.Rooms.{FirstHasRoom};

use core_syntax::{TermAtom, TermExpr};

/// How deep a term may nest that a run makes. A deeper one finds no memory.
pub const DEEPEST: u32 = 512;

/// The most cells of a frame, and the most atoms of an array.
pub const MOST_CELLS: u64 = 1 << 24;

/// The most dims of an array.
pub const MOST_DIMS: usize = 64;

/// The dims of a value; any other term has none.
pub fn dims(term: &TermExpr) -> &[u32]
    ensures { result.now ≡ dims_of typed_rules (term_of term.now) }
{
    match term {
        TermExpr::Array(dims, _) | TermExpr::NoAtoms(dims, _) => dims.as_slice(),
        _ => &[],
    }
}

/// The atoms of a value; any other term has none.
pub fn atoms(term: &TermExpr) -> &[TermAtom]
    ensures { each cell_of result.now ≡ atoms_of typed_rules (term_of term.now) }
{
    match term {
        TermExpr::Array(_, atoms) => atoms.as_slice(),
        _ => &[],
    }
}

/// The product of dims, or any number above the most cells where it is above them.
pub fn count(dims: &[u32]) -> u64
    ensures { result ≡ min (product dims.now) (2 ^ 24 + 1) }
{
    let mut count: u64 = 1;
    for dim in dims {
        count = (count * u64::from(*dim)).min(MOST_CELLS + 1);
    }
    count
}

/// The product of dims, or the largest number where it is above it.
pub fn size(dims: &[u32]) -> usize
    ensures { result ≡ min (product dims.now) (2 ^ 64 - 1) }
{
    let mut size: usize = 1;
    for dim in dims {
        size = size.saturating_mul(*dim as usize);
    }
    size
}

/// An array may have these dims (docs/LANGUAGE.md, "Arrays").
pub fn forms(dims: &[u32]) -> bool
    ensures { result ≡ meets_forms dims.now }
{
    dims.len() <= MOST_DIMS && count(dims) <= MOST_CELLS
}

/// Whether an array may have the dims of a frame followed by those of the first of its cells.
pub fn has_room(frame: &[u32], cells: &[TermExpr]) -> bool
    ensures { FirstHasRoom frame.now (terms_of cells.now) result }
{
    match cells {
        [] => false,
        [first, ..] => joins(frame, dims(first)),
    }
}

/// Whether an array may have the dims of a frame followed by those of a cell.
fn joins(frame: &[u32], cell: &[u32]) -> bool
    ensures { result ≡ meets_forms (frame.now ++ cell.now) }
{
    frame.len() + cell.len() <= MOST_DIMS && count(frame) * count(cell) <= MOST_CELLS
}

// What primitives give on arrays.
ghost use Rattle.std.specs.Prelude.{◌≡◌, [], ◌∷◌, ◌++◌, ◌*◌, true, false, Some, None, IfOk, List, Option, min, take, drop};
ghost use Rattle.core_syntax.specs.Fits.{forms};
ghost use Rattle.core_syntax.specs.Lists.{each, product};
ghost use Rattle.core_syntax.specs.Refine.{ty_of};
ghost use Rattle.core_syntax.specs.RefineTerms.{cell_of};
ghost use Rattle.core_syntax.specs.Rules.{answered};
ghost use Rattle.core_syntax.specs.Syntax.{Ty as SyntaxTy, Index as SyntaxIndex};
ghost use Rattle.core_syntax.specs.Typed.{typed_rules};
ghost use Rattle.prim_kernels.specs.Kernels.{formed_dims};
ghost use Rattle.typed_prims.specs.ArrayAnswers.{answer_is, gives_single};
ghost use Rattle.typed_prims.specs.Outcomes.{move_of};

use crate::outcome::Outcome;
use core_syntax::{Memory, TermAtom, TrapKind, Ty};
use sqlite_items::Items;
use std::alloc::Global;
use term_values::{joined, push_copies, with_atoms};

/// What a primitive gives on arrays.
#[derive(Drop)]
pub(crate) enum Answer {
    /// The array of these dims and atoms.
    Gives(Items<u32>, Vec<TermAtom>),
    Trap(TrapKind),
    /// The arguments are none of its row, which no typed term meets.
    Unfit,
}

/// An answer as a term, with the atoms' type of a cell where it is an empty array.
pub(crate) fn answer_term(alloc: Global, answer: Answer, cell: &Ty) -> Result<Outcome, Memory>
    ensures { (us : Option (List SyntaxTy)) (is : Option (List SyntaxIndex)) → IfOk result (λ o. move_of o ≡ answered typed_rules (ty_of cell.now) us is (answer_is answer)) }
{
    match answer {
        Answer::Gives(dims, atoms) => match with_atoms(alloc, dims, atoms, cell) {
            Ok(array) => Ok(Outcome::Goes(array)),
            Err(memory) => Err(memory),
        },
        Answer::Trap(kind) => Ok(Outcome::Trap(kind)),
        Answer::Unfit => Ok(Outcome::Lost),
    }
}

/// A scalar.
pub(crate) fn single(alloc: Global, atom: TermAtom) -> Result<Answer, Memory>
    ensures { IfOk result (λ a. answer_is a ≡ gives_single (cell_of atom)) }
{
    let mut atoms = Vec::new(alloc);
    match atoms.push(atom) {
        Ok(()) => Ok(Answer::Gives(Items::new(alloc), atoms)),
        Err(_) => Err(Memory),
    }
}

/// Dims with one before them.
pub(crate) fn led(alloc: Global, lead: u32, cell: &[u32]) -> Result<Items<u32>, Memory>
    ensures { IfOk result (λ dims. dims ≡ lead ∷ cell.now) }
{
    joined(alloc, &[lead], cell)
}

/// Dims with one before them, where an array may have these.
pub(crate) fn formed(alloc: Global, lead: u64, cell: &[u32]) -> Result<Option<Items<u32>>, Memory>
    ensures { IfOk result (λ dims. dims ≡ formed_dims (lead ∷ cell.now)) }
{
    if lead > u64::from(u32::MAX) {
        return Ok(None);
    }
    let dims = led(alloc, lead as u32, cell)?;
    if term_values::forms(dims.as_slice()) {
        Ok(Some(dims))
    } else {
        Ok(None)
    }
}

/// Copies of atoms.
pub(crate) fn copied_atoms(
    alloc: Global,
    atoms: &[TermAtom],
    room: u32,
) -> Result<Vec<TermAtom>, Memory>
    ensures { IfOk result (λ copies. copies.items ≡ atoms.now) }
{
    let mut copies = Vec::new(alloc);
    push_copies(&mut copies, alloc, atoms, room)?;
    Ok(copies)
}

/// How many atoms so many cells of these dims have, at most so many.
pub(crate) fn extent(cells: usize, cell: &[u32], most: usize) -> usize
    ensures { result ≡ min (cells * product cell.now) most }
{
    cells.saturating_mul(term_values::size(cell)).min(most)
}

/// The atoms of the first so many cells.
pub(crate) fn front<'a>(atoms: &'a [TermAtom], cells: usize, cell: &[u32]) -> &'a [TermAtom]
    ensures { result.now ≡ take (cells * product cell.now) atoms.now }
{
    &atoms[..extent(cells, cell, atoms.len())]
}

/// The atoms behind the first so many cells.
pub(crate) fn behind<'a>(atoms: &'a [TermAtom], cells: usize, cell: &[u32]) -> &'a [TermAtom]
    ensures { result.now ≡ drop (cells * product cell.now) atoms.now }
{
    &atoms[extent(cells, cell, atoms.len())..]
}

/// The atoms of the cell at a place.
pub(crate) fn at<'a>(atoms: &'a [TermAtom], place: usize, cell: &[u32]) -> &'a [TermAtom]
    ensures { result.now ≡ take (product cell.now) (drop (place * product cell.now) atoms.now) }
{
    let rest = behind(atoms, place, cell);
    &rest[..extent(1, cell, rest.len())]
}

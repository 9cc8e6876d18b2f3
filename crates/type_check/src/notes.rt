//! The notes at the nodes of an expression.
ghost use Rattle.std.specs.Prelude.{◌≡◌, [], Some, IfOk};
ghost use Rattle.core_syntax.specs.Lists.{each};
ghost use Rattle.core_syntax.specs.Refine.{ty_of, tys_of};
ghost use Rattle.core_syntax.specs.Syntax.{ty_items};
ghost use Rattle.core_syntax.specs.NormTypes.{norm_ty};
ghost use Rattle.core_syntax.specs.Notes.{note_of, shape_word as shape_of, no_note as nothing, cell_note as of_cell, app_note as of_application};

use core_syntax::{Memory, NormShape, Note, Ty, TyForm};
use shape_words::word;
use sqlite_items::Items;
use std::alloc::Global;

/// A word without letters.
pub(crate) fn empty_word(alloc: Global) -> NormShape
    ensures { result ≡ [] }
{
    NormShape {
        letters: Items::from_vec(Vec::new(alloc)),
    }
}

/// The word of an array type's shape. The type was measured, so that its shape can only be
/// refused for want of memory.
pub(crate) fn shape_word(alloc: Global, t: &Ty) -> Result<NormShape, Memory>
    ensures { IfOk result (λ w. w ≡ shape_of (ty_of t.now)) }
{
    match &t.form {
        TyForm::Arr(_, shape) => word(alloc, shape).map_err(|_| Memory),
        _ => Ok(empty_word(alloc)),
    }
}

/// What a note says at a node of any other kind: nothing.
pub(crate) fn no_note(alloc: Global) -> Note
    ensures { note_of result ≡ nothing }
{
    Note {
        cells: Items::from_vec(Vec::new(alloc)),
        cell: None,
        shape: empty_word(alloc),
        sorts: Items::from_vec(Vec::new(alloc)),
    }
}

/// At a node whose result's cell has this normal type, with the cell shapes of its arguments.
fn with_cells(alloc: Global, cells: Items<NormShape>, cell: &Ty) -> Result<Note, Memory>
    ensures { IfOk result (λ n. note_of n ≡ record { cells = cells; cell = Some (ty_of cell.now); shape = shape_of (ty_of cell.now); sorts = [] }) }
{
    let shape = shape_word(alloc, cell)?;
    let cell = cell.copy(alloc)?;
    Ok(Note {
        cells,
        cell: Some(cell),
        shape,
        sorts: Items::from_vec(Vec::new(alloc)),
    })
}

/// At a frame, and at an application to types or to indices: the type of the result's cell, a
/// normal type.
pub(crate) fn cell_note(alloc: Global, cell: &Ty) -> Result<Note, Memory>
    requires { norm_ty (ty_of cell.now) ≡ ty_of cell.now }
    ensures { IfOk result (λ n. note_of n ≡ of_cell (ty_of cell.now)) }
{
    with_cells(alloc, Items::from_vec(Vec::new(alloc)), cell)
}

/// The shapes of array types.
fn shape_words(alloc: Global, types: &[Ty]) -> Result<Items<NormShape>, Memory>
    ensures { IfOk result (λ ws. ws ≡ each shape_of (ty_items (tys_of types.now))) }
{
    let mut words = Vec::new(alloc);
    for ty in types {
        let word = shape_word(alloc, ty)?;
        words.push(word).map_err(|_| Memory)?;
    }
    Ok(Items::from_vec(words))
}

/// At an application to arguments of these input types, whose result's cell has this normal type.
pub(crate) fn app_note(alloc: Global, inputs: &[Ty], cell: &Ty) -> Result<Note, Memory>
    requires { norm_ty (ty_of cell.now) ≡ ty_of cell.now }
    ensures { IfOk result (λ n. note_of n ≡ of_application (tys_of inputs.now) (ty_of cell.now)) }
{
    let cells = shape_words(alloc, inputs)?;
    with_cells(alloc, cells, cell)
}

ghost use Rattle.std.specs.Prelude.{◌≡◌, IfOk, IfErr};
ghost use Rattle.core_syntax.specs.Syntax.{Arr};
ghost use Rattle.core_syntax.specs.Refine.{index_of, ty_of};
ghost use Rattle.core_syntax.specs.Made.{IsArray};
ghost use Rattle.core_syntax.specs.Value.{then_shape as followed};
ghost use Rattle.core_syntax.specs.NormTypes.{norm_ty, measure_ty};
ghost use Rattle.core_syntax.specs.Notes.{unbox_note, note_of};
ghost use Rattle.core_syntax.specs.Blame.{measure};
ghost use Rattle.type_check.specs.Framed.{framed as with_frame, Answers};
ghost use Rattle.type_check.specs.Written.{Tells};

use crate::concluded::Concluded;
use crate::notes::shape_word;
use crate::refusal::TypeRefusal;
use crate::shapes::then_shape;
use crate::written::normal_at;
use core_syntax::{Index, Memory, Note, Sort, Span, Ty, TyForm};
use sqlite_items::Items;
use std::alloc::Global;
use type_equal::NormType;

/// An array type at a place, with a frame before its shape.
fn framed_tree(
    alloc: Global,
    at: Span,
    frame: &Index,
    elem: &Ty,
    shape: &Index,
) -> Result<Ty, Memory>
    ensures { IfOk result (λ t. ty_of t ≡ Arr at (ty_of elem.now) (followed (index_of frame.now) (index_of shape.now))) }
{
    let shape = then_shape(alloc, frame.copy(alloc)?, shape.copy(alloc)?)?;
    let elem = elem.copy(alloc)?;
    Ty::array(alloc, at, elem, shape)
}

/// The normal type of cells of this type with a frame before their shape, measured at a place.
fn framed_type(
    alloc: Global,
    at: Span,
    frame: &Index,
    cell: &NormType,
) -> Result<NormType, TypeRefusal>
    requires { IsArray (ty_of cell.now) }
    ensures { Tells (measure (measure_ty (with_frame (index_of frame.now) (ty_of cell.now))) at)
        (λ n. ty_of n ≡ norm_ty (with_frame (index_of frame.now) (ty_of cell.now))) result }
{
    let TyForm::Arr(elem, shape) = &cell.ty().form else {
        unreachable!();
    };
    match framed_tree(alloc, at, frame, elem.get(), shape) {
        Ok(tree) => normal_at(alloc, &tree),
        Err(_) => Err(TypeRefusal::Memory),
    }
}

/// The note of cells of this type, and of indices of these sorts.
fn noted(alloc: Global, cell: NormType, sorts: Items<Sort>) -> Result<Note, TypeRefusal>
    ensures noted { IfOk result (λ n. note_of n ≡ unbox_note sorts (ty_of cell)) }
    ensures memory { IfErr result (λ e. e ≡ TypeRefusal.Memory) }
{
    match shape_word(alloc, cell.ty()) {
        Ok(shape) => Ok(Note {
            cells: Items::from_vec(Vec::new(alloc)),
            cell: Some(cell.into_ty()),
            shape,
            sorts,
        }),
        Err(_) => Err(TypeRefusal::Memory),
    }
}

/// What a rule concludes whose result has a frame before cells of this type, with the sorts of the
/// indices that an `unbox` names.
///
/// # Errors
///
/// `Refused` exactly where the type of the result is too large to be held (13, 16), at the place.
/// `Memory` where there was no memory.
pub(crate) fn framed(
    alloc: Global,
    at: Span,
    frame: &Index,
    cell: NormType,
    sorts: Items<Sort>,
) -> Result<Concluded, TypeRefusal>
    requires { IsArray (ty_of cell) }
    ensures { Tells (measure (measure_ty (with_frame (index_of frame.now) (ty_of cell))) at)
        (Answers (with_frame (index_of frame.now) (ty_of cell)) (unbox_note sorts (ty_of cell))) result }
{
    match framed_type(alloc, at, frame, &cell) {
        Ok(ty) => match noted(alloc, cell, sorts) {
            Ok(note) => Ok(Concluded { note, ty }),
            Err(refusal) => Err(refusal),
        },
        Err(refusal) => Err(refusal),
    }
}

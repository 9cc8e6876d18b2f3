//! The rules of frames of cells.
ghost use Rattle.std.specs.Prelude.{◌≡◌, List, [], ◌++◌, IfOk};
ghost use Rattle.core_syntax.specs.Syntax.{Ty as Plain, Frame, NoCells, Expr, Exprs, more_exprs, expr_at};
ghost use Rattle.core_syntax.specs.Refine.{ty_of};
ghost use Rattle.core_syntax.specs.Made.{IsArray};
ghost use Rattle.core_syntax.specs.NormTypes.{norm_ty};
ghost use Rattle.core_syntax.specs.Typing.{Context, numbers as shape_of};
ghost use Rattle.core_syntax.specs.Blame.{written};
ghost use Rattle.core_syntax.specs.Notes.{NodeNote, cell_note as of_cell};
ghost use Rattle.type_check.specs.Contexts.{IsSound};
ghost use Rattle.type_check.specs.Found.{Found, Concludes};
ghost use Rattle.type_check.specs.FoundParts.{FoundCells, TestsCell};
ghost use Rattle.type_check.specs.Forms.{IsFramed, Follows};

use crate::concluded::Concluded;
use crate::conclusion::conclusion;
use crate::notes::{cell_note, no_note};
use crate::refusal::TypeRefusal;
use crate::shapes::{framed, numbers};
use core_syntax::{Memory, Span, Ty};
use std::alloc::Global;
use type_equal::{NormType, same_part};

/// Tests that the type of a cell of a frame, at this place, is that of the first.
pub(crate) fn later_cell(first: &NormType, found: &NormType, at: Span) -> Result<(), TypeRefusal>
    ensures { (Γ : Context) (e : Expr) (ns : List NodeNote) → expr_at e ≡ at → Found Γ e (ty_of found.now) ns → TestsCell Γ (ty_of first.now) e ns result }
{
    let other = found.ty();
    let own = first.ty();
    if same_part(other, own) {
        Ok(())
    } else {
        Err(TypeRefusal::Refused {
            number: 18,
            span: at,
        })
    }
}

/// The type of arrays of these cells, in a frame with these dims.
fn frame_type(alloc: Global, dims: &[u32], cell: &Ty) -> Result<Ty, Memory>
    requires { IsArray (ty_of cell.now) }
    ensures { IfOk result (λ t. IsFramed (shape_of dims.now) (ty_of cell.now) (ty_of t)) }
{
    let shape = numbers(alloc, dims)?;
    framed(alloc, shape, cell)
}

/// What a rule concludes at a node whose result's cell has this normal type, from the type that
/// it gives.
pub(crate) fn conclusion_of_cells(
    alloc: Global,
    at: Span,
    ty: &Ty,
    cell: &Ty,
) -> Result<Concluded, TypeRefusal>
    requires { norm_ty (ty_of cell.now) ≡ ty_of cell.now }
    ensures { Follows at (ty_of ty.now) (of_cell (ty_of cell.now)) result }
{
    match cell_note(alloc, cell) {
        Ok(note) => conclusion(alloc, at, ty, note),
        Err(_) => Err(TypeRefusal::Memory),
    }
}

/// What follows at a frame of cells, of which the first has this type.
pub(crate) fn frame(
    alloc: Global,
    at: Span,
    dims: &[u32],
    cell: &NormType,
) -> Result<Concluded, TypeRefusal>
    requires { IsArray (ty_of cell.now) }
    ensures { (Γ : Context) (e : Expr) (es : Exprs) (ns ms : List NodeNote) → Found Γ e (ty_of cell.now) ns →
        FoundCells Γ (ty_of cell.now) es ms → Concludes Γ (Frame at dims.now (more_exprs e es)) (ns ++ ms) result }
{
    let tree = cell.ty();
    match frame_type(alloc, dims, tree) {
        Ok(ty) => conclusion_of_cells(alloc, at, &ty, tree),
        Err(_) => Err(TypeRefusal::Memory),
    }
}

/// What follows at a frame without cells, whose written type has this normal form.
pub(crate) fn empty_frame(
    alloc: Global,
    at: Span,
    dims: &[u32],
    cell: &NormType,
) -> Result<Concluded, TypeRefusal>
    requires { IsArray (ty_of cell.now) }
    ensures { (Γ : Context) (t : Plain) → (written Γ t).met → IsSound Γ.types Γ.sorts t → ty_of cell.now ≡ norm_ty t →
        Concludes Γ (NoCells at dims.now t) [] result }
{
    let tree = cell.ty();
    match frame_type(alloc, dims, tree) {
        Ok(ty) => conclusion(alloc, at, &ty, no_note(alloc)),
        Err(_) => Err(TypeRefusal::Memory),
    }
}

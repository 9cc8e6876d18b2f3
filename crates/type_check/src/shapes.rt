//! Shapes and array types as trees.
ghost use Rattle.std.specs.Prelude.{◌≡◌, IfOk};
ghost use Rattle.core_syntax.specs.Refine.{index_of, ty_of};
ghost use Rattle.core_syntax.specs.Syntax.{Arr, no_span};
ghost use Rattle.core_syntax.specs.Made.{IsArray};
ghost use Rattle.core_syntax.specs.Value.{then_shape as followed};
ghost use Rattle.core_syntax.specs.Prims.{array_of};
ghost use Rattle.core_syntax.specs.Typing.{numbers as shape_of};
ghost use Rattle.type_check.specs.Forms.{IsFramed};

use core_syntax::{Index, IndexForm, Memory, Span, Ty, TyForm};
use sqlite_items::Items;
use std::alloc::Global;

/// The place of what stands nowhere in the source.
pub(crate) fn nowhere() -> Span
    ensures { result ≡ no_span }
{
    Span {
        from: 0,
        to: 0,
        line: 1,
        col: 1,
    }
}

/// The shape of these dims.
pub(crate) fn numbers(alloc: Global, dims: &[u32]) -> Result<Index, Memory>
    ensures { IfOk result (λ i. index_of i ≡ shape_of dims.now) }
{
    let mut parts = Vec::new(alloc);
    for dim in dims {
        let part = Index {
            at: nowhere(),
            form: IndexForm::Num(*dim as u64),
        };
        parts.push(part).map_err(|_| Memory)?;
    }
    Ok(Index {
        at: nowhere(),
        form: IndexForm::Dims(Items::from_vec(parts)),
    })
}

/// The shape of a frame followed by that of its cells.
pub(crate) fn then_shape(alloc: Global, frame: Index, cell: Index) -> Result<Index, Memory>
    ensures { IfOk result (λ i. index_of i ≡ followed (index_of frame) (index_of cell)) }
{
    let mut parts = Vec::new(alloc);
    parts.push(frame).map_err(|_| Memory)?;
    parts.push(cell).map_err(|_| Memory)?;
    Ok(Index {
        at: nowhere(),
        form: IndexForm::Join(Items::from_vec(parts)),
    })
}

/// The atom type and the shape of an array type.
pub(crate) fn array_parts(t: &Ty) -> (&Ty, &Index)
    requires { IsArray (ty_of t.now) }
    ensures { ty_of t.now ≡ Arr t.now.at (ty_of result.0.now) (index_of result.1.now) }
{
    match &t.form {
        TyForm::Arr(element, shape) => (element.get(), shape),
        _ => unreachable!(),
    }
}

/// The type of arrays of these atoms, of this shape.
pub(crate) fn array(alloc: Global, element: &Ty, shape: Index) -> Result<Ty, Memory>
    ensures { IfOk result (λ t. ty_of t ≡ array_of (ty_of element.now) (index_of shape)) }
{
    let element = element.copy(alloc)?;
    Ty::array(alloc, nowhere(), element, shape)
}

/// The type of arrays of such cells in a frame: the cells' atoms, of the frame's shape followed by
/// the cells'.
pub(crate) fn framed(alloc: Global, frame: Index, cell: &Ty) -> Result<Ty, Memory>
    requires { IsArray (ty_of cell.now) }
    ensures { IfOk result (λ t. IsFramed (index_of frame) (ty_of cell.now) (ty_of t)) }
{
    let (element, shape) = array_parts(cell);
    let whole = then_shape(alloc, frame, shape.copy(alloc)?)?;
    array(alloc, element, whole)
}

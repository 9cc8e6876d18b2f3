// Normal types under more binders.
ghost use Rattle.std.specs.Prelude.{◌≡◌, ◌-◌, None, IfOk};
ghost use Rattle.core_syntax.specs.Refine.{ty_of};
ghost use Rattle.core_syntax.specs.NormTypes.{measure_ty};
ghost use Rattle.type_equal.specs.Moved.{IsFreeBelow, free_limit};
ghost use Rattle.type_check.specs.State.{further};

use core_syntax::Memory;
use std::alloc::Global;
use type_equal::NormType;

/// A normal type under so many type binders and index binders more.
pub(crate) fn moved(
    alloc: Global,
    ty: &NormType,
    types: u32,
    indices: u32,
) -> Result<NormType, Memory>
    requires { IsFreeBelow (free_limit - types) (free_limit - indices) (ty_of ty.now) }
    ensures moved { IfOk result (λ n. ty_of n ≡ further indices types (ty_of ty.now)) }
    ensures measured { IfOk result (λ n. measure_ty (ty_of n) ≡ None) }
{
    match type_equal::moved(alloc, ty, types, indices) {
        Ok(moved) => {
            let _tree = moved.ty();
            Ok(moved)
        }
        Err(memory) => Err(memory),
    }
}

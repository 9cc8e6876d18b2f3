// The types of atoms. They are in normal form, and not measured: the array around an atom is.
ghost use Rattle.std.specs.Prelude.{◌≡◌, None, IfOk, IfErr};
ghost use Rattle.core_syntax.specs.NormTypes.{norm_ty, measure_ty};
ghost use Rattle.core_syntax.specs.Prims.{prim_type};
ghost use Rattle.core_syntax.specs.Refine.{ty_of};
ghost use Rattle.core_syntax.specs.Syntax.{BaseTy, Forall, Pi, no_span};

use crate::refusal::TypeRefusal;
use crate::shapes::nowhere;
use core_syntax::{Base, Primitive, Sort, Ty, TyForm};
use prim_table::type_of;
use sqlite_items::Items;
use std::alloc::Global;
use type_equal::{NormType, normal};

/// A base type.
pub(crate) fn base_type(base: Base) -> Ty
    ensures { ty_of result ≡ BaseTy no_span base }
{
    Ty {
        at: nowhere(),
        form: TyForm::Base(base),
    }
}

/// The type of a function of so many types.
pub(crate) fn forall_type(alloc: Global, count: u32, answer: NormType) -> Result<Ty, TypeRefusal>
    ensures ty { IfOk result (λ t. ty_of t ≡ Forall no_span count (ty_of answer)) }
    ensures normal { IfOk result (λ t. norm_ty (ty_of t) ≡ ty_of t) }
    ensures memory { IfErr result (λ e. e ≡ TypeRefusal.Memory) }
{
    let answer = answer.into_ty();
    match Ty::forall(alloc, nowhere(), count, answer) {
        Ok(ty) => Ok(ty),
        Err(_) => Err(TypeRefusal::Memory),
    }
}

/// The type of a function of indices of these sorts.
pub(crate) fn pi_type(alloc: Global, sorts: &[Sort], answer: NormType) -> Result<Ty, TypeRefusal>
    ensures ty { IfOk result (λ t. ty_of t ≡ Pi no_span sorts.now (ty_of answer)) }
    ensures normal { IfOk result (λ t. norm_ty (ty_of t) ≡ ty_of t) }
    ensures memory { IfErr result (λ e. e ≡ TypeRefusal.Memory) }
{
    let Ok(bound) = Items::from_slice(alloc, sorts) else {
        return Err(TypeRefusal::Memory);
    };
    let answer = answer.into_ty();
    match Ty::pi(alloc, nowhere(), bound, answer) {
        Ok(ty) => Ok(ty),
        Err(_) => Err(TypeRefusal::Memory),
    }
}

/// The normal form of a type that is within the limits.
fn normal_form(alloc: Global, ty: &Ty) -> Result<Ty, TypeRefusal>
    requires { measure_ty (ty_of ty.now) ≡ None }
    ensures ty { IfOk result (λ t. ty_of t ≡ norm_ty (ty_of ty.now)) }
    ensures normal { IfOk result (λ t. norm_ty (ty_of t) ≡ ty_of t) }
    ensures memory { IfErr result (λ e. e ≡ TypeRefusal.Memory) }
{
    match normal(alloc, ty) {
        Ok(form) => Ok(form.into_ty()),
        Err(_) => Err(TypeRefusal::Memory),
    }
}

/// The type of a primitive (docs/LANGUAGE.md, "Primitives").
pub(crate) fn primitive_type(alloc: Global, p: Primitive) -> Result<Ty, TypeRefusal>
    ensures ty { IfOk result (λ t. ty_of t ≡ norm_ty (prim_type p)) }
    ensures normal { IfOk result (λ t. norm_ty (ty_of t) ≡ ty_of t) }
    ensures memory { IfErr result (λ e. e ≡ TypeRefusal.Memory) }
{
    match type_of(alloc, p) {
        Ok(ty) => normal_form(alloc, &ty),
        Err(_) => Err(TypeRefusal::Memory),
    }
}

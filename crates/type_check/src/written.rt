ghost use Rattle.std.specs.Prelude.{◌≡◌, ◌⊎◌, ℕ, Option, Some, length, not};
ghost use Rattle.core_syntax.specs.Kinds.{is_atom_kind};
ghost use Rattle.core_syntax.specs.Lists.{each, Each};
ghost use Rattle.core_syntax.specs.Syntax.{ty_items};
ghost use Rattle.core_syntax.specs.Refine.{ty_of, tys_of};
ghost use Rattle.core_syntax.specs.NormTypes.{norm_ty, measure_ty};
ghost use Rattle.core_syntax.specs.Typing.{Context};
ghost use Rattle.core_syntax.specs.Blame.{measure, written as writes, written_atom as writes_atom, all_written, all_written_atoms};
ghost use Rattle.type_equal.specs.Refusal.{number_of};
ghost use Rattle.type_check.specs.Found.{Refuses};
ghost use Rattle.type_check.specs.Written.{IsWritten, HasScope, Tells, IsNormalOf, IsNormalAtomOf, AreNormalOf, AreNormalAtomsOf};

use crate::refusal::TypeRefusal;
use core_syntax::{Sort, Span, Ty, TyForm};
use kind_check::{KindRefusal, kind_within};
use std::alloc::Global;
use type_equal::{NormRefusal, NormType, normal};

/// The refusal at a place of a type that has no normal form here.
pub(crate) fn measured(refusal: NormRefusal, at: Span) -> TypeRefusal
    ensures { (o : Option ℕ) → (refusal ≡ NormRefusal.Memory) ⊎ (number_of (Some refusal) ≡ o) → Refuses (measure o at) result }
{
    match refusal {
        NormRefusal::TooLarge => TypeRefusal::Refused {
            number: 13,
            span: at,
        },
        NormRefusal::TooBig => TypeRefusal::Refused {
            number: 16,
            span: at,
        },
        NormRefusal::Memory => TypeRefusal::Memory,
    }
}

/// The normal type of a type that is well formed.
pub(crate) fn normal_at(alloc: Global, t: &Ty) -> Result<NormType, TypeRefusal>
    ensures { Tells (measure (measure_ty (ty_of t.now)) t.now.at) (λ n. ty_of n ≡ norm_ty (ty_of t.now)) result }
{
    match normal(alloc, t) {
        Ok(ty) => Ok(ty),
        Err(refusal) => Err(measured(refusal, t.at)),
    }
}

/// The normal type of a written type with `types` type variables and index variables of the sorts
/// `sorts` in scope, the outermost first (docs/LANGUAGE.md, "Types").
///
/// # Errors
///
/// `Refused` exactly where the type isn't well formed, with the first place that is ill sorted (14)
/// or ill kinded (15), or else is too large to be held (13, 16). `Memory` where there was no memory.
pub(crate) fn written(
    alloc: Global,
    t: &Ty,
    types: u32,
    sorts: &mut Vec<Sort>,
) -> Result<NormType, TypeRefusal>
    requires { IsWritten types (length sorts.old.items) (ty_of t.now) }
    ensures written { (Γ : Context) → HasScope types sorts.old.items Γ → Tells (writes Γ (ty_of t.now)) (IsNormalOf Γ (ty_of t.now)) result }
    ensures kept { sorts.new.items ≡ sorts.old.items }
{
    match kind_within(t, types, sorts) {
        Err(KindRefusal::Refused { number, span }) => Err(TypeRefusal::Refused { number, span }),
        Err(KindRefusal::Memory) => Err(TypeRefusal::Memory),
        Ok(_) => normal_at(alloc, t),
    }
}

/// Whether a type is an array type.
fn is_array(t: &Ty) -> bool
    ensures { is_atom_kind (ty_of t.now) ≡ not result }
{
    match &t.form {
        TyForm::Base(_) => false,
        TyForm::Var(_) => false,
        TyForm::Fun(_, _) => false,
        TyForm::Forall(_, _) => false,
        TyForm::Pi(_, _) => false,
        TyForm::Sigma(_, _) => false,
        TyForm::Arr(_, _) => true,
    }
}

/// The same in an atom type's place.
///
/// # Errors
///
/// Those of `written`; first, an array type is refused (15) at its place.
pub(crate) fn written_atom(
    alloc: Global,
    t: &Ty,
    types: u32,
    sorts: &mut Vec<Sort>,
) -> Result<NormType, TypeRefusal>
    requires { IsWritten types (length sorts.old.items) (ty_of t.now) }
    ensures written { (Γ : Context) → HasScope types sorts.old.items Γ → Tells (writes_atom Γ (ty_of t.now)) (IsNormalAtomOf Γ (ty_of t.now)) result }
    ensures kept { sorts.new.items ≡ sorts.old.items }
{
    if is_array(t) {
        return Err(TypeRefusal::Refused {
            number: 15,
            span: t.at,
        });
    }
    written(alloc, t, types, sorts)
}

/// The normal types of written types in atom types' places.
///
/// # Errors
///
/// Those of `written_atom` at the first that isn't as it should be.
pub(crate) fn written_atoms(
    alloc: Global,
    given: &[Ty],
    types: u32,
    sorts: &mut Vec<Sort>,
) -> Result<Vec<NormType>, TypeRefusal>
    requires { Each (IsWritten types (length sorts.old.items)) (each ty_of given.now) }
    ensures written { (Γ : Context) → HasScope types sorts.old.items Γ → Tells (all_written_atoms Γ (each ty_of given.now)) (λ ns. AreNormalAtomsOf Γ (each ty_of given.now) ns.items) result }
    ensures kept { sorts.new.items ≡ sorts.old.items }
{
    let mut all = Vec::new(alloc);
    for t in given {
        match written_atom(alloc, t, types, sorts) {
            Ok(ty) => all.push(ty).map_err(|_| TypeRefusal::Memory)?,
            Err(refusal) => return Err(refusal),
        }
    }
    Ok(all)
}

/// The normal types of written types.
///
/// # Errors
///
/// Those of `written` at the first that isn't as it should be.
pub(crate) fn written_types(
    alloc: Global,
    given: &[Ty],
    types: u32,
    sorts: &mut Vec<Sort>,
) -> Result<Vec<NormType>, TypeRefusal>
    requires { Each (IsWritten types (length sorts.old.items)) (each ty_of given.now) }
    ensures written { (Γ : Context) → HasScope types sorts.old.items Γ → Tells (all_written Γ (tys_of given.now)) (λ ns. AreNormalOf Γ (ty_items (tys_of given.now)) ns.items) result }
    ensures kept { sorts.new.items ≡ sorts.old.items }
{
    let mut all = Vec::new(alloc);
    for t in given {
        match written(alloc, t, types, sorts) {
            Ok(ty) => all.push(ty).map_err(|_| TypeRefusal::Memory)?,
            Err(refusal) => return Err(refusal),
        }
    }
    Ok(all)
}

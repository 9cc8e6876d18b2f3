ghost use Rattle.std.specs.Prelude.{◌≡◌, ◌⊎◌, ◌++◌, List, [], Some, length, IfOk, IfErr, OnOk};
ghost use Rattle.core_syntax.specs.Lists.{onto};
ghost use Rattle.core_syntax.specs.Refine.{index_of, ty_of, tys_of};
ghost use Rattle.core_syntax.specs.Made.{TyInScope};
ghost use Rattle.core_syntax.specs.Sorts.{inner_blame};
ghost use Rattle.core_syntax.specs.Kinds.{IsWellFormed, is_atom_kind, kind_blame, kinds_blame};
ghost use Rattle.kind_check.specs.Faults.{fault_of, kind_in, own_fault, refusal_at};

use crate::sorts::{first_inside, has_sort, own_sort};
use core_syntax::{Index, Kind, Memory, Sort, Span, Ty, TyForm};
use std::alloc::Global;
use thiserror::Error;

/// Why a type has no kind.
#[derive(Clone, Copy, Debug, PartialEq, Eq, Error)]
pub enum KindRefusal {
    /// The first place that is ill sorted (14) or ill kinded (15).
    #[error("refused {number}")]
    Refused { number: u8, span: Span },
    #[error("no memory")]
    Memory,
}

// The number and the place of the first fault in a type.
#[derive(Clone, Copy, Debug, PartialEq, Eq)]
struct Fault {
    number: u8,
    span: Span,
}

/// Whether a type is of kind Atom.
fn is_atom(t: &Ty) -> bool
    ensures { result ≡ is_atom_kind (ty_of t.now) }
{
    match &t.form {
        TyForm::Base(_) => true,
        TyForm::Var(_) => true,
        TyForm::Fun(_, _) => true,
        TyForm::Forall(_, _) => true,
        TyForm::Pi(_, _) => true,
        TyForm::Sigma(_, _) => true,
        TyForm::Arr(_, _) => false,
    }
}

/// The kind that a type has by its form.
fn form_kind(t: &Ty) -> Kind
    ensures { result ≡ kind_in (is_atom_kind (ty_of t.now)) }
{
    if is_atom(t) { Kind::Atom } else { Kind::Array }
}

/// The first of an array type's own tests that fails: of the kind of its atoms' type, and then of
/// the sort of its shape.
fn own_test(elem: &Ty, shape: &Index, scope: &[Sort], around: &[Sort]) -> Option<Fault>
    ensures { fault_of result ≡ own_fault (onto scope.now around.now) (ty_of elem.now) (index_of shape.now) }
{
    if !is_atom(elem) {
        return Some(Fault {
            number: 15,
            span: elem.at,
        });
    }
    if !has_sort(own_sort(shape, scope, around), Sort::Shape) {
        return Some(Fault {
            number: 14,
            span: shape.at,
        });
    }
    None
}

/// The first ill-sorted place inside a shape.
fn in_shape(shape: &Index, scope: &[Sort], around: &[Sort]) -> Option<Fault>
    ensures { fault_of result ≡ inner_blame (onto scope.now around.now) (index_of shape.now) }
{
    match first_inside(shape, scope, around) {
        Some(span) => Some(Fault { number: 14, span }),
        None => None,
    }
}

/// The first ill-sorted or ill-kinded place in a type.
#[cycle(kinds)]
fn blame(t: &Ty, scope: &mut Vec<Sort>, around: &[Sort]) -> Result<Option<Fault>, Memory>
    ensures found { IfOk result (λ r. fault_of r ≡ kind_blame (onto scope.old.items around.now) (ty_of t.now)) }
    ensures kept { scope.new.items ≡ scope.old.items }
{
    match &t.form {
        TyForm::Base(_) => Ok(None),
        TyForm::Var(_) => Ok(None),
        TyForm::Fun(inputs, output) => match blame_all(inputs.as_slice(), scope, around)? {
            Some(fault) => Ok(Some(fault)),
            None => blame(output.get(), scope, around),
        },
        TyForm::Forall(_, body) => blame(body.get(), scope, around),
        TyForm::Pi(bound, body) => under(bound.as_slice(), body.get(), scope, around),
        TyForm::Sigma(bound, body) => under(bound.as_slice(), body.get(), scope, around),
        TyForm::Arr(elem, shape) => match own_test(elem.get(), shape, scope.as_slice(), around) {
            Some(own) => Ok(Some(own)),
            None => match blame(elem.get(), scope, around)? {
                Some(fault) => Ok(Some(fault)),
                None => Ok(in_shape(shape, scope.as_slice(), around)),
            },
        },
    }
}

/// The first ill-sorted or ill-kinded place in a type under binders.
#[cycle(kinds)]
fn under(
    bound: &[Sort],
    body: &Ty,
    scope: &mut Vec<Sort>,
    around: &[Sort],
) -> Result<Option<Fault>, Memory>
    ensures found { IfOk result (λ r. fault_of r ≡ kind_blame (onto bound.now (onto scope.old.items around.now)) (ty_of body.now)) }
    ensures kept { scope.new.items ≡ scope.old.items }
{
    let outside = scope.len();
    if scope.extend_from_slice(bound).is_err() {
        return Err(Memory);
    }
    let found = blame(body, scope, around);
    scope.truncate(outside);
    found
}

/// The first ill-sorted or ill-kinded place in these types.
#[cycle(kinds)]
#[tactic(auto, using(crate::proofs::KindLemmas::types_behind))]
fn blame_all(types: &[Ty], scope: &mut Vec<Sort>, around: &[Sort]) -> Result<Option<Fault>, Memory>
    ensures found { IfOk result (λ r. fault_of r ≡ kinds_blame (onto scope.old.items around.now) (tys_of types.now)) }
    ensures kept { scope.new.items ≡ scope.old.items }
{
    for ty in types {
        if let Some(fault) = blame(ty, scope, around)? {
            return Ok(Some(fault));
        }
    }
    Ok(None)
}

/// The kind of a type in a context of two parts, or the first place in it that is ill sorted or ill
/// kinded.
fn kind_in_context(
    t: &Ty,
    types: u32,
    scope: &mut Vec<Sort>,
    around: &[Sort],
) -> Result<Kind, KindRefusal>
    requires { TyInScope types (length (onto scope.old.items around.now)) (ty_of t.now) }
    ensures kind { IfOk result (λ k. k ≡ kind_in (is_atom_kind (ty_of t.now))) }
    ensures formed { OnOk result (IsWellFormed types (onto scope.old.items around.now) (ty_of t.now)) }
    ensures refused { IfErr result (λ e. (e ≡ KindRefusal.Memory) ⊎ (refusal_at e ≡ kind_blame (onto scope.old.items around.now) (ty_of t.now))) }
    ensures ill { IfErr result (λ e. (e ≡ KindRefusal.Memory) ⊎ (¬ IsWellFormed types (onto scope.old.items around.now) (ty_of t.now))) }
    ensures kept { scope.new.items ≡ scope.old.items }
{
    match blame(t, scope, around) {
        Err(_) => Err(KindRefusal::Memory),
        Ok(Some(fault)) => Err(KindRefusal::Refused {
            number: fault.number,
            span: fault.span,
        }),
        Ok(None) => Ok(form_kind(t)),
    }
}

/// The kind of a type with `types` type variables around it and index variables of the sorts
/// `sorts`, the innermost binder first (docs/LANGUAGE.md, "Kinds").
///
/// # Errors
///
/// `Refused` exactly where the type isn't well formed, with the first place that is ill sorted (14)
/// or ill kinded (15): a node's own tests come before its parts, and its parts from left to right.
/// `Memory` where there was no memory.
pub fn kind_of(alloc: Global, t: &Ty, types: u32, sorts: &[Sort]) -> Result<Kind, KindRefusal>
    requires { TyInScope types (length sorts.now) (ty_of t.now) }
    ensures kind { IfOk result (λ k. k ≡ kind_in (is_atom_kind (ty_of t.now))) }
    ensures formed { OnOk result (IsWellFormed types sorts.now (ty_of t.now)) }
    ensures refused { IfErr result (λ e. (e ≡ KindRefusal.Memory) ⊎ (refusal_at e ≡ kind_blame sorts.now (ty_of t.now))) }
    ensures ill { IfErr result (λ e. (e ≡ KindRefusal.Memory) ⊎ (¬ IsWellFormed types sorts.now (ty_of t.now))) }
{
    let mut scope = Vec::new(alloc);
    kind_in_context(t, types, &mut scope, sorts)
}

/// `kind_of` for a caller whose list of sorts grows at its end: the outermost binder stands first
/// in `scope`, which is as before on return.
///
/// # Errors
///
/// Those of `kind_of`.
pub fn kind_within(t: &Ty, types: u32, scope: &mut Vec<Sort>) -> Result<Kind, KindRefusal>
    requires { TyInScope types (length scope.old.items) (ty_of t.now) }
    ensures kind { IfOk result (λ k. k ≡ kind_in (is_atom_kind (ty_of t.now))) }
    ensures formed { OnOk result (IsWellFormed types (onto scope.old.items []) (ty_of t.now)) }
    ensures refused { IfErr result (λ e. (e ≡ KindRefusal.Memory) ⊎ (refusal_at e ≡ kind_blame (onto scope.old.items []) (ty_of t.now))) }
    ensures ill { IfErr result (λ e. (e ≡ KindRefusal.Memory) ⊎ (¬ IsWellFormed types (onto scope.old.items []) (ty_of t.now))) }
    ensures kept { scope.new.items ≡ scope.old.items }
{
    kind_in_context(t, types, scope, &[])
}

ghost use Rattle.std.specs.Prelude.{◌≡◌, List, [], None, false, length, IfOk, IfErr};
ghost use Rattle.core_syntax.specs.Syntax.{Expr, TypeApp, IndexApp, expr_at};
ghost use Rattle.core_syntax.specs.Lists.{onto, each, Each};
ghost use Rattle.core_syntax.specs.Made.{IsArray, IndexMade};
ghost use Rattle.core_syntax.specs.Norm.{norm_word, has_large};
ghost use Rattle.core_syntax.specs.NormTypes.{norm_ty, measure_ty};
ghost use Rattle.core_syntax.specs.Notes.{NodeNote};
ghost use Rattle.core_syntax.specs.Refine.{index_of, ty_of};
ghost use Rattle.core_syntax.specs.Subst.{with_types, with_indices};
ghost use Rattle.core_syntax.specs.Typing.{Context};
ghost use Rattle.type_equal.specs.Put.{IsTreeSmall, IsIndexSmall, index_tree};
ghost use Rattle.type_check.specs.Contexts.{IsSound};
ghost use Rattle.type_check.specs.Found.{Found, Concludes};
ghost use Rattle.type_check.specs.Framed.{Frames};
ghost use Rattle.type_check.specs.Written.{IsWritten, HasScope, HasRoom};

use crate::concluded::Concluded;
use crate::forms::{is_product, is_universal};
use crate::framed::framed;
use crate::given::given_indices;
use crate::refusal::TypeRefusal;
use crate::written::{measured, written_atoms};
use core_syntax::{Index, NormIndex, Sort, Span, Ty, TyForm};
use sqlite_items::Items;
use std::alloc::Global;
use type_equal::{NormType, instantiate_indices, instantiate_types, normal};

/// A part of a normal type as a normal type of its own.
pub(crate) fn part(alloc: Global, t: &Ty) -> Result<NormType, TypeRefusal>
    requires { measure_ty (ty_of t.now) ≡ None }
    ensures same { IfOk result (λ n. ty_of n ≡ norm_ty (ty_of t.now)) }
    ensures memory { IfErr result (λ e. e ≡ TypeRefusal.Memory) }
{
    match normal(alloc, t) {
        Ok(ty) => Ok(ty),
        Err(_) => Err(TypeRefusal::Memory),
    }
}

/// A frame before the body of a universal type with these types in its variables' places.
fn with_given_types(
    alloc: Global,
    at: Span,
    body: &NormType,
    frame: &Index,
    given: &[NormType],
) -> Result<Concluded, TypeRefusal>
    requires body { IsTreeSmall body.now }
    requires given { Each IsTreeSmall given.now }
    requires array { IsArray (ty_of body.now) }
    requires frame { has_large (norm_word (index_of frame.now)) ≡ false }
    ensures { Frames at (index_of frame.now) (norm_ty (with_types (each ty_of given.now) (ty_of body.now))) result }
{
    match instantiate_types(alloc, body, given) {
        Ok(cell) => framed(alloc, at, frame, cell, Items::from_vec(Vec::new(alloc))),
        Err(refusal) => Err(measured(refusal, at)),
    }
}

/// The same of the body of a dependent product and these indices.
fn with_given_indices(
    alloc: Global,
    at: Span,
    body: &NormType,
    frame: &Index,
    given: &[NormIndex],
) -> Result<Concluded, TypeRefusal>
    requires body { IsTreeSmall body.now }
    requires given { Each IsIndexSmall given.now }
    requires array { IsArray (ty_of body.now) }
    requires frame { has_large (norm_word (index_of frame.now)) ≡ false }
    ensures { Frames at (index_of frame.now) (norm_ty (with_indices (each index_tree given.now) (ty_of body.now))) result }
{
    match instantiate_indices(alloc, body, given) {
        Ok(cell) => framed(alloc, at, frame, cell, Items::from_vec(Vec::new(alloc))),
        Err(refusal) => Err(measured(refusal, at)),
    }
}

/// An application to types by the parts of its callee's type.
fn applied_types(
    alloc: Global,
    at: Span,
    body: &Ty,
    frame: &Index,
    given: &[NormType],
) -> Result<Concluded, TypeRefusal>
    requires normal { norm_ty (ty_of body.now) ≡ ty_of body.now }
    requires fits { measure_ty (ty_of body.now) ≡ None }
    requires body { IsTreeSmall body.now }
    requires given { Each IsTreeSmall given.now }
    requires array { IsArray (ty_of body.now) }
    requires frame { has_large (norm_word (index_of frame.now)) ≡ false }
    ensures { Frames at (index_of frame.now) (norm_ty (with_types (each ty_of given.now) (ty_of body.now))) result }
{
    match part(alloc, body) {
        Ok(body) => with_given_types(alloc, at, &body, frame, given),
        Err(refusal) => Err(refusal),
    }
}

/// An application to indices by the parts of its callee's type.
fn applied_indices(
    alloc: Global,
    at: Span,
    body: &Ty,
    frame: &Index,
    given: &[NormIndex],
) -> Result<Concluded, TypeRefusal>
    requires normal { norm_ty (ty_of body.now) ≡ ty_of body.now }
    requires fits { measure_ty (ty_of body.now) ≡ None }
    requires body { IsTreeSmall body.now }
    requires given { Each IsIndexSmall given.now }
    requires array { IsArray (ty_of body.now) }
    requires frame { has_large (norm_word (index_of frame.now)) ≡ false }
    ensures { Frames at (index_of frame.now) (norm_ty (with_indices (each index_tree given.now) (ty_of body.now))) result }
{
    match part(alloc, body) {
        Ok(body) => with_given_indices(alloc, at, &body, frame, given),
        Err(refusal) => Err(refusal),
    }
}

/// What the application of a callee to types comes to (docs/LANGUAGE.md, "Typing").
///
/// # Errors
///
/// `Refused` exactly where a premise isn't met, the first of: the callee has a universal type (23,
/// at the callee), it takes so many types (20), each is of kind Atom as it is written, and the type
/// of the result isn't too large (13, 16). `Memory` where there was no memory.
pub(crate) fn apply_types(
    alloc: Global,
    at: Span,
    callee_at: Span,
    callee: &NormType,
    given: &[Ty],
    types: u32,
    sorts: &mut Vec<Sort>,
) -> Result<Concluded, TypeRefusal>
    requires sound { IsSound types (onto sorts.old.items []) (ty_of callee.now) }
    requires room { HasRoom types sorts.old.items }
    requires written { Each (IsWritten types (length sorts.old.items)) (each ty_of given.now) }
    ensures concludes { (Γ : Context) (e : Expr) (ns : List NodeNote) → HasScope types sorts.old.items Γ → expr_at e ≡ callee_at → Found Γ e (ty_of callee.now) ns →
        Concludes Γ (TypeApp at e (each ty_of given.now)) ns result }
    ensures kept { sorts.new.items ≡ sorts.old.items }
{
    let TyForm::Arr(elem, frame) = &callee.ty().form else {
        return Err(TypeRefusal::Refused {
            number: 23,
            span: callee_at,
        });
    };
    let elem = elem.get();
    if !is_universal(elem) {
        return Err(TypeRefusal::Refused {
            number: 23,
            span: callee_at,
        });
    }
    let TyForm::Forall(count, body) = &elem.form else {
        unreachable!();
    };
    if given.len() != *count as usize {
        return Err(TypeRefusal::Refused {
            number: 20,
            span: at,
        });
    }
    match written_atoms(alloc, given, types, sorts) {
        Ok(given) => applied_types(alloc, at, body.get(), frame, given.as_slice()),
        Err(refusal) => Err(refusal),
    }
}

/// What the application of a callee to indices comes to (docs/LANGUAGE.md, "Typing").
///
/// # Errors
///
/// `Refused` exactly where a premise isn't met, the first of: the callee has a dependent product as
/// its type (24, at the callee), it takes so many indices (20), each has its variable's sort as it
/// is given, and the type of the result isn't too large (13, 16). `Memory` where there was no
/// memory.
pub(crate) fn apply_indices(
    alloc: Global,
    at: Span,
    callee_at: Span,
    callee: &NormType,
    given: &[Index],
    types: u32,
    sorts: &[Sort],
) -> Result<Concluded, TypeRefusal>
    requires sound { IsSound types (onto sorts.now []) (ty_of callee.now) }
    requires room { HasRoom types sorts.now }
    requires made { Each (IndexMade (length sorts.now)) (each index_of given.now) }
    ensures { (Γ : Context) (e : Expr) (ns : List NodeNote) → HasScope types sorts.now Γ → expr_at e ≡ callee_at → Found Γ e (ty_of callee.now) ns →
        Concludes Γ (IndexApp at e (each index_of given.now)) ns result }
{
    let TyForm::Arr(elem, frame) = &callee.ty().form else {
        return Err(TypeRefusal::Refused {
            number: 24,
            span: callee_at,
        });
    };
    let elem = elem.get();
    if !is_product(elem) {
        return Err(TypeRefusal::Refused {
            number: 24,
            span: callee_at,
        });
    }
    let TyForm::Pi(bound, body) = &elem.form else {
        unreachable!();
    };
    if given.len() != bound.len() {
        return Err(TypeRefusal::Refused {
            number: 20,
            span: at,
        });
    }
    match given_indices(alloc, given, bound.as_slice(), sorts) {
        Ok(given) => applied_indices(alloc, at, body.get(), frame, given.as_slice()),
        Err(refusal) => Err(refusal),
    }
}

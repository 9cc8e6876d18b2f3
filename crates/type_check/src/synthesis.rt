//! The type of an expression by itself.
ghost use Rattle.std.specs.Prelude.{◌≡◌, ◌<◌, ◌^◌, List, [], ◌∷◌, ◌++◌, length, IfOk, IfErr, OnOk};
ghost use Rattle.core_syntax.specs.declared.index.Sort.{Sort as IndexSort};
ghost use Rattle.core_syntax.specs.declared.ty.Ty.{Ty as Tree};
ghost use Rattle.core_syntax.specs.Blame.{expr_premises};
ghost use Rattle.core_syntax.specs.Lists.{onto, each, EachTwo};
ghost use Rattle.core_syntax.specs.Made.{ExprMade};
ghost use Rattle.core_syntax.specs.NormTypes.{norm_ty};
ghost use Rattle.core_syntax.specs.Refine.{ty_of, expr_of};
ghost use Rattle.core_syntax.specs.Typing.{Has};
ghost use Rattle.type_check.specs.declared.state.Bound.{Bound};
ghost use Rattle.type_check.specs.Contexts.{scope_of};
ghost use Rattle.type_check.specs.Found.{Refuses};
ghost use Rattle.type_check.specs.Synth.{context_with, IsWellMadeContext, IsNormal, IsKnown, IsWithin};

use crate::context::Context;
use crate::expressions::expression;
use crate::refusal::TypeRefusal;
use crate::state::Checker;
use core_syntax::{Expr, Sort, Ty};
use std::alloc::Global;
use type_equal::{NormType, normal};

/// The normal type of a type that isn't too large.
fn known_type(alloc: Global, ty: &Ty) -> Result<NormType, TypeRefusal>
    ensures normal { IfOk result (λ n. IsNormal (ty_of ty.now) n) }
    ensures memory { IfErr result (λ r. r ≡ TypeRefusal.Memory) }
{
    match normal(alloc, ty) {
        Ok(ty) => Ok(ty),
        Err(_) => Err(TypeRefusal::Memory),
    }
}

/// Adds a definition of a type.
fn define_known(checker: &mut Checker, ty: &Ty) -> Result<(), TypeRefusal>
    ensures defined { OnOk result ((n : Tree) × (checker.new ≡ record checker.old { defs = checker.old.defs ++ n ∷ [] }) × IsNormal (ty_of ty.now) n) }
    ensures memory { IfErr result (λ r. r ≡ TypeRefusal.Memory) }
{
    match known_type(checker.alloc(), ty) {
        Ok(known) => checker.define(known),
        Err(refusal) => Err(refusal),
    }
}

/// Adds definitions of types.
fn define_all(checker: &mut Checker, types: &[Ty]) -> Result<(), TypeRefusal>
    ensures defined { OnOk result ((ns : List Tree) × (checker.new ≡ record checker.old { defs = checker.old.defs ++ ns }) × EachTwo IsNormal (each ty_of types.now) ns) }
    ensures memory { IfErr result (λ r. r ≡ TypeRefusal.Memory) }
{
    for ty in types {
        define_known(checker, ty)?;
    }
    Ok(())
}

/// Enters index variables of these sorts, the innermost first.
fn enter_sorts(checker: &mut Checker, sorts: &[Sort]) -> Result<(), TypeRefusal>
    ensures entered { OnOk result ((ss : List IndexSort) × (checker.new ≡ record checker.old { sorts = checker.old.sorts ++ ss }) × (onto ss [] ≡ sorts.now)) }
    ensures memory { IfErr result (λ r. r ≡ TypeRefusal.Memory) }
{
    for k in (0..sorts.len()).rev() {
        checker.enter_sorts(&[sorts[k]])?;
    }
    Ok(())
}

/// Enters a term variable of a type.
fn enter_known(checker: &mut Checker, ty: &Ty) -> Result<(), TypeRefusal>
    requires { length checker.old.sorts < 2 ^ 31 }
    ensures entered { OnOk result ((b : Bound) × (checker.new ≡ record checker.old { terms = checker.old.terms ++ b ∷ [] })
        × IsKnown checker.old.types (length checker.old.sorts) (ty_of ty.now) b) }
    ensures memory { IfErr result (λ r. r ≡ TypeRefusal.Memory) }
{
    match known_type(checker.alloc(), ty) {
        Ok(known) => checker.enter_term(known),
        Err(refusal) => Err(refusal),
    }
}

/// Enters term variables of these types, the innermost first.
fn enter_all(checker: &mut Checker, types: &[Ty]) -> Result<(), TypeRefusal>
    requires { length checker.old.sorts < 2 ^ 31 }
    ensures entered { OnOk result ((bs : List Bound) × (checker.new ≡ record checker.old { terms = checker.old.terms ++ bs })
        × EachTwo (IsKnown checker.old.types (length checker.old.sorts)) (each ty_of types.now) (onto bs [])) }
    ensures memory { IfErr result (λ r. r ≡ TypeRefusal.Memory) }
{
    for k in (0..types.len()).rev() {
        enter_known(checker, &types[k])?;
    }
    Ok(())
}

/// Enters a context.
fn enter(checker: &mut Checker, cx: &Context) -> Result<(), TypeRefusal>
    requires empty { checker.old ≡ record { defs = []; types = 0; sorts = []; terms = []; notes = [] } }
    requires made { IsWellMadeContext (context_with cx.now) }
    ensures entered { OnOk result (IsWithin (context_with cx.now) checker.new) }
    ensures memory { IfErr result (λ r. r ≡ TypeRefusal.Memory) }
{
    define_all(checker, cx.defs.as_slice())?;
    checker.enter_types(cx.types);
    enter_sorts(checker, cx.sorts.as_slice())?;
    enter_all(checker, cx.terms.as_slice())
}

/// The type of an expression in a context, in normal form, where all premises of its typing are met
/// and all measures hold (docs/LANGUAGE.md, "Typing").
///
/// # Errors
///
/// `Refused` exactly where a premise isn't met, with the first of them in the order of
/// docs/LANGUAGE.md, "Typing": its number, one of 13 to 27, and its place. `Memory` where there was
/// no memory.
pub fn synth(alloc: Global, cx: &Context, e: &Expr) -> Result<NormType, TypeRefusal>
    requires context { IsWellMadeContext (context_with cx.now) }
    requires made { ExprMade (scope_of (context_with cx.now)) (expr_of e.now) }
    ensures met { OnOk result (expr_premises (context_with cx.now) (expr_of e.now)).met }
    ensures has { IfOk result (λ t. Has (context_with cx.now) (expr_of e.now) (ty_of t)) }
    ensures refused { IfErr result (λ r. Refuses (expr_premises (context_with cx.now) (expr_of e.now)) r) }
{
    let mut checker = Checker::new(alloc);
    match enter(&mut checker, cx) {
        Ok(()) => expression(&mut checker, e),
        Err(refusal) => Err(refusal),
    }
}

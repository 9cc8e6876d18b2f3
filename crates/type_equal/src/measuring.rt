ghost use Rattle.std.specs.Prelude.{◌≡◌, ◌-◌, ◌^◌, min};
ghost use Rattle.core_syntax.specs.Refine.{ty_of, tys_of};
ghost use Rattle.core_syntax.specs.NormTypes.{ty_has_large, tys_have_large, ty_size, tys_size, ty_depth, tys_depth, measure_ty};
ghost use Rattle.type_equal.specs.Refusal.{number_of};

use core_syntax::{LARGEST_DEPTH, LARGEST_SIZE, Ty, TyForm};
use shape_words::{has_large, total_size as letters_size};
use thiserror::Error;

/// Why a type has no normal form here.
#[derive(Clone, Copy, Debug, PartialEq, Eq, Error)]
pub enum NormRefusal {
    #[error("a number is too large")]
    TooLarge,
    #[error("the type is too big")]
    TooBig,
    #[error("no memory")]
    Memory,
}

/// Whether a number in the normal form of a type is too large.
#[cycle(large)]
fn is_large(t: &Ty) -> bool
    ensures { result ≡ ty_has_large (ty_of t.now) }
{
    match &t.form {
        TyForm::Base(_) => false,
        TyForm::Var(_) => false,
        TyForm::Fun(inputs, output) => any_large(inputs.as_slice()) || is_large(output.get()),
        TyForm::Forall(_, body) => is_large(body.get()),
        TyForm::Pi(_, body) => is_large(body.get()),
        TyForm::Sigma(_, body) => is_large(body.get()),
        TyForm::Arr(elem, shape) => is_large(elem.get()) || has_large(shape),
    }
}

#[cycle(large)]
#[tactic(auto, using(crate::proofs::MeasureLemmas::behind))]
fn any_large(types: &[Ty]) -> bool
    ensures { result ≡ tys_have_large (tys_of types.now) }
{
    for ty in types {
        if is_large(ty) {
            return true;
        }
    }
    false
}

/// The size of the normal form of a type, or `u64::MAX` where it is larger.
#[cycle(sizes)]
pub(crate) fn size(t: &Ty) -> u64
    ensures { result ≡ min (ty_size (ty_of t.now)) (2 ^ 64 - 1) }
{
    match &t.form {
        TyForm::Base(_) => 1,
        TyForm::Var(_) => 1,
        TyForm::Fun(inputs, output) => total_size(inputs.as_slice())
            .saturating_add(size(output.get()))
            .saturating_add(1),
        TyForm::Forall(n, body) => size(body.get()).saturating_add(*n as u64).saturating_add(1),
        TyForm::Pi(sorts, body) => size(body.get())
            .saturating_add(sorts.len() as u64)
            .saturating_add(1),
        TyForm::Sigma(sorts, body) => size(body.get())
            .saturating_add(sorts.len() as u64)
            .saturating_add(1),
        TyForm::Arr(elem, shape) => size(elem.get())
            .saturating_add(letters_size(shape))
            .saturating_add(2),
    }
}

#[cycle(sizes)]
fn total_size(types: &[Ty]) -> u64
    ensures { result ≡ min (tys_size (tys_of types.now)) (2 ^ 64 - 1) }
{
    let mut total: u64 = 0;
    for ty in types {
        total = total.saturating_add(size(ty));
    }
    total
}

/// The depth of a type, or `u64::MAX` where it is larger.
#[cycle(depths)]
fn depth(t: &Ty) -> u64
    ensures { result ≡ min (ty_depth (ty_of t.now)) (2 ^ 64 - 1) }
{
    match &t.form {
        TyForm::Base(_) => 1,
        TyForm::Var(_) => 1,
        TyForm::Fun(inputs, output) => greatest_depth(inputs.as_slice())
            .max(depth(output.get()))
            .saturating_add(1),
        TyForm::Forall(_, body) => depth(body.get()).saturating_add(1),
        TyForm::Pi(_, body) => depth(body.get()).saturating_add(1),
        TyForm::Sigma(_, body) => depth(body.get()).saturating_add(1),
        TyForm::Arr(elem, _) => depth(elem.get()).saturating_add(1),
    }
}

#[cycle(depths)]
fn greatest_depth(types: &[Ty]) -> u64
    ensures { result ≡ min (tys_depth (tys_of types.now)) (2 ^ 64 - 1) }
{
    let mut greatest: u64 = 0;
    for ty in types {
        greatest = greatest.max(depth(ty));
    }
    greatest
}

/// Why the normal form of a type isn't held here, by its measure.
pub fn measure(t: &Ty) -> Option<NormRefusal>
    ensures { number_of result ≡ measure_ty (ty_of t.now) }
{
    if is_large(t) {
        return Some(NormRefusal::TooLarge);
    }
    if size(t) > LARGEST_SIZE {
        return Some(NormRefusal::TooBig);
    }
    if depth(t) > LARGEST_DEPTH {
        return Some(NormRefusal::TooBig);
    }
    None
}

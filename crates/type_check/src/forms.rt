ghost use Rattle.std.specs.Prelude.{◌≡◌};
ghost use Rattle.core_syntax.specs.Refine.{ty_of};
ghost use Rattle.type_check.specs.Forms.{is_forall, is_pi, is_sigma};

use core_syntax::{Ty, TyForm};

/// Whether a type is a universal type.
pub(crate) fn is_universal(t: &Ty) -> bool
    ensures { result ≡ is_forall (ty_of t.now) }
{
    match &t.form {
        TyForm::Base(_) => false,
        TyForm::Var(_) => false,
        TyForm::Fun(_, _) => false,
        TyForm::Forall(_, _) => true,
        TyForm::Pi(_, _) => false,
        TyForm::Sigma(_, _) => false,
        TyForm::Arr(_, _) => false,
    }
}

/// Whether a type is a dependent product.
pub(crate) fn is_product(t: &Ty) -> bool
    ensures { result ≡ is_pi (ty_of t.now) }
{
    match &t.form {
        TyForm::Base(_) => false,
        TyForm::Var(_) => false,
        TyForm::Fun(_, _) => false,
        TyForm::Forall(_, _) => false,
        TyForm::Pi(_, _) => true,
        TyForm::Sigma(_, _) => false,
        TyForm::Arr(_, _) => false,
    }
}

/// Whether a type is a dependent sum.
pub(crate) fn is_sum(t: &Ty) -> bool
    ensures { result ≡ is_sigma (ty_of t.now) }
{
    match &t.form {
        TyForm::Base(_) => false,
        TyForm::Var(_) => false,
        TyForm::Fun(_, _) => false,
        TyForm::Forall(_, _) => false,
        TyForm::Pi(_, _) => false,
        TyForm::Sigma(_, _) => true,
        TyForm::Arr(_, _) => false,
    }
}

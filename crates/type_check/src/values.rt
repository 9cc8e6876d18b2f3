//! Syntactic values and printable types.
ghost use Rattle.std.specs.Prelude.{◌≡◌};
ghost use Rattle.core_syntax.specs.Refine.{ty_of, expr_of, atom_of, atoms_of};
ghost use Rattle.core_syntax.specs.Typing.{is_value_atom as is_plain, are_value_atoms, is_syntactic_value, is_printable as prints, is_printable_atom as prints_atom};

use core_syntax::{Atom, AtomForm, Expr, ExprForm, Ty, TyForm};

/// Whether an atom may stand in the value of a definition.
fn is_value_atom(a: &Atom) -> bool
    ensures { result ≡ is_plain (atom_of a.now) }
{
    match &a.form {
        AtomForm::Int(_) => true,
        AtomForm::Bool(_) => true,
        AtomForm::Char(_) => true,
        AtomForm::Prim(_) => true,
        AtomForm::Fn(_, _, _) => true,
        AtomForm::TypeFn(_, _) => true,
        AtomForm::IndexFn(_, _) => true,
        AtomForm::Boxed(_, _, _) => false,
    }
}

/// Whether each atom may.
fn are_values(atoms: &[Atom]) -> bool
    ensures { result ≡ are_value_atoms (atoms_of atoms.now) }
{
    for a in atoms {
        if !is_value_atom(a) {
            return false;
        }
    }
    true
}

/// Whether an expression is a syntactic value, an array literal without boxes.
pub(crate) fn is_value(e: &Expr) -> bool
    ensures { result ≡ is_syntactic_value (expr_of e.now) }
{
    match &e.form {
        ExprForm::Var(_) => false,
        ExprForm::Def(_) => false,
        ExprForm::Array(_, atoms) => are_values(atoms.as_slice()),
        ExprForm::NoAtoms(_, _) => true,
        ExprForm::Frame(_, _) => false,
        ExprForm::NoCells(_, _) => false,
        ExprForm::App(_, _) => false,
        ExprForm::TypeApp(_, _) => false,
        ExprForm::IndexApp(_, _) => false,
        ExprForm::Unbox(_, _, _, _) => false,
    }
}

/// Whether a type is printable: that of arrays of base atoms, or of boxes with printable content.
#[cycle(printing)]
pub(crate) fn is_printable(t: &Ty) -> bool
    ensures { result ≡ prints (ty_of t.now) }
{
    match &t.form {
        TyForm::Base(_) => false,
        TyForm::Var(_) => false,
        TyForm::Fun(_, _) => false,
        TyForm::Forall(_, _) => false,
        TyForm::Pi(_, _) => false,
        TyForm::Sigma(_, _) => false,
        TyForm::Arr(element, _) => is_printable_atom(element.get()),
    }
}

/// Whether a type of atoms is.
#[cycle(printing)]
fn is_printable_atom(t: &Ty) -> bool
    ensures { result ≡ prints_atom (ty_of t.now) }
{
    match &t.form {
        TyForm::Base(_) => true,
        TyForm::Var(_) => false,
        TyForm::Fun(_, _) => false,
        TyForm::Forall(_, _) => false,
        TyForm::Pi(_, _) => false,
        TyForm::Sigma(_, body) => is_printable(body.get()),
        TyForm::Arr(_, _) => false,
    }
}

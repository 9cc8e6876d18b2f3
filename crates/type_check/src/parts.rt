// The first of some parts, and those behind it.
ghost use Rattle.std.specs.Prelude.{◌≡◌, ◌<◌, ◌∷◌, length};

use core_syntax::{Atom, Expr};

/// The first atom and those behind it.
pub(crate) fn first_atom(atoms: &[Atom]) -> (&Atom, &[Atom])
    requires { 0 < length atoms.now }
    ensures { atoms.now ≡ result.0.now ∷ result.1.now }
{
    (&atoms[0], &atoms[1..])
}

/// The first expression and those behind it.
pub(crate) fn first_expr(exprs: &[Expr]) -> (&Expr, &[Expr])
    requires { 0 < length exprs.now }
    ensures { exprs.now ≡ result.0.now ∷ result.1.now }
{
    (&exprs[0], &exprs[1..])
}

// What the literals of a program are, by reading each.
ghost use Rattle.std.specs.Prelude.{◌≡◌, ◌^◌, true, IsTrue};
ghost use Rattle.std.specs.Char.{IsScalar};
ghost use Rattle.core_syntax.specs.Delta.{is_int};
ghost use Rattle.core_syntax.specs.Fits.{all_below};
ghost use Rattle.core_syntax.specs.Lists.{Each};
ghost use Rattle.core_syntax.specs.Literals.{ExprLiterals, ExprsLiterals, AtomLiterals, AtomsLiterals, LiteralsFit};
ghost use Rattle.core_syntax.specs.Refine.{expr_of, exprs_of, atom_of, atoms_of};
ghost use Rattle.core_syntax.specs.Wholes.{program_of};

use core_syntax::{Atom, AtomForm, Def, Expr, ExprForm, Program};

/// The dims of an array: each is of 32 bits, as its type says.
fn read_dims(dims: &[u32])
    ensures { all_below (2 ^ 32) dims.now ≡ true }
{}

/// Reads an integer: it is of 64 bits.
fn read_int(number: &i64)
    ensures { IsTrue (is_int number.now) }
{
    let _number = *number;
}

/// Reads a character: it is a Unicode scalar value.
fn read_char(character: &char)
    ensures { IsScalar character.now }
{
    let _character = *character;
}

/// Reads the literals of an expression.
#[cycle(literals)]
fn read_expr(expr: &Expr)
    ensures { ExprLiterals (expr_of expr.now) }
{
    match &expr.form {
        ExprForm::Var(_) => (),
        ExprForm::Def(_) => (),
        ExprForm::Array(dims, atoms) => {
            read_dims(dims.as_slice());
            read_atoms(atoms.as_slice());
        }
        ExprForm::NoAtoms(dims, _) => read_dims(dims.as_slice()),
        ExprForm::Frame(_, cells) => read_exprs(cells.as_slice()),
        ExprForm::NoCells(_, _) => (),
        ExprForm::App(function, args) => {
            read_expr(function.get());
            read_exprs(args.as_slice());
        }
        ExprForm::TypeApp(function, _) => read_expr(function.get()),
        ExprForm::IndexApp(function, _) => read_expr(function.get()),
        ExprForm::Unbox(_, boxed, _, body) => {
            read_expr(boxed.get());
            read_expr(body.get());
        }
    }
}

/// Reads the literals of expressions.
#[cycle(literals)]
fn read_exprs(exprs: &[Expr])
    ensures { ExprsLiterals (exprs_of exprs.now) }
{
    for expr in exprs {
        read_expr(expr);
    }
}

/// Reads the literals of an atom.
#[cycle(literals)]
fn read_atom(atom: &Atom)
    ensures { AtomLiterals (atom_of atom.now) }
{
    match &atom.form {
        AtomForm::Int(number) => read_int(number),
        AtomForm::Bool(_) => (),
        AtomForm::Char(character) => read_char(character),
        AtomForm::Prim(_) => (),
        AtomForm::Fn(_, _, body) => read_expr(body.get()),
        AtomForm::TypeFn(_, body) => read_expr(body.get()),
        AtomForm::IndexFn(_, body) => read_expr(body.get()),
        AtomForm::Boxed(_, content, _) => read_expr(content.get()),
    }
}

/// Reads the literals of atoms.
#[cycle(literals)]
fn read_atoms(atoms: &[Atom])
    ensures { AtomsLiterals (atoms_of atoms.now) }
{
    for atom in atoms {
        read_atom(atom);
    }
}

/// Reads the literals of definitions.
fn read_defs(defs: &[Def])
    ensures { Each (λ d. ExprLiterals (expr_of d.value)) defs.now }
{
    for def in defs {
        read_expr(&def.value);
    }
}

/// Reads the literals of a program: its integers are of 64 bits, its characters are Unicode scalar values, and the dims of its
/// arrays are of 32 bits, since they are of these types. It takes the time of its nodes, and no memory.
pub fn read_literals(program: &Program)
    ensures { LiteralsFit (program_of program.now) }
{
    read_defs(program.defs.as_slice());
    read_expr(&program.body);
}

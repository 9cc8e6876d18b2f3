// Expressions and atoms of one token.
ghost use Rattle.std.specs.Prelude.{◌≡◌, ◌<◌, ◌^◌, length, None, Ok};
ghost use Rattle.core_syntax.specs.Refine.{expr_of, atom_of, atoms_of};
ghost use Rattle.name_resolve.specs.Answers.{Answers};
ghost use Rattle.name_resolve.specs.TermForms.{scalar as scalar_of, chars, text as text_of, primitive as primitive_read, name as name_read, item_name as item_name_read, expr as expr_read, atom as atom_read};
ghost use Rattle.sexp_reader.specs.Forms.{form_of, form_size};
ghost use Rattle.name_resolve.specs.Lists.{listed};

use crate::errors::{NameRefusal, malformed, unknown};
use crate::scopes::Scopes;
use core_syntax::{Atom, AtomForm, Base, Expr, ExprForm, Span, Ty, TyForm};
use prim_table::prim;
use sexp_reader::{Sexp, SexpForm};
use sqlite_items::Items;
use std::alloc::Global;

/// The scalar array of an atom.
pub fn scalar(alloc: Global, at: Span, atom: Atom) -> Result<Expr, NameRefusal>
    ensures { Answers expr_of result (Ok (scalar_of at (atom_of atom))) }
{
    let atoms = Vec::from_array(alloc, [atom])?;
    Ok(Expr::array(at, Items::new(alloc), Items::from_vec(atoms)))
}

/// The characters of a string, all at its place.
fn characters(alloc: Global, at: Span, bytes: &[u8]) -> Result<Items<Atom>, NameRefusal>
    ensures { Answers atoms_of result (Ok (chars at bytes.now)) }
{
    let mut atoms = Vec::with_capacity(alloc, bytes.len())?;
    for byte in bytes {
        atoms.push(Atom {
            at,
            form: AtomForm::Char(char::from(*byte)),
        })?;
    }
    Ok(Items::from_vec(atoms))
}

/// The vector of the characters of a string.
pub fn text(alloc: Global, at: Span, bytes: &[u8]) -> Result<Expr, NameRefusal>
    requires { length bytes.now < 2 ^ 32 }
    ensures { Answers expr_of result (Ok (text_of at bytes.now)) }
{
    let dims = Vec::from_array(alloc, [bytes.len() as u32])?;
    let dims = Items::from_vec(dims);
    if bytes.is_empty() {
        let element = Ty {
            at,
            form: TyForm::Base(Base::Char),
        };
        return Ok(Expr {
            at,
            form: ExprForm::NoAtoms(dims, element),
        });
    }
    let atoms = characters(alloc, at, bytes)?;
    Ok(Expr::array(at, dims, atoms))
}

/// The primitive of a name.
fn primitive(at: Span, name: &[u8]) -> Result<Atom, NameRefusal>
    ensures { Answers atom_of result (primitive_read at name.now) }
{
    match prim(name) {
        Some(primitive) => Ok(Atom {
            at,
            form: AtomForm::Prim(primitive),
        }),
        None => Err(unknown(at)),
    }
}

/// What a name in an expression's place means: the innermost binder, else a definition, else a primitive.
pub fn name(alloc: Global, scopes: &Scopes, at: Span, name: &[u8]) -> Result<Expr, NameRefusal>
    ensures { Answers expr_of result (name_read scopes.now at name.now) }
{
    if let Some(k) = scopes.find_term(name) {
        return Ok(Expr {
            at,
            form: ExprForm::Var(k),
        });
    }
    if let Some(k) = scopes.find_definition(name) {
        return Ok(Expr {
            at,
            form: ExprForm::Def(k),
        });
    }
    let primitive = primitive(at, name)?;
    scalar(alloc, at, primitive)
}

/// What a name as an item of `array` means, where a variable or a definition is malformed.
pub fn item_name(scopes: &Scopes, at: Span, name: &[u8]) -> Result<Atom, NameRefusal>
    ensures { Answers atom_of result (item_name_read scopes.now at name.now) }
{
    if scopes.find_term(name).is_some() {
        return Err(malformed(at));
    }
    if scopes.find_definition(name).is_some() {
        return Err(malformed(at));
    }
    primitive(at, name)
}

/// What a form that is one token means as an expression.
pub fn token(alloc: Global, scopes: &Scopes, form: &Sexp) -> Result<Expr, NameRefusal>
    requires leaf { listed (form_of form.now) ≡ None }
    requires room { form_size (form_of form.now) < 2 ^ 31 }
    ensures { Answers expr_of result (expr_read scopes.now (form_of form.now)) }
{
    let at = form.at;
    match &form.form {
        SexpForm::Int(n) => scalar(
            alloc,
            at,
            Atom {
                at,
                form: AtomForm::Int(*n),
            },
        ),
        SexpForm::Bool(b) => scalar(
            alloc,
            at,
            Atom {
                at,
                form: AtomForm::Bool(*b),
            },
        ),
        SexpForm::Char(c) => scalar(
            alloc,
            at,
            Atom {
                at,
                form: AtomForm::Char(*c),
            },
        ),
        SexpForm::Text(bytes) => text(alloc, at, bytes.as_slice()),
        SexpForm::Symbol(symbol) => name(alloc, scopes, at, symbol.as_slice()),
        SexpForm::Seq(_) => Err(malformed(at)),
    }
}

/// What a form that is one token means as an item of `array`.
pub fn token_atom(scopes: &Scopes, form: &Sexp) -> Result<Atom, NameRefusal>
    requires { listed (form_of form.now) ≡ None }
    ensures { Answers atom_of result (atom_read scopes.now (form_of form.now)) }
{
    let at = form.at;
    match &form.form {
        SexpForm::Int(n) => Ok(Atom {
            at,
            form: AtomForm::Int(*n),
        }),
        SexpForm::Bool(b) => Ok(Atom {
            at,
            form: AtomForm::Bool(*b),
        }),
        SexpForm::Char(c) => Ok(Atom {
            at,
            form: AtomForm::Char(*c),
        }),
        SexpForm::Text(_) => Err(malformed(at)),
        SexpForm::Symbol(symbol) => item_name(scopes, at, symbol.as_slice()),
        SexpForm::Seq(_) => Err(malformed(at)),
    }
}

// What stands around the parts of a list that are expressions.
ghost use Rattle.std.specs.Prelude.{◌≡◌, ◌+◌, ◌≤◌, ◌==◌, length, true, Ok, OnOk, IfOk};
ghost use Rattle.core_syntax.specs.Lists.{each, product};
ghost use Rattle.core_syntax.specs.Refine.{index_of, ty_of, expr_of, atom_of};
ghost use Rattle.core_syntax.specs.Syntax.{TypeApp, IndexApp};
ghost use Rattle.sexp_reader.specs.Forms.{form_of, forms_of, form_size, forms_size};
ghost use Rattle.name_resolve.specs.declared.words.AtomWord.TheVariants as word;
ghost use Rattle.name_resolve.specs.Answers.{Answers};
ghost use Rattle.name_resolve.specs.Headers.{header as header_read, header_of, done_of, literal_of, applied_of};
ghost use Rattle.name_resolve.specs.HeaderSizes.{header_size, HasTypeRoom};
ghost use Rattle.name_resolve.specs.Scopes.{HasRoom};

use crate::binders::{Binder, Listing, bound_names};
use crate::errors::{NameRefusal, given_up, malformed};
use crate::indices::indices;
use crate::lists::{one, some_listed, two};
use crate::scopes::Scopes;
use crate::types::{array_ty, pair_arrays, pair_sorts, ty, types};
use crate::words::{AtomWord, NameSpace};
use core_syntax::{Atom, Expr, ExprForm, Index, Sort, Span, Ty};
use sexp_reader::Sexp;
use sqlite_items::Items;
use std::alloc::Global;

/// What an atom has beside the expression in it.
#[derive(Drop)]
pub enum HeaderForm<'a> {
    Fn(Items<Ty>, Ty),
    TypeFn(u32),
    IndexFn(Items<Sort>),
    Box(Items<Index>, &'a Sexp),
}

/// An atom that is a list, without the expression in it: the binders that this is read under, the expression, and the rest.
#[derive(Drop)]
pub struct Header<'a> {
    pub space: NameSpace,
    pub bound: Vec<Binder<'a>>,
    pub body: &'a Sexp,
    pub form: HeaderForm<'a>,
}

/// A list of atoms or of expressions, with its numbers.
#[derive(Clone, Copy, Debug, PartialEq, Eq)]
pub enum Literal {
    Array,
    Frame,
}

/// What an expression is applied to beside other expressions.
#[derive(Clone, Copy, Debug, PartialEq, Eq)]
pub enum Argument {
    Type,
    Index,
}

/// `(fn ((x T) (x T) ...) T e)`
fn fn_header<'a>(
    alloc: Global,
    scopes: &mut Scopes<'a>,
    at: Span,
    first: &'a Sexp,
    rest: &'a [Sexp],
) -> Result<Header<'a>, NameRefusal>
    requires { HasRoom scopes.old (form_size (form_of first.now) + forms_size (forms_of rest.now)) }
    ensures read { Answers (header_of scopes.old at) result (header_read scopes.old at word.Fn (form_of first.now) (forms_of rest.now)) }
    ensures size { IfOk result (λ h. header_size h ≤ form_size (form_of first.now) + forms_size (forms_of rest.now)) }
    ensures same { OnOk result (scopes.new ≡ scopes.old) }
{
    let Some((answer, body)) = two(rest) else {
        return Err(malformed(at));
    };
    let Some(pairs) = some_listed(first) else {
        return Err(malformed(at));
    };
    let bound = bound_names(alloc, at, pairs, Listing::Paired, NameSpace::Terms)?;
    let inputs = pair_arrays(alloc, scopes, pairs)?;
    let answer = array_ty(alloc, scopes, answer)?;
    Ok(Header {
        space: NameSpace::Terms,
        bound,
        body,
        form: HeaderForm::Fn(inputs, answer),
    })
}

/// `(tfn (x x ...) e)`
fn type_fn_header<'a>(
    alloc: Global,
    scopes: &mut Scopes<'a>,
    at: Span,
    first: &'a Sexp,
    rest: &'a [Sexp],
) -> Result<Header<'a>, NameRefusal>
    requires { HasRoom scopes.old (form_size (form_of first.now) + forms_size (forms_of rest.now)) }
    ensures read { Answers (header_of scopes.old at) result (header_read scopes.old at word.TypeFn (form_of first.now) (forms_of rest.now)) }
    ensures size { IfOk result (λ h. header_size h ≤ form_size (form_of first.now) + forms_size (forms_of rest.now)) }
    ensures same { OnOk result (scopes.new ≡ scopes.old) }
{
    let Some(body) = one(rest) else {
        return Err(malformed(at));
    };
    let Some(names) = some_listed(first) else {
        return Err(malformed(at));
    };
    let bound = bound_names(alloc, at, names, Listing::Alone, NameSpace::Types)?;
    let count = bound.len() as u32;
    Ok(Header {
        space: NameSpace::Types,
        bound,
        body,
        form: HeaderForm::TypeFn(count),
    })
}

/// `(ifn ((x S) (x S) ...) e)`
fn index_fn_header<'a>(
    alloc: Global,
    scopes: &mut Scopes<'a>,
    at: Span,
    first: &'a Sexp,
    rest: &'a [Sexp],
) -> Result<Header<'a>, NameRefusal>
    requires { HasRoom scopes.old (form_size (form_of first.now) + forms_size (forms_of rest.now)) }
    ensures read { Answers (header_of scopes.old at) result (header_read scopes.old at word.IndexFn (form_of first.now) (forms_of rest.now)) }
    ensures size { IfOk result (λ h. header_size h ≤ form_size (form_of first.now) + forms_size (forms_of rest.now)) }
    ensures same { OnOk result (scopes.new ≡ scopes.old) }
{
    let Some(body) = one(rest) else {
        return Err(malformed(at));
    };
    let Some(pairs) = some_listed(first) else {
        return Err(malformed(at));
    };
    let bound = bound_names(alloc, at, pairs, Listing::Paired, NameSpace::Indices)?;
    let sorts = pair_sorts(alloc, pairs)?;
    Ok(Header {
        space: NameSpace::Indices,
        bound,
        body,
        form: HeaderForm::IndexFn(sorts),
    })
}

/// `(box (i i ...) e T)`
fn box_header<'a>(
    alloc: Global,
    scopes: &mut Scopes<'a>,
    at: Span,
    first: &'a Sexp,
    rest: &'a [Sexp],
) -> Result<Header<'a>, NameRefusal>
    requires { HasRoom scopes.old (form_size (form_of first.now) + forms_size (forms_of rest.now)) }
    ensures read { Answers (header_of scopes.old at) result (header_read scopes.old at word.Box (form_of first.now) (forms_of rest.now)) }
    ensures size { IfOk result (λ h. header_size h ≤ form_size (form_of first.now) + forms_size (forms_of rest.now)) }
    ensures same { OnOk result (scopes.new ≡ scopes.old) }
{
    let Some((content, answer)) = two(rest) else {
        return Err(malformed(at));
    };
    let Some(list) = some_listed(first) else {
        return Err(malformed(at));
    };
    let indices = indices(alloc, scopes.indices(), list)?;
    Ok(Header {
        space: NameSpace::Terms,
        bound: Vec::new(alloc),
        body: content,
        form: HeaderForm::Box(indices, answer),
    })
}

/// What stands around the expression in an atom of this word.
pub fn read_header<'a>(
    alloc: Global,
    scopes: &mut Scopes<'a>,
    at: Span,
    word: AtomWord,
    first: &'a Sexp,
    rest: &'a [Sexp],
) -> Result<Header<'a>, NameRefusal>
    requires { HasRoom scopes.old (form_size (form_of first.now) + forms_size (forms_of rest.now)) }
    ensures read { Answers (header_of scopes.old at) result (header_read scopes.old at word (form_of first.now) (forms_of rest.now)) }
    ensures size { IfOk result (λ h. header_size h ≤ form_size (form_of first.now) + forms_size (forms_of rest.now)) }
    ensures same { OnOk result (scopes.new ≡ scopes.old) }
{
    match word {
        AtomWord::Fn => fn_header(alloc, scopes, at, first, rest),
        AtomWord::TypeFn => type_fn_header(alloc, scopes, at, first, rest),
        AtomWord::IndexFn => index_fn_header(alloc, scopes, at, first, rest),
        AtomWord::Box => box_header(alloc, scopes, at, first, rest),
    }
}

/// The atom around this expression.
pub fn finish<'a>(
    alloc: Global,
    scopes: &mut Scopes<'a>,
    at: Span,
    form: HeaderForm<'a>,
    body: Expr,
) -> Result<Atom, NameRefusal>
    requires { HasTypeRoom scopes.old form }
    ensures read { Answers atom_of result (done_of scopes.old at form.entry (expr_of body)) }
    ensures same { OnOk result (scopes.new ≡ scopes.old) }
{
    match form {
        HeaderForm::Fn(inputs, answer) => {
            let atom = Atom::function(alloc, at, inputs, answer, body)?;
            Ok(atom)
        }
        HeaderForm::TypeFn(count) => {
            let atom = Atom::type_function(alloc, at, count, body)?;
            Ok(atom)
        }
        HeaderForm::IndexFn(sorts) => {
            let atom = Atom::index_function(alloc, at, sorts, body)?;
            Ok(atom)
        }
        HeaderForm::Box(indices, answer) => {
            let answer = ty(alloc, scopes, answer)?;
            let atom = Atom::boxed(alloc, at, indices, body, answer)?;
            Ok(atom)
        }
    }
}

/// An array or a frame without items.
pub fn empty_literal<'a>(
    alloc: Global,
    scopes: &mut Scopes<'a>,
    at: Span,
    literal: Literal,
    dims: Items<u32>,
    rest: &'a [Sexp],
) -> Result<Expr, NameRefusal>
    requires room { HasRoom scopes.old (forms_size (forms_of rest.now)) }
    requires empty { (product dims == 0) ≡ true }
    ensures read { Answers expr_of result (literal_of literal scopes.old at (forms_of rest.now) dims) }
    ensures same { OnOk result (scopes.new ≡ scopes.old) }
{
    let Some(part) = one(rest) else {
        return Err(malformed(at));
    };
    match literal {
        Literal::Array => {
            let element = ty(alloc, scopes, part)?;
            Ok(Expr {
                at,
                form: ExprForm::NoAtoms(dims, element),
            })
        }
        Literal::Frame => {
            let cell = array_ty(alloc, scopes, part)?;
            Ok(Expr {
                at,
                form: ExprForm::NoCells(dims, cell),
            })
        }
    }
}

/// The application of an expression to types.
fn on_types(alloc: Global, at: Span, function: Expr, types: Items<Ty>) -> Result<Expr, NameRefusal>
    ensures { Answers expr_of result (Ok (TypeApp at (expr_of function) (each ty_of types))) }
{
    let application = Expr::type_application(alloc, at, function, types)?;
    Ok(application)
}

/// The application of an expression to indices.
fn on_indices(
    alloc: Global,
    at: Span,
    function: Expr,
    indices: Items<Index>,
) -> Result<Expr, NameRefusal>
    ensures { Answers expr_of result (Ok (IndexApp at (expr_of function) (each index_of indices))) }
{
    let application = Expr::index_application(alloc, at, function, indices)?;
    Ok(application)
}

/// The application of an expression to types or to indices.
pub fn apply<'a>(
    alloc: Global,
    scopes: &mut Scopes<'a>,
    at: Span,
    argument: Argument,
    function: Expr,
    rest: &'a [Sexp],
) -> Result<Expr, NameRefusal>
    requires { HasRoom scopes.old (forms_size (forms_of rest.now)) }
    ensures read { Answers expr_of result (applied_of argument scopes.old at (forms_of rest.now) (expr_of function)) }
    ensures same { OnOk result (scopes.new ≡ scopes.old) }
{
    match argument {
        Argument::Type => match types(alloc, scopes, rest) {
            Ok(types) => on_types(alloc, at, function, types),
            Err(refusal) => Err(given_up(refusal, function)),
        },
        Argument::Index => match indices(alloc, scopes.indices(), rest) {
            Ok(indices) => on_indices(alloc, at, function, indices),
            Err(refusal) => Err(given_up(refusal, function)),
        },
    }
}

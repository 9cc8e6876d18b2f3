ghost use Rattle.std.specs.Prelude.{◌≡◌, ◌+◌, length, Ok, OnOk};
ghost use Rattle.core_syntax.specs.Refine.{expr_of, exprs_of, atom_of, atoms_of};
ghost use Rattle.sexp_reader.specs.Forms.{form_of, forms_of, form_size, forms_size};
ghost use Rattle.name_resolve.specs.Answers.{Answers};
ghost use Rattle.core_syntax.specs.Syntax.{App};
ghost use Rattle.name_resolve.specs.Reading.{mapped, both};
ghost use Rattle.name_resolve.specs.Headers.{literal_read, applied_read};
ghost use Rattle.name_resolve.specs.Scopes.{HasRoom};
ghost use Rattle.name_resolve.specs.TermForms.{
  atom_head as atom_head_of,
  expr_head as expr_head_of,
  scalar as scalar_of,
  unbox as unbox_read,
  list_atom as list_atom_read,
  expr as expr_read,
  exprs as exprs_read,
  atom as atom_read,
  atoms as atoms_read,
  nth_expr,
  last_in,
};
ghost use Rattle.name_resolve.specs.Unboxings.{unboxing_of, inside};

use crate::atoms::{scalar, token, token_atom};
use crate::dims::{dims, has_no_item};
use crate::errors::{NameRefusal, given_up, malformed};
use crate::headers::{Argument, Header, Literal, apply, empty_literal, finish, read_header};
use crate::lists::{first_two, listed};
use crate::scopes::Scopes;
use crate::types::array_ty;
use crate::unboxings::{Unboxing, enter_box, finish_box, leave_box, read_unboxing};
use crate::words::{AtomWord, ExprWord, atom_word, expr_word};
use core_syntax::{Atom, Expr, Span};
use sexp_reader::{Sexp, SexpForm};
use sqlite_items::Items;
use std::alloc::Global;

/// The word of the atoms at the head of a list.
fn atom_head(head: &Sexp) -> Option<AtomWord>
    ensures { result ≡ atom_head_of (form_of head.now) }
{
    match &head.form {
        SexpForm::Symbol(word) => atom_word(word.as_slice()),
        _ => None,
    }
}

/// The word of the other expressions at the head of a list.
fn expr_head(head: &Sexp) -> Option<ExprWord>
    ensures { result ≡ expr_head_of (form_of head.now) }
{
    match &head.form {
        SexpForm::Symbol(word) => expr_word(word.as_slice()),
        _ => None,
    }
}

/// The expression that a form means.
#[cycle(exprs)]
pub fn expr<'a>(alloc: Global, scopes: &mut Scopes<'a>, form: &'a Sexp) -> Result<Expr, NameRefusal>
    requires { HasRoom scopes.old (form_size (form_of form.now)) }
    ensures read { Answers expr_of result (expr_read scopes.old (form_of form.now)) }
    ensures same { OnOk result (scopes.new ≡ scopes.old) }
{
    let at = form.at;
    let Some(items) = listed(form) else {
        return token(alloc, scopes, form);
    };
    let Some((head, args, first, rest)) = first_two(items) else {
        return Err(malformed(at));
    };
    match expr_head(head) {
        Some(ExprWord::Array) => array_or_frame(alloc, scopes, at, Literal::Array, first, rest),
        Some(ExprWord::Frame) => array_or_frame(alloc, scopes, at, Literal::Frame, first, rest),
        Some(ExprWord::Unbox) => unbox(alloc, scopes, at, first, rest),
        Some(ExprWord::TypeApp) => applied(alloc, scopes, at, Argument::Type, first, rest),
        Some(ExprWord::IndexApp) => applied(alloc, scopes, at, Argument::Index, first, rest),
        None => match atom_head(head) {
            Some(word) => atom_expr(alloc, scopes, at, word, first, rest),
            None => app(alloc, scopes, at, head, args),
        },
    }
}

/// An atom in an expression's place.
#[cycle(exprs)]
fn atom_expr<'a>(
    alloc: Global,
    scopes: &mut Scopes<'a>,
    at: Span,
    word: AtomWord,
    first: &'a Sexp,
    rest: &'a [Sexp],
) -> Result<Expr, NameRefusal>
    requires { HasRoom scopes.old (form_size (form_of first.now) + forms_size (forms_of rest.now)) }
    ensures read { Answers expr_of result (mapped (scalar_of at) (list_atom_read scopes.old at word (form_of first.now) (forms_of rest.now) (λ k names. nth_expr k names (forms_of rest.now)))) }
    ensures same { OnOk result (scopes.new ≡ scopes.old) }
{
    let atom = list_atom(alloc, scopes, at, word, first, rest)?;
    scalar(alloc, at, atom)
}

/// The application of an expression to others.
fn application(
    alloc: Global,
    at: Span,
    function: Expr,
    args: Items<Expr>,
) -> Result<Expr, NameRefusal>
    ensures { Answers expr_of result (Ok (App at (expr_of function) (exprs_of args))) }
{
    let application = Expr::application(alloc, at, function, args)?;
    Ok(application)
}

/// `(e e e ...)`
#[cycle(exprs)]
fn app<'a>(
    alloc: Global,
    scopes: &mut Scopes<'a>,
    at: Span,
    head: &'a Sexp,
    args: &'a [Sexp],
) -> Result<Expr, NameRefusal>
    requires { HasRoom scopes.old (form_size (form_of head.now) + forms_size (forms_of args.now)) }
    ensures read { Answers expr_of result (both (App at) (expr_read scopes.old (form_of head.now)) (exprs_read scopes.old (forms_of args.now))) }
    ensures same { OnOk result (scopes.new ≡ scopes.old) }
{
    let function = expr(alloc, scopes, head)?;
    match exprs(alloc, scopes, args) {
        Ok(args) => application(alloc, at, function, args),
        Err(refusal) => Err(given_up(refusal, function)),
    }
}

/// `(array ..)` and `(frame ..)`
#[cycle(exprs)]
fn array_or_frame<'a>(
    alloc: Global,
    scopes: &mut Scopes<'a>,
    at: Span,
    literal: Literal,
    first: &'a Sexp,
    rest: &'a [Sexp],
) -> Result<Expr, NameRefusal>
    requires { HasRoom scopes.old (form_size (form_of first.now) + forms_size (forms_of rest.now)) }
    ensures read { Answers expr_of result (literal_read literal scopes.old at (form_of first.now) (forms_of rest.now)) }
    ensures same { OnOk result (scopes.new ≡ scopes.old) }
{
    let dims = dims(alloc, at, first, rest.len())?;
    if has_no_item(dims.as_slice()) {
        return empty_literal(alloc, scopes, at, literal, dims, rest);
    }
    match literal {
        Literal::Array => {
            let atoms = atoms(alloc, scopes, rest)?;
            Ok(Expr::array(at, dims, atoms))
        }
        Literal::Frame => {
            let cells = exprs(alloc, scopes, rest)?;
            Ok(Expr::frame(at, dims, cells))
        }
    }
}

/// `(t-app e T T ...)` and `(i-app e i i ...)`
#[cycle(exprs)]
fn applied<'a>(
    alloc: Global,
    scopes: &mut Scopes<'a>,
    at: Span,
    argument: Argument,
    first: &'a Sexp,
    rest: &'a [Sexp],
) -> Result<Expr, NameRefusal>
    requires { HasRoom scopes.old (form_size (form_of first.now) + forms_size (forms_of rest.now)) }
    ensures read { Answers expr_of result (applied_read argument scopes.old at (forms_of rest.now) (expr_read scopes.old (form_of first.now))) }
    ensures same { OnOk result (scopes.new ≡ scopes.old) }
{
    if rest.is_empty() {
        return Err(malformed(at));
    }
    let function = expr(alloc, scopes, first)?;
    apply(alloc, scopes, at, argument, function, rest)
}

/// The expressions that forms mean.
#[cycle(exprs)]
fn exprs<'a>(
    alloc: Global,
    scopes: &mut Scopes<'a>,
    forms: &'a [Sexp],
) -> Result<Items<Expr>, NameRefusal>
    requires { HasRoom scopes.old (forms_size (forms_of forms.now)) }
    ensures read { Answers exprs_of result (exprs_read scopes.old (forms_of forms.now)) }
    ensures same { OnOk result (scopes.new ≡ scopes.old) }
{
    let mut read = Vec::with_capacity(alloc, forms.len())?;
    for form in forms {
        let part = expr(alloc, scopes, form)?;
        read.push(part)?;
    }
    Ok(Items::from_vec(read))
}

/// The atoms that the items of `array` mean.
#[cycle(exprs)]
fn atoms<'a>(
    alloc: Global,
    scopes: &mut Scopes<'a>,
    forms: &'a [Sexp],
) -> Result<Items<Atom>, NameRefusal>
    requires { HasRoom scopes.old (forms_size (forms_of forms.now)) }
    ensures read { Answers atoms_of result (atoms_read scopes.old (forms_of forms.now)) }
    ensures same { OnOk result (scopes.new ≡ scopes.old) }
{
    let mut read = Vec::with_capacity(alloc, forms.len())?;
    for form in forms {
        let part = atom(alloc, scopes, form)?;
        read.push(part)?;
    }
    Ok(Items::from_vec(read))
}

/// The atom that an item of `array` means.
#[cycle(exprs)]
fn atom<'a>(alloc: Global, scopes: &mut Scopes<'a>, form: &'a Sexp) -> Result<Atom, NameRefusal>
    requires { HasRoom scopes.old (form_size (form_of form.now)) }
    ensures read { Answers atom_of result (atom_read scopes.old (form_of form.now)) }
    ensures same { OnOk result (scopes.new ≡ scopes.old) }
{
    let at = form.at;
    let Some(items) = listed(form) else {
        return token_atom(scopes, form);
    };
    let Some((head, _, first, rest)) = first_two(items) else {
        return Err(malformed(at));
    };
    match atom_head(head) {
        Some(word) => list_atom(alloc, scopes, at, word, first, rest),
        None => Err(malformed(at)),
    }
}

/// The atom that a list of this word means.
#[cycle(exprs)]
fn list_atom<'a>(
    alloc: Global,
    scopes: &mut Scopes<'a>,
    at: Span,
    word: AtomWord,
    first: &'a Sexp,
    rest: &'a [Sexp],
) -> Result<Atom, NameRefusal>
    requires { HasRoom scopes.old (form_size (form_of first.now) + forms_size (forms_of rest.now)) }
    ensures read { Answers atom_of result (list_atom_read scopes.old at word (form_of first.now) (forms_of rest.now) (λ k names. nth_expr k names (forms_of rest.now))) }
    ensures same { OnOk result (scopes.new ≡ scopes.old) }
{
    let Header {
        space,
        bound,
        body,
        form,
    } = read_header(alloc, scopes, at, word, first, rest)?;
    scopes.enter(space, bound.as_slice())?;
    let body = expr(alloc, scopes, body)?;
    scopes.leave(space, bound.len());
    finish(alloc, scopes, at, form, body)
}

/// What stands under the binders of an `unbox`.
#[cycle(exprs)]
fn unboxed_body<'a>(
    alloc: Global,
    scopes: &mut Scopes<'a>,
    unboxing: &Unboxing<'a>,
) -> Result<Expr, NameRefusal>
    requires { HasRoom scopes.old (length unboxing.now.bound.items + (1 + form_size (form_of unboxing.now.body.now))) }
    ensures read { Answers expr_of result (expr_read (inside (unboxing_of unboxing.now) scopes.old) (form_of unboxing.now.body.now)) }
    ensures same { OnOk result (scopes.new ≡ scopes.old) }
{
    enter_box(scopes, unboxing)?;
    let body = expr(alloc, scopes, unboxing.body)?;
    leave_box(scopes, unboxing);
    Ok(body)
}

/// `(unbox (x x ... x e) T e)`
#[cycle(exprs)]
fn unbox<'a>(
    alloc: Global,
    scopes: &mut Scopes<'a>,
    at: Span,
    first: &'a Sexp,
    rest: &'a [Sexp],
) -> Result<Expr, NameRefusal>
    requires { HasRoom scopes.old (form_size (form_of first.now) + forms_size (forms_of rest.now)) }
    ensures read { Answers expr_of result (unbox_read scopes.old at (form_of first.now) (forms_of rest.now) (last_in scopes.old (form_of first.now)) (λ names. nth_expr 1 names (forms_of rest.now))) }
    ensures same { OnOk result (scopes.new ≡ scopes.old) }
{
    let unboxing = read_unboxing(alloc, at, first, rest)?;
    let boxed = expr(alloc, scopes, unboxing.boxed)?;
    match array_ty(alloc, scopes, unboxing.answer) {
        Ok(answer) => match unboxed_body(alloc, scopes, &unboxing) {
            Ok(body) => finish_box(alloc, at, unboxing.bound.len(), boxed, answer, body),
            Err(refusal) => Err(given_up(given_up(refusal, answer), boxed)),
        },
        Err(refusal) => Err(given_up(refusal, boxed)),
    }
}

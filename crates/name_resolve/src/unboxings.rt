// What stands around the parts of `unbox` that are expressions.
ghost use Rattle.std.specs.Prelude.{◌≡◌, ◌+◌, ◌<◌, ◌≤◌, ◌^◌, Some, None, Ok, length, OnOk, IfOk, IfErr, IfSome, MatchOption};
ghost use Rattle.core_syntax.specs.Refine.{ty_of, expr_of};
ghost use Rattle.core_syntax.specs.Syntax.{Unbox};
ghost use Rattle.sexp_reader.specs.Forms.{form_of, forms_of, form_size, forms_size};
ghost use Rattle.name_resolve.specs.Answers.{Answers};
ghost use Rattle.name_resolve.specs.Lists.{hidden};
ghost use Rattle.name_resolve.specs.Scopes.{Scopes as Names, HasRoom};
ghost use Rattle.name_resolve.specs.TermForms.{expr as expr_read, last_in};
ghost use Rattle.name_resolve.specs.Unboxings.{unboxing as unboxing_read, unboxing_of, unboxing_size, inside};

use crate::binders::{Binder, Listing, as_binder, bound_names};
use crate::errors::{NameRefusal, malformed};
use crate::lists::{listed, two};
use crate::scopes::Scopes;
use crate::words::NameSpace;
use core_syntax::{Expr, Span, Ty};
use sexp_reader::Sexp;
use std::alloc::Global;

/// An `unbox` without what its expressions mean: the binders of the indices and of the content, the box, the type and the
/// body.
#[derive(Drop)]
pub struct Unboxing<'a> {
    pub bound: Vec<Binder<'a>>,
    pub term: Binder<'a>,
    pub boxed: &'a Sexp,
    pub answer: &'a Sexp,
    pub body: &'a Sexp,
}

/// The parts of `(x x ... y e)` in `unbox`: the names of indices, of which there are some, the name of the content, and the box.
fn box_parts<'a>(list: &'a Sexp) -> Option<(&'a [Sexp], &'a Sexp, &'a Sexp)>
    ensures names { MatchOption result (hidden (form_of list.now) ≡ None)
        (λ r. hidden (form_of list.now) ≡ Some (record { indices = forms_of r.0.now; term = form_of r.1.now })) }
    ensures last { IfSome result (λ r. (scopes : Names) → last_in scopes (form_of list.now) ≡ expr_read scopes (form_of r.2.now)) }
    ensures size { IfSome result (λ r. form_size (form_of list.now) ≡ 1 + (forms_size (forms_of r.0.now) + (form_size (form_of r.1.now) + form_size (form_of r.2.now)))) }
{
    let items = listed(list)?;
    let count = items.len();
    if count < 3 {
        return None;
    }
    Some((&items[..count - 2], &items[count - 2], &items[count - 1]))
}

/// What stands around the expressions of `(unbox (x x ... x e) T e)`.
pub fn read_unboxing<'a>(
    alloc: Global,
    at: Span,
    first: &'a Sexp,
    rest: &'a [Sexp],
) -> Result<Unboxing<'a>, NameRefusal>
    requires { form_size (form_of first.now) < 2 ^ 31 }
    ensures read { Answers unboxing_of result (unboxing_read at (form_of first.now) (forms_of rest.now)) }
    ensures last { IfOk result (λ u. (scopes : Names) → last_in scopes (form_of first.now) ≡ expr_read scopes (form_of u.boxed.now)) }
    ensures size { IfOk result (λ u. unboxing_size u < form_size (form_of first.now) + forms_size (forms_of rest.now)) }
{
    let Some((answer, body)) = two(rest) else {
        return Err(malformed(at));
    };
    let Some((names, term, boxed)) = box_parts(first) else {
        return Err(malformed(at));
    };
    let Some(term) = as_binder(term, NameSpace::Terms) else {
        return Err(malformed(at));
    };
    let bound = bound_names(alloc, at, names, Listing::Alone, NameSpace::Indices)?;
    Ok(Unboxing {
        bound,
        term,
        boxed,
        answer,
        body,
    })
}

/// Enters the binders of an `unbox`, of which the content's is the innermost.
pub fn enter_box<'a>(scopes: &mut Scopes<'a>, unboxing: &Unboxing<'a>) -> Result<(), NameRefusal>
    requires { HasRoom scopes.old (length unboxing.now.bound.items + 1) }
    ensures entered { OnOk result (scopes.new ≡ inside (unboxing_of unboxing.now) scopes.old) }
    ensures memory { IfErr result (λ e. e ≡ NameRefusal.Memory) }
{
    scopes.enter(NameSpace::Indices, unboxing.bound.as_slice())?;
    scopes.enter(NameSpace::Terms, &[unboxing.term])
}

/// Leaves the binders of an `unbox`.
pub fn leave_box(scopes: &mut Scopes, unboxing: &Unboxing)
    ensures { (before : Names) → scopes.old ≡ inside (unboxing_of unboxing.now) before → scopes.new ≡ before }
{
    scopes.leave(NameSpace::Terms, 1);
    scopes.leave(NameSpace::Indices, unboxing.bound.len());
}

/// The `unbox` of these parts, with so many indices.
pub fn finish_box(
    alloc: Global,
    at: Span,
    count: usize,
    boxed: Expr,
    answer: Ty,
    body: Expr,
) -> Result<Expr, NameRefusal>
    requires { count < 2 ^ 32 }
    ensures { Answers expr_of result (Ok (Unbox at count (expr_of boxed) (ty_of answer) (expr_of body))) }
{
    let unboxing = Expr::unboxing(alloc, at, count as u32, boxed, answer, body)?;
    Ok(unboxing)
}

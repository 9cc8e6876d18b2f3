ghost use Rattle.std.specs.Prelude.{◌≡◌, ◌<◌, ◌^◌, [], length, Some, None, IfOk, MatchOption};
ghost use Rattle.sexp_reader.specs.Forms.{form_of, forms_of, forms_count};
ghost use Rattle.name_resolve.specs.Answers.{Answers};
ghost use Rattle.name_resolve.specs.Binders.{binder, bound_names as bound_names_of, distinct_behind};
ghost use Rattle.name_resolve.specs.Held.{held, held_all, held_names, listed_binder as listed_binder_of, listed_binders, read_binders};

use crate::errors::{NameRefusal, malformed, repeated};
use crate::lists::pair_of;
use crate::space::Space;
use crate::words::{NameSpace, is_reserved};
use core_syntax::Span;
use sexp_reader::{Sexp, SexpForm};
use std::alloc::Global;

/// A binder: its place and its name.
#[derive(Clone, Copy)]
pub struct Binder<'a> {
    pub at: Span,
    pub name: &'a [u8],
}

/// How binders stand in a list: each alone, or each in a pair with its type or its sort.
#[derive(Clone, Copy, Debug, PartialEq, Eq)]
pub enum Listing {
    Alone,
    Paired,
}

/// The binder that a form is: a symbol that is not reserved.
pub fn as_binder<'a>(form: &'a Sexp, space: NameSpace) -> Option<Binder<'a>>
    ensures { MatchOption result (binder space (form_of form.now) ≡ None) (λ b. binder space (form_of form.now) ≡ Some (held b)) }
{
    match &form.form {
        SexpForm::Symbol(name) if !is_reserved(space, name.as_slice()) => Some(Binder {
            at: form.at,
            name: name.as_slice(),
        }),
        _ => None,
    }
}

/// The binder of a form in such a list.
fn listed_binder<'a>(form: &'a Sexp, listing: Listing, space: NameSpace) -> Option<Binder<'a>>
    ensures { MatchOption result (listed_binder_of listing space (form_of form.now) ≡ None)
        (λ b. listed_binder_of listing space (form_of form.now) ≡ Some (held b)) }
{
    match listing {
        Listing::Alone => as_binder(form, space),
        Listing::Paired => {
            let (left, _) = pair_of(form)?;
            as_binder(left, space)
        }
    }
}

/// The binders that forms are, in a form at this place.
fn binders<'a>(
    alloc: Global,
    at: Span,
    forms: &'a [Sexp],
    listing: Listing,
    space: NameSpace,
) -> Result<Vec<Binder<'a>>, NameRefusal>
    ensures { Answers (λ v. held_all v.items) result (read_binders at listing space (forms_of forms.now)) }
{
    let mut all = Vec::with_capacity(alloc, forms.len())?;
    for form in forms {
        let Some(binder) = listed_binder(form, listing, space) else {
            return Err(malformed(at));
        };
        all.push(binder).map_err(|_| NameRefusal::Memory)?;
    }
    Ok(all)
}

/// Tests that no binder repeats an earlier one.
fn distinct(alloc: Global, binders: &[Binder]) -> Result<(), NameRefusal>
    requires { length binders.now < 2 ^ 31 }
    ensures { Answers (λ _. held_names binders.now) result (distinct_behind [] (held_all binders.now)) }
{
    let mut before = Space::new(alloc);
    for binder in binders {
        if before.find(binder.name).is_some() {
            return Err(repeated(binder.at));
        }
        before.enter(binder.name)?;
    }
    Ok(())
}

/// The binders of a list in a form at this place, without repeats.
pub fn bound_names<'a>(
    alloc: Global,
    at: Span,
    forms: &'a [Sexp],
    listing: Listing,
    space: NameSpace,
) -> Result<Vec<Binder<'a>>, NameRefusal>
    requires { forms_count (forms_of forms.now) < 2 ^ 31 }
    ensures names { Answers (λ v. held_names v.items) result (bound_names_of at (listed_binders listing space (forms_of forms.now))) }
    ensures count { IfOk result (λ v. length v.items ≡ forms_count (forms_of forms.now)) }
{
    let binders = binders(alloc, at, forms, listing, space)?;
    distinct(alloc, binders.as_slice())?;
    Ok(binders)
}

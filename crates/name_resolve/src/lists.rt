// Parts of lists.
ghost use Rattle.std.specs.Prelude.{◌≡◌, ◌<◌, Some, None, MatchOption, IfSome};
ghost use Rattle.sexp_reader.specs.Forms.{form_of, forms_of, forms_count, no_forms, more_forms};
ghost use Rattle.name_resolve.specs.Lists.{listed as listed_of, some_listed as some_listed_of, the_one, the_two, the_three, pair};

use sexp_reader::{Sexp, SexpForm};

/// The items of a list.
pub fn listed<'a>(form: &'a Sexp) -> Option<&'a [Sexp]>
    ensures { MatchOption result (listed_of (form_of form.now) ≡ None) (λ items. listed_of (form_of form.now) ≡ Some (forms_of items.now)) }
{
    match &form.form {
        SexpForm::Seq(items) => Some(items.as_slice()),
        _ => None,
    }
}

/// The items of a list of at least one.
pub fn some_listed<'a>(form: &'a Sexp) -> Option<&'a [Sexp]>
    ensures { MatchOption result (some_listed_of (form_of form.now) ≡ None) (λ items. some_listed_of (form_of form.now) ≡ Some (forms_of items.now)) }
{
    let items = listed(form)?;
    if items.is_empty() {
        return None;
    }
    Some(items)
}

/// The one form that there is.
pub fn one<'a>(forms: &'a [Sexp]) -> Option<&'a Sexp>
    ensures { MatchOption result (the_one (forms_of forms.now) ≡ None) (λ form. forms_of forms.now ≡ more_forms (form_of form.now) no_forms) }
{
    if forms.len() != 1 {
        return None;
    }
    Some(&forms[0])
}

/// The two forms that there are.
pub fn two<'a>(forms: &'a [Sexp]) -> Option<(&'a Sexp, &'a Sexp)>
    ensures { MatchOption result (the_two (forms_of forms.now) ≡ None)
        (λ r. forms_of forms.now ≡ more_forms (form_of r.0.now) (more_forms (form_of r.1.now) no_forms)) }
{
    if forms.len() != 2 {
        return None;
    }
    Some((&forms[0], &forms[1]))
}

/// The three forms that there are.
pub fn three<'a>(forms: &'a [Sexp]) -> Option<(&'a Sexp, &'a Sexp, &'a Sexp)>
    ensures { MatchOption result (the_three (forms_of forms.now) ≡ None)
        (λ r. forms_of forms.now ≡ more_forms (form_of r.0.now) (more_forms (form_of r.1.now) (more_forms (form_of r.2.now) no_forms))) }
{
    if forms.len() != 3 {
        return None;
    }
    Some((&forms[0], &forms[1], &forms[2]))
}

/// The four forms that there are.
pub fn four<'a>(forms: &'a [Sexp]) -> Option<(&'a Sexp, &'a Sexp, &'a Sexp, &'a Sexp)>
    ensures { MatchOption result (¬ (forms_count (forms_of forms.now) ≡ 4))
        (λ r. forms_of forms.now ≡ more_forms (form_of r.0.now) (more_forms (form_of r.1.now) (more_forms (form_of r.2.now) (more_forms (form_of r.3.now) no_forms)))) }
{
    if forms.len() != 4 {
        return None;
    }
    Some((&forms[0], &forms[1], &forms[2], &forms[3]))
}

/// The parts of at least two forms: the first, those behind it, and of these the first and those behind that.
pub fn first_two<'a>(forms: &'a [Sexp]) -> Option<(&'a Sexp, &'a [Sexp], &'a Sexp, &'a [Sexp])>
    ensures head { MatchOption result (forms_count (forms_of forms.now) < 2) (λ r. forms_of forms.now ≡ more_forms (form_of r.0.now) (forms_of r.1.now)) }
    ensures first { IfSome result (λ r. forms_of r.1.now ≡ more_forms (form_of r.2.now) (forms_of r.3.now)) }
{
    let [head, behind @ ..] = forms else {
        return None;
    };
    let [first, rest @ ..] = behind else {
        return None;
    };
    Some((head, behind, first, rest))
}

/// The two parts of a pair.
pub fn pair_of<'a>(form: &'a Sexp) -> Option<(&'a Sexp, &'a Sexp)>
    ensures { MatchOption result (pair (form_of form.now) ≡ None)
        (λ r. pair (form_of form.now) ≡ Some (record { left = form_of r.0.now; right = form_of r.1.now })) }
{
    two(listed(form)?)
}

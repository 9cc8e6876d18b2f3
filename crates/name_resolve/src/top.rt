// The top forms.
ghost use Rattle.std.specs.Prelude.{◌≡◌, ◌+◌, ◌<◌, ◌^◌, Some, None, OnOk, IfSome, MatchOption};
ghost use Rattle.core_syntax.specs.Lists.{each};
ghost use Rattle.core_syntax.specs.Programs.{def_of};
ghost use Rattle.core_syntax.specs.Wholes.{program_of};
ghost use Rattle.sexp_reader.specs.Forms.{form_of, forms_of, form_size, forms_size, AreShort};
ghost use Rattle.name_resolve.specs.Answers.{Answers};
ghost use Rattle.name_resolve.specs.Lists.{form_place};
ghost use Rattle.name_resolve.specs.Means.{top_head as top_head_of, definition as definition_parts, main as main_parts, body as body_read, program as program_read};
ghost use Rattle.name_resolve.specs.Scopes.{behind, HasRoom};
ghost use Rattle.name_resolve.specs.Tops.{held_definition, held_main, body_of, meant as meant_read, definition_read, known_behind, definitions_read, all_known};

use crate::binders::{Binder, Listing, as_binder, bound_names};
use crate::errors::{NameRefusal, malformed, repeated};
use crate::exprs::expr;
use crate::lists::{four, listed, three};
use crate::scopes::Scopes;
use crate::types::{array_ty, pair_arrays};
use crate::words::{NameSpace, TopWord, top_word};
use core_syntax::{Def, Expr, Program, Span, Ty};
use sexp_reader::{Sexp, SexpForm};
use sqlite_items::Items;
use std::alloc::Global;

/// The parts of `(define x T e)`.
#[derive(Clone, Copy)]
pub struct Definition<'a> {
    pub name: Binder<'a>,
    pub ty: &'a Sexp,
    pub value: &'a Sexp,
}

/// The parts of `(main ((x T) ...) e)`.
#[derive(Clone, Copy)]
pub struct Main<'a> {
    pub inputs: &'a [Sexp],
    pub body: &'a Sexp,
}

/// What `main` means: the types of its inputs, and its body.
#[derive(Drop)]
pub struct Body {
    pub inputs: Items<Ty>,
    pub body: Expr,
}

/// The word of the top forms at the head of a list.
fn top_head(head: &Sexp) -> Option<TopWord>
    ensures { result ≡ top_head_of (form_of head.now) }
{
    match &head.form {
        SexpForm::Symbol(word) => top_word(word.as_slice()),
        _ => None,
    }
}

/// The definition that a form is.
fn as_definition<'a>(form: &'a Sexp) -> Option<Definition<'a>>
    ensures parts { MatchOption result (definition_parts (form_of form.now) ≡ None) (λ d. definition_parts (form_of form.now) ≡ Some (held_definition d)) }
    ensures size { IfSome result (λ d. form_size (form_of d.ty.now) + form_size (form_of d.value.now) < form_size (form_of form.now)) }
{
    let (head, name, ty, value) = four(listed(form)?)?;
    match top_head(head) {
        Some(TopWord::Define) => {
            let name = as_binder(name, NameSpace::Terms)?;
            Some(Definition { name, ty, value })
        }
        _ => None,
    }
}

/// The `main` that a form is.
fn as_main<'a>(form: &'a Sexp) -> Option<Main<'a>>
    ensures parts { MatchOption result (main_parts (form_of form.now) ≡ None) (λ m. main_parts (form_of form.now) ≡ Some (held_main m)) }
    ensures size { IfSome result (λ m. forms_size (forms_of m.inputs.now) + form_size (form_of m.body.now) < form_size (form_of form.now)) }
{
    let (head, inputs, body) = three(listed(form)?)?;
    match top_head(head) {
        Some(TopWord::Main) => {
            let inputs = listed(inputs)?;
            Some(Main { inputs, body })
        }
        _ => None,
    }
}

/// What a definition at this place means: its type and its value.
fn meant<'a>(
    alloc: Global,
    scopes: &mut Scopes<'a>,
    form: &'a Sexp,
    parts: &Definition<'a>,
) -> Result<Def, NameRefusal>
    requires behind { scopes.old ≡ behind scopes.old.defs }
    requires room { HasRoom scopes.old (form_size (form_of parts.now.ty.now) + form_size (form_of parts.now.value.now)) }
    ensures read { Answers def_of result (meant_read scopes.old.defs (form_of form.now) (held_definition parts.now)) }
    ensures same { OnOk result (scopes.new ≡ scopes.old) }
{
    let ty = array_ty(alloc, scopes, parts.ty)?;
    let value = expr(alloc, scopes, parts.value)?;
    Ok(Def {
        at: form.at,
        ty,
        value,
    })
}

/// The definition that a form before the last means. Its name is known from then on.
fn read_definition<'a>(
    alloc: Global,
    scopes: &mut Scopes<'a>,
    form: &'a Sexp,
) -> Result<Def, NameRefusal>
    requires behind { scopes.old ≡ behind scopes.old.defs }
    requires room { HasRoom scopes.old (form_size (form_of form.now)) }
    ensures read { Answers def_of result (definition_read scopes.old.defs (form_of form.now)) }
    ensures known { OnOk result (scopes.new ≡ behind (known_behind scopes.old.defs (form_of form.now))) }
{
    let Some(parts) = as_definition(form) else {
        return Err(malformed(form.at));
    };
    if scopes.find_definition(parts.name.name).is_some() {
        return Err(repeated(parts.name.at));
    }
    let definition = meant(alloc, scopes, form, &parts)?;
    scopes.define(parts.name.name)?;
    Ok(definition)
}

/// The definitions that forms mean, each behind those before it.
fn read_definitions<'a>(
    alloc: Global,
    scopes: &mut Scopes<'a>,
    forms: &'a [Sexp],
) -> Result<Items<Def>, NameRefusal>
    requires behind { scopes.old ≡ behind scopes.old.defs }
    requires room { HasRoom scopes.old (forms_size (forms_of forms.now)) }
    ensures read { Answers (λ ds. each def_of ds) result (definitions_read scopes.old.defs (forms_of forms.now)) }
    ensures known { OnOk result (scopes.new ≡ behind (all_known scopes.old.defs (forms_of forms.now))) }
{
    let mut read = Vec::with_capacity(alloc, forms.len())?;
    for form in forms {
        let part = read_definition(alloc, scopes, form)?;
        read.push(part)?;
    }
    Ok(Items::from_vec(read))
}

/// What the last form means.
fn read_body<'a>(
    alloc: Global,
    scopes: &mut Scopes<'a>,
    form: &'a Sexp,
) -> Result<Body, NameRefusal>
    requires behind { scopes.old ≡ behind scopes.old.defs }
    requires room { HasRoom scopes.old (form_size (form_of form.now)) }
    ensures { Answers body_of result (body_read scopes.old.defs (form_of form.now)) }
{
    let at = form.at;
    let Some(parts) = as_main(form) else {
        return Err(malformed(at));
    };
    let bound = bound_names(alloc, at, parts.inputs, Listing::Paired, NameSpace::Terms)?;
    let inputs = pair_arrays(alloc, scopes, parts.inputs)?;
    scopes.enter(NameSpace::Terms, bound.as_slice())?;
    let body = expr(alloc, scopes, parts.body)?;
    Ok(Body { inputs, body })
}

/// The program that forms mean, or the first refusal in the order of reading: docs/LANGUAGE.md, "Names". Names are numbers
/// in it, counted from the innermost binder, and from the first definition.
pub fn resolve(alloc: Global, forms: &[Sexp]) -> Result<Program, NameRefusal>
    requires small { forms_size (forms_of forms.now) < 2 ^ 26 }
    requires short { AreShort (forms_of forms.now) }
    ensures { Answers program_of result (program_read (forms_of forms.now)) }
{
    let [before @ .., last] = forms else {
        return Err(malformed(Span {
            from: 0,
            to: 0,
            line: 1,
            col: 1,
        }));
    };
    let mut scopes = Scopes::new(alloc);
    let defs = read_definitions(alloc, &mut scopes, before)?;
    let Body { inputs, body } = read_body(alloc, &mut scopes, last)?;
    Ok(Program { defs, inputs, body })
}

ghost use Rattle.std.specs.Prelude.{◌≡◌, ◌+◌, Ok, OnOk};
ghost use Rattle.core_syntax.specs.Kinds.{is_atom_kind};
ghost use Rattle.core_syntax.specs.Lists.{each};
ghost use Rattle.core_syntax.specs.Refine.{index_of, ty_of, tys_of};
ghost use Rattle.core_syntax.specs.Syntax.{Arr};
ghost use Rattle.sexp_reader.specs.Forms.{form_of, forms_of, form_size, forms_size};
ghost use Rattle.name_resolve.specs.Answers.{Answers};
ghost use Rattle.name_resolve.specs.IndexForms.{index as index_read};
ghost use Rattle.name_resolve.specs.Reading.{both};
ghost use Rattle.name_resolve.specs.Scopes.{HasRoom};
ghost use Rattle.name_resolve.specs.TypeForms.{
  sort_of,
  pair_sort as pair_sort_read,
  pair_sorts as pair_sorts_read,
  type_head,
  named_ty as named_ty_read,
  as_array as as_array_of,
  arrow as arrow_read,
  forall as forall_read,
  quantified_ty as quantified_ty_of,
  quantified as quantified_read,
  ty as ty_read,
  arrays_in,
  arrays as arrays_read,
  array_ty as array_ty_read,
  types as types_read,
  pair_array as pair_array_read,
  pair_arrays as pair_arrays_read,
};

use crate::binders::{Listing, bound_names};
use crate::errors::{NameRefusal, given_up, malformed, unknown};
use crate::indices::index;
use crate::lists::{pair_of, some_listed, three};
use crate::scopes::Scopes;
use crate::words::{NameSpace, Quantifier, TypeWord, base_word, sort_named, type_word};
use core_syntax::{Index, IndexForm, Sort, Span, Ty, TyForm};
use sexp_reader::{Sexp, SexpForm};
use sqlite_items::Items;
use std::alloc::Global;

/// The sort that a form is.
fn sort(form: &Sexp) -> Result<Sort, NameRefusal>
    ensures { Answers (λ s. s) result (sort_of (form_of form.now)) }
{
    let at = form.at;
    match &form.form {
        SexpForm::Symbol(name) => match sort_named(name.as_slice()) {
            Some(sort) => Ok(sort),
            None => Err(malformed(at)),
        },
        _ => Err(malformed(at)),
    }
}

/// The sort that the second part of a pair is.
fn pair_sort(pair: &Sexp) -> Result<Sort, NameRefusal>
    ensures { Answers (λ s. s) result (pair_sort_read (form_of pair.now)) }
{
    match pair_of(pair) {
        Some((_, right)) => sort(right),
        None => Err(malformed(pair.at)),
    }
}

/// The sorts that the second parts of pairs are.
pub fn pair_sorts(alloc: Global, pairs: &[Sexp]) -> Result<Items<Sort>, NameRefusal>
    ensures { Answers (λ ss. ss) result (pair_sorts_read (forms_of pairs.now)) }
{
    let mut read = Vec::with_capacity(alloc, pairs.len())?;
    for pair in pairs {
        let part = pair_sort(pair)?;
        read.push(part)?;
    }
    Ok(Items::from_vec(read))
}

/// Whether a type is an atom type.
fn is_atom(ty: &Ty) -> bool
    ensures { result ≡ is_atom_kind (ty_of ty.now) }
{
    match &ty.form {
        TyForm::Base(_) => true,
        TyForm::Var(_) => true,
        TyForm::Fun(_, _) => true,
        TyForm::Forall(_, _) => true,
        TyForm::Pi(_, _) => true,
        TyForm::Sigma(_, _) => true,
        TyForm::Arr(_, _) => false,
    }
}

/// A type in an array type's place, where an atom type stands for its scalar array type.
fn as_array(alloc: Global, ty: Ty) -> Result<Ty, NameRefusal>
    ensures { Answers ty_of result (Ok (as_array_of (ty_of ty))) }
{
    if !is_atom(&ty) {
        return Ok(ty);
    }
    let at = ty.at;
    let shape = Index {
        at,
        form: IndexForm::Dims(Items::new(alloc)),
    };
    let array = Ty::array(alloc, at, ty, shape)?;
    Ok(array)
}

/// The word at the head of a type.
fn head_type_word(head: &Sexp) -> Option<TypeWord>
    ensures { result ≡ type_head (form_of head.now) }
{
    match &head.form {
        SexpForm::Symbol(word) => type_word(word.as_slice()),
        _ => None,
    }
}

/// The type that a name means.
fn named_ty(scopes: &Scopes, at: Span, name: &[u8]) -> Result<Ty, NameRefusal>
    ensures { Answers ty_of result (named_ty_read scopes.now at name.now) }
{
    match base_word(name) {
        Some(base) => Ok(Ty {
            at,
            form: TyForm::Base(base),
        }),
        None => match scopes.find_type(name) {
            Some(k) => Ok(Ty {
                at,
                form: TyForm::Var(k),
            }),
            None => Err(unknown(at)),
        },
    }
}

/// The type that a form means.
#[cycle(types)]
pub fn ty<'a>(alloc: Global, scopes: &mut Scopes<'a>, form: &'a Sexp) -> Result<Ty, NameRefusal>
    requires { HasRoom scopes.old (form_size (form_of form.now)) }
    ensures read { Answers ty_of result (ty_read scopes.old (form_of form.now)) }
    ensures same { OnOk result (scopes.new ≡ scopes.old) }
{
    let at = form.at;
    match &form.form {
        SexpForm::Symbol(name) => named_ty(scopes, at, name.as_slice()),
        SexpForm::Seq(items) => {
            let Some((head, first, second)) = three(items.as_slice()) else {
                return Err(malformed(at));
            };
            match head_type_word(head) {
                Some(TypeWord::Arr) => array(alloc, scopes, at, first, second),
                Some(TypeWord::Arrow) => arrow(alloc, scopes, at, first, second),
                Some(TypeWord::Forall) => forall(alloc, scopes, at, first, second),
                Some(TypeWord::Pi) => {
                    quantified(alloc, scopes, at, Quantifier::Pi, first, second)
                }
                Some(TypeWord::Sigma) => {
                    quantified(alloc, scopes, at, Quantifier::Sigma, first, second)
                }
                None => Err(malformed(at)),
            }
        }
        _ => Err(malformed(at)),
    }
}

/// The array type of these parts.
fn array_of(alloc: Global, at: Span, element: Ty, shape: Index) -> Result<Ty, NameRefusal>
    ensures { Answers ty_of result (Ok (Arr at (ty_of element) (index_of shape))) }
{
    let array = Ty::array(alloc, at, element, shape)?;
    Ok(array)
}

/// `(A T i)`
#[cycle(types)]
fn array<'a>(
    alloc: Global,
    scopes: &mut Scopes<'a>,
    at: Span,
    element: &'a Sexp,
    shape: &'a Sexp,
) -> Result<Ty, NameRefusal>
    requires { HasRoom scopes.old (form_size (form_of element.now) + form_size (form_of shape.now)) }
    ensures read { Answers ty_of result (both (Arr at) (ty_read scopes.old (form_of element.now)) (index_read scopes.old.indices (form_of shape.now))) }
    ensures same { OnOk result (scopes.new ≡ scopes.old) }
{
    let element = ty(alloc, scopes, element)?;
    match index(alloc, scopes.indices(), shape) {
        Ok(shape) => array_of(alloc, at, element, shape),
        Err(refusal) => Err(given_up(refusal, element)),
    }
}

/// `(-> (T T ...) T)`
#[cycle(types)]
fn arrow<'a>(
    alloc: Global,
    scopes: &mut Scopes<'a>,
    at: Span,
    list: &'a Sexp,
    answer: &'a Sexp,
) -> Result<Ty, NameRefusal>
    requires { HasRoom scopes.old (form_size (form_of list.now) + form_size (form_of answer.now)) }
    ensures read { Answers ty_of result (arrow_read at (form_of list.now) (arrays_in scopes.old (form_of list.now)) (ty_read scopes.old (form_of answer.now))) }
    ensures same { OnOk result (scopes.new ≡ scopes.old) }
{
    let Some(inputs) = some_listed(list) else {
        return Err(malformed(at));
    };
    let inputs = array_types(alloc, scopes, inputs)?;
    let answer = array_ty(alloc, scopes, answer)?;
    let function = Ty::function(alloc, at, inputs, answer)?;
    Ok(function)
}

/// `(Forall (x x ...) T)`
#[cycle(types)]
fn forall<'a>(
    alloc: Global,
    scopes: &mut Scopes<'a>,
    at: Span,
    list: &'a Sexp,
    body: &'a Sexp,
) -> Result<Ty, NameRefusal>
    requires { HasRoom scopes.old (form_size (form_of list.now) + form_size (form_of body.now)) }
    ensures read { Answers ty_of result (forall_read scopes.old at (form_of list.now) (λ names. ty_read names (form_of body.now))) }
    ensures same { OnOk result (scopes.new ≡ scopes.old) }
{
    let Some(names) = some_listed(list) else {
        return Err(malformed(at));
    };
    let bound = bound_names(alloc, at, names, Listing::Alone, NameSpace::Types)?;
    scopes.enter(NameSpace::Types, bound.as_slice())?;
    let body = array_ty(alloc, scopes, body)?;
    scopes.leave(NameSpace::Types, bound.len());
    let forall = Ty::forall(alloc, at, bound.len() as u32, body)?;
    Ok(forall)
}

/// A type of this quantifier.
fn quantified_ty(
    alloc: Global,
    at: Span,
    quantifier: Quantifier,
    sorts: Items<Sort>,
    body: Ty,
) -> Result<Ty, NameRefusal>
    ensures { Answers ty_of result (Ok (quantified_ty_of quantifier at sorts (ty_of body))) }
{
    let ty = match quantifier {
        Quantifier::Pi => Ty::pi(alloc, at, sorts, body)?,
        Quantifier::Sigma => Ty::sigma(alloc, at, sorts, body)?,
    };
    Ok(ty)
}

/// `(Pi ((x S) (x S) ...) T)` and `(Sigma ((x S) (x S) ...) T)`
#[cycle(types)]
fn quantified<'a>(
    alloc: Global,
    scopes: &mut Scopes<'a>,
    at: Span,
    quantifier: Quantifier,
    list: &'a Sexp,
    body: &'a Sexp,
) -> Result<Ty, NameRefusal>
    requires { HasRoom scopes.old (form_size (form_of list.now) + form_size (form_of body.now)) }
    ensures read { Answers ty_of result (quantified_read quantifier scopes.old at (form_of list.now) (λ names. ty_read names (form_of body.now))) }
    ensures same { OnOk result (scopes.new ≡ scopes.old) }
{
    let Some(pairs) = some_listed(list) else {
        return Err(malformed(at));
    };
    let bound = bound_names(alloc, at, pairs, Listing::Paired, NameSpace::Indices)?;
    let sorts = pair_sorts(alloc, pairs)?;
    scopes.enter(NameSpace::Indices, bound.as_slice())?;
    let body = array_ty(alloc, scopes, body)?;
    scopes.leave(NameSpace::Indices, bound.len());
    quantified_ty(alloc, at, quantifier, sorts, body)
}

/// The type that a form in an array type's place means.
#[cycle(types)]
pub fn array_ty<'a>(
    alloc: Global,
    scopes: &mut Scopes<'a>,
    form: &'a Sexp,
) -> Result<Ty, NameRefusal>
    requires { HasRoom scopes.old (form_size (form_of form.now)) }
    ensures read { Answers ty_of result (array_ty_read scopes.old (form_of form.now)) }
    ensures same { OnOk result (scopes.new ≡ scopes.old) }
{
    let read = ty(alloc, scopes, form)?;
    as_array(alloc, read)
}

/// The types that forms in array types' places mean.
#[cycle(types)]
fn array_types<'a>(
    alloc: Global,
    scopes: &mut Scopes<'a>,
    forms: &'a [Sexp],
) -> Result<Items<Ty>, NameRefusal>
    requires { HasRoom scopes.old (forms_size (forms_of forms.now)) }
    ensures read { Answers tys_of result (arrays_read scopes.old (forms_of forms.now)) }
    ensures same { OnOk result (scopes.new ≡ scopes.old) }
{
    let mut read = Vec::with_capacity(alloc, forms.len())?;
    for form in forms {
        let part = array_ty(alloc, scopes, form)?;
        read.push(part)?;
    }
    Ok(Items::from_vec(read))
}

/// The type that the second part of a pair means, in an array type's place.
fn pair_array<'a>(alloc: Global, scopes: &mut Scopes<'a>, pair: &'a Sexp) -> Result<Ty, NameRefusal>
    requires { HasRoom scopes.old (form_size (form_of pair.now)) }
    ensures read { Answers ty_of result (pair_array_read scopes.old (form_of pair.now)) }
    ensures same { OnOk result (scopes.new ≡ scopes.old) }
{
    match pair_of(pair) {
        Some((_, right)) => array_ty(alloc, scopes, right),
        None => Err(malformed(pair.at)),
    }
}

/// The types that the second parts of pairs mean, in array types' places.
pub fn pair_arrays<'a>(
    alloc: Global,
    scopes: &mut Scopes<'a>,
    pairs: &'a [Sexp],
) -> Result<Items<Ty>, NameRefusal>
    requires { HasRoom scopes.old (forms_size (forms_of pairs.now)) }
    ensures read { Answers tys_of result (pair_arrays_read scopes.old (forms_of pairs.now)) }
    ensures same { OnOk result (scopes.new ≡ scopes.old) }
{
    let mut read = Vec::with_capacity(alloc, pairs.len())?;
    for pair in pairs {
        let part = pair_array(alloc, scopes, pair)?;
        read.push(part)?;
    }
    Ok(Items::from_vec(read))
}

/// The types that forms mean.
pub fn types<'a>(
    alloc: Global,
    scopes: &mut Scopes<'a>,
    forms: &'a [Sexp],
) -> Result<Items<Ty>, NameRefusal>
    requires { HasRoom scopes.old (forms_size (forms_of forms.now)) }
    ensures read { Answers (λ ts. each ty_of ts) result (types_read scopes.old (forms_of forms.now)) }
    ensures same { OnOk result (scopes.new ≡ scopes.old) }
{
    let mut read = Vec::with_capacity(alloc, forms.len())?;
    for form in forms {
        let part = ty(alloc, scopes, form)?;
        read.push(part)?;
    }
    Ok(Items::from_vec(read))
}

ghost use Rattle.std.specs.Prelude.{◌≡◌, IfOk};
ghost use Rattle.core_syntax.specs.Refine.{ty_of, tys_of, index_of};
ghost use Rattle.core_syntax.specs.Syntax as syntax;

use crate::errors::Memory;
use crate::index::{Index, Sort};
use crate::span::Span;
use sqlite_items::{Boxed, Items};
use std::alloc::Global;

/// A base type (docs/LANGUAGE.md, "Types").
#[derive(Clone, Copy, Debug, PartialEq, Eq)]
pub enum Base {
    Int,
    Bool,
    Char,
}

/// The kind of a type: an array type has the kind Array, each other type the kind Atom.
#[derive(Clone, Copy, Debug, PartialEq, Eq)]
pub enum Kind {
    Atom,
    Array,
}

/// A type and its place in the source (docs/LANGUAGE.md, "Types"). Type variables and index variables count from the innermost
/// binder, 0 first, each in a space of their own.
#[cycle(ty)]
#[derive(Drop)]
pub struct Ty {
    pub at: Span,
    pub form: TyForm,
}

/// What a type is made of. Of the binders of one list the last is the innermost.
#[cycle(ty)]
#[derive(Drop)]
pub enum TyForm {
    Base(Base),
    /// A type variable.
    Var(u32),
    /// `(-> (T ..) T)`: the input types and the result type.
    Fun(Items<Ty>, Boxed<Ty>),
    /// `(Forall (x ..) T)`: how many type variables it binds, and its body.
    Forall(u32, Boxed<Ty>),
    /// `(Pi ((x S) ..) T)`: the sorts of the index variables that it binds, and its body.
    Pi(Items<Sort>, Boxed<Ty>),
    /// `(Sigma ((x S) ..) T)`: the same.
    Sigma(Items<Sort>, Boxed<Ty>),
    /// `(A T i)`: the type of the atoms, and the shape.
    Arr(Boxed<Ty>, Index),
}

impl Ty {
    /// `(-> (T ..) T)` at a place.
    pub fn function(alloc: Global, at: Span, inputs: Items<Ty>, answer: Ty) -> Result<Ty, Memory>
        ensures { IfOk result (λ t. ty_of t ≡ syntax.Fun at (tys_of inputs) (ty_of answer)) }
    {
        let answer = boxed(alloc, answer)?;
        Ok(Ty {
            at,
            form: TyForm::Fun(inputs, answer),
        })
    }

    /// `(Forall (x ..) T)` at a place, with so many variables.
    pub fn forall(alloc: Global, at: Span, count: u32, body: Ty) -> Result<Ty, Memory>
        ensures { IfOk result (λ t. ty_of t ≡ syntax.Forall at count (ty_of body)) }
    {
        let body = boxed(alloc, body)?;
        Ok(Ty {
            at,
            form: TyForm::Forall(count, body),
        })
    }

    /// `(Pi ((x S) ..) T)` at a place.
    pub fn pi(alloc: Global, at: Span, sorts: Items<Sort>, body: Ty) -> Result<Ty, Memory>
        ensures { IfOk result (λ t. ty_of t ≡ syntax.Pi at sorts (ty_of body)) }
    {
        let body = boxed(alloc, body)?;
        Ok(Ty {
            at,
            form: TyForm::Pi(sorts, body),
        })
    }

    /// `(Sigma ((x S) ..) T)` at a place.
    pub fn sigma(alloc: Global, at: Span, sorts: Items<Sort>, body: Ty) -> Result<Ty, Memory>
        ensures { IfOk result (λ t. ty_of t ≡ syntax.Sigma at sorts (ty_of body)) }
    {
        let body = boxed(alloc, body)?;
        Ok(Ty {
            at,
            form: TyForm::Sigma(sorts, body),
        })
    }

    /// `(A T i)` at a place.
    pub fn array(alloc: Global, at: Span, element: Ty, shape: Index) -> Result<Ty, Memory>
        ensures { IfOk result (λ t. ty_of t ≡ syntax.Arr at (ty_of element) (index_of shape)) }
    {
        let element = boxed(alloc, element)?;
        Ok(Ty {
            at,
            form: TyForm::Arr(element, shape),
        })
    }

    /// The same type once more, its places included.
    #[cycle(ty_copy)]
    pub fn copy(&self, alloc: Global) -> Result<Ty, Memory>
        ensures { IfOk result (λ c. c ≡ self.now) }
    {
        let form = match &self.form {
            TyForm::Base(b) => TyForm::Base(*b),
            TyForm::Var(k) => TyForm::Var(*k),
            TyForm::Fun(params, answer) => TyForm::Fun(
                copy_types(alloc, params.as_slice())?,
                copy_box(alloc, answer.get())?,
            ),
            TyForm::Forall(n, body) => TyForm::Forall(*n, copy_box(alloc, body.get())?),
            TyForm::Pi(sorts, body) => TyForm::Pi(
                copy_sorts(alloc, sorts.as_slice())?,
                copy_box(alloc, body.get())?,
            ),
            TyForm::Sigma(sorts, body) => TyForm::Sigma(
                copy_sorts(alloc, sorts.as_slice())?,
                copy_box(alloc, body.get())?,
            ),
            TyForm::Arr(elem, shape) => TyForm::Arr(
                copy_box(alloc, elem.get())?,
                shape.copy(alloc)?,
            ),
        };
        Ok(Ty { at: self.at, form })
    }
}

/// A copy in a box.
#[cycle(ty_copy)]
fn copy_box(alloc: Global, ty: &Ty) -> Result<Boxed<Ty>, Memory>
    ensures { IfOk result (λ c. c ≡ ty.now) }
{
    let copy = ty.copy(alloc)?;
    Boxed::new(alloc, copy).map_err(|_| Memory)
}

/// Copies of types.
#[cycle(ty_copy)]
pub(crate) fn copy_types(alloc: Global, types: &[Ty]) -> Result<Items<Ty>, Memory>
    ensures { IfOk result (λ c. c ≡ types.now) }
{
    let mut copies = Vec::new(alloc);
    for ty in types {
        let copy = ty.copy(alloc)?;
        copies.push(copy).map_err(|_| Memory)?;
    }
    Ok(Items::from_vec(copies))
}

/// A copy of sorts.
pub(crate) fn copy_sorts(alloc: Global, sorts: &[Sort]) -> Result<Items<Sort>, Memory>
    ensures { IfOk result (λ c. c ≡ sorts.now) }
{
    Items::from_slice(alloc, sorts).map_err(|_| Memory)
}

/// A type in a box.
fn boxed(alloc: Global, ty: Ty) -> Result<Boxed<Ty>, Memory>
    ensures { IfOk result (λ b. b ≡ ty) }
{
    Boxed::new(alloc, ty).map_err(|_| Memory)
}

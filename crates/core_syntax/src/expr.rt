ghost use Rattle.std.specs.Prelude.{◌≡◌, IfOk};
ghost use Rattle.core_syntax.specs.Lists.{each};
ghost use Rattle.core_syntax.specs.Refine.{index_of, ty_of, tys_of, expr_of, exprs_of, atom_of, atoms_of};
ghost use Rattle.core_syntax.specs.Syntax as syntax;

use crate::errors::Memory;
use crate::index::{Index, Sort, copy_parts};
use crate::primitive::Primitive;
use crate::span::Span;
use crate::ty::{Ty, copy_sorts, copy_types};
use sqlite_items::{Boxed, Items};
use std::alloc::Global;

/// An expression and its place in the source (docs/LANGUAGE.md, "Expressions"). Variables count from the innermost binder, 0
/// first, and terms, types and indices have a space each.
#[cycle(expr)]
#[derive(Drop)]
pub struct Expr {
    pub at: Span,
    pub form: ExprForm,
}

/// What an expression is made of.
#[cycle(expr)]
#[derive(Drop)]
pub enum ExprForm {
    /// A term variable.
    Var(u32),
    /// A definition, by its place among the definitions of the program.
    Def(u32),
    /// `(array (n ..) a ..)`: as many atoms as the product of the numbers.
    Array(Items<u32>, Items<Atom>),
    /// `(array (n ..) T)`, where the product is 0: the type of the atoms that it has none of.
    NoAtoms(Items<u32>, Ty),
    /// `(frame (n ..) e ..)`: as many cells as the product of the numbers.
    Frame(Items<u32>, Items<Expr>),
    /// `(frame (n ..) T)`, where the product is 0: the type of the cells that it has none of.
    NoCells(Items<u32>, Ty),
    /// `(e e ..)`: a function and its arguments.
    App(Boxed<Expr>, Items<Expr>),
    /// `(t-app e T ..)`
    TypeApp(Boxed<Expr>, Items<Ty>),
    /// `(i-app e i ..)`
    IndexApp(Boxed<Expr>, Items<Index>),
    /// `(unbox (x .. y e) T b)`: how many index variables it binds, the box, the type of its body, and the body, in which these
    /// and one term variable are bound.
    Unbox(u32, Boxed<Expr>, Ty, Boxed<Expr>),
}

/// An atom and its place in the source (docs/LANGUAGE.md, "Expressions").
#[cycle(expr)]
#[derive(Drop)]
pub struct Atom {
    pub at: Span,
    pub form: AtomForm,
}

/// What an atom is made of. Of the binders of one list the last is the innermost.
#[cycle(expr)]
#[derive(Drop)]
pub enum AtomForm {
    Int(i64),
    Bool(bool),
    Char(char),
    Prim(Primitive),
    /// `(fn ((x T) ..) T e)`: the input types, the type of the body, and the body.
    Fn(Items<Ty>, Ty, Boxed<Expr>),
    /// `(tfn (x ..) e)`: how many type variables it binds, and its body.
    TypeFn(u32, Boxed<Expr>),
    /// `(ifn ((x S) ..) e)`: the sorts of the index variables that it binds, and its body.
    IndexFn(Items<Sort>, Boxed<Expr>),
    /// `(box (i ..) e T)`: the hidden indices, the content, and the Sigma type.
    Boxed(Items<Index>, Boxed<Expr>, Ty),
}

impl Expr {
    /// `(array (n ..) a ..)` at a place.
    pub fn array(at: Span, dims: Items<u32>, atoms: Items<Atom>) -> Expr
        ensures { expr_of result ≡ syntax.Array at dims (atoms_of atoms) }
    {
        Expr {
            at,
            form: ExprForm::Array(dims, atoms),
        }
    }

    /// `(frame (n ..) e ..)` at a place.
    pub fn frame(at: Span, dims: Items<u32>, cells: Items<Expr>) -> Expr
        ensures { expr_of result ≡ syntax.Frame at dims (exprs_of cells) }
    {
        Expr {
            at,
            form: ExprForm::Frame(dims, cells),
        }
    }

    /// `(e e ..)` at a place.
    pub fn application(
        alloc: Global,
        at: Span,
        function: Expr,
        args: Items<Expr>,
    ) -> Result<Expr, Memory>
        ensures { IfOk result (λ e. expr_of e ≡ syntax.App at (expr_of function) (exprs_of args)) }
    {
        let function = boxed(alloc, function)?;
        Ok(Expr {
            at,
            form: ExprForm::App(function, args),
        })
    }

    /// `(t-app e T ..)` at a place.
    pub fn type_application(
        alloc: Global,
        at: Span,
        function: Expr,
        types: Items<Ty>,
    ) -> Result<Expr, Memory>
        ensures { IfOk result (λ e. expr_of e ≡ syntax.TypeApp at (expr_of function) (each ty_of types)) }
    {
        let function = boxed(alloc, function)?;
        Ok(Expr {
            at,
            form: ExprForm::TypeApp(function, types),
        })
    }

    /// `(i-app e i ..)` at a place.
    pub fn index_application(
        alloc: Global,
        at: Span,
        function: Expr,
        indices: Items<Index>,
    ) -> Result<Expr, Memory>
        ensures { IfOk result (λ e. expr_of e ≡ syntax.IndexApp at (expr_of function) (each index_of indices)) }
    {
        let function = boxed(alloc, function)?;
        Ok(Expr {
            at,
            form: ExprForm::IndexApp(function, indices),
        })
    }

    /// `(unbox (x .. y e) T b)` at a place, with so many index variables.
    pub fn unboxing(
        alloc: Global,
        at: Span,
        count: u32,
        content: Expr,
        answer: Ty,
        body: Expr,
    ) -> Result<Expr, Memory>
        ensures { IfOk result (λ e. expr_of e ≡ syntax.Unbox at count (expr_of content) (ty_of answer) (expr_of body)) }
    {
        let content = boxed(alloc, content)?;
        let body = boxed(alloc, body)?;
        Ok(Expr {
            at,
            form: ExprForm::Unbox(count, content, answer, body),
        })
    }

    /// The same expression once more, its places included.
    #[cycle(expr_copy)]
    pub fn copy(&self, alloc: Global) -> Result<Expr, Memory>
        ensures { IfOk result (λ c. c ≡ self.now) }
    {
        let form = match &self.form {
            ExprForm::Var(k) => ExprForm::Var(*k),
            ExprForm::Def(k) => ExprForm::Def(*k),
            ExprForm::Array(dims, atoms) => ExprForm::Array(
                copy_dims(alloc, dims.as_slice())?,
                copy_atoms(alloc, atoms.as_slice())?,
            ),
            ExprForm::NoAtoms(dims, ty) => ExprForm::NoAtoms(
                copy_dims(alloc, dims.as_slice())?,
                ty.copy(alloc)?,
            ),
            ExprForm::Frame(dims, cells) => ExprForm::Frame(
                copy_dims(alloc, dims.as_slice())?,
                copy_exprs(alloc, cells.as_slice())?,
            ),
            ExprForm::NoCells(dims, ty) => ExprForm::NoCells(
                copy_dims(alloc, dims.as_slice())?,
                ty.copy(alloc)?,
            ),
            ExprForm::App(function, args) => ExprForm::App(
                copy_expr(alloc, function.get())?,
                copy_exprs(alloc, args.as_slice())?,
            ),
            ExprForm::TypeApp(function, types) => ExprForm::TypeApp(
                copy_expr(alloc, function.get())?,
                copy_types(alloc, types.as_slice())?,
            ),
            ExprForm::IndexApp(function, indices) => ExprForm::IndexApp(
                copy_expr(alloc, function.get())?,
                copy_parts(alloc, indices.as_slice())?,
            ),
            ExprForm::Unbox(count, boxed, ty, body) => ExprForm::Unbox(
                *count,
                copy_expr(alloc, boxed.get())?,
                ty.copy(alloc)?,
                copy_expr(alloc, body.get())?,
            ),
        };
        Ok(Expr { at: self.at, form })
    }
}

impl Atom {
    /// `(fn ((x T) ..) T e)` at a place.
    pub fn function(
        alloc: Global,
        at: Span,
        inputs: Items<Ty>,
        answer: Ty,
        body: Expr,
    ) -> Result<Atom, Memory>
        ensures { IfOk result (λ a. atom_of a ≡ syntax.Fn at (tys_of inputs) (ty_of answer) (expr_of body)) }
    {
        let body = boxed(alloc, body)?;
        Ok(Atom {
            at,
            form: AtomForm::Fn(inputs, answer, body),
        })
    }

    /// `(tfn (x ..) e)` at a place, with so many variables.
    pub fn type_function(alloc: Global, at: Span, count: u32, body: Expr) -> Result<Atom, Memory>
        ensures { IfOk result (λ a. atom_of a ≡ syntax.TypeFn at count (expr_of body)) }
    {
        let body = boxed(alloc, body)?;
        Ok(Atom {
            at,
            form: AtomForm::TypeFn(count, body),
        })
    }

    /// `(ifn ((x S) ..) e)` at a place.
    pub fn index_function(
        alloc: Global,
        at: Span,
        sorts: Items<Sort>,
        body: Expr,
    ) -> Result<Atom, Memory>
        ensures { IfOk result (λ a. atom_of a ≡ syntax.IndexFn at sorts (expr_of body)) }
    {
        let body = boxed(alloc, body)?;
        Ok(Atom {
            at,
            form: AtomForm::IndexFn(sorts, body),
        })
    }

    /// `(box (i ..) e T)` at a place.
    pub fn boxed(
        alloc: Global,
        at: Span,
        indices: Items<Index>,
        content: Expr,
        ty: Ty,
    ) -> Result<Atom, Memory>
        ensures { IfOk result (λ a. atom_of a ≡ syntax.Boxed at (each index_of indices) (expr_of content) (ty_of ty)) }
    {
        let content = boxed(alloc, content)?;
        Ok(Atom {
            at,
            form: AtomForm::Boxed(indices, content, ty),
        })
    }

    /// The same atom once more, its places included.
    #[cycle(expr_copy)]
    pub fn copy(&self, alloc: Global) -> Result<Atom, Memory>
        ensures { IfOk result (λ c. c ≡ self.now) }
    {
        let form = match &self.form {
            AtomForm::Int(n) => AtomForm::Int(*n),
            AtomForm::Bool(b) => AtomForm::Bool(*b),
            AtomForm::Char(c) => AtomForm::Char(*c),
            AtomForm::Prim(p) => AtomForm::Prim(*p),
            AtomForm::Fn(params, answer, body) => AtomForm::Fn(
                copy_types(alloc, params.as_slice())?,
                answer.copy(alloc)?,
                copy_expr(alloc, body.get())?,
            ),
            AtomForm::TypeFn(count, body) => AtomForm::TypeFn(
                *count,
                copy_expr(alloc, body.get())?,
            ),
            AtomForm::IndexFn(sorts, body) => AtomForm::IndexFn(
                copy_sorts(alloc, sorts.as_slice())?,
                copy_expr(alloc, body.get())?,
            ),
            AtomForm::Boxed(indices, content, ty) => AtomForm::Boxed(
                copy_parts(alloc, indices.as_slice())?,
                copy_expr(alloc, content.get())?,
                ty.copy(alloc)?,
            ),
        };
        Ok(Atom { at: self.at, form })
    }
}

/// A copy of the numbers of an array or a frame.
fn copy_dims(alloc: Global, dims: &[u32]) -> Result<Items<u32>, Memory>
    ensures { IfOk result (λ c. c ≡ dims.now) }
{
    Items::from_slice(alloc, dims).map_err(|_| Memory)
}

/// A copy in a box.
#[cycle(expr_copy)]
fn copy_expr(alloc: Global, expr: &Expr) -> Result<Boxed<Expr>, Memory>
    ensures { IfOk result (λ c. c ≡ expr.now) }
{
    let copy = expr.copy(alloc)?;
    Boxed::new(alloc, copy).map_err(|_| Memory)
}

/// Copies of expressions.
#[cycle(expr_copy)]
fn copy_exprs(alloc: Global, exprs: &[Expr]) -> Result<Items<Expr>, Memory>
    ensures { IfOk result (λ c. c ≡ exprs.now) }
{
    let mut copies = Vec::new(alloc);
    for expr in exprs {
        let copy = expr.copy(alloc)?;
        copies.push(copy).map_err(|_| Memory)?;
    }
    Ok(Items::from_vec(copies))
}

/// Copies of atoms.
#[cycle(expr_copy)]
fn copy_atoms(alloc: Global, atoms: &[Atom]) -> Result<Items<Atom>, Memory>
    ensures { IfOk result (λ c. c ≡ atoms.now) }
{
    let mut copies = Vec::new(alloc);
    for atom in atoms {
        let copy = atom.copy(alloc)?;
        copies.push(copy).map_err(|_| Memory)?;
    }
    Ok(Items::from_vec(copies))
}

/// An expression in a box.
fn boxed(alloc: Global, expr: Expr) -> Result<Boxed<Expr>, Memory>
    ensures { IfOk result (λ b. b ≡ expr) }
{
    Boxed::new(alloc, expr).map_err(|_| Memory)
}

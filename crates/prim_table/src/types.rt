ghost use Rattle.std.specs.Prelude.{◌≡◌, [], ◌∷◌, IfOk};
ghost use Rattle.core_syntax.specs.declared.primitive.Primitive.TheVariants as primitive;
ghost use Rattle.core_syntax.specs.Lists.{each};
ghost use Rattle.core_syntax.specs.Prims.{prim_type, function as function_type, scalar as scalar_type, for_all as forall_type, pi as pi_type, sigma as sigma_type, on_one as on_one_type, on_two as on_two_type, over_m as over_m_type, over_m_n as over_m_n_type};
ghost use Rattle.core_syntax.specs.Refine.{ty_of};
ghost use Rattle.prim_table.specs.Parts.{part_of};

use crate::parts::{Dim, NOWHERE, Part, Shape, array, arrays, led, scalar};
use core_syntax::{Base, Memory, Primitive, Sort, Ty};
use sqlite_items::Items;
use std::alloc::Global;

/// The type of a primitive, by the table of docs/LANGUAGE.md, "Primitives". Its parts have the empty place at offset 0, line 1
/// and column 1. It is refused only for want of memory.
pub fn type_of(alloc: Global, p: Primitive) -> Result<Ty, Memory>
    ensures { IfOk result (λ t. ty_of t ≡ prim_type p) }
{
    match p {
        Primitive::Add
        | Primitive::Sub
        | Primitive::Mul
        | Primitive::Div
        | Primitive::Mod
        | Primitive::Min
        | Primitive::Max => on_two(alloc, Base::Int, Base::Int),
        Primitive::Equal | Primitive::Less | Primitive::AtMost => {
            on_two(alloc, Base::Int, Base::Bool)
        }
        Primitive::CharEqual | Primitive::CharLess => on_two(alloc, Base::Char, Base::Bool),
        Primitive::CharToInt => on_one(alloc, Base::Char, Base::Int),
        Primitive::BoolToInt => on_one(alloc, Base::Bool, Base::Int),
        Primitive::And | Primitive::Or => on_two(alloc, Base::Bool, Base::Bool),
        Primitive::Not => on_one(alloc, Base::Bool, Base::Bool),
        Primitive::Select => select(alloc),
        Primitive::Append => append(alloc),
        Primitive::Reverse => reverse(alloc),
        Primitive::Take => take(alloc),
        Primitive::Drop => drop_first(alloc),
        Primitive::Transpose => transpose(alloc),
        Primitive::Replicate => replicate(alloc),
        Primitive::Length => length(alloc),
        Primitive::Positions => positions(alloc),
        Primitive::IndexOr => index_or(alloc),
        Primitive::Reduce => reduce(alloc),
        Primitive::Fold => fold(alloc),
        Primitive::Iota => iota(alloc),
        Primitive::Reshape => reshape(alloc),
        Primitive::Ravel => ravel(alloc),
        Primitive::Filter => filter(alloc),
    }
}

// `(-> (T ..) T)`
fn function(alloc: Global, inputs: &[Part], answer: Part) -> Result<Ty, Memory>
    ensures { IfOk result (λ t. ty_of t ≡ function_type (each part_of inputs.now) (part_of answer)) }
{
    let inputs = arrays(alloc, inputs)?;
    let answer = array(alloc, answer)?;
    Ty::function(alloc, NOWHERE, inputs, answer)
}

// `(A (Sigma ((x S)) T) (shape))`
fn boxed(alloc: Global, hidden: Sort, content: Part) -> Result<Ty, Memory>
    ensures { IfOk result (λ t. ty_of t ≡ scalar_type (sigma_type (hidden ∷ []) (part_of content))) }
{
    let bound = sorts(alloc, &[hidden])?;
    let content = array(alloc, content)?;
    let sigma = Ty::sigma(alloc, NOWHERE, bound, content)?;
    scalar(alloc, sigma)
}

// `(-> (T ..) (A (Sigma ((x S)) T) (shape)))`
fn boxing(alloc: Global, inputs: &[Part], hidden: Sort, content: Part) -> Result<Ty, Memory>
    ensures { IfOk result (λ t. ty_of t ≡ function_type (each part_of inputs.now) (scalar_type (sigma_type (hidden ∷ []) (part_of content)))) }
{
    let inputs = arrays(alloc, inputs)?;
    let answer = boxed(alloc, hidden, content)?;
    Ty::function(alloc, NOWHERE, inputs, answer)
}

// `(A (-> (R T) R) (shape))`: what joins an item to what came before it.
fn step(alloc: Global, item: Part, answer: Part) -> Result<Ty, Memory>
    ensures { IfOk result (λ t. ty_of t ≡ scalar_type (function_type (part_of answer ∷ part_of item ∷ []) (part_of answer))) }
{
    let step = function(alloc, &[answer, item], answer)?;
    scalar(alloc, step)
}

// `(-> ((A (-> (R T) R) (shape)) U ..) R)`
fn folding(alloc: Global, item: Part, rest: &[Part], answer: Part) -> Result<Ty, Memory>
    ensures { IfOk result (λ t. ty_of t ≡ function_type (scalar_type (function_type (part_of answer ∷ part_of item ∷ []) (part_of answer)) ∷ each part_of rest.now) (part_of answer)) }
{
    let step = step(alloc, item, answer)?;
    let inputs = led(alloc, step, rest)?;
    let answer = array(alloc, answer)?;
    Ty::function(alloc, NOWHERE, inputs, answer)
}

// A list of sorts.
fn sorts(alloc: Global, sorts: &[Sort]) -> Result<Items<Sort>, Memory>
    ensures { IfOk result (λ ss. ss ≡ sorts.now) }
{
    Items::from_slice(alloc, sorts).map_err(|_| Memory)
}

// `(Forall (t ..) (A T (shape)))`
fn for_all(alloc: Global, count: u32, body: Ty) -> Result<Ty, Memory>
    ensures { IfOk result (λ t. ty_of t ≡ forall_type count (ty_of body)) }
{
    let body = scalar(alloc, body)?;
    Ty::forall(alloc, NOWHERE, count, body)
}

// `(Pi ((x S) ..) (A T (shape)))`
fn pi(alloc: Global, bound: &[Sort], body: Ty) -> Result<Ty, Memory>
    ensures { IfOk result (λ t. ty_of t ≡ pi_type bound.now (ty_of body)) }
{
    let body = scalar(alloc, body)?;
    match sorts(alloc, bound) {
        Ok(bound) => Ty::pi(alloc, NOWHERE, bound, body),
        Err(e) => Err(e),
    }
}

// `(Forall (t ..) (A (Pi ((x S) ..) (A T (shape))) (shape)))`
fn universal(alloc: Global, count: u32, bound: &[Sort], body: Ty) -> Result<Ty, Memory>
    ensures { IfOk result (λ t. ty_of t ≡ forall_type count (pi_type bound.now (ty_of body))) }
{
    let body = pi(alloc, bound, body)?;
    for_all(alloc, count, body)
}

// A type over one type variable, m and s.
fn over_m(alloc: Global, body: Ty) -> Result<Ty, Memory>
    ensures { IfOk result (λ t. ty_of t ≡ over_m_type (λ m s. ty_of body)) }
{
    universal(alloc, 1, &[Sort::Dim, Sort::Shape], body)
}

// A type over one type variable, m, n and s.
fn over_m_n(alloc: Global, body: Ty) -> Result<Ty, Memory>
    ensures { IfOk result (λ t. ty_of t ≡ over_m_n_type (λ m n s. ty_of body)) }
{
    universal(alloc, 1, &[Sort::Dim, Sort::Dim, Sort::Shape], body)
}

fn on_one(alloc: Global, input: Base, answer: Base) -> Result<Ty, Memory>
    ensures { IfOk result (λ t. ty_of t ≡ on_one_type input answer) }
{
    let input = Part::Base(input, Shape::Scalar);
    function(alloc, &[input], Part::Base(answer, Shape::Scalar))
}

fn on_two(alloc: Global, input: Base, answer: Base) -> Result<Ty, Memory>
    ensures { IfOk result (λ t. ty_of t ≡ on_two_type input answer) }
{
    let input = Part::Base(input, Shape::Scalar);
    function(alloc, &[input, input], Part::Base(answer, Shape::Scalar))
}

fn select(alloc: Global) -> Result<Ty, Memory>
    ensures { IfOk result (λ t. ty_of t ≡ prim_type primitive.Select) }
{
    let which = Part::Base(Base::Bool, Shape::Scalar);
    let item = Part::Var(0, Shape::Scalar);
    let body = function(alloc, &[which, item, item], item)?;
    for_all(alloc, 1, body)
}

fn append(alloc: Global) -> Result<Ty, Memory>
    ensures { IfOk result (λ t. ty_of t ≡ prim_type primitive.Append) }
{
    let (m, n, s) = (2, 1, 0);
    let front = Part::Var(0, Shape::Cells(Dim::Var(m), s));
    let back = Part::Var(0, Shape::Cells(Dim::Var(n), s));
    let both = Part::Var(0, Shape::Cells(Dim::Sum(m, n), s));
    let body = function(alloc, &[front, back], both)?;
    over_m_n(alloc, body)
}

fn reverse(alloc: Global) -> Result<Ty, Memory>
    ensures { IfOk result (λ t. ty_of t ≡ prim_type primitive.Reverse) }
{
    let (m, s) = (1, 0);
    let all = Part::Var(0, Shape::Cells(Dim::Var(m), s));
    let body = function(alloc, &[all], all)?;
    over_m(alloc, body)
}

fn take(alloc: Global) -> Result<Ty, Memory>
    ensures { IfOk result (λ t. ty_of t ≡ prim_type primitive.Take) }
{
    let (m, n, s) = (2, 1, 0);
    let all = Part::Var(0, Shape::Cells(Dim::Sum(m, n), s));
    let front = Part::Var(0, Shape::Cells(Dim::Var(m), s));
    let body = function(alloc, &[all], front)?;
    over_m_n(alloc, body)
}

fn drop_first(alloc: Global) -> Result<Ty, Memory>
    ensures { IfOk result (λ t. ty_of t ≡ prim_type primitive.Drop) }
{
    let (m, n, s) = (2, 1, 0);
    let all = Part::Var(0, Shape::Cells(Dim::Sum(m, n), s));
    let back = Part::Var(0, Shape::Cells(Dim::Var(n), s));
    let body = function(alloc, &[all], back)?;
    over_m_n(alloc, body)
}

fn transpose(alloc: Global) -> Result<Ty, Memory>
    ensures { IfOk result (λ t. ty_of t ≡ prim_type primitive.Transpose) }
{
    let (m, n, s) = (Dim::Var(2), Dim::Var(1), 0);
    let rows = Part::Var(0, Shape::Rows(m, n, s));
    let columns = Part::Var(0, Shape::Rows(n, m, s));
    let body = function(alloc, &[rows], columns)?;
    over_m_n(alloc, body)
}

fn replicate(alloc: Global) -> Result<Ty, Memory>
    ensures { IfOk result (λ t. ty_of t ≡ prim_type primitive.Replicate) }
{
    let (m, s) = (1, 0);
    let cell = Part::Var(0, Shape::Cell(s));
    let body = function(alloc, &[cell], Part::Var(0, Shape::Cells(Dim::Var(m), s)))?;
    over_m(alloc, body)
}

fn length(alloc: Global) -> Result<Ty, Memory>
    ensures { IfOk result (λ t. ty_of t ≡ prim_type primitive.Length) }
{
    let (m, s) = (1, 0);
    let all = Part::Var(0, Shape::Cells(Dim::Var(m), s));
    let body = function(alloc, &[all], Part::Base(Base::Int, Shape::Scalar))?;
    over_m(alloc, body)
}

fn positions(alloc: Global) -> Result<Ty, Memory>
    ensures { IfOk result (λ t. ty_of t ≡ prim_type primitive.Positions) }
{
    let (m, s) = (Dim::Var(1), 0);
    let all = Part::Var(0, Shape::Cells(m, s));
    let body = function(alloc, &[all], Part::Base(Base::Int, Shape::Vector(m)))?;
    over_m(alloc, body)
}

fn index_or(alloc: Global) -> Result<Ty, Memory>
    ensures { IfOk result (λ t. ty_of t ≡ prim_type primitive.IndexOr) }
{
    let (m, s) = (1, 0);
    let all = Part::Var(0, Shape::Cells(Dim::Var(m), s));
    let position = Part::Base(Base::Int, Shape::Scalar);
    let cell = Part::Var(0, Shape::Cell(s));
    let body = function(alloc, &[all, position, cell], cell)?;
    over_m(alloc, body)
}

fn reduce(alloc: Global) -> Result<Ty, Memory>
    ensures { IfOk result (λ t. ty_of t ≡ prim_type primitive.Reduce) }
{
    let (d, s) = (1, 0);
    let cell = Part::Var(0, Shape::Cell(s));
    let all = Part::Var(0, Shape::Cells(Dim::OneAnd(d), s));
    let body = folding(alloc, cell, &[all], cell)?;
    over_m(alloc, body)
}

fn fold(alloc: Global) -> Result<Ty, Memory>
    ensures { IfOk result (λ t. ty_of t ≡ prim_type primitive.Fold) }
{
    let (t, u) = (1, 0);
    let (d, s, r) = (2, 1, 0);
    let item = Part::Var(t, Shape::Cell(s));
    let answer = Part::Var(u, Shape::Cell(r));
    let all = Part::Var(t, Shape::Cells(Dim::Var(d), s));
    let body = folding(alloc, item, &[answer, all], answer)?;
    universal(alloc, 2, &[Sort::Dim, Sort::Shape, Sort::Shape], body)
}

fn iota(alloc: Global) -> Result<Ty, Memory>
    ensures { IfOk result (λ t. ty_of t ≡ prim_type primitive.Iota) }
{
    let dims = Part::Base(Base::Int, Shape::Vector(Dim::Var(0)));
    let numbers = Part::Base(Base::Int, Shape::Cell(0));
    let body = boxing(alloc, &[dims], Sort::Shape, numbers)?;
    pi(alloc, &[Sort::Dim], body)
}

fn reshape(alloc: Global) -> Result<Ty, Memory>
    ensures { IfOk result (λ t. ty_of t ≡ prim_type primitive.Reshape) }
{
    let (d, s) = (1, 0);
    let dims = Part::Base(Base::Int, Shape::Vector(Dim::Var(d)));
    let all = Part::Var(0, Shape::Cell(s));
    let filler = Part::Var(0, Shape::Scalar);
    let inputs = [dims, all, filler];
    let body = boxing(alloc, &inputs, Sort::Shape, Part::Var(0, Shape::Cell(0)))?;
    over_m(alloc, body)
}

fn ravel(alloc: Global) -> Result<Ty, Memory>
    ensures { IfOk result (λ t. ty_of t ≡ prim_type primitive.Ravel) }
{
    let all = Part::Var(0, Shape::Cell(0));
    let line = Part::Var(0, Shape::Vector(Dim::Var(0)));
    let body = boxing(alloc, &[all], Sort::Dim, line)?;
    universal(alloc, 1, &[Sort::Shape], body)
}

fn filter(alloc: Global) -> Result<Ty, Memory>
    ensures { IfOk result (λ t. ty_of t ≡ prim_type primitive.Filter) }
{
    let (m, s) = (Dim::Var(1), 0);
    let which = Part::Base(Base::Bool, Shape::Vector(m));
    let all = Part::Var(0, Shape::Cells(m, s));
    let left = Part::Var(0, Shape::Cells(Dim::Var(0), 1));
    let body = boxing(alloc, &[which, all], Sort::Dim, left)?;
    over_m(alloc, body)
}

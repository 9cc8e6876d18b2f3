ghost use Rattle.std.specs.Prelude.{◌≡◌, [], ◌∷◌, IfOk};
ghost use Rattle.core_syntax.specs.Lists.{each};
ghost use Rattle.core_syntax.specs.Nodes.{number as number_index, var, vector as vector_index, joined_shape, total};
ghost use Rattle.core_syntax.specs.Prims.{array_of as array_type, scalar as scalar_type};
ghost use Rattle.core_syntax.specs.Refine.{index_of, indices_of, ty_form_of, ty_of, tys_of};
ghost use Rattle.core_syntax.specs.Syntax.{Dims, Join, Sum, no_span, ty_list};
ghost use Rattle.prim_table.specs.Parts.{dim_of, shape_of, part_of};

use core_syntax::{Base, Index, IndexForm, Memory, Span, Ty, TyForm};
use sqlite_items::Items;
use std::alloc::Global;

/// The place of what stands nowhere in the source.
pub(crate) const NOWHERE: Span = Span {
    from: 0,
    to: 0,
    line: 1,
    col: 1,
};

/// A dimension of a primitive's type.
#[derive(Clone, Copy)]
pub(crate) enum Dim {
    /// A Dim variable.
    Var(u32),
    /// The sum of two.
    Sum(u32, u32),
    /// One more than a variable.
    OneAnd(u32),
}

/// A shape of a primitive's type. `s` is a Shape variable.
#[derive(Clone, Copy)]
pub(crate) enum Shape {
    /// `(shape)`
    Scalar,
    /// `(shape d)`
    Vector(Dim),
    /// `s`
    Cell(u32),
    /// `(++ (shape d) s)`
    Cells(Dim, u32),
    /// `(++ (shape d e) s)`
    Rows(Dim, Dim, u32),
}

/// An input or a result of a primitive: an array of this shape.
#[derive(Clone, Copy)]
pub(crate) enum Part {
    /// Base values.
    Base(Base, Shape),
    /// Atoms of the type of a type variable.
    Var(u32, Shape),
}

/// A list of these.
fn items<T: Drop, const N: usize>(alloc: Global, parts: [T; N]) -> Result<Items<T>, Memory>
    ensures { IfOk result (λ is. is ≡ parts) }
{
    match Vec::from_array(alloc, parts) {
        Ok(parts) => Ok(Items::from_vec(parts)),
        Err(_) => Err(Memory),
    }
}

fn number(n: u64) -> Index
    ensures { index_of result ≡ number_index n }
{
    Index {
        at: NOWHERE,
        form: IndexForm::Num(n),
    }
}

fn variable(k: u32) -> Index
    ensures { index_of result ≡ var k }
{
    Index {
        at: NOWHERE,
        form: IndexForm::Var(k),
    }
}

// `(+ i j)`
fn sum(alloc: Global, i: Index, j: Index) -> Result<Index, Memory>
    ensures { IfOk result (λ s. index_of s ≡ total (index_of i ∷ index_of j ∷ [])) }
{
    let parts = items(alloc, [i, j])?;
    Ok(Index {
        at: NOWHERE,
        form: IndexForm::Sum(parts),
    })
}

// `(shape i ..)`
fn vector(parts: Items<Index>) -> Index
    ensures { index_of result ≡ Dims no_span (indices_of parts) }
{
    Index {
        at: NOWHERE,
        form: IndexForm::Dims(parts),
    }
}

// `(++ i j)`
fn joined(alloc: Global, i: Index, j: Index) -> Result<Index, Memory>
    ensures { IfOk result (λ s. index_of s ≡ joined_shape (index_of i ∷ index_of j ∷ [])) }
{
    let parts = items(alloc, [i, j])?;
    Ok(Index {
        at: NOWHERE,
        form: IndexForm::Join(parts),
    })
}

fn dim_index(alloc: Global, dim: Dim) -> Result<Index, Memory>
    ensures { IfOk result (λ i. index_of i ≡ dim_of dim) }
{
    match dim {
        Dim::Var(k) => Ok(variable(k)),
        Dim::Sum(j, k) => sum(alloc, variable(j), variable(k)),
        Dim::OneAnd(k) => sum(alloc, number(1), variable(k)),
    }
}

// `(shape d)`
fn one_dim(alloc: Global, first: Dim) -> Result<Index, Memory>
    ensures { IfOk result (λ i. index_of i ≡ vector_index (dim_of first ∷ [])) }
{
    let first = dim_index(alloc, first)?;
    let parts = items(alloc, [first])?;
    Ok(vector(parts))
}

// `(shape d e)`
fn two_dims(alloc: Global, first: Dim, second: Dim) -> Result<Index, Memory>
    ensures { IfOk result (λ i. index_of i ≡ vector_index (dim_of first ∷ dim_of second ∷ [])) }
{
    let first = dim_index(alloc, first)?;
    let second = dim_index(alloc, second)?;
    let parts = items(alloc, [first, second])?;
    Ok(vector(parts))
}

fn shape_index(alloc: Global, shape: Shape) -> Result<Index, Memory>
    ensures { IfOk result (λ i. index_of i ≡ shape_of shape) }
{
    match shape {
        Shape::Scalar => Ok(vector(Items::new(alloc))),
        Shape::Vector(d) => one_dim(alloc, d),
        Shape::Cell(s) => Ok(variable(s)),
        Shape::Cells(d, s) => {
            let dims = one_dim(alloc, d)?;
            joined(alloc, dims, variable(s))
        }
        Shape::Rows(d, e, s) => {
            let dims = two_dims(alloc, d, e)?;
            joined(alloc, dims, variable(s))
        }
    }
}

fn array_of(alloc: Global, element: TyForm, shape: Shape) -> Result<Ty, Memory>
    ensures { IfOk result (λ t. ty_of t ≡ array_type (ty_form_of no_span element) (shape_of shape)) }
{
    let shape = shape_index(alloc, shape)?;
    let element = Ty {
        at: NOWHERE,
        form: element,
    };
    Ty::array(alloc, NOWHERE, element, shape)
}

/// The array type of an input or a result.
pub(crate) fn array(alloc: Global, part: Part) -> Result<Ty, Memory>
    ensures { IfOk result (λ t. ty_of t ≡ part_of part) }
{
    match part {
        Part::Base(b, shape) => array_of(alloc, TyForm::Base(b), shape),
        Part::Var(k, shape) => array_of(alloc, TyForm::Var(k), shape),
    }
}

/// The type of scalars of a type.
pub(crate) fn scalar(alloc: Global, element: Ty) -> Result<Ty, Memory>
    ensures { IfOk result (λ t. ty_of t ≡ scalar_type (ty_of element)) }
{
    Ty::array(alloc, NOWHERE, element, vector(Items::new(alloc)))
}

/// The array types of inputs.
pub(crate) fn arrays(alloc: Global, parts: &[Part]) -> Result<Items<Ty>, Memory>
    ensures { IfOk result (λ ts. tys_of ts ≡ ty_list (each part_of parts.now)) }
{
    let mut types = Vec::new(alloc);
    for part in parts {
        let ty = array(alloc, *part)?;
        types.push(ty).map_err(|_| Memory)?;
    }
    Ok(Items::from_vec(types))
}

/// The array types of inputs, with the first given.
pub(crate) fn led(alloc: Global, first: Ty, rest: &[Part]) -> Result<Items<Ty>, Memory>
    ensures { IfOk result (λ ts. tys_of ts ≡ ty_list (ty_of first ∷ each part_of rest.now)) }
{
    let mut types = items(alloc, [first])?;
    let rest = arrays(alloc, rest)?;
    types.append(rest).map_err(|_| Memory)?;
    Ok(types)
}

ghost use Rattle.std.specs.Prelude.{◌≡◌, IfOk};

use crate::errors::Memory;
use crate::index::{Index, Sort, copy_parts};
use crate::parts::{Part, Parts};
use crate::primitive::Primitive;
use crate::ty::{Ty, copy_sorts, copy_types};
use sqlite_items::Items;
use std::alloc::Global;

/// A term: an expression with its annotations, on which typed reduction runs (docs/LANGUAGE.md, "Reduction"). Variables count
/// from the innermost binder, 0 first, and terms, types and indices have a space each.
#[cycle(term)]
#[derive(Drop)]
pub enum TermExpr {
    /// A term variable.
    Var(u32),
    /// A definition, by its place among the definitions of the program.
    Def(u32),
    /// `(array (n ..) a ..)`: as many atoms as the product of the numbers.
    Array(Items<u32>, Parts<TermAtom>),
    /// `(array (n ..) T)`, where the product is 0: the type of the atoms that it has none of.
    NoAtoms(Items<u32>, Ty),
    /// `(frame (n ..) e ..)`: as many cells as the product of the numbers, and the type of a cell.
    Frame(Items<u32>, Parts<TermExpr>, Ty),
    /// `(frame (n ..) T)`, where the product is 0: the type of the cells that it has none of.
    NoCells(Items<u32>, Ty),
    /// `(e e ..)`: a function, its arguments, the shape of each argument's cell, and the type of the result's cell.
    App(Part<TermExpr>, Parts<TermExpr>, Items<Index>, Ty),
    /// `(t-app e T ..)`, and the type of the result's cell.
    TypeApp(Part<TermExpr>, Items<Ty>, Ty),
    /// `(i-app e i ..)`, and the type of the result's cell.
    IndexApp(Part<TermExpr>, Items<Index>, Ty),
    /// `(unbox (x .. y e) T b)`: the sorts of the index variables that it binds, the box, the body, in which these and one term
    /// variable are bound, and the type of the result's cell.
    Unbox(Items<Sort>, Part<TermExpr>, Part<TermExpr>, Ty),
}

/// An atom of a term. Of the binders of one list the last is the innermost.
#[cycle(term)]
#[derive(Drop)]
pub enum TermAtom {
    Int(i64),
    Bool(bool),
    Char(char),
    /// A primitive, with the types and the indices that it has been applied to so far.
    Prim(Primitive, Option<Items<Ty>>, Option<Items<Index>>),
    /// `(fn ((x T) ..) T e)`: the input types, the type of the body, and the body.
    Fn(Items<Ty>, Ty, Part<TermExpr>),
    /// `(tfn (x ..) e)`: how many type variables it binds, and its body.
    TypeFn(u32, Part<TermExpr>),
    /// `(ifn ((x S) ..) e)`: the sorts of the index variables that it binds, and its body.
    IndexFn(Items<Sort>, Part<TermExpr>),
    /// `(box (i ..) e T)`: the hidden indices, the content, and the Sigma type.
    Boxed(Items<Index>, Part<TermExpr>, Ty),
}

impl TermExpr {
    /// The same term once more. A term that nests deeper than `room` finds no memory.
    #[cycle(term_copy)]
    pub fn copy(&self, alloc: Global, room: u32) -> Result<TermExpr, Memory>
        ensures { IfOk result (λ c. c ≡ self.now) }
    {
        let copy = match self {
            TermExpr::Var(k) => TermExpr::Var(*k),
            TermExpr::Def(k) => TermExpr::Def(*k),
            TermExpr::Array(dims, atoms) => TermExpr::Array(
                copy_dims(alloc, dims.as_slice())?,
                copy_atoms(alloc, atoms.as_slice(), room)?,
            ),
            TermExpr::NoAtoms(dims, ty) => TermExpr::NoAtoms(
                copy_dims(alloc, dims.as_slice())?,
                ty.copy(alloc)?,
            ),
            TermExpr::Frame(dims, cells, ty) => TermExpr::Frame(
                copy_dims(alloc, dims.as_slice())?,
                copy_terms(alloc, cells.as_slice(), room)?,
                ty.copy(alloc)?,
            ),
            TermExpr::NoCells(dims, ty) => TermExpr::NoCells(
                copy_dims(alloc, dims.as_slice())?,
                ty.copy(alloc)?,
            ),
            TermExpr::App(function, args, cells, ty) => TermExpr::App(
                copy_part(alloc, function.get(), room)?,
                copy_terms(alloc, args.as_slice(), room)?,
                copy_parts(alloc, cells.as_slice())?,
                ty.copy(alloc)?,
            ),
            TermExpr::TypeApp(function, types, ty) => TermExpr::TypeApp(
                copy_part(alloc, function.get(), room)?,
                copy_types(alloc, types.as_slice())?,
                ty.copy(alloc)?,
            ),
            TermExpr::IndexApp(function, indices, ty) => TermExpr::IndexApp(
                copy_part(alloc, function.get(), room)?,
                copy_parts(alloc, indices.as_slice())?,
                ty.copy(alloc)?,
            ),
            TermExpr::Unbox(sorts, boxed, body, ty) => TermExpr::Unbox(
                copy_sorts(alloc, sorts.as_slice())?,
                copy_part(alloc, boxed.get(), room)?,
                copy_part(alloc, body.get(), room)?,
                ty.copy(alloc)?,
            ),
        };
        Ok(copy)
    }
}

impl TermAtom {
    /// The same atom once more. An atom that nests deeper than `room` finds no memory.
    #[cycle(term_copy)]
    pub fn copy(&self, alloc: Global, room: u32) -> Result<TermAtom, Memory>
        ensures { IfOk result (λ c. c ≡ self.now) }
    {
        let copy = match self {
            TermAtom::Int(n) => TermAtom::Int(*n),
            TermAtom::Bool(b) => TermAtom::Bool(*b),
            TermAtom::Char(c) => TermAtom::Char(*c),
            TermAtom::Prim(p, types, indices) => TermAtom::Prim(
                *p,
                copy_given_types(alloc, types)?,
                copy_given_indices(alloc, indices)?,
            ),
            TermAtom::Fn(inputs, answer, body) => TermAtom::Fn(
                copy_types(alloc, inputs.as_slice())?,
                answer.copy(alloc)?,
                copy_part(alloc, body.get(), room)?,
            ),
            TermAtom::TypeFn(count, body) => TermAtom::TypeFn(
                *count,
                copy_part(alloc, body.get(), room)?,
            ),
            TermAtom::IndexFn(sorts, body) => TermAtom::IndexFn(
                copy_sorts(alloc, sorts.as_slice())?,
                copy_part(alloc, body.get(), room)?,
            ),
            TermAtom::Boxed(indices, content, ty) => TermAtom::Boxed(
                copy_parts(alloc, indices.as_slice())?,
                copy_part(alloc, content.get(), room)?,
                ty.copy(alloc)?,
            ),
        };
        Ok(copy)
    }
}

/// A copy of the numbers of an array or a frame.
fn copy_dims(alloc: Global, dims: &[u32]) -> Result<Items<u32>, Memory>
    ensures { IfOk result (λ c. c ≡ dims.now) }
{
    Items::from_slice(alloc, dims).map_err(|_| Memory)
}

/// A copy of the types that a primitive has.
fn copy_given_types(alloc: Global, types: &Option<Items<Ty>>) -> Result<Option<Items<Ty>>, Memory>
    ensures { IfOk result (λ c. c ≡ types.now) }
{
    match types {
        None => Ok(None),
        Some(types) => Ok(Some(copy_types(alloc, types.as_slice())?)),
    }
}

/// A copy of the indices that a primitive has.
fn copy_given_indices(
    alloc: Global,
    indices: &Option<Items<Index>>,
) -> Result<Option<Items<Index>>, Memory>
    ensures { IfOk result (λ c. c ≡ indices.now) }
{
    match indices {
        None => Ok(None),
        Some(indices) => Ok(Some(copy_parts(alloc, indices.as_slice())?)),
    }
}

/// A copy in a box.
#[cycle(term_copy)]
fn copy_part(alloc: Global, term: &TermExpr, room: u32) -> Result<Part<TermExpr>, Memory>
    ensures { IfOk result (λ c. c ≡ term.now) }
{
    let room = room.checked_sub(1).ok_or(Memory)?;
    let copy = term.copy(alloc, room)?;
    Part::new(alloc, copy)
}

/// Copies of terms.
#[cycle(term_copy)]
fn copy_terms(alloc: Global, terms: &[TermExpr], room: u32) -> Result<Parts<TermExpr>, Memory>
    ensures { IfOk result (λ c. c ≡ terms.now) }
{
    let room = room.checked_sub(1).ok_or(Memory)?;
    let mut copies = Vec::new(alloc);
    for term in terms {
        let copy = term.copy(alloc, room)?;
        copies.push(copy).map_err(|_| Memory)?;
    }
    Ok(Parts::from_vec(copies))
}

/// Copies of atoms.
#[cycle(term_copy)]
fn copy_atoms(alloc: Global, atoms: &[TermAtom], room: u32) -> Result<Parts<TermAtom>, Memory>
    ensures { IfOk result (λ c. c ≡ atoms.now) }
{
    let mut copies = Vec::new(alloc);
    for atom in atoms {
        let copy = atom.copy(alloc, room)?;
        copies.push(copy).map_err(|_| Memory)?;
    }
    Ok(Parts::from_vec(copies))
}

// Data as typed terms (docs/LANGUAGE.md, "Reduction").
ghost use Rattle.std.specs.Prelude.{◌≡◌, [], length, IfOk};
ghost use Rattle.array_values.specs.Data.{array_data, atom_data, index_data};
ghost use Rattle.array_values.specs.Lent.{value_of, IsLent};
ghost use Rattle.core_syntax.specs.Data.{DataBox, data_term, data_cell, data_terms};
ghost use Rattle.core_syntax.specs.Lists.{each};
ghost use Rattle.core_syntax.specs.Nodes.{vector};
ghost use Rattle.core_syntax.specs.Prims.{array_of};
ghost use Rattle.core_syntax.specs.Refine.{index_of, ty_of};
ghost use Rattle.core_syntax.specs.RefineTerms.{term_of, cell_of};
ghost use Rattle.core_syntax.specs.Typed.{value_index};

use crate::noted;
use array_values::{Array, BoxedValue, IndexValue, Value, ValueRef};
use core_syntax::{Index, IndexForm, Memory, Part, TermAtom, TermExpr, Ty, TyForm};
use sqlite_items::Items;
use std::alloc::Global;
use term_values::{NOWHERE, array_over, numbers};
use type_substitution::content_ty;

/// The value of an index, as an index.
fn index(alloc: Global, value: &IndexValue) -> Result<Index, Memory>
    ensures { IfOk result (λ i. index_of i ≡ value_index (index_data value.now)) }
{
    match value {
        IndexValue::Dim(n) => Ok(Index {
            at: NOWHERE,
            form: IndexForm::Num(u64::from(*n)),
        }),
        IndexValue::Shape(dims) => numbers(alloc, dims.as_slice()),
    }
}

/// The values of a box's indices, as indices.
fn indices(alloc: Global, values: &[IndexValue]) -> Result<Items<Index>, Memory>
    ensures { IfOk result (λ is. each index_of is ≡ each value_index (each index_data values.now)) }
{
    let mut indices = Vec::new(alloc);
    for value in values {
        let index = index(alloc, value)?;
        indices.push(index)?;
    }
    Ok(Items::from_vec(indices))
}

/// An array as a term of its type. A term that nests deeper than `room` finds no memory.
#[cycle(data)]
fn array(alloc: Global, ty: &Ty, array: &Array, room: u32) -> Result<TermExpr, Memory>
    ensures { IfOk result (λ t. term_of t ≡ data_term (ty_of ty.now) (array_data array.now)) }
{
    match &ty.form {
        TyForm::Arr(element, _) => elements(alloc, element.get(), array, room),
        _ => noted::no_atoms(alloc, array.dims(), ty),
    }
}

/// An array as a term of an array type with this type of its atoms.
#[cycle(data)]
fn elements(alloc: Global, element: &Ty, array: &Array, room: u32) -> Result<TermExpr, Memory>
    ensures { IfOk result (λ t. term_of t ≡ data_term (array_of (ty_of element.now) (vector [])) (array_data array.now)) }
{
    if array.len() == 0 {
        return noted::no_atoms(alloc, array.dims(), element);
    }
    let atoms = atoms(alloc, element, array, room)?;
    array_over(alloc, array.dims(), atoms)
}

/// The atoms of an array as atoms of terms.
#[cycle(data)]
fn atoms(alloc: Global, ty: &Ty, array: &Array, room: u32) -> Result<Vec<TermAtom>, Memory>
    ensures { IfOk result (λ xs. each cell_of xs.items ≡ each (λ v. data_cell (ty_of ty.now) (atom_data v)) array.now.atoms) }
{
    let mut atoms = Vec::new(alloc);
    for place in 0..array.len() {
        let atom = atom(alloc, ty, array.atom_at(place), room)?;
        atoms.push(atom)?;
    }
    Ok(atoms)
}

/// An atom as one of terms.
#[cycle(data)]
fn atom(alloc: Global, ty: &Ty, atom: ValueRef<'_>, room: u32) -> Result<TermAtom, Memory>
    requires { IsLent atom }
    ensures { IfOk result (λ a. cell_of a ≡ data_cell (ty_of ty.now) (atom_data (value_of atom.entry))) }
{
    match atom {
        ValueRef::Int(n) => Ok(TermAtom::Int(n)),
        ValueRef::Bool(b) => Ok(TermAtom::Bool(b)),
        ValueRef::Char(c) => Ok(TermAtom::Char(c)),
        ValueRef::Other(value) => other(alloc, ty, value, room),
    }
}

/// A box as one of terms. A function fits no type, so it never comes, and finds no memory here.
#[cycle(data)]
fn other(alloc: Global, ty: &Ty, value: &Value, room: u32) -> Result<TermAtom, Memory>
    ensures { IfOk result (λ a. cell_of a ≡ data_cell (ty_of ty.now) (atom_data value.now)) }
{
    match value {
        Value::Boxed(shared) => boxed(alloc, ty, shared.get(), room),
        _ => Err(Memory),
    }
}

/// What a box of this type holds, as an atom of terms.
#[cycle(data)]
fn boxed(alloc: Global, ty: &Ty, boxed: &BoxedValue, room: u32) -> Result<TermAtom, Memory>
    ensures { IfOk result (λ a. cell_of a ≡ data_cell (ty_of ty.now) (DataBox (each index_data boxed.now.indices) (array_data boxed.now.content))) }
{
    let indices = indices(alloc, boxed.indices.as_slice())?;
    let content = content_ty(alloc, ty, indices.as_slice())?;
    match part(alloc, &content, &boxed.content, room) {
        Ok(content) => noted::boxed(alloc, indices.as_slice(), content, ty),
        Err(memory) => Err(memory),
    }
}

/// An array as a part of a term with this room.
#[cycle(data)]
fn part(alloc: Global, ty: &Ty, content: &Array, room: u32) -> Result<Part<TermExpr>, Memory>
    ensures { IfOk result (λ t. term_of t ≡ data_term (ty_of ty.now) (array_data content.now)) }
{
    let room = room.checked_sub(1).ok_or(Memory)?;
    match array(alloc, ty, content, room) {
        Ok(term) => Part::new(alloc, term),
        Err(memory) => Err(memory),
    }
}

/// Arrays as terms of their types, one after the other. A term that nests deeper than `room` finds no memory.
pub(crate) fn arrays(
    alloc: Global,
    types: &[Ty],
    inputs: &[Array],
    room: u32,
) -> Result<Vec<TermExpr>, Memory>
    requires { length types.now ≡ length inputs.now }
    ensures { IfOk result (λ ts. each term_of ts.items ≡ data_terms (each ty_of types.now) (each array_data inputs.now)) }
{
    let mut terms = Vec::new(alloc);
    for place in 0..types.len() {
        let term = array(alloc, &types[place], &inputs[place], room)?;
        terms.push(term)?;
    }
    Ok(terms)
}

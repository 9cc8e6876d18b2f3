// The array that a value is (docs/LANGUAGE.md, "Reduction").
ghost use Rattle.std.specs.Prelude.{◌≡◌, true, IfOk};
ghost use Rattle.array_values.specs.Data.{index_data, atom_data, array_data};
ghost use Rattle.core_syntax.specs.Data.{array_of_value, atom_of_cell, atoms_of_cells, DataBox, FitsType, AtomFits, AtomsFit};
ghost use Rattle.core_syntax.specs.Fits.{value_fits, all_fit};
ghost use Rattle.core_syntax.specs.Lists.{each};
ghost use Rattle.core_syntax.specs.Refine.{index_of};
ghost use Rattle.core_syntax.specs.RefineTerms.{term_of, cell_of, cells_of};
ghost use Rattle.core_syntax.specs.Syntax.{Ty};
ghost use Rattle.core_syntax.specs.Typed.{closed_value, typed_rules};

use crate::closed::Closed;
use array_values::{Array, ArrayOf, BoxedValue, IndexValue, Shared, Value};
use core_syntax::{Index, IndexForm, Memory, TermAtom, TermExpr};
use sqlite_items::Items;
use std::alloc::Global;
use term_values::{DEEPEST, atoms, dims, number, shape_dims};

/// The array of a value of a printable type (docs/LANGUAGE.md, "Values"): its dims and its atoms, without types, and with the
/// values of its boxes' indices.
///
/// # Errors
///
/// Where there is no memory. A value whose boxes nest deeper than a run makes them finds none.
pub fn value(alloc: Global, closed: &Closed) -> Result<Array, Memory>
    requires { ∥ ((t : Ty) × FitsType t (array_of_value typed_rules (term_of closed.now.term))) ∥₁ }
    ensures { IfOk result (λ array. array_data array ≡ array_of_value typed_rules (term_of closed.now.term)) }
{
    array_of(alloc, &closed.term, DEEPEST)
}

/// The array of a value. One whose boxes nest deeper than `room` finds no memory.
#[cycle(array_of)]
fn array_of(alloc: Global, term: &TermExpr, room: u32) -> Result<Array, Memory>
    requires { ∥ ((t : Ty) × FitsType t (array_of_value typed_rules (term_of term.now))) ∥₁ }
    ensures { IfOk result (λ array. array_data array ≡ array_of_value typed_rules (term_of term.now)) }
{
    let atoms = atoms_of(alloc, atoms(term), room)?;
    ArrayOf::new(alloc, dims(term), atoms)
}

/// The atoms of a value.
#[cycle(array_of)]
fn atoms_of(alloc: Global, atoms: &[TermAtom], room: u32) -> Result<Vec<Value>, Memory>
    requires { ∥ ((t : Ty) × AtomsFit t (atoms_of_cells typed_rules (cells_of atoms.now))) ∥₁ }
    ensures { IfOk result (λ values. each atom_data values.items ≡ each (atom_of_cell typed_rules) (each cell_of atoms.now)) }
{
    let mut values = Vec::new(alloc);
    for atom in atoms {
        let value = atom_of(alloc, atom, room)?;
        values.push(value)?;
    }
    Ok(values)
}

/// An atom of a value.
#[cycle(array_of)]
fn atom_of(alloc: Global, atom: &TermAtom, room: u32) -> Result<Value, Memory>
    requires { ∥ ((t : Ty) × AtomFits t (atom_of_cell typed_rules (cell_of atom.now))) ∥₁ }
    ensures { IfOk result (λ value. atom_data value ≡ atom_of_cell typed_rules (cell_of atom.now)) }
{
    match atom {
        TermAtom::Int(n) => Ok(Value::Int(*n)),
        TermAtom::Bool(b) => Ok(Value::Bool(*b)),
        TermAtom::Char(c) => Ok(Value::Char(*c)),
        TermAtom::Boxed(indices, content, _) => {
            box_of(alloc, indices.as_slice(), content.get(), room)
        }
        TermAtom::Prim(_, _, _)
        | TermAtom::Fn(_, _, _)
        | TermAtom::TypeFn(_, _)
        | TermAtom::IndexFn(_, _) => unreachable!(),
    }
}

/// A box of a value.
#[cycle(array_of)]
fn box_of(alloc: Global, indices: &[Index], content: &TermExpr, room: u32) -> Result<Value, Memory>
    requires { ∥ ((t : Ty) × AtomFits t (DataBox (each closed_value (each index_of indices.now)) (array_of_value typed_rules (term_of content.now)))) ∥₁ }
    ensures { IfOk result (λ value. atom_data value ≡ DataBox (each closed_value (each index_of indices.now)) (array_of_value typed_rules (term_of content.now))) }
{
    let room = room.checked_sub(1).ok_or(Memory)?;
    let indices = indices_of(alloc, indices)?;
    let content = array_of(alloc, content, room)?;
    let boxed = Shared::new(alloc, BoxedValue { indices, content })?;
    Ok(Value::Boxed(boxed))
}

/// The values of closed indices that a run can keep.
fn indices_of(alloc: Global, indices: &[Index]) -> Result<Items<IndexValue>, Memory>
    requires { all_fit (each closed_value (each index_of indices.now)) ≡ true }
    ensures { IfOk result (λ values. each index_data values ≡ each closed_value (each index_of indices.now)) }
{
    let mut values = Vec::new(alloc);
    for index in indices {
        let value = index_value(alloc, index)?;
        values.push(value)?;
    }
    Ok(Items::from_vec(values))
}

/// The value of a closed index that a run can keep.
fn index_value(alloc: Global, index: &Index) -> Result<IndexValue, Memory>
    requires { value_fits (closed_value (index_of index.now)) ≡ true }
    ensures { IfOk result (λ value. index_data value ≡ closed_value (index_of index.now)) }
{
    match &index.form {
        IndexForm::Num(_) | IndexForm::Var(_) | IndexForm::Sum(_) => {
            Ok(IndexValue::Dim(number(index) as u32))
        }
        IndexForm::Dims(_) | IndexForm::Join(_) => match shape_dims(alloc, index)? {
            None => unreachable!(),
            Some(dims) => Ok(IndexValue::Shape(dims)),
        },
    }
}

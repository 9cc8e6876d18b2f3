// Indices and types under binders more.
ghost use Rattle.std.specs.Prelude.{◌≡◌, ◌+◌, IfOk};
ghost use Rattle.core_syntax.specs.Refine.{index_of, indices_of, ty_of, tys_of};
ghost use Rattle.core_syntax.specs.Subst.{index_renamed, indices_renamed, ty_renamed, tys_renamed};
ghost use Rattle.type_substitution.specs.Putting.{moved_from};

use core_syntax::{Index, IndexForm, Memory, Ty, TyForm};
use sqlite_items::Items;
use std::alloc::Global;
use term_values::copied_sorts;

/// By how much variables are moved, and how many are bound inside and stay.
#[derive(Clone, Copy)]
pub(crate) struct Shift {
    pub(crate) by: u32,
    pub(crate) from: u32,
}

/// A count of binders, and those of a list. Where it is no number of 32 bits there is no memory.
pub fn binders(outside: u32, inside: usize) -> Result<u32, Memory>
    ensures { IfOk result (λ n. n ≡ outside + inside) }
{
    match u32::try_from(inside) {
        Ok(inside) => more(outside, inside),
        Err(_) => Err(Memory),
    }
}

/// The sum of two counts of binders, likewise.
pub fn more(outside: u32, inside: u32) -> Result<u32, Memory>
    ensures { IfOk result (λ n. n ≡ outside + inside) }
{
    match outside.checked_add(inside) {
        Some(count) => Ok(count),
        None => Err(Memory),
    }
}

/// The number of a moved variable.
fn moved_variable(var: u32, shift: Shift) -> Result<u32, Memory>
    ensures { IfOk result (λ k. k ≡ moved_from shift.by shift.from var) }
{
    if var < shift.from {
        return Ok(var);
    }
    more(shift.by, var)
}

/// An index with its free variables moved.
#[cycle(indices)]
pub(crate) fn moved_index(alloc: Global, i: &Index, shift: Shift) -> Result<Index, Memory>
    ensures { IfOk result (λ m. index_of m ≡ index_renamed (moved_from shift.by shift.from) (index_of i.now)) }
{
    match &i.form {
        IndexForm::Num(n) => Ok(Index {
            at: i.at,
            form: IndexForm::Num(*n),
        }),
        IndexForm::Var(k) => Ok(Index {
            at: i.at,
            form: IndexForm::Var(moved_variable(*k, shift)?),
        }),
        IndexForm::Sum(parts) => Ok(Index {
            at: i.at,
            form: IndexForm::Sum(moved_indices(alloc, parts.as_slice(), shift)?),
        }),
        IndexForm::Dims(parts) => Ok(Index {
            at: i.at,
            form: IndexForm::Dims(moved_indices(alloc, parts.as_slice(), shift)?),
        }),
        IndexForm::Join(parts) => Ok(Index {
            at: i.at,
            form: IndexForm::Join(moved_indices(alloc, parts.as_slice(), shift)?),
        }),
    }
}

/// Indices with their free variables moved.
#[cycle(indices)]
fn moved_indices(alloc: Global, indices: &[Index], shift: Shift) -> Result<Items<Index>, Memory>
    ensures { IfOk result (λ m. indices_of m ≡ indices_renamed (moved_from shift.by shift.from) (indices_of indices.now)) }
{
    let mut moved = Vec::new(alloc);
    for index in indices {
        let one = moved_index(alloc, index, shift)?;
        moved.push(one)?;
    }
    Ok(Items::from_vec(moved))
}

/// A type with its free type variables and index variables moved. A type that nests deeper than `room` finds no memory.
#[cycle(types)]
pub(crate) fn moved_type(
    alloc: Global,
    t: &Ty,
    types: Shift,
    indices: Shift,
    room: u32,
) -> Result<Ty, Memory>
    ensures { IfOk result (λ m. ty_of m ≡ ty_renamed (moved_from indices.by indices.from) (moved_from types.by types.from) (ty_of t.now)) }
{
    let room = room.checked_sub(1).ok_or(Memory)?;
    match &t.form {
        TyForm::Base(b) => Ok(Ty {
            at: t.at,
            form: TyForm::Base(*b),
        }),
        TyForm::Var(k) => Ok(Ty {
            at: t.at,
            form: TyForm::Var(moved_variable(*k, types)?),
        }),
        TyForm::Fun(inputs, output) => {
            let inputs = moved_types(alloc, inputs.as_slice(), types, indices, room)?;
            let output = moved_type(alloc, output.get(), types, indices, room)?;
            Ty::function(alloc, t.at, inputs, output)
        }
        TyForm::Forall(n, body) => {
            let inside = Shift {
                by: types.by,
                from: more(types.from, *n)?,
            };
            let body = moved_type(alloc, body.get(), inside, indices, room)?;
            Ty::forall(alloc, t.at, *n, body)
        }
        TyForm::Pi(bound, body) => {
            let inside = Shift {
                by: indices.by,
                from: binders(indices.from, bound.len())?,
            };
            let sorts = copied_sorts(alloc, bound.as_slice())?;
            let body = moved_type(alloc, body.get(), types, inside, room)?;
            Ty::pi(alloc, t.at, sorts, body)
        }
        TyForm::Sigma(bound, body) => {
            let inside = Shift {
                by: indices.by,
                from: binders(indices.from, bound.len())?,
            };
            let sorts = copied_sorts(alloc, bound.as_slice())?;
            let body = moved_type(alloc, body.get(), types, inside, room)?;
            Ty::sigma(alloc, t.at, sorts, body)
        }
        TyForm::Arr(elem, shape) => {
            let shape = moved_index(alloc, shape, indices)?;
            let elem = moved_type(alloc, elem.get(), types, indices, room)?;
            Ty::array(alloc, t.at, elem, shape)
        }
    }
}

/// Types with their free type variables and index variables moved.
#[cycle(types)]
fn moved_types(
    alloc: Global,
    list: &[Ty],
    types: Shift,
    indices: Shift,
    room: u32,
) -> Result<Items<Ty>, Memory>
    ensures { IfOk result (λ m. tys_of m ≡ tys_renamed (moved_from indices.by indices.from) (moved_from types.by types.from) (tys_of list.now)) }
{
    let mut moved = Vec::new(alloc);
    for ty in list {
        let one = moved_type(alloc, ty, types, indices, room)?;
        moved.push(one)?;
    }
    Ok(Items::from_vec(moved))
}

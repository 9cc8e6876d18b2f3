//! Indices and types under binders more.
ghost use Rattle.std.specs.Prelude.{◌≡◌, ◌<◌, ◌^◌, IfOk};
ghost use Rattle.core_syntax.specs.Refine.{index_of, indices_of, ty_of, tys_of};
ghost use Rattle.core_syntax.specs.Subst.{index_renamed, indices_renamed, ty_renamed, tys_renamed};
ghost use Rattle.type_equal.specs.Moved.{moved_from, IndexMoves, IndicesMove, TyMoves, TysMove};

use crate::normalize::sorts;
use core_syntax::{Index, IndexForm, Memory, Ty, TyForm};
use sqlite_items::Items;
use std::alloc::Global;

/// By how much variables are moved, and how many are bound inside and stay.
#[derive(Clone, Copy)]
pub(crate) struct Shift {
    pub(crate) by: u32,
    pub(crate) from: u32,
}

// The number of a moved variable.
fn moved_variable(var: u32, shift: Shift) -> u32
    requires { moved_from shift.by shift.from var < 2 ^ 32 }
    ensures { result ≡ moved_from shift.by shift.from var }
{
    if var < shift.from {
        var
    } else {
        shift.by + var
    }
}

/// An index with its free variables moved.
#[cycle(indices)]
pub(crate) fn moved_index(alloc: Global, i: &Index, shift: Shift) -> Result<Index, Memory>
    requires { IndexMoves shift.by shift.from (index_of i.now) }
    ensures { IfOk result (λ m. index_of m ≡ index_renamed (moved_from shift.by shift.from) (index_of i.now)) }
{
    match &i.form {
        IndexForm::Num(n) => Ok(Index {
            at: i.at,
            form: IndexForm::Num(*n),
        }),
        IndexForm::Var(k) => Ok(Index {
            at: i.at,
            form: IndexForm::Var(moved_variable(*k, shift)),
        }),
        IndexForm::Sum(parts) => Ok(Index {
            at: i.at,
            form: IndexForm::Sum(moved_indices(alloc, parts.as_slice(), shift)?),
        }),
        IndexForm::Dims(parts) => Ok(Index {
            at: i.at,
            form: IndexForm::Dims(moved_indices(alloc, parts.as_slice(), shift)?),
        }),
        IndexForm::Join(parts) => Ok(Index {
            at: i.at,
            form: IndexForm::Join(moved_indices(alloc, parts.as_slice(), shift)?),
        }),
    }
}

#[cycle(indices)]
fn moved_indices(alloc: Global, indices: &[Index], shift: Shift) -> Result<Items<Index>, Memory>
    requires { IndicesMove shift.by shift.from (indices_of indices.now) }
    ensures { IfOk result (λ m. indices_of m ≡ indices_renamed (moved_from shift.by shift.from) (indices_of indices.now)) }
{
    let mut moved = Vec::new(alloc);
    for index in indices {
        let one = moved_index(alloc, index, shift)?;
        moved.push(one).map_err(|_| Memory)?;
    }
    Ok(Items::from_vec(moved))
}

/// A type with its free type variables and index variables moved.
#[cycle(types)]
pub(crate) fn moved_tree(alloc: Global, t: &Ty, types: Shift, indices: Shift) -> Result<Ty, Memory>
    requires { TyMoves types.by types.from indices.by indices.from (ty_of t.now) }
    ensures { IfOk result (λ m. ty_of m ≡ ty_renamed (moved_from indices.by indices.from) (moved_from types.by types.from) (ty_of t.now)) }
{
    match &t.form {
        TyForm::Base(b) => Ok(Ty {
            at: t.at,
            form: TyForm::Base(*b),
        }),
        TyForm::Var(k) => Ok(Ty {
            at: t.at,
            form: TyForm::Var(moved_variable(*k, types)),
        }),
        TyForm::Fun(inputs, output) => {
            let inputs = moved_trees(alloc, inputs.as_slice(), types, indices)?;
            let output = moved_tree(alloc, output.get(), types, indices)?;
            Ty::function(alloc, t.at, inputs, output)
        }
        TyForm::Forall(n, body) => {
            let inside = Shift {
                by: types.by,
                from: types.from + *n,
            };
            let body = moved_tree(alloc, body.get(), inside, indices)?;
            Ty::forall(alloc, t.at, *n, body)
        }
        TyForm::Pi(bound, body) => {
            let inside = Shift {
                by: indices.by,
                from: indices.from + bound.len() as u32,
            };
            let body = moved_tree(alloc, body.get(), types, inside)?;
            Ty::pi(alloc, t.at, sorts(alloc, bound.as_slice())?, body)
        }
        TyForm::Sigma(bound, body) => {
            let inside = Shift {
                by: indices.by,
                from: indices.from + bound.len() as u32,
            };
            let body = moved_tree(alloc, body.get(), types, inside)?;
            Ty::sigma(alloc, t.at, sorts(alloc, bound.as_slice())?, body)
        }
        TyForm::Arr(elem, shape) => {
            let shape = moved_index(alloc, shape, indices)?;
            let elem = moved_tree(alloc, elem.get(), types, indices)?;
            Ty::array(alloc, t.at, elem, shape)
        }
    }
}

#[cycle(types)]
fn moved_trees(
    alloc: Global,
    trees: &[Ty],
    types: Shift,
    indices: Shift,
) -> Result<Items<Ty>, Memory>
    requires { TysMove types.by types.from indices.by indices.from (tys_of trees.now) }
    ensures { IfOk result (λ m. tys_of m ≡ tys_renamed (moved_from indices.by indices.from) (moved_from types.by types.from) (tys_of trees.now)) }
{
    let mut moved = Vec::new(alloc);
    for tree in trees {
        let one = moved_tree(alloc, tree, types, indices)?;
        moved.push(one).map_err(|_| Memory)?;
    }
    Ok(Items::from_vec(moved))
}

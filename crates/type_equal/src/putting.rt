//! Types and indices put in the places of variables.
ghost use Rattle.std.specs.Prelude.{◌≡◌, ◌+◌, ◌≤◌, IfOk};
ghost use Rattle.core_syntax.specs.Lists.{Each};
ghost use Rattle.core_syntax.specs.Syntax.{Var as IndexVar, TyVar};
ghost use Rattle.core_syntax.specs.Refine.{index_of, indices_of, ty_of, tys_of};
ghost use Rattle.core_syntax.specs.NormTypes.{ty_size, tys_size};
ghost use Rattle.core_syntax.specs.Subst.{in_place, index_put, index_renamed, indices_put, ty_put, ty_renamed, tys_put};
ghost use Rattle.type_equal.specs.Moved.{up};
ghost use Rattle.type_equal.specs.Put.{index_tree, indices_at, types_at, IsTreeSmall, IsIndexSmall};

use crate::moving::{Shift, moved_index, moved_tree};
use crate::norm_type::NormType;
use crate::normalize::sorts;
use crate::tree::{dim_index, word_index};
use core_syntax::{Index, IndexForm, Memory, NormIndex, Span, Ty, TyForm};
use sqlite_items::Items;
use std::alloc::Global;

/// How many type binders and index binders stand around a place.
#[derive(Clone, Copy)]
pub(crate) struct Under {
    pub(crate) types: u32,
    pub(crate) indices: u32,
}

// A normal form as a tree.
fn norm_index(alloc: Global, i: &NormIndex) -> Result<Index, Memory>
    ensures { IfOk result (λ t. index_of t ≡ index_tree i.now) }
{
    match i {
        NormIndex::Dim(d) => dim_index(alloc, d),
        NormIndex::Shape(w) => word_index(alloc, w),
    }
}

// A normal form as a tree, under so many binders more.
fn norm_index_under(alloc: Global, i: &NormIndex, under: u32) -> Result<Index, Memory>
    requires few { under ≤ 16384 }
    requires small { IsIndexSmall i.now }
    ensures { IfOk result (λ t. index_of t ≡ index_renamed (up under) (index_tree i.now)) }
{
    let tree = norm_index(alloc, i)?;
    let shift = Shift { by: under, from: 0 };
    moved_index(alloc, &tree, shift)
}

// What stands in the place of an index variable.
fn put_index_variable(
    alloc: Global,
    at: Span,
    var: u32,
    with: &[NormIndex],
    under: u32,
) -> Result<Index, Memory>
    requires few { under ≤ 16384 }
    requires small { Each IsIndexSmall with.now }
    ensures { IfOk result (λ i. index_of i ≡ in_place (IndexVar at) (indices_at under with.now var)) }
{
    if var < under {
        return Ok(Index {
            at,
            form: IndexForm::Var(var),
        });
    }
    let place = (var - under) as usize;
    if place >= with.len() {
        return Ok(Index {
            at,
            form: IndexForm::Var(var - with.len() as u32),
        });
    }
    norm_index_under(alloc, &with[with.len() - 1 - place], under)
}

/// An index with normal forms in the places of its variables.
#[cycle(indices)]
fn put_index(alloc: Global, i: &Index, with: &[NormIndex], under: u32) -> Result<Index, Memory>
    requires few { under ≤ 16384 }
    requires small { Each IsIndexSmall with.now }
    ensures { IfOk result (λ p. index_of p ≡ index_put (indices_at under with.now) (index_of i.now)) }
{
    match &i.form {
        IndexForm::Num(n) => Ok(Index {
            at: i.at,
            form: IndexForm::Num(*n),
        }),
        IndexForm::Var(k) => put_index_variable(alloc, i.at, *k, with, under),
        IndexForm::Sum(parts) => Ok(Index {
            at: i.at,
            form: IndexForm::Sum(put_indices(alloc, parts.as_slice(), with, under)?),
        }),
        IndexForm::Dims(parts) => Ok(Index {
            at: i.at,
            form: IndexForm::Dims(put_indices(alloc, parts.as_slice(), with, under)?),
        }),
        IndexForm::Join(parts) => Ok(Index {
            at: i.at,
            form: IndexForm::Join(put_indices(alloc, parts.as_slice(), with, under)?),
        }),
    }
}

#[cycle(indices)]
fn put_indices(
    alloc: Global,
    indices: &[Index],
    with: &[NormIndex],
    under: u32,
) -> Result<Items<Index>, Memory>
    requires few { under ≤ 16384 }
    requires small { Each IsIndexSmall with.now }
    ensures { IfOk result (λ p. indices_of p ≡ indices_put (indices_at under with.now) (indices_of indices.now)) }
{
    let mut put = Vec::new(alloc);
    for index in indices {
        let one = put_index(alloc, index, with, under)?;
        put.push(one).map_err(|_| Memory)?;
    }
    Ok(Items::from_vec(put))
}

// A normal type as a tree, under so many binders more.
fn norm_type_under(alloc: Global, t: &NormType, under: Under) -> Result<Ty, Memory>
    requires types { under.types ≤ 16384 }
    requires indices { under.indices ≤ 16384 }
    requires small { IsTreeSmall t.now }
    ensures { IfOk result (λ u. ty_of u ≡ ty_renamed (up under.indices) (up under.types) (ty_of t.now)) }
{
    let types = Shift {
        by: under.types,
        from: 0,
    };
    let indices = Shift {
        by: under.indices,
        from: 0,
    };
    moved_tree(alloc, t.ty(), types, indices)
}

// What stands in the place of a type variable.
fn put_type_variable(
    alloc: Global,
    at: Span,
    var: u32,
    with: &[NormType],
    under: Under,
) -> Result<Ty, Memory>
    requires types { under.types ≤ 16384 }
    requires indices { under.indices ≤ 16384 }
    requires small { Each IsTreeSmall with.now }
    ensures { IfOk result (λ t. ty_of t ≡ in_place (TyVar at) (types_at under.types under.indices with.now var)) }
{
    if var < under.types {
        return Ok(Ty {
            at,
            form: TyForm::Var(var),
        });
    }
    let place = (var - under.types) as usize;
    if place >= with.len() {
        return Ok(Ty {
            at,
            form: TyForm::Var(var - with.len() as u32),
        });
    }
    norm_type_under(alloc, &with[with.len() - 1 - place], under)
}

/// A type with types and normal forms of indices in the places of its variables.
#[cycle(types)]
pub(crate) fn put_tree(
    alloc: Global,
    t: &Ty,
    types: &[NormType],
    indices: &[NormIndex],
    under: Under,
) -> Result<Ty, Memory>
    requires few { under.types + under.indices + ty_size (ty_of t.now) ≤ 16384 }
    requires types { Each IsTreeSmall types.now }
    requires indices { Each IsIndexSmall indices.now }
    ensures { IfOk result (λ p. ty_of p ≡ ty_put (indices_at under.indices indices.now) (types_at under.types under.indices types.now) (ty_of t.now)) }
{
    match &t.form {
        TyForm::Base(b) => Ok(Ty {
            at: t.at,
            form: TyForm::Base(*b),
        }),
        TyForm::Var(k) => put_type_variable(alloc, t.at, *k, types, under),
        TyForm::Fun(inputs, output) => {
            let inputs = put_trees(alloc, inputs.as_slice(), types, indices, under)?;
            let output = put_tree(alloc, output.get(), types, indices, under)?;
            Ty::function(alloc, t.at, inputs, output)
        }
        TyForm::Forall(n, body) => {
            let inside = Under {
                types: under.types + *n,
                indices: under.indices,
            };
            let body = put_tree(alloc, body.get(), types, indices, inside)?;
            Ty::forall(alloc, t.at, *n, body)
        }
        TyForm::Pi(bound, body) => {
            let inside = Under {
                types: under.types,
                indices: under.indices + bound.len() as u32,
            };
            let body = put_tree(alloc, body.get(), types, indices, inside)?;
            Ty::pi(alloc, t.at, sorts(alloc, bound.as_slice())?, body)
        }
        TyForm::Sigma(bound, body) => {
            let inside = Under {
                types: under.types,
                indices: under.indices + bound.len() as u32,
            };
            let body = put_tree(alloc, body.get(), types, indices, inside)?;
            Ty::sigma(alloc, t.at, sorts(alloc, bound.as_slice())?, body)
        }
        TyForm::Arr(elem, shape) => {
            let shape = put_index(alloc, shape, indices, under.indices)?;
            let elem = put_tree(alloc, elem.get(), types, indices, under)?;
            Ty::array(alloc, t.at, elem, shape)
        }
    }
}

#[cycle(types)]
fn put_trees(
    alloc: Global,
    trees: &[Ty],
    types: &[NormType],
    indices: &[NormIndex],
    under: Under,
) -> Result<Items<Ty>, Memory>
    requires few { under.types + under.indices + tys_size (tys_of trees.now) ≤ 16384 }
    requires types { Each IsTreeSmall types.now }
    requires indices { Each IsIndexSmall indices.now }
    ensures { IfOk result (λ p. tys_of p ≡ tys_put (indices_at under.indices indices.now) (types_at under.types under.indices types.now) (tys_of trees.now)) }
{
    let mut put = Vec::new(alloc);
    for tree in trees {
        let one = put_tree(alloc, tree, types, indices, under)?;
        put.push(one).map_err(|_| Memory)?;
    }
    Ok(Items::from_vec(put))
}

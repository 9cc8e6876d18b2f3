// Substitution in indices and types (docs/LANGUAGE.md, "Types"). What is put keeps its own free variables.
ghost use Rattle.std.specs.Prelude.{◌≡◌, IfOk};
ghost use Rattle.core_syntax.specs.Lists.{each};
ghost use Rattle.core_syntax.specs.Refine.{index_of, indices_of, ty_of, tys_of};
ghost use Rattle.core_syntax.specs.Subst.{in_place, index_put, index_renamed, indices_put, ty_put, ty_renamed, tys_put};
ghost use Rattle.core_syntax.specs.Syntax.{Var as IndexVar, TyVar};
ghost use Rattle.core_syntax.specs.Typed.{content_type, put_in_ty};
ghost use Rattle.type_substitution.specs.Putting.{up, indices_at, types_at, puts_at};

use crate::moving::{Shift, binders, more, moved_index, moved_type};
use core_syntax::{Index, IndexForm, Memory, Span, TermExpr, Ty, TyForm};
use sqlite_items::Items;
use std::alloc::Global;
use term_values::copied_sorts;

/// How deep a type may nest that a run makes. A deeper one finds no memory.
const DEEPEST_TYPE: u32 = 1024;

/// What is put in the places of variables, the last in that of the innermost; all outer ones are kept.
#[derive(Clone, Copy)]
pub struct Puts<'a> {
    pub indices: &'a [Index],
    pub types: &'a [Ty],
    pub terms: &'a [TermExpr],
}

/// How many binders of each kind stand around a place.
#[derive(Clone, Copy)]
pub struct Under {
    pub indices: u32,
    pub types: u32,
    pub terms: u32,
}

/// An index under so many binders more.
fn index_inside(alloc: Global, i: &Index, under: u32) -> Result<Index, Memory>
    ensures { IfOk result (λ t. index_of t ≡ index_renamed (up under) (index_of i.now)) }
{
    let shift = Shift { by: under, from: 0 };
    moved_index(alloc, i, shift)
}

/// What stands in the place of an index variable.
fn put_index_variable(
    alloc: Global,
    at: Span,
    var: u32,
    with: &[Index],
    under: u32,
) -> Result<Index, Memory>
    ensures { IfOk result (λ i. index_of i ≡ in_place (IndexVar at) (indices_at under with.now var)) }
{
    if var < under {
        return Ok(Index {
            at,
            form: IndexForm::Var(var),
        });
    }
    let place = (var - under) as usize;
    if place >= with.len() {
        return Ok(Index {
            at,
            form: IndexForm::Var(var - with.len() as u32),
        });
    }
    index_inside(alloc, &with[with.len() - 1 - place], under)
}

/// An index with these in the places of its variables.
#[cycle(indices)]
fn put_index(alloc: Global, i: &Index, with: &[Index], under: u32) -> Result<Index, Memory>
    ensures { IfOk result (λ p. index_of p ≡ index_put (indices_at under with.now) (index_of i.now)) }
{
    match &i.form {
        IndexForm::Num(n) => Ok(Index {
            at: i.at,
            form: IndexForm::Num(*n),
        }),
        IndexForm::Var(k) => put_index_variable(alloc, i.at, *k, with, under),
        IndexForm::Sum(parts) => Ok(Index {
            at: i.at,
            form: IndexForm::Sum(put_indices(alloc, parts.as_slice(), with, under)?),
        }),
        IndexForm::Dims(parts) => Ok(Index {
            at: i.at,
            form: IndexForm::Dims(put_indices(alloc, parts.as_slice(), with, under)?),
        }),
        IndexForm::Join(parts) => Ok(Index {
            at: i.at,
            form: IndexForm::Join(put_indices(alloc, parts.as_slice(), with, under)?),
        }),
    }
}

/// Indices with these in the places of their variables.
#[cycle(indices)]
fn put_indices(
    alloc: Global,
    indices: &[Index],
    with: &[Index],
    under: u32,
) -> Result<Items<Index>, Memory>
    ensures { IfOk result (λ p. indices_of p ≡ indices_put (indices_at under with.now) (indices_of indices.now)) }
{
    let mut put = Vec::new(alloc);
    for index in indices {
        let one = put_index(alloc, index, with, under)?;
        put.push(one)?;
    }
    Ok(Items::from_vec(put))
}

/// The indices of a list with these in the places of their variables.
pub fn put_each_index(
    alloc: Global,
    indices: &[Index],
    with: &[Index],
    under: u32,
) -> Result<Items<Index>, Memory>
    ensures { IfOk result (λ p. each index_of p ≡ each (index_put (indices_at under with.now)) (each index_of indices.now)) }
{
    put_indices(alloc, indices, with, under)
}

/// A type under so many binders more.
fn type_inside(alloc: Global, t: &Ty, under: Under, room: u32) -> Result<Ty, Memory>
    ensures { IfOk result (λ u. ty_of u ≡ ty_renamed (up under.indices) (up under.types) (ty_of t.now)) }
{
    let types = Shift {
        by: under.types,
        from: 0,
    };
    let indices = Shift {
        by: under.indices,
        from: 0,
    };
    moved_type(alloc, t, types, indices, room)
}

/// What stands in the place of a type variable.
fn put_type_variable(
    alloc: Global,
    at: Span,
    var: u32,
    with: &[Ty],
    under: Under,
    room: u32,
) -> Result<Ty, Memory>
    ensures { IfOk result (λ t. ty_of t ≡ in_place (TyVar at) (types_at under.types under.indices with.now var)) }
{
    if var < under.types {
        return Ok(Ty {
            at,
            form: TyForm::Var(var),
        });
    }
    let place = (var - under.types) as usize;
    if place >= with.len() {
        return Ok(Ty {
            at,
            form: TyForm::Var(var - with.len() as u32),
        });
    }
    type_inside(alloc, &with[with.len() - 1 - place], under, room)
}

/// A type with types and indices in the places of its variables. A type that nests deeper than `room` finds no memory.
#[cycle(types)]
fn put_tree(
    alloc: Global,
    t: &Ty,
    types: &[Ty],
    indices: &[Index],
    under: Under,
    room: u32,
) -> Result<Ty, Memory>
    ensures { IfOk result (λ p. ty_of p ≡ ty_put (indices_at under.indices indices.now) (types_at under.types under.indices types.now) (ty_of t.now)) }
{
    let room = room.checked_sub(1).ok_or(Memory)?;
    match &t.form {
        TyForm::Base(b) => Ok(Ty {
            at: t.at,
            form: TyForm::Base(*b),
        }),
        TyForm::Var(k) => put_type_variable(alloc, t.at, *k, types, under, room),
        TyForm::Fun(inputs, output) => {
            let inputs = put_trees(alloc, inputs.as_slice(), types, indices, under, room)?;
            let output = put_tree(alloc, output.get(), types, indices, under, room)?;
            Ty::function(alloc, t.at, inputs, output)
        }
        TyForm::Forall(n, body) => {
            let inside = Under {
                types: more(under.types, *n)?,
                indices: under.indices,
                terms: under.terms,
            };
            let body = put_tree(alloc, body.get(), types, indices, inside, room)?;
            Ty::forall(alloc, t.at, *n, body)
        }
        TyForm::Pi(bound, body) => {
            let inside = Under {
                types: under.types,
                indices: binders(under.indices, bound.len())?,
                terms: under.terms,
            };
            let sorts = copied_sorts(alloc, bound.as_slice())?;
            let body = put_tree(alloc, body.get(), types, indices, inside, room)?;
            Ty::pi(alloc, t.at, sorts, body)
        }
        TyForm::Sigma(bound, body) => {
            let inside = Under {
                types: under.types,
                indices: binders(under.indices, bound.len())?,
                terms: under.terms,
            };
            let sorts = copied_sorts(alloc, bound.as_slice())?;
            let body = put_tree(alloc, body.get(), types, indices, inside, room)?;
            Ty::sigma(alloc, t.at, sorts, body)
        }
        TyForm::Arr(elem, shape) => {
            let shape = put_index(alloc, shape, indices, under.indices)?;
            let elem = put_tree(alloc, elem.get(), types, indices, under, room)?;
            Ty::array(alloc, t.at, elem, shape)
        }
    }
}

/// Types with types and indices in the places of their variables.
#[cycle(types)]
fn put_trees(
    alloc: Global,
    trees: &[Ty],
    types: &[Ty],
    indices: &[Index],
    under: Under,
    room: u32,
) -> Result<Items<Ty>, Memory>
    ensures { IfOk result (λ p. tys_of p ≡ tys_put (indices_at under.indices indices.now) (types_at under.types under.indices types.now) (tys_of trees.now)) }
{
    let mut put = Vec::new(alloc);
    for tree in trees {
        let one = put_tree(alloc, tree, types, indices, under, room)?;
        put.push(one)?;
    }
    Ok(Items::from_vec(put))
}

/// A type with what is put in the places of its variables.
pub fn put_type(alloc: Global, t: &Ty, puts: Puts<'_>, under: Under) -> Result<Ty, Memory>
    ensures { IfOk result (λ p. ty_of p ≡ put_in_ty (puts_at under.indices under.types puts.entry.indices.now puts.entry.types.now) (ty_of t.now)) }
{
    put_tree(alloc, t, puts.types, puts.indices, under, DEEPEST_TYPE)
}

/// The types of a list with what is put in the places of their variables.
pub fn put_each_type(
    alloc: Global,
    list: &[Ty],
    puts: Puts<'_>,
    under: Under,
) -> Result<Items<Ty>, Memory>
    ensures { IfOk result (λ p. each ty_of p ≡ each (put_in_ty (puts_at under.indices under.types puts.entry.indices.now puts.entry.types.now)) (each ty_of list.now)) }
{
    put_trees(alloc, list, puts.types, puts.indices, under, DEEPEST_TYPE)
}

/// The type of the content of a box of this type under indices; that of another type is its own.
pub fn content_ty(alloc: Global, ty: &Ty, indices: &[Index]) -> Result<Ty, Memory>
    ensures { IfOk result (λ t. ty_of t ≡ content_type (ty_of ty.now) (each index_of indices.now)) }
{
    match &ty.form {
        TyForm::Sigma(_, body) => {
            let puts = Puts {
                indices,
                types: &[],
                terms: &[],
            };
            let outside = Under {
                indices: 0,
                types: 0,
                terms: 0,
            };
            put_type(alloc, body.get(), puts, outside)
        }
        _ => ty.copy(alloc),
    }
}

//! How large a type is once indices and types are put in the places of its variables.
ghost use Rattle.std.specs.Prelude.{◌≡◌, ◌+◌, ◌-◌, ◌^◌, ◌≤◌, min};
ghost use Rattle.core_syntax.specs.Refine.{index_of, indices_of, ty_of, tys_of};
ghost use Rattle.core_syntax.specs.NormTypes.{ty_size, tys_size};
ghost use Rattle.core_syntax.specs.Subst.{in_place};
ghost use Rattle.type_equal.specs.Counted.{counts_of, put_under, put_constant, put_constants, put_variables, put_all_variables, put_dims, put_letters, put_all_letters, put_large_dims, put_large, put_any_large, put_size, put_sizes, put_large_ty, put_large_tys};

use crate::putting::Under;
use core_syntax::{Index, IndexForm, LARGEST_NUMBER, Ty, TyForm};

/// What an index adds to the normal form of an index that it stands in: as a number its constant
/// and how many variables are added to it, and as a list the size of its letters and whether a
/// constant in it is too large.
#[derive(Clone, Copy)]
pub(crate) struct Count {
    pub(crate) constant: u64,
    pub(crate) variables: u64,
    pub(crate) letters: u64,
    pub(crate) large: bool,
}

// What an index variable adds.
fn count_at(counts: &[Count], under: u32, var: u32) -> Count
    ensures { result ≡ counts_of (put_under under counts.now) var }
{
    let kept = Count {
        constant: 0,
        variables: 1,
        letters: 1,
        large: false,
    };
    if var < under {
        return kept;
    }
    let place = (var - under) as usize;
    if place >= counts.len() {
        return kept;
    }
    counts[counts.len() - 1 - place]
}

// The size of what stands in the place of a type variable.
fn size_at(sizes: &[u64], under: u32, var: u32) -> u64
    ensures { result ≡ in_place (λ _. 1) (put_under under sizes.now var) }
{
    if var < under {
        return 1;
    }
    let place = (var - under) as usize;
    if place >= sizes.len() {
        return 1;
    }
    sizes[sizes.len() - 1 - place]
}

// The constant of an index of sort Dim.
#[cycle(constants)]
fn constant_in(i: &Index, counts: &[Count], under: u32) -> u64
    ensures { result ≡ min (put_constant (counts_of (put_under under counts.now)) (index_of i.now)) (2 ^ 64 - 1) }
{
    match &i.form {
        IndexForm::Num(n) => *n,
        IndexForm::Var(k) => count_at(counts, under, *k).constant,
        IndexForm::Sum(parts) => constants_in(parts.as_slice(), counts, under),
        IndexForm::Dims(_) => 0,
        IndexForm::Join(_) => 0,
    }
}

#[cycle(constants)]
fn constants_in(parts: &[Index], counts: &[Count], under: u32) -> u64
    ensures { result ≡ min (put_constants (counts_of (put_under under counts.now)) (indices_of parts.now)) (2 ^ 64 - 1) }
{
    let mut total: u64 = 0;
    for part in parts {
        total = total.saturating_add(constant_in(part, counts, under));
    }
    total
}

// How many variables are added in an index of sort Dim.
#[cycle(variables)]
fn variables_in(i: &Index, counts: &[Count], under: u32) -> u64
    ensures { result ≡ min (put_variables (counts_of (put_under under counts.now)) (index_of i.now)) (2 ^ 64 - 1) }
{
    match &i.form {
        IndexForm::Num(_) => 0,
        IndexForm::Var(k) => count_at(counts, under, *k).variables,
        IndexForm::Sum(parts) => all_variables_in(parts.as_slice(), counts, under),
        IndexForm::Dims(_) => 0,
        IndexForm::Join(_) => 0,
    }
}

#[cycle(variables)]
fn all_variables_in(parts: &[Index], counts: &[Count], under: u32) -> u64
    ensures { result ≡ min (put_all_variables (counts_of (put_under under counts.now)) (indices_of parts.now)) (2 ^ 64 - 1) }
{
    let mut total: u64 = 0;
    for part in parts {
        total = total.saturating_add(variables_in(part, counts, under));
    }
    total
}

// The size of the letters that indices of sort Dim come to.
fn dims_in(parts: &[Index], counts: &[Count], under: u32) -> u64
    ensures { result ≡ min (put_dims (counts_of (put_under under counts.now)) (indices_of parts.now)) (2 ^ 64 - 1) }
{
    let mut total: u64 = 0;
    for part in parts {
        total = total
            .saturating_add(variables_in(part, counts, under))
            .saturating_add(1);
    }
    total
}

// The size of the letters of an index of sort Shape.
#[cycle(letters)]
fn letters_in(i: &Index, counts: &[Count], under: u32) -> u64
    ensures { result ≡ min (put_letters (counts_of (put_under under counts.now)) (index_of i.now)) (2 ^ 64 - 1) }
{
    match &i.form {
        IndexForm::Num(_) => 0,
        IndexForm::Var(k) => count_at(counts, under, *k).letters,
        IndexForm::Sum(_) => 0,
        IndexForm::Dims(parts) => dims_in(parts.as_slice(), counts, under),
        IndexForm::Join(parts) => all_letters_in(parts.as_slice(), counts, under),
    }
}

#[cycle(letters)]
fn all_letters_in(parts: &[Index], counts: &[Count], under: u32) -> u64
    ensures { result ≡ min (put_all_letters (counts_of (put_under under counts.now)) (indices_of parts.now)) (2 ^ 64 - 1) }
{
    let mut total: u64 = 0;
    for part in parts {
        total = total.saturating_add(letters_in(part, counts, under));
    }
    total
}

// Whether the constant of one of these indices of sort Dim is too large.
fn any_large_dim(parts: &[Index], counts: &[Count], under: u32) -> bool
    ensures { result ≡ put_large_dims (counts_of (put_under under counts.now)) (indices_of parts.now) }
{
    for part in parts {
        if constant_in(part, counts, under) > LARGEST_NUMBER {
            return true;
        }
    }
    false
}

// Whether a constant in an index of sort Shape is too large.
#[cycle(large)]
fn is_large_in(i: &Index, counts: &[Count], under: u32) -> bool
    ensures { result ≡ put_large (counts_of (put_under under counts.now)) (index_of i.now) }
{
    match &i.form {
        IndexForm::Num(_) => false,
        IndexForm::Var(k) => count_at(counts, under, *k).large,
        IndexForm::Sum(_) => false,
        IndexForm::Dims(parts) => any_large_dim(parts.as_slice(), counts, under),
        IndexForm::Join(parts) => any_large_in(parts.as_slice(), counts, under),
    }
}

#[cycle(large)]
fn any_large_in(parts: &[Index], counts: &[Count], under: u32) -> bool
    ensures { result ≡ put_any_large (counts_of (put_under under counts.now)) (indices_of parts.now) }
{
    for part in parts {
        if is_large_in(part, counts, under) {
            return true;
        }
    }
    false
}

// The size of a type, where sizes are known of the types that are put, and counts of the indices.
#[cycle(sizes)]
pub(crate) fn size_in(t: &Ty, sizes: &[u64], counts: &[Count], under: Under) -> u64
    requires { under.types + under.indices + ty_size (ty_of t.now) ≤ 16384 }
    ensures { result ≡ min (put_size (put_under under.types sizes.now) (put_under under.indices counts.now) (ty_of t.now)) (2 ^ 64 - 1) }
{
    match &t.form {
        TyForm::Base(_) => 1,
        TyForm::Var(k) => size_at(sizes, under.types, *k),
        TyForm::Fun(inputs, output) => sizes_in(inputs.as_slice(), sizes, counts, under)
            .saturating_add(size_in(output.get(), sizes, counts, under))
            .saturating_add(1),
        TyForm::Forall(n, body) => {
            let inside = Under {
                types: under.types + *n,
                indices: under.indices,
            };
            size_in(body.get(), sizes, counts, inside)
                .saturating_add(*n as u64)
                .saturating_add(1)
        }
        TyForm::Pi(bound, body) => {
            let inside = Under {
                types: under.types,
                indices: under.indices + bound.len() as u32,
            };
            size_in(body.get(), sizes, counts, inside)
                .saturating_add(bound.len() as u64)
                .saturating_add(1)
        }
        TyForm::Sigma(bound, body) => {
            let inside = Under {
                types: under.types,
                indices: under.indices + bound.len() as u32,
            };
            size_in(body.get(), sizes, counts, inside)
                .saturating_add(bound.len() as u64)
                .saturating_add(1)
        }
        TyForm::Arr(elem, shape) => size_in(elem.get(), sizes, counts, under)
            .saturating_add(letters_in(shape, counts, under.indices))
            .saturating_add(2),
    }
}

#[cycle(sizes)]
fn sizes_in(types: &[Ty], sizes: &[u64], counts: &[Count], under: Under) -> u64
    requires { under.types + under.indices + tys_size (tys_of types.now) ≤ 16384 }
    ensures { result ≡ min (put_sizes (put_under under.types sizes.now) (put_under under.indices counts.now) (tys_of types.now)) (2 ^ 64 - 1) }
{
    let mut total: u64 = 0;
    for ty in types {
        total = total.saturating_add(size_in(ty, sizes, counts, under));
    }
    total
}

// Whether a constant in a type is too large, where none is in the types that are put.
#[cycle(large_types)]
pub(crate) fn has_large_in(t: &Ty, counts: &[Count], under: u32) -> bool
    requires { under + ty_size (ty_of t.now) ≤ 16384 }
    ensures { result ≡ put_large_ty (put_under under counts.now) (ty_of t.now) }
{
    match &t.form {
        TyForm::Base(_) => false,
        TyForm::Var(_) => false,
        TyForm::Fun(inputs, output) => {
            have_large_in(inputs.as_slice(), counts, under)
                || has_large_in(output.get(), counts, under)
        }
        TyForm::Forall(_, body) => has_large_in(body.get(), counts, under),
        TyForm::Pi(bound, body) => has_large_in(body.get(), counts, under + bound.len() as u32),
        TyForm::Sigma(bound, body) => {
            has_large_in(body.get(), counts, under + bound.len() as u32)
        }
        TyForm::Arr(elem, shape) => {
            has_large_in(elem.get(), counts, under) || is_large_in(shape, counts, under)
        }
    }
}

#[cycle(large_types)]
fn have_large_in(types: &[Ty], counts: &[Count], under: u32) -> bool
    requires { under + tys_size (tys_of types.now) ≤ 16384 }
    ensures { result ≡ put_large_tys (put_under under counts.now) (tys_of types.now) }
{
    for ty in types {
        if has_large_in(ty, counts, under) {
            return true;
        }
    }
    false
}

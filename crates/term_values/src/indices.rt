// The values of closed indices.
ghost use Rattle.std.specs.Prelude.{◌≡◌, ◌^◌, ◌-◌, min, IfOk, option_map};
ghost use Rattle.core_syntax.specs.Fits.{all_fit as each_fits};
ghost use Rattle.core_syntax.specs.Lists.{each};
ghost use Rattle.core_syntax.specs.Refine.{index_of, indices_of, ty_of};
ghost use Rattle.core_syntax.specs.Terms.{DimValue, ShapeValue};
ghost use Rattle.core_syntax.specs.Typed.{closed, closed_value, shape_of};
ghost use Rattle.core_syntax.specs.Typing.{numbers as numbers_of};
ghost use Rattle.core_syntax.specs.Value.{dim_val, dim_sum, dim_vals, shape_val, shape_join};
ghost use Rattle.term_values.specs.Indices.{small, kept_value, kept_values, Pushed};

use core_syntax::{Index, IndexForm, Memory, Span, Ty, TyForm};
use sqlite_items::Items;
use std::alloc::Global;

/// The place of what stands nowhere in the source.
pub const NOWHERE: Span = Span {
    from: 0,
    to: 0,
    line: 1,
    col: 1,
};

/// The most dims of an index value that a run can keep.
const MOST_DIMS: usize = 64;

/// The number that a closed index of sort Dim stands for, or the largest number where it is above it.
#[cycle(number)]
pub fn number(index: &Index) -> u64
    ensures { result ≡ min (dim_val closed (index_of index.now)) (2 ^ 64 - 1) }
{
    match &index.form {
        IndexForm::Num(n) => *n,
        IndexForm::Sum(parts) => sum(parts.as_slice()),
        IndexForm::Var(_) | IndexForm::Dims(_) | IndexForm::Join(_) => 0,
    }
}

/// The sum of such numbers, or the largest number where it is above it.
#[cycle(number)]
fn sum(parts: &[Index]) -> u64
    ensures { result ≡ min (dim_sum closed (indices_of parts.now)) (2 ^ 64 - 1) }
{
    let mut sum: u64 = 0;
    for part in parts {
        sum = sum.saturating_add(number(part));
    }
    sum
}

/// Pushes the dims that a closed index of sort Shape stands for, up to one that is no number of 32 bits; says whether there is
/// none.
#[cycle(push_dims)]
fn push_dims(dims: &mut Vec<u32>, index: &Index) -> Result<bool, Memory>
    ensures { IfOk result (λ all. Pushed all dims.old.items dims.new.items (shape_val closed (index_of index.now))) }
{
    match &index.form {
        IndexForm::Dims(parts) => push_numbers(dims, parts.as_slice()),
        IndexForm::Join(parts) => push_all(dims, parts.as_slice()),
        IndexForm::Num(_) | IndexForm::Var(_) | IndexForm::Sum(_) => Ok(true),
    }
}

/// The same of closed indices, one after the other.
#[cycle(push_dims)]
fn push_all(dims: &mut Vec<u32>, parts: &[Index]) -> Result<bool, Memory>
    ensures { IfOk result (λ all. Pushed all dims.old.items dims.new.items (shape_join closed (indices_of parts.now))) }
{
    for part in parts {
        if !push_dims(dims, part)? {
            return Ok(false);
        }
    }
    Ok(true)
}

/// The same of closed indices of sort Dim.
fn push_numbers(dims: &mut Vec<u32>, parts: &[Index]) -> Result<bool, Memory>
    ensures { IfOk result (λ all. Pushed all dims.old.items dims.new.items (dim_vals closed (indices_of parts.now))) }
{
    for part in parts {
        match u32::try_from(number(part)) {
            Err(_) => return Ok(false),
            Ok(dim) => dims.push(dim).map_err(|_| Memory)?,
        }
    }
    Ok(true)
}

/// The dims that a closed index of sort Shape stands for, where each is a number of 32 bits.
pub fn shape_dims(alloc: Global, index: &Index) -> Result<Option<Items<u32>>, Memory>
    ensures { IfOk result (λ dims. dims ≡ small (shape_val closed (index_of index.now))) }
{
    let mut dims = Vec::new(alloc);
    if push_dims(&mut dims, index)? {
        Ok(Some(Items::from_vec(dims)))
    } else {
        Ok(None)
    }
}

/// The dims of the shape of a closed array type, where each is a number of 32 bits.
pub fn type_dims(alloc: Global, ty: &Ty) -> Result<Option<Items<u32>>, Memory>
    ensures { IfOk result (λ dims. dims ≡ small (shape_val closed (shape_of (ty_of ty.now)))) }
{
    match &ty.form {
        TyForm::Arr(_, shape) => shape_dims(alloc, shape),
        _ => Ok(Some(Items::new(alloc))),
    }
}

/// Closed indices as their values, where a run can keep each (docs/LANGUAGE.md, "Limits").
pub fn kept(alloc: Global, indices: &[Index]) -> Result<Option<Items<Index>>, Memory>
    ensures { IfOk result (λ values. option_map (each index_of) values ≡ kept_values (each index_of indices.now)) }
{
    let mut values = Vec::new(alloc);
    for index in indices {
        match kept_one(alloc, index)? {
            None => return Ok(None),
            Some(value) => values.push(value).map_err(|_| Memory)?,
        }
    }
    Ok(Some(Items::from_vec(values)))
}

/// A closed index as its value, where a run can keep it.
fn kept_one(alloc: Global, index: &Index) -> Result<Option<Index>, Memory>
    ensures { IfOk result (λ value. option_map index_of value ≡ kept_value (closed_value (index_of index.now))) }
{
    match &index.form {
        IndexForm::Num(_) | IndexForm::Var(_) | IndexForm::Sum(_) => Ok(kept_number(number(index))),
        IndexForm::Dims(_) | IndexForm::Join(_) => match shape_dims(alloc, index)? {
            None => Ok(None),
            Some(dims) => kept_dims(alloc, dims.as_slice()),
        },
    }
}

/// A number as an index, where it is one of 32 bits.
fn kept_number(n: u64) -> Option<Index>
    ensures { option_map index_of result ≡ kept_value (DimValue n) }
{
    if n > u64::from(u32::MAX) {
        return None;
    }
    Some(Index {
        at: NOWHERE,
        form: IndexForm::Num(n),
    })
}

/// Dims as an index, where there are not too many.
fn kept_dims(alloc: Global, dims: &[u32]) -> Result<Option<Index>, Memory>
    ensures { IfOk result (λ value. option_map index_of value ≡ kept_value (ShapeValue dims.now)) }
{
    if dims.len() > MOST_DIMS {
        return Ok(None);
    }
    let index = numbers(alloc, dims)?;
    Ok(Some(index))
}

/// The index of sort Shape that lists these numbers.
pub fn numbers(alloc: Global, dims: &[u32]) -> Result<Index, Memory>
    ensures { IfOk result (λ i. index_of i ≡ numbers_of dims.now) }
{
    let mut parts = Vec::new(alloc);
    for dim in dims {
        let part = Index {
            at: NOWHERE,
            form: IndexForm::Num(u64::from(*dim)),
        };
        parts.push(part).map_err(|_| Memory)?;
    }
    Ok(Index {
        at: NOWHERE,
        form: IndexForm::Dims(Items::from_vec(parts)),
    })
}

/// Whether a run can keep the values of closed indices.
pub fn all_fit(alloc: Global, indices: &[Index]) -> Result<bool, Memory>
    ensures { IfOk result (λ b. b ≡ each_fits (each closed_value (each index_of indices.now))) }
{
    let values = kept(alloc, indices)?;
    Ok(values.is_some())
}

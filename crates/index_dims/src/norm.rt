ghost use Rattle.std.specs.Prelude.{◌≡◌, ◌-◌, ◌^◌, ◌⊎◌, min, length, IfOk, IfErr, OnOk};
ghost use Rattle.core_syntax.specs.Refine.{index_of};
ghost use Rattle.core_syntax.specs.Linear.{dim_size};
ghost use Rattle.core_syntax.specs.Norm.{norm_dim};
ghost use Rattle.index_dims.specs.Counting.{variables_of};
ghost use Rattle.index_dims.specs.Refusal.{dim_refusal};

use crate::Linear;
use crate::counting::{counts, sorted_variables};
use crate::refusal::DimRefusal;
use core_syntax::{Coef, Index, IndexForm, LARGEST_NUMBER, LARGEST_SIZE};
use sqlite_items::Items;
use std::alloc::{AllocError, Global};

/// The constant of the normal form of an index of sort Dim, or `u64::MAX` where it is larger. It
/// takes no memory.
pub fn constant(i: &Index) -> u64
    ensures { result ≡ min (norm_dim (index_of i.now)).constant (2 ^ 64 - 1) }
{
    match &i.form {
        IndexForm::Num(n) => *n,
        IndexForm::Sum(parts) => {
            let mut total: u64 = 0;
            for part in parts.as_slice() {
                total = total.saturating_add(constant(part));
            }
            total
        }
        IndexForm::Var(_) | IndexForm::Dims(_) | IndexForm::Join(_) => 0,
    }
}

/// How many variables stand in an index of sort Dim, or `u64::MAX` where there are more.
fn variable_count(i: &Index) -> u64
    ensures { result ≡ min (length (variables_of (index_of i.now))) (2 ^ 64 - 1) }
{
    match &i.form {
        IndexForm::Var(_) => 1,
        IndexForm::Sum(parts) => {
            let mut total: u64 = 0;
            for part in parts.as_slice() {
                total = total.saturating_add(variable_count(part));
            }
            total
        }
        IndexForm::Num(_) | IndexForm::Dims(_) | IndexForm::Join(_) => 0,
    }
}

/// The size of the normal form of an index of sort Dim, or `u64::MAX` where it is larger. It takes
/// no memory.
pub fn size(i: &Index) -> u64
    ensures { result ≡ min (dim_size (norm_dim (index_of i.now))) (2 ^ 64 - 1) }
{
    variable_count(i).saturating_add(1)
}

/// How often each variable stands in an index of sort Dim.
fn coefs(alloc: Global, i: &Index) -> Result<Vec<Coef>, AllocError>
    ensures { IfOk result (λ coefs. coefs.items ≡ (norm_dim (index_of i.now)).coefs) }
{
    let variables = sorted_variables(alloc, i)?;
    counts(alloc, variables.as_slice())
}

/// The normal form of an index of sort Dim (docs/LANGUAGE.md, "Normal forms of indices"). An index
/// of the other sort is read as 0.
///
/// # Errors
///
/// `TooLarge` exactly where the constant is above the largest number, with the constant, or
/// `u64::MAX` where it is larger. `TooWide` exactly where it isn't, and the size is above the
/// largest size. `Memory` where there was no memory.
pub fn linear(alloc: Global, i: &Index) -> Result<Linear, DimRefusal>
    ensures ok { IfOk result (λ n. n ≡ norm_dim (index_of i.now)) }
    ensures fits { OnOk result (dim_refusal (norm_dim (index_of i.now)) ≡ None) }
    ensures refused { IfErr result (λ e. (e ≡ DimRefusal.Memory) ⊎ (dim_refusal (norm_dim (index_of i.now)) ≡ Some e)) }
{
    let constant = constant(i);
    if constant > LARGEST_NUMBER {
        return Err(DimRefusal::TooLarge { value: constant });
    }
    if size(i) > LARGEST_SIZE {
        return Err(DimRefusal::TooWide);
    }
    let coefs = coefs(alloc, i).map_err(|_| DimRefusal::Memory)?;
    Ok(Linear {
        constant,
        coefs: Items::from_vec(coefs),
    })
}

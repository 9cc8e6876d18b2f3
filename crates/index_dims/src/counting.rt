ghost use Rattle.std.specs.Prelude.{◌≡◌, ◌+◌, ◌-◌, ◌^◌, ◌<◌, ◌++◌, [], IfOk, OnOk};
ghost use Rattle.std.specs.List.Sorted.{IsSorted, IsPermutation};
ghost use Rattle.std.specs.Ordering.{nat_cmp};
ghost use Rattle.core_syntax.specs.Refine.{index_of};
ghost use Rattle.core_syntax.specs.Linear.{IsAscending, coefs_total};
ghost use Rattle.core_syntax.specs.Norm.{add_coef};
ghost use Rattle.index_dims.specs.Counting.{variables_of, count_all, AreAtMost};

use core_syntax::{Coef, Index, IndexForm};
use std::alloc::{AllocError, Global};

/// Puts the variables of an index of sort Dim to the end of `variables`, each as often as it
/// stands in the index.
fn push_variables(i: &Index, variables: &mut Vec<u32>) -> Result<(), AllocError>
    ensures { OnOk result (variables.new.items ≡ variables.old.items ++ variables_of (index_of i.now)) }
{
    match &i.form {
        IndexForm::Var(var) => Ok(variables.push(*var)?),
        IndexForm::Sum(parts) => {
            for part in parts.as_slice() {
                push_variables(part, variables)?;
            }
            Ok(())
        }
        IndexForm::Num(_) | IndexForm::Dims(_) | IndexForm::Join(_) => Ok(()),
    }
}

/// The variables of an index of sort Dim in rising order, each as often as it stands there.
pub(crate) fn sorted_variables(alloc: Global, i: &Index) -> Result<Vec<u32>, AllocError>
    ensures rising { IfOk result (λ ks. IsSorted nat_cmp ks.items) }
    ensures all { IfOk result (λ ks. IsPermutation (variables_of (index_of i.now)) ks.items) }
{
    let mut variables = Vec::new(alloc);
    push_variables(i, &mut variables)?;
    variables.sort_unstable();
    Ok(variables)
}

/// Counts one more of a variable. None of those counted before is greater.
fn count(coefs: &mut Vec<Coef>, var: u32) -> Result<(), AllocError>
    requires ascending { IsAscending 0 coefs.old.items }
    requires greatest { AreAtMost var coefs.old.items }
    requires few { coefs_total coefs.old.items < 2 ^ 64 - 1 }
    ensures { OnOk result (coefs.new.items ≡ add_coef var 1 coefs.old.items) }
{
    let end = coefs.len();
    if end > 0 && coefs[end - 1].var == var {
        coefs[end - 1].times += 1;
    } else {
        coefs.push(Coef { var, times: 1 })?;
    }
    Ok(())
}

/// How often each variable stands in a sorted list of them.
pub(crate) fn counts(alloc: Global, variables: &[u32]) -> Result<Vec<Coef>, AllocError>
    requires { IsSorted nat_cmp variables.now }
    ensures { IfOk result (λ coefs. coefs.items ≡ count_all variables.now []) }
{
    let mut coefs = Vec::new(alloc);
    for var in variables {
        count(&mut coefs, *var)?;
    }
    Ok(coefs)
}

ghost use Rattle.std.specs.Prelude.{◌≡◌, ◌++◌, [], replicate, OnOk, IfOk};
ghost use Rattle.core_syntax.specs.Lists.{each};
ghost use Rattle.core_syntax.specs.Refine.{index_of};
ghost use Rattle.core_syntax.specs.Nodes.{var as variable};
ghost use Rattle.core_syntax.specs.Norm.{coef_vars, constant_part, sum_of_parts, dim_tree, run_part, join_of_parts, word_tree};
ghost use Rattle.type_equal.specs.Parts.{vars_of};

use core_syntax::{Coef, Index, IndexForm, Letter, Memory, NormDim, NormShape, Span};
use sqlite_items::Items;
use std::alloc::Global;

/// The place of what stands nowhere in the source.
pub(crate) const NOWHERE: Span = Span {
    from: 0,
    to: 0,
    line: 1,
    col: 1,
};

// Puts a variable to the end, this many times.
fn push_times(parts: &mut Vec<Index>, var: u32, times: u64) -> Result<(), Memory>
    ensures { OnOk result (each index_of parts.new.items ≡ each index_of parts.old.items ++ replicate times (variable var)) }
{
    for turn in 0..times {
        let part = Index {
            at: NOWHERE,
            form: IndexForm::Var(var),
        };
        parts.push(part).map_err(|_| Memory)?;
    }
    Ok(())
}

// Puts the variables of a linear form to the end, the outermost first.
fn push_coefs(coefs: &[Coef], parts: &mut Vec<Index>) -> Result<(), Memory>
    ensures { OnOk result (each index_of parts.new.items ≡ each index_of parts.old.items ++ vars_of coefs.now) }
{
    for at in 0..coefs.len() {
        let coef = coefs[coefs.len() - 1 - at];
        push_times(parts, coef.var, coef.times)?;
    }
    Ok(())
}

// The sum of these.
fn sum(parts: Vec<Index>) -> Index
    ensures { index_of result ≡ sum_of_parts (each index_of parts.items) }
{
    let mut parts = parts;
    if parts.is_empty() {
        return Index {
            at: NOWHERE,
            form: IndexForm::Num(0),
        };
    }
    if parts.len() > 1 {
        return Index {
            at: NOWHERE,
            form: IndexForm::Sum(Items::from_vec(parts)),
        };
    }
    match parts.pop() {
        Some(part) => part,
        None => unreachable!(),
    }
}

// These joined.
fn joined(parts: Vec<Index>) -> Index
    ensures { index_of result ≡ join_of_parts (each index_of parts.items) }
{
    let mut parts = parts;
    if parts.len() == 0 {
        return Index {
            at: NOWHERE,
            form: IndexForm::Dims(Items::from_vec(parts)),
        };
    }
    if parts.len() > 1 {
        return Index {
            at: NOWHERE,
            form: IndexForm::Join(Items::from_vec(parts)),
        };
    }
    match parts.pop() {
        Some(part) => part,
        None => unreachable!(),
    }
}

// Puts a run of linear forms to the end, as one part.
fn flush(run: Vec<Index>, parts: &mut Vec<Index>) -> Result<(), Memory>
    ensures { OnOk result (each index_of parts.new.items ≡ each index_of parts.old.items ++ run_part (each index_of run.items) []) }
{
    if run.is_empty() {
        return Ok(());
    }
    let part = Index {
        at: NOWHERE,
        form: IndexForm::Dims(Items::from_vec(run)),
    };
    parts.push(part).map_err(|_| Memory)?;
    Ok(())
}

// The linear form of this constant and these coefficients as a tree.
fn dim_of(alloc: Global, constant: u64, coefs: &[Coef]) -> Result<Index, Memory>
    ensures { IfOk result (λ i. index_of i ≡ sum_of_parts (coef_vars coefs.now (constant_part constant))) }
{
    let mut parts = Vec::new(alloc);
    push_coefs(coefs, &mut parts)?;
    if constant == 0 {
        return Ok(sum(parts));
    }
    let part = Index {
        at: NOWHERE,
        form: IndexForm::Num(constant),
    };
    parts.push(part).map_err(|_| Memory)?;
    Ok(sum(parts))
}

/// A linear form as a tree.
pub fn dim_index(alloc: Global, d: &NormDim) -> Result<Index, Memory>
    ensures { IfOk result (λ i. index_of i ≡ dim_tree d.now) }
{
    dim_of(alloc, d.constant, d.coefs.as_slice())
}

// The letters of a word as a tree.
fn word_of(alloc: Global, letters: &[Letter]) -> Result<Index, Memory>
    ensures { IfOk result (λ i. index_of i ≡ word_tree letters.now) }
{
    let mut parts = Vec::new(alloc);
    let mut run = Vec::new(alloc);
    for letter in letters {
        match letter {
            Letter::Dim(d) => {
                let dim = dim_index(alloc, d)?;
                run.push(dim).map_err(|_| Memory)?;
            }
            Letter::Var(k) => {
                flush(run, &mut parts)?;
                run = Vec::new(alloc);
                let part = Index {
                    at: NOWHERE,
                    form: IndexForm::Var(*k),
                };
                parts.push(part).map_err(|_| Memory)?;
            }
        }
    }
    flush(run, &mut parts)?;
    Ok(joined(parts))
}

/// A word as a tree.
pub fn word_index(alloc: Global, w: &NormShape) -> Result<Index, Memory>
    ensures { IfOk result (λ i. index_of i ≡ word_tree w.now) }
{
    word_of(alloc, w.letters.as_slice())
}

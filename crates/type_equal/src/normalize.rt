ghost use Rattle.std.specs.Prelude.{◌≡◌, IfOk};
ghost use Rattle.core_syntax.specs.Refine.{index_of, ty_of, tys_of};
ghost use Rattle.core_syntax.specs.Norm.{norm_word, word_tree};
ghost use Rattle.core_syntax.specs.NormTypes.{norm_ty, norm_tys};

use crate::tree::{NOWHERE, word_index};
use core_syntax::{Index, Memory, Sort, Ty, TyForm};
use shape_words::word;
use sqlite_items::Items;
use std::alloc::Global;

/// The normal form of a type as a tree. The type is measured, so that a shape that isn't held can
/// only be for want of memory.
#[cycle(normalize)]
pub(crate) fn normal_tree(alloc: Global, t: &Ty) -> Result<Ty, Memory>
    ensures { IfOk result (λ n. ty_of n ≡ norm_ty (ty_of t.now)) }
{
    match &t.form {
        TyForm::Base(b) => Ok(Ty {
            at: NOWHERE,
            form: TyForm::Base(*b),
        }),
        TyForm::Var(k) => Ok(Ty {
            at: NOWHERE,
            form: TyForm::Var(*k),
        }),
        TyForm::Fun(inputs, output) => {
            let inputs = normal_trees(alloc, inputs.as_slice())?;
            let output = normal_tree(alloc, output.get())?;
            Ty::function(alloc, NOWHERE, inputs, output)
        }
        TyForm::Forall(n, body) => {
            let body = normal_tree(alloc, body.get())?;
            Ty::forall(alloc, NOWHERE, *n, body)
        }
        TyForm::Pi(bound, body) => {
            let bound = sorts(alloc, bound.as_slice())?;
            let body = normal_tree(alloc, body.get())?;
            Ty::pi(alloc, NOWHERE, bound, body)
        }
        TyForm::Sigma(bound, body) => {
            let bound = sorts(alloc, bound.as_slice())?;
            let body = normal_tree(alloc, body.get())?;
            Ty::sigma(alloc, NOWHERE, bound, body)
        }
        TyForm::Arr(elem, shape) => {
            let shape = normal_index(alloc, shape)?;
            let elem = normal_tree(alloc, elem.get())?;
            Ty::array(alloc, NOWHERE, elem, shape)
        }
    }
}

#[cycle(normalize)]
fn normal_trees(alloc: Global, types: &[Ty]) -> Result<Items<Ty>, Memory>
    ensures { IfOk result (λ n. tys_of n ≡ norm_tys (tys_of types.now)) }
{
    let mut trees = Vec::new(alloc);
    for ty in types {
        let tree = normal_tree(alloc, ty)?;
        trees.push(tree).map_err(|_| Memory)?;
    }
    Ok(Items::from_vec(trees))
}

/// The normal form of an index of sort Shape as a tree.
fn normal_index(alloc: Global, shape: &Index) -> Result<Index, Memory>
    ensures { IfOk result (λ i. index_of i ≡ word_tree (norm_word (index_of shape.now))) }
{
    let word = word(alloc, shape).map_err(|_| Memory)?;
    word_index(alloc, &word)
}

/// A copy of sorts.
pub(crate) fn sorts(alloc: Global, bound: &[Sort]) -> Result<Items<Sort>, Memory>
    ensures { IfOk result (λ s. s ≡ bound.now) }
{
    Items::from_slice(alloc, bound).map_err(|_| Memory)
}

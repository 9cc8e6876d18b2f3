ghost use Rattle.std.specs.Prelude.{◌≡◌, ◌⊎◌, ℕ, List, [], Option, Some, length};
ghost use Rattle.core_syntax.specs.Lists.{onto, each, Each};
ghost use Rattle.core_syntax.specs.Syntax.{index_at};
ghost use Rattle.core_syntax.specs.Refine.{index_of};
ghost use Rattle.core_syntax.specs.Sorts.{IsSorted, is_sort, index_blame};
ghost use Rattle.core_syntax.specs.Made.{IndexMade};
ghost use Rattle.core_syntax.specs.Norm.{measure_at, norm_at};
ghost use Rattle.core_syntax.specs.Typing.{Context};
ghost use Rattle.core_syntax.specs.Blame.{measure, tested, ◌then◌, written_indices};
ghost use Rattle.type_check.specs.Found.{Refuses};
ghost use Rattle.type_check.specs.Numbers.{dim_number};
ghost use Rattle.type_check.specs.Written.{Tells, AreNormalIndicesOf};

use crate::refusal::TypeRefusal;
use core_syntax::{Index, NormIndex, Sort, Span};
use index_dims::{DimRefusal, linear};
use kind_check::sort_within;
use shape_words::word;
use std::alloc::Global;

/// The refusal at a place of an index that has no normal form here.
fn measured(refusal: DimRefusal, at: Span) -> TypeRefusal
    ensures { (o : Option ℕ) → (refusal ≡ DimRefusal.Memory) ⊎ (dim_number refusal ≡ o) → Refuses (measure o at) result }
{
    match refusal {
        DimRefusal::TooLarge { value: _ } => TypeRefusal::Refused {
            number: 13,
            span: at,
        },
        DimRefusal::TooWide => TypeRefusal::Refused {
            number: 16,
            span: at,
        },
        DimRefusal::Memory => TypeRefusal::Memory,
    }
}

/// The normal form of an index of a sort.
fn normal_index(alloc: Global, i: &Index, sort: Sort) -> Result<NormIndex, TypeRefusal>
    ensures { Tells (measure (measure_at sort (index_of i.now)) i.now.at) (λ n. n ≡ norm_at sort (index_of i.now)) result }
{
    match sort {
        Sort::Dim => match linear(alloc, i) {
            Ok(dim) => Ok(NormIndex::Dim(dim)),
            Err(refusal) => Err(measured(refusal, i.at)),
        },
        Sort::Shape => match word(alloc, i) {
            Ok(shape) => Ok(NormIndex::Shape(shape)),
            Err(refusal) => Err(measured(refusal, i.at)),
        },
    }
}

/// Whether a sort is the one that is asked for.
fn are_same(own: Sort, want: Sort) -> bool
    ensures { result ≡ is_sort want (Some own) }
{
    match (want, own) {
        (Sort::Dim, Sort::Dim) => true,
        (Sort::Shape, Sort::Shape) => true,
        _ => false,
    }
}

/// The normal form of an index that is given for a variable of a sort, with index variables of the
/// sorts `sorts` in scope, the outermost first (docs/LANGUAGE.md, "Indices").
///
/// # Errors
///
/// `Refused` exactly where the index isn't of the sort, with the first place that is ill sorted
/// (14), or else is too large to be held (13, 16). `Memory` where there was no memory.
fn given_index(
    alloc: Global,
    i: &Index,
    sort: Sort,
    sorts: &[Sort],
) -> Result<NormIndex, TypeRefusal>
    requires { IndexMade (length sorts.now) (index_of i.now) }
    ensures { Tells (tested (index_blame (onto sorts.now []) sort (index_of i.now)) then measure (measure_at sort (index_of i.now)) (index_at (index_of i.now)))
        (λ n. IsSorted (onto sorts.now []) sort (index_of i.now) × (n ≡ norm_at sort (index_of i.now))) result }
{
    match sort_within(i, sorts) {
        Err(differs) => Err(TypeRefusal::Refused {
            number: 14,
            span: differs.span,
        }),
        Ok(own) => {
            if are_same(own, sort) {
                normal_index(alloc, i, sort)
            } else {
                Err(TypeRefusal::Refused {
                    number: 14,
                    span: i.at,
                })
            }
        }
    }
}

/// The normal forms of indices that are given for variables of the sorts `bound`.
///
/// # Errors
///
/// Those of `given_index` at the first that isn't as it should be.
pub(crate) fn given_indices(
    alloc: Global,
    given: &[Index],
    bound: &[Sort],
    sorts: &[Sort],
) -> Result<Vec<NormIndex>, TypeRefusal>
    requires made { Each (IndexMade (length sorts.now)) (each index_of given.now) }
    requires counts { length given.now ≡ length bound.now }
    ensures { (Γ : Context) → Γ.sorts ≡ onto sorts.now [] → Tells (written_indices Γ bound.now (each index_of given.now)) (λ ns. AreNormalIndicesOf Γ bound.now (each index_of given.now) ns.items) result }
{
    let mut all = Vec::new(alloc);
    for (place, index) in given.iter().enumerate() {
        match given_index(alloc, index, bound[place], sorts) {
            Ok(one) => all.push(one).map_err(|_| TypeRefusal::Memory)?,
            Err(refusal) => return Err(refusal),
        }
    }
    Ok(all)
}

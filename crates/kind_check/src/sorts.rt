ghost use Rattle.std.specs.Prelude.{◌≡◌, [], Some, length, slice_get, IfOk, IfErr};
ghost use Rattle.core_syntax.specs.declared.index.Sort.{Sort as SortOf};
ghost use Rattle.core_syntax.specs.Lists.{onto};
ghost use Rattle.core_syntax.specs.Refine.{index_of, indices_of};
ghost use Rattle.core_syntax.specs.Sorts.{IsSorted, own_sort, is_sort, own_blame, inner_blame, inners_blame, parts_blame, refused_at};
ghost use Rattle.core_syntax.specs.Made.{IndexMade};

use core_syntax::{Index, IndexForm, Sort, Span};
use thiserror::Error;

// A context of sorts is held in two parts: `scope`, the sorts of the nearer binders with the
// outermost first, so that a walk can push and take away at its end, and `around`, the sorts of the
// binders around those with the innermost first. The context is `onto scope around`.

/// An index, or a part of one, hasn't the sort that its place asks for (docs/LANGUAGE.md,
/// "Indices"). Its refusal has the number 14.
#[derive(Clone, Copy, Debug, PartialEq, Eq, Error)]
#[error("an index of another sort")]
pub struct SortDiffers {
    /// Where the index or the part stands.
    pub span: Span,
}

/// The sort at a place, if there is one.
fn item(sorts: &[Sort], place: usize) -> Option<Sort>
    ensures { result ≡ slice_get sorts.now place }
{
    sorts.get(place).copied()
}

/// The sort of a variable, counted from the innermost.
fn sort_at(var: u32, scope: &[Sort], around: &[Sort]) -> Option<Sort>
    ensures { result ≡ slice_get (onto scope.now around.now) var }
{
    let place = var as usize;
    if place < scope.len() {
        Some(scope[scope.len() - 1 - place])
    } else {
        item(around, place - scope.len())
    }
}

/// The sort that an index has by its own form.
pub(crate) fn own_sort(i: &Index, scope: &[Sort], around: &[Sort]) -> Option<Sort>
    ensures { result ≡ own_sort (onto scope.now around.now) (index_of i.now) }
{
    match &i.form {
        IndexForm::Num(_) => Some(Sort::Dim),
        IndexForm::Var(var) => sort_at(*var, scope, around),
        IndexForm::Sum(_) => Some(Sort::Dim),
        IndexForm::Dims(_) => Some(Sort::Shape),
        IndexForm::Join(_) => Some(Sort::Shape),
    }
}

/// Whether an own sort is the one that is asked for.
pub(crate) fn has_sort(own: Option<Sort>, want: Sort) -> bool
    ensures { result ≡ is_sort want own }
{
    match (own, want) {
        (Some(Sort::Dim), Sort::Dim) => true,
        (Some(Sort::Shape), Sort::Shape) => true,
        _ => false,
    }
}

/// The first of these that is of another sort by its own form.
#[tactic(auto, using(crate::proofs::BlameLemmas::behind))]
fn first_other(parts: &[Index], want: Sort, scope: &[Sort], around: &[Sort]) -> Option<Span>
    ensures { refused_at result ≡ own_blame (onto scope.now around.now) want (indices_of parts.now) }
{
    for part in parts {
        if !has_sort(own_sort(part, scope, around), want) {
            return Some(part.at);
        }
    }
    None
}

/// The first ill-sorted place inside an index.
#[cycle(blame)]
pub(crate) fn first_inside(i: &Index, scope: &[Sort], around: &[Sort]) -> Option<Span>
    ensures { refused_at result ≡ inner_blame (onto scope.now around.now) (index_of i.now) }
{
    match &i.form {
        IndexForm::Num(_) => None,
        IndexForm::Var(_) => None,
        IndexForm::Sum(parts) => first_among(parts.as_slice(), Sort::Dim, scope, around),
        IndexForm::Dims(parts) => first_among(parts.as_slice(), Sort::Dim, scope, around),
        IndexForm::Join(parts) => first_among(parts.as_slice(), Sort::Shape, scope, around),
    }
}

/// The first ill-sorted place of the parts of a node. Their sorts are tests of the node, and come
/// before what is inside them.
#[cycle(blame)]
fn first_among(parts: &[Index], want: Sort, scope: &[Sort], around: &[Sort]) -> Option<Span>
    ensures { refused_at result ≡ parts_blame (onto scope.now around.now) want (indices_of parts.now) }
{
    match first_other(parts, want, scope, around) {
        Some(at) => Some(at),
        None => first_inside_each(parts, scope, around),
    }
}

/// The first ill-sorted place inside these.
#[cycle(blame)]
#[tactic(auto, using(crate::proofs::BlameLemmas::behind))]
fn first_inside_each(parts: &[Index], scope: &[Sort], around: &[Sort]) -> Option<Span>
    ensures { refused_at result ≡ inners_blame (onto scope.now around.now) (indices_of parts.now) }
{
    for part in parts {
        if let Some(at) = first_inside(part, scope, around) {
            return Some(at);
        }
    }
    None
}

/// The sort of an index in a context of two parts, or the first ill-sorted place in it.
fn sort_in(i: &Index, scope: &[Sort], around: &[Sort]) -> Result<Sort, SortDiffers>
    requires { IndexMade (length (onto scope.now around.now)) (index_of i.now) }
    ensures sorted { IfOk result (λ s. IsSorted (onto scope.now around.now) s (index_of i.now)) }
    ensures blamed { IfErr result (λ e. inner_blame (onto scope.now around.now) (index_of i.now) ≡ Some (14, e.span)) }
    ensures unsorted { IfErr result (λ e. (s : SortOf) → ¬ IsSorted (onto scope.now around.now) s (index_of i.now)) }
{
    if let Some(span) = first_inside(i, scope, around) {
        return Err(SortDiffers { span });
    }
    match own_sort(i, scope, around) {
        Some(sort) => Ok(sort),
        None => unreachable!(),
    }
}

/// The sort of an index in the context `sorts`, the innermost binder first (docs/LANGUAGE.md,
/// "Indices").
///
/// # Errors
///
/// Exactly where the index has no sort, with the first ill-sorted place in it: the sorts of all
/// parts of a node are tested before what is inside them.
pub fn sort_of(i: &Index, sorts: &[Sort]) -> Result<Sort, SortDiffers>
    requires { IndexMade (length sorts.now) (index_of i.now) }
    ensures sorted { IfOk result (λ s. IsSorted sorts.now s (index_of i.now)) }
    ensures blamed { IfErr result (λ e. inner_blame sorts.now (index_of i.now) ≡ Some (14, e.span)) }
    ensures unsorted { IfErr result (λ e. (s : SortOf) → ¬ IsSorted sorts.now s (index_of i.now)) }
{
    sort_in(i, &[], sorts)
}

/// `sort_of` for a caller whose list of sorts grows at its end: the outermost binder stands first
/// in `scope`.
///
/// # Errors
///
/// Those of `sort_of`.
pub fn sort_within(i: &Index, scope: &[Sort]) -> Result<Sort, SortDiffers>
    requires { IndexMade (length scope.now) (index_of i.now) }
    ensures sorted { IfOk result (λ s. IsSorted (onto scope.now []) s (index_of i.now)) }
    ensures blamed { IfErr result (λ e. inner_blame (onto scope.now []) (index_of i.now) ≡ Some (14, e.span)) }
    ensures unsorted { IfErr result (λ e. (s : SortOf) → ¬ IsSorted (onto scope.now []) s (index_of i.now)) }
{
    sort_in(i, scope, &[])
}

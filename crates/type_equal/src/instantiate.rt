//! The body of a binder with types or indices in the places of the binder's variables.
ghost use Rattle.std.specs.Prelude.{◌≡◌, ◌≤◌, ◌⊎◌, None, Some, IfOk, IfErr, OnOk};
ghost use Rattle.core_syntax.specs.Lists.{each, Each};
ghost use Rattle.core_syntax.specs.Refine.{ty_of};
ghost use Rattle.core_syntax.specs.Norm.{measured};
ghost use Rattle.core_syntax.specs.NormTypes.{norm_ty, measure_ty, ty_size};
ghost use Rattle.core_syntax.specs.Subst.{with_types, with_indices};
ghost use Rattle.type_equal.specs.Counted.{put_under, put_size, put_large_ty};
ghost use Rattle.type_equal.specs.Refusal.{number_of};
ghost use Rattle.type_equal.specs.Put.{index_tree, put_in, IsTreeSmall, IsIndexSmall};

use crate::counting::{Count, has_large_in, size_in};
use crate::measuring::NormRefusal;
use crate::norm_type::{NormType, normal};
use crate::putting::{Under, put_tree};
use crate::tables::{counts, sizes};
use core_syntax::{LARGEST_SIZE, Memory, NormIndex, Ty};
use std::alloc::Global;

// Why the type with these in the places of its variables isn't built, by its constants and its
// size; its depth is not looked at.
fn refusal_by(t: &Ty, sizes: &[u64], counts: &[Count]) -> Option<NormRefusal>
    requires { ty_size (ty_of t.now) ≤ 16384 }
    ensures { number_of result ≡ measured (put_large_ty (put_under 0 counts.now) (ty_of t.now)) (put_size (put_under 0 sizes.now) (put_under 0 counts.now) (ty_of t.now)) 0 }
{
    let outside = Under {
        types: 0,
        indices: 0,
    };
    if has_large_in(t, counts, 0) {
        return Some(NormRefusal::TooLarge);
    }
    if size_in(t, sizes, counts, outside) > LARGEST_SIZE {
        return Some(NormRefusal::TooBig);
    }
    None
}

// The same, from what is put.
fn refusal(
    alloc: Global,
    body: &NormType,
    types: &[NormType],
    indices: &[NormIndex],
) -> Result<Option<NormRefusal>, Memory>
    ensures { IfOk result (λ r. (number_of r ≡ None) ⊎ (number_of r ≡ measure_ty (put_in types.now indices.now (ty_of body.now)))) }
{
    let counts = counts(alloc, indices)?;
    let sizes = sizes(alloc, types)?;
    Ok(refusal_by(body.ty(), sizes.as_slice(), counts.as_slice()))
}

// The normal form of a type with types and indices in the places of its variables, where that
// isn't too large to be built.
fn built(
    alloc: Global,
    body: &NormType,
    types: &[NormType],
    indices: &[NormIndex],
) -> Result<NormType, NormRefusal>
    requires body { IsTreeSmall body.now }
    requires types { Each IsTreeSmall types.now }
    requires indices { Each IsIndexSmall indices.now }
    ensures ok { IfOk result (λ n. ty_of n ≡ norm_ty (put_in types.now indices.now (ty_of body.now))) }
    ensures fits { OnOk result (measure_ty (put_in types.now indices.now (ty_of body.now)) ≡ None) }
    ensures refused { IfErr result (λ e. (e ≡ NormRefusal.Memory) ⊎ (number_of (Some e) ≡ measure_ty (put_in types.now indices.now (ty_of body.now)))) }
{
    let outside = Under {
        types: 0,
        indices: 0,
    };
    match put_tree(alloc, body.ty(), types, indices, outside) {
        Ok(tree) => normal(alloc, &tree),
        Err(_) => Err(NormRefusal::Memory),
    }
}

// The normal form of a type with types and indices in the places of its variables.
fn instantiate(
    alloc: Global,
    body: &NormType,
    types: &[NormType],
    indices: &[NormIndex],
) -> Result<NormType, NormRefusal>
    requires body { IsTreeSmall body.now }
    requires types { Each IsTreeSmall types.now }
    requires indices { Each IsIndexSmall indices.now }
    ensures ok { IfOk result (λ n. ty_of n ≡ norm_ty (put_in types.now indices.now (ty_of body.now))) }
    ensures fits { OnOk result (measure_ty (put_in types.now indices.now (ty_of body.now)) ≡ None) }
    ensures refused { IfErr result (λ e. (e ≡ NormRefusal.Memory) ⊎ (number_of (Some e) ≡ measure_ty (put_in types.now indices.now (ty_of body.now)))) }
{
    match refusal(alloc, body, types, indices) {
        Ok(None) => built(alloc, body, types, indices),
        Ok(Some(refusal)) => Err(refusal),
        Err(_) => Err(NormRefusal::Memory),
    }
}

/// The normal form of the body of a `Forall` type with these types in the places of its variables,
/// the first for the binder's first. Outer variables are kept, and none is captured
/// (docs/LANGUAGE.md, "Types").
///
/// # Errors
///
/// Those of `normal`, by the measure of the type that comes. What is too large isn't built.
pub fn instantiate_types(
    alloc: Global,
    body: &NormType,
    with: &[NormType],
) -> Result<NormType, NormRefusal>
    requires body { IsTreeSmall body.now }
    requires with { Each IsTreeSmall with.now }
    ensures ok { IfOk result (λ n. ty_of n ≡ norm_ty (with_types (each ty_of with.now) (ty_of body.now))) }
    ensures fits { OnOk result (measure_ty (with_types (each ty_of with.now) (ty_of body.now)) ≡ None) }
    ensures refused { IfErr result (λ e. (e ≡ NormRefusal.Memory) ⊎ (number_of (Some e) ≡ measure_ty (with_types (each ty_of with.now) (ty_of body.now)))) }
{
    instantiate(alloc, body, with, &[])
}

/// The normal form of the body of a `Pi` or `Sigma` type with these indices in the places of its
/// variables, the first for the binder's first. Outer variables are kept, and none is captured
/// (docs/LANGUAGE.md, "Types").
///
/// # Errors
///
/// Those of `normal`, by the measure of the type that comes. What is too large isn't built.
pub fn instantiate_indices(
    alloc: Global,
    body: &NormType,
    with: &[NormIndex],
) -> Result<NormType, NormRefusal>
    requires body { IsTreeSmall body.now }
    requires with { Each IsIndexSmall with.now }
    ensures ok { IfOk result (λ n. ty_of n ≡ norm_ty (with_indices (each index_tree with.now) (ty_of body.now))) }
    ensures fits { OnOk result (measure_ty (with_indices (each index_tree with.now) (ty_of body.now)) ≡ None) }
    ensures refused { IfErr result (λ e. (e ≡ NormRefusal.Memory) ⊎ (number_of (Some e) ≡ measure_ty (with_indices (each index_tree with.now) (ty_of body.now)))) }
{
    instantiate(alloc, body, &[], with)
}

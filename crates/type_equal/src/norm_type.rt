ghost use Rattle.std.specs.Prelude.{◌≡◌, ◌-◌, ◌↔◌, ◌⊎◌, ℕ, List, IsTrue, None, Some, IfOk, IfErr, OnOk};
ghost use Rattle.core_syntax.specs.declared.index.Sort.{Sort};
ghost use Rattle.core_syntax.specs.Syntax.{Ty as Plain};
ghost use Rattle.core_syntax.specs.Refine.{ty_of};
ghost use Rattle.core_syntax.specs.TypeEqual.{Same, TypeEqual};
ghost use Rattle.core_syntax.specs.Kinds.{IsWellFormed};
ghost use Rattle.core_syntax.specs.NormTypes.{norm_ty, measure_ty};
ghost use Rattle.type_equal.specs.Refusal.{number_of};
ghost use Rattle.type_equal.specs.Moved.{IsFreeBelow, free_limit, ty_moved};

use crate::measuring::{NormRefusal, measure};
use crate::moving::{Shift, moved_tree};
use crate::normalize::normal_tree;
use crate::same_type::same_types;
use core_syntax::{Memory, Ty};
use std::alloc::Global;
use std::marker::Model;

/// A type in normal form, whose measure is nothing. Its indices have the form of the text of a
/// normal form, and no node has a place.
#[derive(Drop)]
pub struct NormType {
    ty: Ty,
}

impl Model for NormType {
    ghost use Rattle.std.specs.Prelude.{◌≡◌, None};
    ghost use Rattle.std.specs.Coded.{codes};
    ghost use Rattle.core_syntax.specs.contracts.ty.Ty as tree;
    ghost use Rattle.core_syntax.specs.declared.ty.Ty.{Ty as Tree};
    ghost use Rattle.core_syntax.specs.Refine.{ty_of};
    ghost use Rattle.core_syntax.specs.NormTypes.{norm_ty, measure_ty};

    ghost Value = { Tree };

    ghost coded = { Prim.hlevel (codes, tree.the_row.coded) };

    ghost view = { λ a. a.ty };

    ghost invariant = { λ a. (norm_ty (ty_of a.ty) ≡ ty_of a.ty) × (measure_ty (ty_of a.ty) ≡ None) };

    ghost inverse = { λ t. record { ty = t } };
}

impl NormType {
    /// The normal form as a tree.
    pub fn ty(&self) -> &Ty
        ensures tree { result.now ≡ self.now }
        ensures normal { norm_ty (ty_of result.now) ≡ ty_of result.now }
        ensures measured { measure_ty (ty_of result.now) ≡ None }
    {
        &self.ty
    }

    /// The normal form as a tree.
    pub fn into_ty(self) -> Ty
        ensures tree { result ≡ self }
        ensures normal { norm_ty (ty_of result) ≡ ty_of result }
        ensures measured { measure_ty (ty_of result) ≡ None }
    {
        let NormType { ty } = self;
        ty
    }

    /// The same normal type once more.
    pub fn copy(&self, alloc: Global) -> Result<NormType, Memory>
        ensures { IfOk result (λ c. c ≡ self.now) }
    {
        match self.ty.copy(alloc) {
            Ok(ty) => Ok(NormType { ty }),
            Err(memory) => Err(memory),
        }
    }
}

/// The normal form of a type (docs/LANGUAGE.md, "Types").
///
/// # Errors
///
/// `TooLarge` exactly where a constant in a shape of the normal form is above the largest number.
/// `TooBig` exactly where none is, and the size or the depth of the normal form is above the
/// largest. `Memory` where there was no memory.
pub fn normal(alloc: Global, t: &Ty) -> Result<NormType, NormRefusal>
    ensures ok { IfOk result (λ n. ty_of n ≡ norm_ty (ty_of t.now)) }
    ensures fits { OnOk result (measure_ty (ty_of t.now) ≡ None) }
    ensures refused { IfErr result (λ e. (e ≡ NormRefusal.Memory) ⊎ (number_of (Some e) ≡ measure_ty (ty_of t.now))) }
{
    match measure(t) {
        Some(refusal) => Err(refusal),
        None => match normal_tree(alloc, t) {
            Ok(ty) => Ok(NormType { ty }),
            Err(_) => Err(NormRefusal::Memory),
        },
    }
}

/// A normal type under so many type binders and index binders more: the numbers of its free
/// variables are so much greater (docs/LANGUAGE.md, "Types").
///
/// # Errors
///
/// `Memory` where there was no memory.
pub fn moved(alloc: Global, t: &NormType, types: u32, indices: u32) -> Result<NormType, Memory>
    requires { IsFreeBelow (free_limit - types) (free_limit - indices) (ty_of t.now) }
    ensures { IfOk result (λ m. ty_of m ≡ ty_moved types indices (ty_of t.now)) }
{
    let types = Shift { by: types, from: 0 };
    let indices = Shift {
        by: indices,
        from: 0,
    };
    match moved_tree(alloc, &t.ty, types, indices) {
        Ok(ty) => Ok(NormType { ty }),
        Err(memory) => Err(memory),
    }
}

/// Whether two normal types, and the types that come to them, are equal.
pub fn same(a: &NormType, b: &NormType) -> bool
    ensures forms { IsTrue result ↔ (ty_of a.now ≡ ty_of b.now) }
    ensures types { (types : ℕ) (sorts : List Sort) (t u : Plain) → IsWellFormed types sorts t → IsWellFormed types sorts u →
        norm_ty t ≡ ty_of a.now → norm_ty u ≡ ty_of b.now → (IsTrue result ↔ TypeEqual types sorts t u) }
{
    same_types(&a.ty, &b.ty)
}

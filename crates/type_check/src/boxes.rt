ghost use Rattle.std.specs.Prelude.{◌≡◌, ◌-◌, ◌≤◌, ◌∷◌, ◌++◌, List, [], ℕ, None, length, IfOk, IfErr};
ghost use Rattle.core_syntax.specs.declared.span.Span.{Span as Place};
ghost use Rattle.core_syntax.specs.Syntax.{Expr, Ty as Plain, Index as PlainIndex, Unbox, Boxed, expr_at, ty_at};
ghost use Rattle.core_syntax.specs.Lists.{onto, each, Each};
ghost use Rattle.core_syntax.specs.Kinds.{IsWellFormed};
ghost use Rattle.core_syntax.specs.Made.{IsArray, HoldsArrays, IndexMade};
ghost use Rattle.core_syntax.specs.Notes.{NodeNote};
ghost use Rattle.core_syntax.specs.NormTypes.{norm_ty, measure_ty};
ghost use Rattle.core_syntax.specs.Refine.{index_of, ty_of};
ghost use Rattle.core_syntax.specs.Subst.{with_indices};
ghost use Rattle.core_syntax.specs.Typing.{Context, IsAtomType, under_terms, under_sorts};
ghost use Rattle.core_syntax.specs.Blame.{measure, written_atom as writes_atom};
ghost use Rattle.type_equal.specs.Moved.{IsFreeBelow, free_limit, ty_moved};
ghost use Rattle.type_equal.specs.Put.{IsIndexSmall, index_tree};
ghost use Rattle.type_check.specs.declared.boxes.OpenedUnbox.{OpenedUnbox as Opened};
ghost use Rattle.type_check.specs.Found.{Found, Concludes};
ghost use Rattle.type_check.specs.Written.{IsWritten, HasScope, HasRoom, Tells};
ghost use Rattle.type_check.specs.Boxes.{FitsBox, OpensBox, IsOpenedBox, OpensUnbox, IsOpenedUnbox, ConcludesAtom};

use crate::applied::part;
use crate::concluded::Concluded;
use crate::forms::is_sum;
use crate::framed::framed;
use crate::given::given_indices;
use crate::refusal::TypeRefusal;
use crate::written::{measured, written, written_atom};
use core_syntax::{Index, NormIndex, Sort, Span, Ty, TyForm};
use sqlite_items::Items;
use std::alloc::Global;
use type_equal::{NormType, instantiate_indices, moved, same};

/// The type of a box, and the type that its content must have.
#[derive(Drop)]
pub(crate) struct OpenedBox {
    pub(crate) ty: NormType,
    pub(crate) content: NormType,
}

/// What an `unbox` names, and the types around its body.
#[derive(Drop)]
pub(crate) struct OpenedUnbox {
    /// The sorts of the indices.
    pub(crate) sorts: Items<Sort>,
    /// The type of the boxes' content, under the indices.
    pub(crate) content: NormType,
    /// The type of a result's cell.
    pub(crate) cell: NormType,
    /// The same under the indices.
    pub(crate) expected: NormType,
}

/// The body of a dependent sum with these indices in its variables' places, measured at a place.
fn content_type(
    alloc: Global,
    at: Span,
    body: &Ty,
    given: &[NormIndex],
) -> Result<NormType, TypeRefusal>
    requires fits { measure_ty (ty_of body.now) ≡ None }
    requires body { IsFreeBelow free_limit free_limit (norm_ty (ty_of body.now)) }
    requires given { Each IsIndexSmall given.now }
    ensures { Tells (measure (measure_ty (with_indices (each index_tree given.now) (norm_ty (ty_of body.now)))) at)
        (λ n. ty_of n ≡ norm_ty (with_indices (each index_tree given.now) (norm_ty (ty_of body.now)))) result }
{
    match part(alloc, body) {
        Ok(body) => match instantiate_indices(alloc, &body, given) {
            Ok(content) => Ok(content),
            Err(refusal) => Err(measured(refusal, at)),
        },
        Err(refusal) => Err(refusal),
    }
}

/// The type that the content of a box of this type and these indices must have.
fn box_content(
    alloc: Global,
    at: Span,
    t: &Ty,
    given: &[Index],
    types: u32,
    sorts: &[Sort],
) -> Result<NormType, TypeRefusal>
    requires fits { measure_ty (ty_of t.now) ≡ None }
    requires formed { IsWellFormed types (onto sorts.now []) (ty_of t.now) }
    requires room { HasRoom types sorts.now }
    requires made { Each (IndexMade (length sorts.now)) (each index_of given.now) }
    ensures { (Γ : Context) → HasScope types sorts.now Γ → (writes_atom Γ (ty_of t.now)).met → IsAtomType Γ (ty_of t.now) → FitsBox Γ at (each index_of given.now) (ty_of t.now) result }
{
    let TyForm::Sigma(bound, body) = &t.form else {
        return Err(TypeRefusal::Refused {
            number: 25,
            span: t.at,
        });
    };
    if given.len() != bound.len() {
        return Err(TypeRefusal::Refused {
            number: 20,
            span: at,
        });
    }
    match given_indices(alloc, given, bound.as_slice(), sorts) {
        Ok(given) => content_type(alloc, at, body.get(), given.as_slice()),
        Err(refusal) => Err(refusal),
    }
}

/// The type of a box with these indices, before its content is looked at (docs/LANGUAGE.md,
/// "Typing").
///
/// # Errors
///
/// `Refused` exactly where a premise isn't met, the first of: the type is of kind Atom as it is
/// written, it is a dependent sum (25), it takes so many indices (20), each has its variable's sort
/// as it is given, and the type of the content isn't too large (13, 16). `Memory` where there was no
/// memory.
pub(crate) fn open_box(
    alloc: Global,
    at: Span,
    t: &Ty,
    given: &[Index],
    types: u32,
    sorts: &mut Vec<Sort>,
) -> Result<OpenedBox, TypeRefusal>
    requires room { HasRoom types sorts.old.items }
    requires written { IsWritten types (length sorts.old.items) (ty_of t.now) }
    requires made { Each (IndexMade (length sorts.old.items)) (each index_of given.now) }
    ensures opens { (Γ : Context) → HasScope types sorts.old.items Γ → OpensBox Γ at (each index_of given.now) (ty_of t.now) result }
    ensures kept { sorts.new.items ≡ sorts.old.items }
{
    match written_atom(alloc, t, types, sorts) {
        Ok(ty) => match box_content(alloc, at, t, given, types, sorts.as_slice()) {
            Ok(content) => Ok(OpenedBox { ty, content }),
            Err(refusal) => Err(refusal),
        },
        Err(refusal) => Err(refusal),
    }
}

/// The type of a box whose content was found to have a type.
///
/// # Errors
///
/// `Refused` (26, at the content) exactly where that isn't the type that the box asks for.
pub(crate) fn close_box(
    content_at: Span,
    found: &NormType,
    opened: OpenedBox,
) -> Result<NormType, TypeRefusal>
    ensures { (Γ : Context) (at : Place) (is : List PlainIndex) (t : Plain) (e : Expr) (ns : List NodeNote) → IsOpenedBox Γ is t opened → HoldsArrays t → expr_at e ≡ content_at →
        Found Γ e (ty_of found.now) ns → ConcludesAtom ty_of Γ (Boxed at is e t) ns result }
{
    let _normal = found.ty();
    let OpenedBox { ty, content } = opened;
    if same(found, &content) {
        Ok(ty)
    } else {
        Err(TypeRefusal::Refused {
            number: 26,
            span: content_at,
        })
    }
}

/// The parts of what an `unbox` names, by the body of the boxes' type.
fn opened_unbox(
    alloc: Global,
    bound: &[Sort],
    body: &Ty,
    cell: NormType,
) -> Result<OpenedUnbox, TypeRefusal>
    requires fits { measure_ty (ty_of body.now) ≡ None }
    requires few { length bound.now ≤ 16384 }
    requires free { IsFreeBelow (free_limit - 0) (free_limit - length bound.now) (ty_of cell) }
    ensures sorts { IfOk result (λ o. o.sorts ≡ bound.now) }
    ensures content { IfOk result (λ o. ty_of o.content ≡ norm_ty (ty_of body.now)) }
    ensures cell { IfOk result (λ o. o.cell ≡ cell) }
    ensures expected { IfOk result (λ o. ty_of o.expected ≡ ty_moved 0 (length bound.now) (ty_of cell)) }
    ensures memory { IfErr result (λ e. e ≡ TypeRefusal.Memory) }
{
    match moved(alloc, &cell, 0, bound.len() as u32) {
        Ok(expected) => match part(alloc, body) {
            Ok(content) => match Items::from_slice(alloc, bound) {
                Ok(sorts) => Ok(OpenedUnbox {
                    sorts,
                    content,
                    cell,
                    expected,
                }),
                Err(_) => Err(TypeRefusal::Memory),
            },
            Err(refusal) => Err(refusal),
        },
        Err(_) => Err(TypeRefusal::Memory),
    }
}

/// What an `unbox` of so many indices names at boxes of a type, before its body is looked at
/// (docs/LANGUAGE.md, "Typing").
///
/// # Errors
///
/// `Refused` exactly where a premise isn't met, the first of: the boxes' type is one of dependent
/// sums (25, at the boxes), they hold so many indices (20), and the result type is as it is written.
/// `Memory` where there was no memory.
pub(crate) fn open_unbox(
    alloc: Global,
    at: Span,
    boxes_at: Span,
    boxes: &NormType,
    count: u32,
    cell: &Ty,
    types: u32,
    sorts: &mut Vec<Sort>,
) -> Result<OpenedUnbox, TypeRefusal>
    requires room { HasRoom types sorts.old.items }
    requires written { IsWritten types (length sorts.old.items) (ty_of cell.now) }
    ensures opens { (Γ : Context) (e : Expr) (ns : List NodeNote) → HasScope types sorts.old.items Γ → expr_at e ≡ boxes_at → Found Γ e (ty_of boxes.now) ns →
        OpensUnbox Γ at count e (ty_of cell.now) (ty_of boxes.now) result }
    ensures kept { sorts.new.items ≡ sorts.old.items }
{
    let TyForm::Arr(elem, _frame) = &boxes.ty().form else {
        return Err(TypeRefusal::Refused {
            number: 25,
            span: boxes_at,
        });
    };
    let elem = elem.get();
    if !is_sum(elem) {
        return Err(TypeRefusal::Refused {
            number: 25,
            span: boxes_at,
        });
    }
    let TyForm::Sigma(bound, body) = &elem.form else {
        unreachable!();
    };
    if count as usize != bound.len() {
        return Err(TypeRefusal::Refused {
            number: 20,
            span: at,
        });
    }
    match written(alloc, cell, types, sorts) {
        Ok(cell) => opened_unbox(alloc, bound.as_slice(), body.get(), cell),
        Err(refusal) => Err(refusal),
    }
}

/// What an `unbox` concludes whose body was found to have a type.
///
/// # Errors
///
/// `Refused` where that isn't the result type under the indices (27, at the result type), and else
/// where the type of the result is too large (13, 16, at the form). `Memory` where there was no
/// memory.
pub(crate) fn close_unbox(
    alloc: Global,
    at: Span,
    cell_at: Span,
    boxes: &NormType,
    sorts: Items<Sort>,
    cell: NormType,
    expected: &NormType,
    body: &NormType,
) -> Result<Concluded, TypeRefusal>
    requires boxes { IsArray (ty_of boxes.now) }
    requires cell { IsArray (ty_of cell) }
    ensures { (Γ : Context) (n : ℕ) (e : Expr) (u : Plain) (b : Expr) (ns ms : List NodeNote) (o : Opened) → o.sorts ≡ sorts → o.cell ≡ cell → o.expected ≡ expected.now →
        IsOpenedUnbox Γ n u (ty_of boxes.now) o → IsArray u → HoldsArrays u → cell_at ≡ ty_at u → Found Γ e (ty_of boxes.now) ns →
        Found (under_terms (ty_of o.content ∷ []) (under_sorts o.sorts Γ)) b (ty_of body.now) ms → Concludes Γ (Unbox at n e u b) (ns ++ ms) result }
{
    let _normal = body.ty();
    let _expected = expected.ty();
    let TyForm::Arr(elem, frame) = &boxes.ty().form else {
        unreachable!();
    };
    let _elem = elem.get();
    if same(body, expected) {
        framed(alloc, at, frame, cell, sorts)
    } else {
        Err(TypeRefusal::Refused {
            number: 27,
            span: cell_at,
        })
    }
}

//! The text of a printable type.
ghost use Rattle.std.specs.Prelude.{◌≡◌, ◌+◌, ◌^◌, ◌≤◌, ◌++◌, length, OnOk, IfOk};
ghost use Rattle.std.specs.Fmt.{decimal};
ghost use Rattle.core_syntax.specs.Refine.{index_of, indices_of, ty_of};
ghost use Rattle.core_syntax.specs.Norm.{index_text, index_texts, name_text, spaced};
ghost use Rattle.core_syntax.specs.NormTypes.{sort_text, base_text, binder_texts, list_text, ty_size, ty_text};
ghost use Rattle.type_equal.specs.Shown.{binder_text, text_under};

use crate::norm_type::NormType;
use core_syntax::{Base, Index, IndexForm, Memory, Sort, Ty, TyForm};
use std::alloc::Global;

fn put(out: &mut Vec<u8>, bytes: &[u8]) -> Result<(), Memory>
    ensures { OnOk result (out.new.items ≡ out.old.items ++ bytes.now) }
{
    out.extend_from_slice(bytes)?;
    Ok(())
}

fn put_number(out: &mut Vec<u8>, alloc: Global, number: u64) -> Result<(), Memory>
    ensures { OnOk result (out.new.items ≡ out.old.items ++ decimal number) }
{
    let text = number.to_string(alloc)?;
    put(out, text.as_bytes())
}

// The name of a variable under so many binders.
fn put_name(out: &mut Vec<u8>, alloc: Global, binders: u64, var: u32) -> Result<(), Memory>
    ensures { OnOk result (out.new.items ≡ out.old.items ++ name_text binders var) }
{
    put(out, b"i")?;
    put_number(out, alloc, binders.saturating_sub(u64::from(var) + 1))
}

#[cycle(index)]
fn put_index(out: &mut Vec<u8>, alloc: Global, binders: u64, index: &Index) -> Result<(), Memory>
    ensures { OnOk result (out.new.items ≡ out.old.items ++ index_text binders (index_of index.now)) }
{
    match &index.form {
        IndexForm::Num(n) => put_number(out, alloc, *n),
        IndexForm::Var(k) => put_name(out, alloc, binders, *k),
        IndexForm::Sum(parts) => {
            put(out, b"(+")?;
            put_parts(out, alloc, binders, parts.as_slice())?;
            put(out, b")")
        }
        IndexForm::Dims(parts) => {
            put(out, b"(shape")?;
            put_parts(out, alloc, binders, parts.as_slice())?;
            put(out, b")")
        }
        IndexForm::Join(parts) => {
            put(out, b"(++")?;
            put_parts(out, alloc, binders, parts.as_slice())?;
            put(out, b")")
        }
    }
}

// Indices, each behind a space.
#[cycle(index)]
fn put_parts(out: &mut Vec<u8>, alloc: Global, binders: u64, parts: &[Index]) -> Result<(), Memory>
    ensures { OnOk result (out.new.items ≡ out.old.items ++ spaced (index_texts binders (indices_of parts.now))) }
{
    for part in parts {
        put(out, b" ")?;
        put_index(out, alloc, binders, part)?;
    }
    Ok(())
}

fn put_sort(out: &mut Vec<u8>, sort: Sort) -> Result<(), Memory>
    ensures { OnOk result (out.new.items ≡ out.old.items ++ sort_text sort) }
{
    match sort {
        Sort::Dim => put(out, b"Dim"),
        Sort::Shape => put(out, b"Shape"),
    }
}

fn put_base(out: &mut Vec<u8>, base: Base) -> Result<(), Memory>
    ensures { OnOk result (out.new.items ≡ out.old.items ++ base_text base) }
{
    match base {
        Base::Int => put(out, b"Int"),
        Base::Bool => put(out, b"Bool"),
        Base::Char => put(out, b"Char"),
    }
}

// A binder with this number.
fn put_binder(out: &mut Vec<u8>, alloc: Global, number: u64, sort: Sort) -> Result<(), Memory>
    ensures { OnOk result (out.new.items ≡ out.old.items ++ binder_text number sort) }
{
    put(out, b"(i")?;
    put_number(out, alloc, number)?;
    put(out, b" ")?;
    put_sort(out, sort)?;
    put(out, b")")
}

// Binders, each behind a space, numbered from `first` on.
fn put_binders(out: &mut Vec<u8>, alloc: Global, first: u64, sorts: &[Sort]) -> Result<(), Memory>
    requires { first + length sorts.now ≤ 2 ^ 33 }
    ensures { OnOk result (out.new.items ≡ out.old.items ++ spaced (binder_texts first sorts.now)) }
{
    for (at, sort) in sorts.iter().enumerate() {
        put(out, b" ")?;
        put_binder(out, alloc, first + at as u64, *sort)?;
    }
    Ok(())
}

// A list of binders, numbered from `first` on.
fn put_list(out: &mut Vec<u8>, alloc: Global, first: u64, sorts: &[Sort]) -> Result<(), Memory>
    requires { first + length sorts.now ≤ 2 ^ 33 }
    ensures { OnOk result (out.new.items ≡ out.old.items ++ list_text (binder_texts first sorts.now)) }
{
    let [sort, others @ ..] = sorts else {
        return put(out, b"()");
    };
    put(out, b"(")?;
    put_binder(out, alloc, first, *sort)?;
    put_binders(out, alloc, first + 1, others)?;
    put(out, b")")
}

fn put_type(out: &mut Vec<u8>, alloc: Global, binders: u64, ty: &Ty) -> Result<(), Memory>
    requires { binders + ty_size (ty_of ty.now) ≤ 2 ^ 32 }
    ensures { OnOk result (out.new.items ≡ out.old.items ++ text_under binders (ty_of ty.now)) }
{
    match &ty.form {
        TyForm::Base(base) => put_base(out, *base),
        TyForm::Sigma(sorts, body) => {
            put(out, b"(Sigma ")?;
            put_list(out, alloc, binders, sorts.as_slice())?;
            put(out, b" ")?;
            put_type(out, alloc, binders + sorts.len() as u64, body.get())?;
            put(out, b")")
        }
        TyForm::Arr(elem, shape) => {
            put(out, b"(A ")?;
            put_type(out, alloc, binders, elem.get())?;
            put(out, b" ")?;
            put_index(out, alloc, binders, shape)?;
            put(out, b")")
        }
        TyForm::Var(_) | TyForm::Fun(_, _) | TyForm::Forall(_, _) | TyForm::Pi(_, _) => Ok(()),
    }
}

/// The text of a printable type: its bound variables are `i0`, `i1` and so on, numbered from the
/// outermost binder (docs/LANGUAGE.md, "Types"). A type that isn't printable has no text, and a
/// free variable has the number 0.
pub fn show_type(alloc: Global, t: &NormType) -> Result<Vec<u8>, Memory>
    ensures { IfOk result (λ text. text.items ≡ ty_text (ty_of t.now)) }
{
    let mut out = Vec::new(alloc);
    put_type(&mut out, alloc, 0, t.ty())?;
    Ok(out)
}

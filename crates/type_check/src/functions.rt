ghost use Rattle.std.specs.Prelude.{◌≡◌, List, length, IfOk};
ghost use Rattle.core_syntax.specs.declared.span.Span.{Span as Place};
ghost use Rattle.core_syntax.specs.Syntax.{Expr, Fun, Fn, Ty as Plain, Tys, ty_at, ty_items, no_span};
ghost use Rattle.core_syntax.specs.Lists.{each, Each};
ghost use Rattle.core_syntax.specs.Made.{IsArray, HoldsArrays, AreArrays};
ghost use Rattle.core_syntax.specs.Notes.{NodeNote};
ghost use Rattle.core_syntax.specs.NormTypes.{norm_ty, norm_tys};
ghost use Rattle.core_syntax.specs.Refine.{ty_of, tys_of};
ghost use Rattle.core_syntax.specs.Typing.{Context, under_terms};
ghost use Rattle.core_syntax.specs.Blame.{◌then◌, written as writes, all_written};
ghost use Rattle.type_check.specs.Found.{Found};
ghost use Rattle.type_check.specs.Written.{IsWritten, HasScope, Tells};
ghost use Rattle.type_check.specs.Boxes.{AreFunctionTypes, ConcludesAtom};

use crate::refusal::TypeRefusal;
use crate::shapes::nowhere;
use crate::written::{written, written_types};
use core_syntax::{Memory, Sort, Span, Ty};
use sqlite_items::Items;
use std::alloc::Global;
use type_equal::{NormType, same};

/// The normal types that a function writes: those of its inputs, and that of its result.
#[derive(Drop)]
pub(crate) struct FunctionTypes {
    pub(crate) inputs: Vec<NormType>,
    pub(crate) output: NormType,
}

/// The types that a function writes (docs/LANGUAGE.md, "Typing").
///
/// # Errors
///
/// `Refused` exactly where one of them isn't as it should be written, at the first of them.
/// `Memory` where there was no memory.
pub(crate) fn function_types(
    alloc: Global,
    inputs: &[Ty],
    output: &Ty,
    types: u32,
    sorts: &mut Vec<Sort>,
) -> Result<FunctionTypes, TypeRefusal>
    requires inputs { Each (IsWritten types (length sorts.old.items)) (each ty_of inputs.now) }
    requires output { IsWritten types (length sorts.old.items) (ty_of output.now) }
    ensures written { (Γ : Context) → HasScope types sorts.old.items Γ →
        Tells (all_written Γ (tys_of inputs.now) then writes Γ (ty_of output.now)) (AreFunctionTypes Γ (tys_of inputs.now) (ty_of output.now)) result }
    ensures kept { sorts.new.items ≡ sorts.old.items }
{
    match written_types(alloc, inputs, types, sorts) {
        Ok(inputs) => match written(alloc, output, types, sorts) {
            Ok(output) => Ok(FunctionTypes { inputs, output }),
            Err(refusal) => Err(refusal),
        },
        Err(refusal) => Err(refusal),
    }
}

/// Copies of the trees of normal types.
fn trees(alloc: Global, types: &[NormType]) -> Result<Items<Ty>, Memory>
    ensures same { IfOk result (λ ts. ts ≡ types.now) }
    ensures normal { IfOk result (λ ts. norm_tys (tys_of ts) ≡ tys_of ts) }
{
    let mut trees = Vec::new(alloc);
    for ty in types {
        let tree = ty.ty().copy(alloc)?;
        trees.push(tree).map_err(|_| Memory)?;
    }
    Ok(Items::from_vec(trees))
}

/// The type of functions with these types.
fn function_type(alloc: Global, inputs: &[NormType], output: NormType) -> Result<Ty, Memory>
    ensures ty { IfOk result (λ t. ty_of t ≡ Fun no_span (tys_of inputs.now) (ty_of output)) }
    ensures normal { IfOk result (λ t. norm_ty (ty_of t) ≡ ty_of t) }
{
    let output = output.into_ty();
    match trees(alloc, inputs) {
        Ok(inputs) => Ty::function(alloc, nowhere(), inputs, output),
        Err(memory) => Err(memory),
    }
}

/// The type of a function whose body was found to have a type.
///
/// # Errors
///
/// `Refused` (27, at the result type) exactly where that isn't the result type. `Memory` where there
/// was no memory.
pub(crate) fn close_function(
    alloc: Global,
    output_at: Span,
    types: FunctionTypes,
    body: &NormType,
) -> Result<Ty, TypeRefusal>
    ensures concludes { (Γ : Context) (at : Place) (ts : Tys) (r : Plain) (e : Expr) (ns : List NodeNote) → AreFunctionTypes Γ ts r types → AreArrays ts → IsArray r → HoldsArrays r →
        output_at ≡ ty_at r → Found (under_terms (ty_items ts) Γ) e (ty_of body.now) ns → ConcludesAtom ty_of Γ (Fn at ts r e) ns result }
    ensures normal { IfOk result (λ t. norm_ty (ty_of t) ≡ ty_of t) }
{
    let _normal = body.ty();
    let FunctionTypes { inputs, output } = types;
    if same(body, &output) {
        match function_type(alloc, inputs.as_slice(), output) {
            Ok(tree) => Ok(tree),
            Err(_) => Err(TypeRefusal::Memory),
        }
    } else {
        Err(TypeRefusal::Refused {
            number: 27,
            span: output_at,
        })
    }
}

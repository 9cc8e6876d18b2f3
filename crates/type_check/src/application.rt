//! The rule of applications.
ghost use Rattle.std.specs.Prelude.{◌≡◌, true, false, List, ◌∷◌, ◌++◌, length, IfOk, IfErr};
ghost use Rattle.core_syntax.specs.Syntax.{Ty as Plain, Fun, App, Expr, Exprs, expr_at, expr_items, ty_items};
ghost use Rattle.core_syntax.specs.Refine.{index_of, ty_of, tys_of};
ghost use Rattle.core_syntax.specs.Kinds.{IsWellFormed};
ghost use Rattle.core_syntax.specs.Made.{IsArray};
ghost use Rattle.core_syntax.specs.Word.{Word};
ghost use Rattle.core_syntax.specs.Norm.{norm_word, word_tree};
ghost use Rattle.core_syntax.specs.NormTypes.{norm_ty};
ghost use Rattle.core_syntax.specs.Typing.{Context};
ghost use Rattle.core_syntax.specs.Blame.{expr_premises};
ghost use Rattle.core_syntax.specs.Notes.{NodeNote, app_note as of_application};
ghost use Rattle.type_check.specs.Found.{Found, Refuses, Concludes};
ghost use Rattle.type_check.specs.FoundParts.{FoundArgs, TestsArg};
ghost use Rattle.type_check.specs.Forms.{IsFramed, is_fun, IsFunctionOf, Follows, SplitsAt};

use crate::concluded::Concluded;
use crate::conclusion::conclusion;
use crate::notes::{app_note, empty_word};
use crate::refusal::TypeRefusal;
use crate::shapes::{array_parts, framed};
use core_syntax::{Index, Memory, NormShape, Span, Ty, TyForm};
use frame_rule::principal;
use shape_words::{cell_split, join, word};
use std::alloc::Global;
use type_equal::{NormType, same_part, word_index};

/// The parts of the type of an array of functions.
#[derive(Clone, Copy)]
pub(crate) struct FunctionParts<'a> {
    pub(crate) inputs: &'a [Ty],
    pub(crate) output: &'a Ty,
    pub(crate) shape: &'a Index,
}

/// Whether a type is a function type.
fn is_function(t: &Ty) -> bool
    ensures { result ≡ is_fun (ty_of t.now) }
{
    match &t.form {
        TyForm::Base(_) => false,
        TyForm::Var(_) => false,
        TyForm::Fun(_, _) => true,
        TyForm::Forall(_, _) => false,
        TyForm::Pi(_, _) => false,
        TyForm::Sigma(_, _) => false,
        TyForm::Arr(_, _) => false,
    }
}

/// The input types and the output type of a function type.
fn function_parts(t: &Ty) -> (&[Ty], &Ty)
    requires { is_fun (ty_of t.now) ≡ true }
    ensures { ty_of t.now ≡ Fun t.now.at (tys_of result.0.now) (ty_of result.1.now) }
{
    match &t.form {
        TyForm::Fun(inputs, output) => (inputs.as_slice(), output.get()),
        _ => unreachable!(),
    }
}

/// The parts of the type of an applied function, which is an array type. It is refused at the
/// function where it holds no functions, and at the application where their number of inputs
/// isn't that of the arguments.
pub(crate) fn function<'a>(
    t: &'a NormType,
    function: Span,
    count: usize,
    at: Span,
) -> Result<FunctionParts<'a>, TypeRefusal>
    requires { IsArray (ty_of t.now) }
    ensures parts { IfOk result (λ p. IsFunctionOf (ty_of t.now) (tys_of p.inputs.now) (ty_of p.output.now) (index_of p.shape.now)) }
    ensures count { IfOk result (λ p. length p.inputs.now ≡ count) }
    ensures refused { IfErr result (λ r. (Γ : Context) (f : Expr) (es : Exprs) (ns : List NodeNote) → expr_at f ≡ function →
        length (expr_items es) ≡ count → Found Γ f (ty_of t.now) ns → Refuses (expr_premises Γ (App at f es)) r) }
{
    let tree = t.ty();
    let (element, shape) = array_parts(tree);
    if !is_function(element) {
        return Err(TypeRefusal::Refused {
            number: 19,
            span: function,
        });
    }
    let (inputs, output) = function_parts(element);
    if inputs.len() != count {
        return Err(TypeRefusal::Refused {
            number: 20,
            span: at,
        });
    }
    Ok(FunctionParts {
        inputs,
        output,
        shape,
    })
}

/// The word in front of the cell's, where the cell's ends the whole.
fn front(
    alloc: Global,
    whole: &NormShape,
    cell: &NormShape,
    at: Span,
) -> Result<NormShape, TypeRefusal>
    ensures { SplitsAt at whole.now cell.now result }
{
    match cell_split(whole, cell) {
        Some(letters) => {
            let rest = empty_word(alloc);
            match join(alloc, whole, letters, &rest) {
                Ok(front) => Ok(front),
                Err(_) => Err(TypeRefusal::Memory),
            }
        }
        None => Err(TypeRefusal::Refused {
            number: 21,
            span: at,
        }),
    }
}

/// The word of an index of sort Shape that was measured, so that it can only be refused for want
/// of memory.
fn index_word(alloc: Global, i: &Index) -> Result<NormShape, Memory>
    ensures { IfOk result (λ w. w ≡ norm_word (index_of i.now)) }
{
    word(alloc, i).map_err(|_| Memory)
}

/// The words of two such indices.
fn both_words(alloc: Global, a: &Index, b: &Index) -> Result<(NormShape, NormShape), Memory>
    ensures { IfOk result (λ w. (w.0 ≡ norm_word (index_of a.now)) × (w.1 ≡ norm_word (index_of b.now))) }
{
    let first = index_word(alloc, a)?;
    let second = index_word(alloc, b)?;
    Ok((first, second))
}

/// The word of the frame of a shape in front of a cell's.
fn frame_of(alloc: Global, whole: &Index, cell: &Index, at: Span) -> Result<NormShape, TypeRefusal>
    ensures { SplitsAt at (norm_word (index_of whole.now)) (norm_word (index_of cell.now)) result }
{
    match both_words(alloc, whole, cell) {
        Ok((whole, cell)) => front(alloc, &whole, &cell, at),
        Err(_) => Err(TypeRefusal::Memory),
    }
}

/// The word of the frame of an argument, whose type was found, before the cell of its normal
/// input type. It is refused at the argument where its type doesn't fit.
pub(crate) fn argument(
    alloc: Global,
    input: &Ty,
    found: &NormType,
    at: Span,
) -> Result<NormShape, TypeRefusal>
    requires input { IsArray (ty_of input.now) }
    requires normal { norm_ty (ty_of input.now) ≡ ty_of input.now }
    requires found { IsArray (ty_of found.now) }
    ensures { (Γ : Context) (e : Expr) (ns : List NodeNote) → expr_at e ≡ at → IsWellFormed Γ.types Γ.sorts (ty_of input.now) →
        Found Γ e (ty_of found.now) ns → TestsArg Γ (ty_of input.now) e ns result }
{
    let (input_atom, cell) = array_parts(input);
    let tree = found.ty();
    let (found_atom, whole) = array_parts(tree);
    if same_part(found_atom, input_atom) {
        frame_of(alloc, whole, cell, at)
    } else {
        Err(TypeRefusal::Refused {
            number: 21,
            span: at,
        })
    }
}

/// The word of the frame of an applied function.
pub(crate) fn own_frame(alloc: Global, function: &FunctionParts) -> Result<NormShape, TypeRefusal>
    ensures word { IfOk result (λ w. w ≡ norm_word (index_of function.now.shape.now)) }
    ensures memory { IfErr result (λ r. r ≡ TypeRefusal.Memory) }
{
    match index_word(alloc, function.shape) {
        Ok(word) => Ok(word),
        Err(_) => Err(TypeRefusal::Memory),
    }
}

/// The type of an application: the output type's cells in the principal frame.
fn result_type(alloc: Global, frame: &NormShape, output: &Ty) -> Result<Ty, Memory>
    requires { IsArray (ty_of output.now) }
    ensures { IfOk result (λ t. IsFramed (word_tree frame.now) (ty_of output.now) (ty_of t)) }
{
    let frame = word_index(alloc, frame)?;
    framed(alloc, frame, output)
}

/// What a rule concludes at an application, from the type that it gives.
fn noted(
    alloc: Global,
    at: Span,
    ty: &Ty,
    function: &FunctionParts,
) -> Result<Concluded, TypeRefusal>
    requires { norm_ty (ty_of function.now.output.now) ≡ ty_of function.now.output.now }
    ensures { Follows at (ty_of ty.now) (of_application (tys_of function.now.inputs.now) (ty_of function.now.output.now)) result }
{
    match app_note(alloc, function.inputs, function.output) {
        Ok(note) => conclusion(alloc, at, ty, note),
        Err(_) => Err(TypeRefusal::Memory),
    }
}

/// What follows at an application whose principal frame is known.
fn in_frame(
    alloc: Global,
    at: Span,
    function: &FunctionParts,
    frame: &NormShape,
) -> Result<Concluded, TypeRefusal>
    requires output { IsArray (ty_of function.now.output.now) }
    requires normal { norm_ty (ty_of function.now.output.now) ≡ ty_of function.now.output.now }
    ensures { (t : Plain) → IsFramed (word_tree frame.now) (ty_of function.now.output.now) t →
        Follows at t (of_application (tys_of function.now.inputs.now) (ty_of function.now.output.now)) result }
{
    match result_type(alloc, frame, function.output) {
        Ok(ty) => noted(alloc, at, &ty, function),
        Err(_) => Err(TypeRefusal::Memory),
    }
}

/// What follows at an application to arguments that fit, from the frame of the function and then
/// those of the arguments. It is refused at the application where none is principal.
pub(crate) fn application(
    alloc: Global,
    at: Span,
    function: &FunctionParts,
    frames: &[NormShape],
) -> Result<Concluded, TypeRefusal>
    requires output { IsArray (ty_of function.now.output.now) }
    requires normal { norm_ty (ty_of function.now.output.now) ≡ ty_of function.now.output.now }
    ensures { (Γ : Context) (f : Expr) (es : Exprs) (t : Plain) (ns : List NodeNote) → Found Γ f t ns →
        IsFunctionOf t (tys_of function.now.inputs.now) (ty_of function.now.output.now) (index_of function.now.shape.now) →
        length (ty_items (tys_of function.now.inputs.now)) ≡ length (expr_items es) →
        (words : List Word) (ms : List NodeNote) → FoundArgs Γ (tys_of function.now.inputs.now) es words ms →
        frames.now ≡ norm_word (index_of function.now.shape.now) ∷ words → Concludes Γ (App at f es) (ns ++ ms) result }
{
    match principal(frames) {
        Some(place) => in_frame(alloc, at, function, &frames[place]),
        None => Err(TypeRefusal::Refused {
            number: 22,
            span: at,
        }),
    }
}

// What rules conclude behind the parts of a node.
ghost use Rattle.std.specs.Prelude.{◌≡◌, List, [], length, IfOk};
ghost use Rattle.core_syntax.specs.Kinds.{IsWellFormed};
ghost use Rattle.core_syntax.specs.Lists.{onto, each, Each};
ghost use Rattle.core_syntax.specs.Made.{IsArray, HoldsArrays, TyMade, ArraysMade, IndexMade, ExprMade};
ghost use Rattle.core_syntax.specs.NormTypes.{norm_ty};
ghost use Rattle.core_syntax.specs.Refine.{index_of, ty_of, tys_of};
ghost use Rattle.core_syntax.specs.Notes.{NodeNote};
ghost use Rattle.core_syntax.specs.Syntax.{Index as PlainIndex};
ghost use Rattle.core_syntax.specs.Syntax as syntax;
ghost use Rattle.core_syntax.specs.Typing.{Context};
ghost use Rattle.core_syntax.specs.Blame.{◌then◌, written as writes, all_written};
ghost use Rattle.core_syntax.specs.declared.span.Span.{Span as Place};
ghost use Rattle.type_check.specs.Answers.{Finding, NodeAnswers, LaterAtomAnswers, LaterCellAnswers, ArgAnswers};
ghost use Rattle.type_check.specs.Boxes.{OpensBox, IsOpenedBox, AreFunctionTypes, ConcludesAtom};
ghost use Rattle.type_check.specs.Contexts.{Like, IsSound, scope_of};
ghost use Rattle.type_check.specs.Forms.{IsFunctionOf};
ghost use Rattle.type_check.specs.Found.{Found, FoundAtom};
ghost use Rattle.type_check.specs.FoundParts.{FoundAtoms, FoundCells, FoundArgs};
ghost use Rattle.type_check.specs.State.{State, context_of, IsSteady};
ghost use Rattle.type_check.specs.Written.{Tells};

use crate::application::{FunctionParts, application, argument, own_frame};
use crate::applied::apply_indices;
use crate::arrays::{empty_literal, later_atom, literal};
use crate::boxes::{OpenedBox, close_box};
use crate::concluded::Concluded;
use crate::frames::{empty_frame, frame, later_cell};
use crate::functions::FunctionTypes;
use crate::refusal::TypeRefusal;
use crate::state::Checker;
use core_syntax::{Index, NormShape, Span, Ty};
use type_equal::NormType;

/// What an array concludes, of which the first atom has this type.
pub(crate) fn array_rule(
    checker: &Checker,
    at: Span,
    dims: &[u32],
    ty: &Ty,
) -> Result<Concluded, TypeRefusal>
    ensures { (before : State) (x : syntax.Atom) (xs : syntax.Atoms) (mid : State) → Finding (λ Γ. FoundAtom Γ x (ty_of ty.now)) before mid →
        Finding (λ Γ. FoundAtoms Γ (ty_of ty.now) xs) mid checker.now → NodeAnswers before checker.now (syntax.Array at dims.now (syntax.more_atoms x xs)) result }
{
    literal(checker.alloc(), at, dims, ty)
}

/// Tests the type of an atom behind the first.
pub(crate) fn atom_rule(checker: &Checker, ty: &Ty, found: &Ty, at: Span) -> Result<(), TypeRefusal>
    requires first { norm_ty (ty_of ty.now) ≡ ty_of ty.now }
    requires later { norm_ty (ty_of found.now) ≡ ty_of found.now }
    ensures { (before : State) (x : syntax.Atom) → syntax.atom_at x ≡ at → Finding (λ Γ. FoundAtom Γ x (ty_of found.now)) before checker.now →
        LaterAtomAnswers (ty_of ty.now) x before checker.now result }
{
    later_atom(ty, found, at)
}

/// What a frame concludes, of which the first cell has this type.
pub(crate) fn frame_rule(
    checker: &Checker,
    at: Span,
    dims: &[u32],
    ty: &NormType,
) -> Result<Concluded, TypeRefusal>
    requires { IsArray (ty_of ty.now) }
    ensures { (before : State) (e : syntax.Expr) (es : syntax.Exprs) (mid : State) → Finding (λ Γ. Found Γ e (ty_of ty.now)) before mid →
        Finding (λ Γ. FoundCells Γ (ty_of ty.now) es) mid checker.now → NodeAnswers before checker.now (syntax.Frame at dims.now (syntax.more_exprs e es)) result }
{
    frame(checker.alloc(), at, dims, ty)
}

/// Tests the type of a cell behind the first.
pub(crate) fn cell_rule(
    checker: &Checker,
    ty: &NormType,
    found: &NormType,
    at: Span,
) -> Result<(), TypeRefusal>
    ensures { (before : State) (e : syntax.Expr) → syntax.expr_at e ≡ at → Finding (λ Γ. Found Γ e (ty_of found.now)) before checker.now →
        LaterCellAnswers (ty_of ty.now) e before checker.now result }
{
    later_cell(ty, found, at)
}

/// The frame of an argument.
pub(crate) fn argument_rule(
    checker: &Checker,
    input: &Ty,
    found: &NormType,
    at: Span,
) -> Result<NormShape, TypeRefusal>
    requires array { IsArray (ty_of input.now) }
    requires normal { norm_ty (ty_of input.now) ≡ ty_of input.now }
    requires formed { IsWellFormed checker.now.types (onto checker.now.sorts []) (ty_of input.now) }
    requires found { IsArray (ty_of found.now) }
    ensures { (before : State) (e : syntax.Expr) → syntax.expr_at e ≡ at → before.types ≡ checker.now.types → before.sorts ≡ checker.now.sorts →
        Finding (λ Γ. Found Γ e (ty_of found.now)) before checker.now → ArgAnswers (ty_of input.now) e before checker.now result }
{
    argument(checker.alloc(), input, found, at)
}

/// What an application concludes, whose arguments have these frames.
pub(crate) fn application_rule(
    checker: &Checker,
    at: Span,
    function: &FunctionParts,
    words: Vec<NormShape>,
) -> Result<Concluded, TypeRefusal>
    requires output { IsArray (ty_of function.now.output.now) }
    requires normal { norm_ty (ty_of function.now.output.now) ≡ ty_of function.now.output.now }
    ensures { (before : State) (f : syntax.Expr) (es : syntax.Exprs) (t : syntax.Ty) (mid : State) → Finding (λ Γ. Found Γ f t) before mid →
        IsFunctionOf t (tys_of function.now.inputs.now) (ty_of function.now.output.now) (index_of function.now.shape.now) →
        length (syntax.ty_items (tys_of function.now.inputs.now)) ≡ length (syntax.expr_items es) →
        Finding (λ Γ. FoundArgs Γ (tys_of function.now.inputs.now) es words.items) mid checker.now → NodeAnswers before checker.now (syntax.App at f es) result }
{
    let Ok(own) = own_frame(checker.alloc(), function) else {
        return Err(TypeRefusal::Memory);
    };
    let mut frames = words;
    match frames.insert(0, own) {
        Ok(()) => application(checker.alloc(), at, function, frames.as_slice()),
        Err(_) => Err(TypeRefusal::Memory),
    }
}

/// What an application to types concludes.
pub(crate) fn types_rule(
    checker: &mut Checker,
    at: Span,
    callee_at: Span,
    callee: &NormType,
    types: &[Ty],
) -> Result<Concluded, TypeRefusal>
    requires steady { IsSteady checker.old }
    requires sound { IsSound checker.old.types (onto checker.old.sorts []) (ty_of callee.now) }
    requires made { Each (TyMade (scope_of (context_of checker.old))) (each ty_of types.now) }
    ensures { (before : State) (e : syntax.Expr) → syntax.expr_at e ≡ callee_at → Finding (λ Γ. Found Γ e (ty_of callee.now)) before checker.old →
        NodeAnswers before checker.new (syntax.TypeApp at e (each ty_of types.now)) result }
{
    checker.apply_types(at, callee_at, callee, types)
}

/// What an application to indices concludes.
pub(crate) fn indices_rule(
    checker: &mut Checker,
    at: Span,
    callee_at: Span,
    callee: &NormType,
    indices: &[Index],
) -> Result<Concluded, TypeRefusal>
    requires steady { IsSteady checker.old }
    requires sound { IsSound checker.old.types (onto checker.old.sorts []) (ty_of callee.now) }
    requires made { Each (IndexMade (scope_of (context_of checker.old)).indices) (each index_of indices.now) }
    ensures { (before : State) (e : syntax.Expr) → syntax.expr_at e ≡ callee_at → Finding (λ Γ. Found Γ e (ty_of callee.now)) before checker.old →
        NodeAnswers before checker.new (syntax.IndexApp at e (each index_of indices.now)) result }
{
    apply_indices(
        checker.alloc(),
        at,
        callee_at,
        callee,
        indices,
        checker.types(),
        checker.sorts(),
    )
}

/// What an array without atoms concludes.
pub(crate) fn no_atoms_rule(
    checker: &mut Checker,
    at: Span,
    dims: &[u32],
    ty: &Ty,
) -> Result<Concluded, TypeRefusal>
    requires steady { IsSteady checker.old }
    requires made { ExprMade (scope_of (context_of checker.old)) (syntax.NoAtoms at dims.now (ty_of ty.now)) }
    ensures { NodeAnswers checker.old checker.new (syntax.NoAtoms at dims.now (ty_of ty.now)) result }
{
    match checker.written_atom(ty) {
        Ok(atom) => empty_literal(checker.alloc(), at, dims, &atom),
        Err(refusal) => Err(refusal),
    }
}

/// What a frame without cells concludes.
pub(crate) fn no_cells_rule(
    checker: &mut Checker,
    at: Span,
    dims: &[u32],
    ty: &Ty,
) -> Result<Concluded, TypeRefusal>
    requires steady { IsSteady checker.old }
    requires made { ExprMade (scope_of (context_of checker.old)) (syntax.NoCells at dims.now (ty_of ty.now)) }
    ensures { NodeAnswers checker.old checker.new (syntax.NoCells at dims.now (ty_of ty.now)) result }
{
    match checker.written(ty) {
        Ok(cell) => empty_frame(checker.alloc(), at, dims, &cell),
        Err(refusal) => Err(refusal),
    }
}

/// The type of a box with these indices, before its content is looked at.
pub(crate) fn box_opened(
    checker: &mut Checker,
    at: Span,
    indices: &[Index],
    ty: &Ty,
) -> Result<OpenedBox, TypeRefusal>
    requires steady { IsSteady checker.old }
    requires indices { Each (IndexMade (scope_of (context_of checker.old)).indices) (each index_of indices.now) }
    requires ty { TyMade (scope_of (context_of checker.old)) (ty_of ty.now) }
    ensures opens { (Γ : Context) → Like Γ (context_of checker.old) → OpensBox Γ at (each index_of indices.now) (ty_of ty.now) result }
    ensures kept { checker.new ≡ checker.old }
{
    checker.open_box(at, ty, indices)
}

/// The type of a box whose content has this type.
pub(crate) fn box_rule(
    content_at: Span,
    found: &NormType,
    opened: OpenedBox,
) -> Result<Ty, TypeRefusal>
    ensures concludes { (Γ : Context) (at : Place) (is : List PlainIndex) (t : syntax.Ty) (e : syntax.Expr) (ns : List NodeNote) → IsOpenedBox Γ is t opened → HoldsArrays t →
        syntax.expr_at e ≡ content_at → Found Γ e (ty_of found.now) ns → ConcludesAtom ty_of Γ (syntax.Boxed at is e t) ns result }
    ensures normal { IfOk result (λ t. norm_ty (ty_of t) ≡ ty_of t) }
{
    match close_box(content_at, found, opened) {
        Ok(ty) => Ok(ty.into_ty()),
        Err(refusal) => Err(refusal),
    }
}

/// The normal types that a function writes, before its body is looked at.
pub(crate) fn function_opened(
    checker: &mut Checker,
    inputs: &[Ty],
    output: &Ty,
) -> Result<FunctionTypes, TypeRefusal>
    requires steady { IsSteady checker.old }
    requires inputs { ArraysMade (scope_of (context_of checker.old)) (tys_of inputs.now) }
    requires output { TyMade (scope_of (context_of checker.old)) (ty_of output.now) }
    ensures opens { (Γ : Context) → Like Γ (context_of checker.old) →
        Tells (all_written Γ (tys_of inputs.now) then writes Γ (ty_of output.now)) (AreFunctionTypes Γ (tys_of inputs.now) (ty_of output.now)) result }
    ensures kept { checker.new ≡ checker.old }
{
    checker.function_types(inputs, output)
}

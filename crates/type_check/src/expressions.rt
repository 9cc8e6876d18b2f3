// Expressions and atoms.
ghost use Rattle.std.specs.Prelude.{ℕ, ◌≡◌, List, [], length, IfOk};
ghost use Rattle.core_syntax.specs.Lists.{onto, each, Each};
ghost use Rattle.core_syntax.specs.Made.{IsArray, HoldsArrays, AreArrays, IsSmall, terms_more, indices_more, ArrayMade, ExprMade, ExprsMade, AtomMade, AtomsMade};
ghost use Rattle.core_syntax.specs.NormTypes.{norm_ty};
ghost use Rattle.core_syntax.specs.Refine.{index_of, ty_of, tys_of, expr_of, exprs_of, atom_of, atoms_of};
ghost use Rattle.core_syntax.specs.Syntax.{Index as PlainIndex, Tys};
ghost use Rattle.core_syntax.specs.Syntax as syntax;
ghost use Rattle.core_syntax.specs.Typing.{Context};
ghost use Rattle.core_syntax.specs.declared.span.Span.{Span as Place};
ghost use Rattle.type_check.specs.Boxes.{IsOpenedBox, IsOpenedUnbox, AreFunctionTypes};
ghost use Rattle.type_check.specs.Answers.{Finding, ExprAnswers, NodeAnswers, AtomAnswers, AtomsAnswer, LaterAtomAnswers, CellsAnswer, LaterCellAnswers, ArgsAnswer, ArgAnswers, InBoxAnswers, IsFoundBefore, IsInput};
ghost use Rattle.type_check.specs.Contexts.{Like, IsSound, scope_of};
ghost use Rattle.type_check.specs.Forms.{IsFunctionOf};
ghost use Rattle.type_check.specs.Found.{Found, FoundAtom};
ghost use Rattle.type_check.specs.Functions.{InFunctionAnswers};
ghost use Rattle.type_check.specs.State.{State, context_of, IsSteady};

use crate::application::{FunctionParts, function};
use crate::atoms::{base_type, forall_type, pi_type, primitive_type};
use crate::binders::{enter_box, enter_terms, leave_box};
use crate::boxes::{OpenedBox, OpenedUnbox, close_unbox};
use crate::concluded::Concluded;
use crate::functions::{FunctionTypes, close_function};
use crate::parts::{first_atom, first_expr};
use crate::refusal::TypeRefusal;
use crate::rules::{
    application_rule, argument_rule, array_rule, atom_rule, box_opened, box_rule, cell_rule,
    frame_rule, function_opened, indices_rule, no_atoms_rule, no_cells_rule, types_rule,
};
use crate::state::Checker;
use crate::variables::{definition, variable};
use core_syntax::{Atom, AtomForm, Base, Expr, ExprForm, Index, NormShape, Sort, Span, Ty};
use type_equal::NormType;

/// The type of an expression, where its premises are met.
#[cycle(typing)]
pub(crate) fn expression(checker: &mut Checker, e: &Expr) -> Result<NormType, TypeRefusal>
    requires steady { IsSteady checker.old }
    requires made { ExprMade (scope_of (context_of checker.old)) (expr_of e.now) }
    ensures { ExprAnswers checker.old checker.new (expr_of e.now) result }
{
    let place = checker.noted();
    checker.hold_note()?;
    match node(checker, e) {
        Ok(Concluded { note, ty }) => {
            checker.put_note(place, note);
            Ok(ty)
        }
        Err(refusal) => Err(refusal),
    }
}

/// What the rule of an expression concludes.
#[cycle(typing)]
fn node(checker: &mut Checker, e: &Expr) -> Result<Concluded, TypeRefusal>
    requires steady { IsSteady checker.old }
    requires made { ExprMade (scope_of (context_of checker.old)) (expr_of e.now) }
    ensures { NodeAnswers checker.old checker.new (expr_of e.now) result }
{
    match &e.form {
        ExprForm::Var(k) => variable(checker, e.at, *k),
        ExprForm::Def(k) => definition(checker, e.at, *k),
        ExprForm::Array(dims, atoms) => literal(checker, e.at, dims.as_slice(), atoms.as_slice()),
        ExprForm::NoAtoms(dims, ty) => no_atoms_rule(checker, e.at, dims.as_slice(), ty),
        ExprForm::Frame(dims, cells) => frame(checker, e.at, dims.as_slice(), cells.as_slice()),
        ExprForm::NoCells(dims, ty) => no_cells_rule(checker, e.at, dims.as_slice(), ty),
        ExprForm::App(function, args) => application(
            checker,
            e.at,
            function.get(),
            args.as_slice(),
        ),
        ExprForm::TypeApp(function, types) => {
            type_application(checker, e.at, function.get(), types.as_slice())
        }
        ExprForm::IndexApp(function, indices) => {
            index_application(checker, e.at, function.get(), indices.as_slice())
        }
        ExprForm::Unbox(count, content, ty, body) => {
            unboxing(checker, e.at, *count, content.get(), ty, body.get())
        }
    }
}

/// `(array (n ..) a ..)`
#[cycle(typing)]
fn literal(
    checker: &mut Checker,
    at: Span,
    dims: &[u32],
    atoms: &[Atom],
) -> Result<Concluded, TypeRefusal>
    requires steady { IsSteady checker.old }
    requires made { ExprMade (scope_of (context_of checker.old)) (syntax.Array at dims.now (atoms_of atoms.now)) }
    ensures { NodeAnswers checker.old checker.new (syntax.Array at dims.now (atoms_of atoms.now)) result }
{
    let (first, later) = first_atom(atoms);
    match atom(checker, first) {
        Ok(ty) => literal_of(checker, at, dims, &ty, later),
        Err(refusal) => Err(refusal),
    }
}

/// `(array (n ..) a ..)`, where the type of the first atom is found.
#[cycle(typing)]
fn literal_of(
    checker: &mut Checker,
    at: Span,
    dims: &[u32],
    ty: &Ty,
    later: &[Atom],
) -> Result<Concluded, TypeRefusal>
    requires steady { IsSteady checker.old }
    requires made { AtomsMade (scope_of (context_of checker.old)) (atoms_of later.now) }
    requires normal { norm_ty (ty_of ty.now) ≡ ty_of ty.now }
    ensures { (before : State) (x : syntax.Atom) → Finding (λ Γ. FoundAtom Γ x (ty_of ty.now)) before checker.old →
        NodeAnswers before checker.new (syntax.Array at dims.now (syntax.more_atoms x (atoms_of later.now))) result }
{
    match later_atoms(checker, ty, later) {
        Ok(()) => array_rule(checker, at, dims, ty),
        Err(refusal) => Err(refusal),
    }
}

/// The atoms of an array behind the first, whose type is found.
#[cycle(typing)]
fn later_atoms(checker: &mut Checker, ty: &Ty, atoms: &[Atom]) -> Result<(), TypeRefusal>
    requires steady { IsSteady checker.old }
    requires made { AtomsMade (scope_of (context_of checker.old)) (atoms_of atoms.now) }
    requires normal { norm_ty (ty_of ty.now) ≡ ty_of ty.now }
    ensures { AtomsAnswer (ty_of ty.now) (atoms_of atoms.now) checker.old checker.new result }
{
    for a in atoms {
        later_atom(checker, ty, a)?;
    }
    Ok(())
}

/// An atom of an array behind the first, whose type is found.
#[cycle(typing)]
fn later_atom(checker: &mut Checker, ty: &Ty, a: &Atom) -> Result<(), TypeRefusal>
    requires steady { IsSteady checker.old }
    requires made { AtomMade (scope_of (context_of checker.old)) (atom_of a.now) }
    requires normal { norm_ty (ty_of ty.now) ≡ ty_of ty.now }
    ensures { LaterAtomAnswers (ty_of ty.now) (atom_of a.now) checker.old checker.new result }
{
    match atom(checker, a) {
        Ok(found) => atom_rule(checker, ty, &found, a.at),
        Err(refusal) => Err(refusal),
    }
}

/// `(frame (n ..) e ..)`
#[cycle(typing)]
fn frame(
    checker: &mut Checker,
    at: Span,
    dims: &[u32],
    cells: &[Expr],
) -> Result<Concluded, TypeRefusal>
    requires steady { IsSteady checker.old }
    requires made { ExprMade (scope_of (context_of checker.old)) (syntax.Frame at dims.now (exprs_of cells.now)) }
    ensures { NodeAnswers checker.old checker.new (syntax.Frame at dims.now (exprs_of cells.now)) result }
{
    let (first, later) = first_expr(cells);
    match expression(checker, first) {
        Ok(ty) => frame_of(checker, at, dims, &ty, later),
        Err(refusal) => Err(refusal),
    }
}

/// `(frame (n ..) e ..)`, where the type of the first cell is found.
#[cycle(typing)]
fn frame_of(
    checker: &mut Checker,
    at: Span,
    dims: &[u32],
    ty: &NormType,
    later: &[Expr],
) -> Result<Concluded, TypeRefusal>
    requires steady { IsSteady checker.old }
    requires made { ExprsMade (scope_of (context_of checker.old)) (exprs_of later.now) }
    requires array { IsArray (ty_of ty.now) }
    ensures { (before : State) (e : syntax.Expr) → Finding (λ Γ. Found Γ e (ty_of ty.now)) before checker.old →
        NodeAnswers before checker.new (syntax.Frame at dims.now (syntax.more_exprs e (exprs_of later.now))) result }
{
    match later_cells(checker, ty, later) {
        Ok(()) => frame_rule(checker, at, dims, ty),
        Err(refusal) => Err(refusal),
    }
}

/// The cells of a frame behind the first, whose type is found.
#[cycle(typing)]
fn later_cells(checker: &mut Checker, ty: &NormType, cells: &[Expr]) -> Result<(), TypeRefusal>
    requires steady { IsSteady checker.old }
    requires made { ExprsMade (scope_of (context_of checker.old)) (exprs_of cells.now) }
    ensures { CellsAnswer (ty_of ty.now) (exprs_of cells.now) checker.old checker.new result }
{
    for e in cells {
        later_cell(checker, ty, e)?;
    }
    Ok(())
}

/// A cell of a frame behind the first, whose type is found.
#[cycle(typing)]
fn later_cell(checker: &mut Checker, ty: &NormType, e: &Expr) -> Result<(), TypeRefusal>
    requires steady { IsSteady checker.old }
    requires made { ExprMade (scope_of (context_of checker.old)) (expr_of e.now) }
    ensures { LaterCellAnswers (ty_of ty.now) (expr_of e.now) checker.old checker.new result }
{
    match expression(checker, e) {
        Ok(found) => cell_rule(checker, ty, &found, e.at),
        Err(refusal) => Err(refusal),
    }
}

/// `(e e ..)`
#[cycle(typing)]
fn application(
    checker: &mut Checker,
    at: Span,
    function: &Expr,
    args: &[Expr],
) -> Result<Concluded, TypeRefusal>
    requires steady { IsSteady checker.old }
    requires made { ExprMade (scope_of (context_of checker.old)) (syntax.App at (expr_of function.now) (exprs_of args.now)) }
    ensures { NodeAnswers checker.old checker.new (syntax.App at (expr_of function.now) (exprs_of args.now)) result }
{
    match expression(checker, function) {
        Ok(callee) => applied(checker, at, function.at, &callee, args),
        Err(refusal) => Err(refusal),
    }
}

/// `(e e ..)`, where the type of the function is found.
#[cycle(typing)]
fn applied(
    checker: &mut Checker,
    at: Span,
    function_at: Span,
    callee: &NormType,
    args: &[Expr],
) -> Result<Concluded, TypeRefusal>
    requires steady { IsSteady checker.old }
    requires made { ExprsMade (scope_of (context_of checker.old)) (exprs_of args.now) }
    requires sound { IsSound checker.old.types (onto checker.old.sorts []) (ty_of callee.now) }
    ensures { (before : State) (f : syntax.Expr) → syntax.expr_at f ≡ function_at → Finding (λ Γ. Found Γ f (ty_of callee.now)) before checker.old →
        NodeAnswers before checker.new (syntax.App at f (exprs_of args.now)) result }
{
    let _normal = callee.ty();
    match function(callee, function_at, args.len(), at) {
        Ok(parts) => applied_parts(checker, at, &parts, args),
        Err(refusal) => Err(refusal),
    }
}

/// `(e e ..)`, where the function takes so many arguments.
#[cycle(typing)]
fn applied_parts(
    checker: &mut Checker,
    at: Span,
    parts: &FunctionParts,
    args: &[Expr],
) -> Result<Concluded, TypeRefusal>
    requires steady { IsSteady checker.old }
    requires made { ExprsMade (scope_of (context_of checker.old)) (exprs_of args.now) }
    requires inputs { Each (IsInput checker.old.types (onto checker.old.sorts [])) (each ty_of parts.now.inputs.now) }
    requires output { IsInput checker.old.types (onto checker.old.sorts []) (ty_of parts.now.output.now) }
    requires count { length parts.now.inputs.now ≡ length args.now }
    ensures { (before : State) (f : syntax.Expr) (t : syntax.Ty) → Finding (λ Γ. Found Γ f t) before checker.old →
        IsFunctionOf t (tys_of parts.now.inputs.now) (ty_of parts.now.output.now) (index_of parts.now.shape.now) → NodeAnswers before checker.new (syntax.App at f (exprs_of args.now)) result }
{
    match arguments(checker, parts.inputs, args) {
        Ok(words) => application_rule(checker, at, parts, words),
        Err(refusal) => Err(refusal),
    }
}

/// The frames of arguments of these input types.
#[cycle(typing)]
fn arguments(
    checker: &mut Checker,
    inputs: &[Ty],
    args: &[Expr],
) -> Result<Vec<NormShape>, TypeRefusal>
    requires steady { IsSteady checker.old }
    requires made { ExprsMade (scope_of (context_of checker.old)) (exprs_of args.now) }
    requires inputs { Each (IsInput checker.old.types (onto checker.old.sorts [])) (each ty_of inputs.now) }
    requires count { length inputs.now ≡ length args.now }
    ensures { ArgsAnswer (λ ws. ws.items) (tys_of inputs.now) (exprs_of args.now) checker.old checker.new result }
{
    let mut words = Vec::new(checker.alloc());
    for (place, arg) in args.iter().enumerate() {
        let word = argument(checker, &inputs[place], arg)?;
        words.push(word)?;
    }
    Ok(words)
}

/// The frame of an argument of this input type.
#[cycle(typing)]
fn argument(checker: &mut Checker, input: &Ty, arg: &Expr) -> Result<NormShape, TypeRefusal>
    requires steady { IsSteady checker.old }
    requires made { ExprMade (scope_of (context_of checker.old)) (expr_of arg.now) }
    requires input { IsInput checker.old.types (onto checker.old.sorts []) (ty_of input.now) }
    ensures { ArgAnswers (ty_of input.now) (expr_of arg.now) checker.old checker.new result }
{
    match expression(checker, arg) {
        Ok(found) => argument_rule(checker, input, &found, arg.at),
        Err(refusal) => Err(refusal),
    }
}

/// `(t-app e T ..)`
#[cycle(typing)]
fn type_application(
    checker: &mut Checker,
    at: Span,
    function: &Expr,
    types: &[Ty],
) -> Result<Concluded, TypeRefusal>
    requires steady { IsSteady checker.old }
    requires made { ExprMade (scope_of (context_of checker.old)) (syntax.TypeApp at (expr_of function.now) (each ty_of types.now)) }
    ensures { NodeAnswers checker.old checker.new (syntax.TypeApp at (expr_of function.now) (each ty_of types.now)) result }
{
    match expression(checker, function) {
        Ok(callee) => types_rule(checker, at, function.at, &callee, types),
        Err(refusal) => Err(refusal),
    }
}

/// `(i-app e i ..)`
#[cycle(typing)]
fn index_application(
    checker: &mut Checker,
    at: Span,
    function: &Expr,
    indices: &[Index],
) -> Result<Concluded, TypeRefusal>
    requires steady { IsSteady checker.old }
    requires made { ExprMade (scope_of (context_of checker.old)) (syntax.IndexApp at (expr_of function.now) (each index_of indices.now)) }
    ensures { NodeAnswers checker.old checker.new (syntax.IndexApp at (expr_of function.now) (each index_of indices.now)) result }
{
    match expression(checker, function) {
        Ok(callee) => indices_rule(checker, at, function.at, &callee, indices),
        Err(refusal) => Err(refusal),
    }
}

/// `(unbox (x .. y e) T b)`
#[cycle(typing)]
fn unboxing(
    checker: &mut Checker,
    at: Span,
    count: u32,
    content: &Expr,
    ty: &Ty,
    body: &Expr,
) -> Result<Concluded, TypeRefusal>
    requires steady { IsSteady checker.old }
    requires made { ExprMade (scope_of (context_of checker.old)) (syntax.Unbox at count (expr_of content.now) (ty_of ty.now) (expr_of body.now)) }
    ensures { NodeAnswers checker.old checker.new (syntax.Unbox at count (expr_of content.now) (ty_of ty.now) (expr_of body.now)) result }
{
    match expression(checker, content) {
        Ok(boxes) => unboxed(checker, at, count, content.at, &boxes, ty, body),
        Err(refusal) => Err(refusal),
    }
}

/// `(unbox (x .. y e) T b)`, where the type of the boxes is found.
#[cycle(typing)]
fn unboxed(
    checker: &mut Checker,
    at: Span,
    count: u32,
    boxes_at: Span,
    boxes: &NormType,
    ty: &Ty,
    body: &Expr,
) -> Result<Concluded, TypeRefusal>
    requires steady { IsSteady checker.old }
    requires ty { ArrayMade (scope_of (context_of checker.old)) (ty_of ty.now) }
    requires small { IsSmall (terms_more 1 (indices_more count (scope_of (context_of checker.old)))) }
    requires body { ExprMade (terms_more 1 (indices_more count (scope_of (context_of checker.old)))) (expr_of body.now) }
    requires found { IsFoundBefore boxes_at (ty_of boxes.now) checker.old }
    ensures { (before : State) (e : syntax.Expr) → syntax.expr_at e ≡ boxes_at → Finding (λ Γ. Found Γ e (ty_of boxes.now)) before checker.old →
        NodeAnswers before checker.new (syntax.Unbox at count e (ty_of ty.now) (expr_of body.now)) result }
{
    match checker.open_unbox(at, boxes_at, boxes, count, ty) {
        Ok(opened) => unboxed_body(checker, at, ty.at, boxes, opened, body),
        Err(refusal) => Err(refusal),
    }
}

/// `(unbox (x .. y e) T b)`, where the type of the boxes and the result type are as they should be.
#[cycle(typing)]
fn unboxed_body(
    checker: &mut Checker,
    at: Span,
    cell_at: Span,
    boxes: &NormType,
    opened: OpenedUnbox,
    body: &Expr,
) -> Result<Concluded, TypeRefusal>
    requires steady { IsSteady checker.old }
    requires boxes { IsArray (ty_of boxes.now) }
    requires cell { IsArray (ty_of opened.cell) }
    requires small { IsSmall (terms_more 1 (indices_more (length opened.sorts) (scope_of (context_of checker.old)))) }
    requires body { ExprMade (terms_more 1 (indices_more (length opened.sorts) (scope_of (context_of checker.old)))) (expr_of body.now) }
    requires sound { IsSound checker.old.types (onto opened.sorts (onto checker.old.sorts [])) (ty_of opened.content) }
    ensures { (before : State) (n : ℕ) (e : syntax.Expr) (u : syntax.Ty) → Finding (λ Γ. Found Γ e (ty_of boxes.now)) before checker.old →
        ((Γ : Context) → Like Γ (context_of before) → IsOpenedUnbox Γ n u (ty_of boxes.now) opened) → IsArray u → HoldsArrays u → cell_at ≡ syntax.ty_at u →
        NodeAnswers before checker.new (syntax.Unbox at n e u (expr_of body.now)) result }
{
    let OpenedUnbox {
        sorts,
        content,
        cell,
        expected,
    } = opened;
    match in_box(checker, sorts.as_slice(), content, body) {
        Ok(found) => close_unbox(
            checker.alloc(),
            at,
            cell_at,
            boxes,
            sorts,
            cell,
            &expected,
            &found,
        ),
        Err(refusal) => Err(refusal),
    }
}

/// The type of the body of an `unbox`, under its binders.
#[cycle(typing)]
fn in_box(
    checker: &mut Checker,
    sorts: &[Sort],
    content: NormType,
    body: &Expr,
) -> Result<NormType, TypeRefusal>
    requires steady { IsSteady checker.old }
    requires small { IsSmall (terms_more 1 (indices_more (length sorts.now) (scope_of (context_of checker.old)))) }
    requires body { ExprMade (terms_more 1 (indices_more (length sorts.now) (scope_of (context_of checker.old)))) (expr_of body.now) }
    requires sound { IsSound checker.old.types (onto sorts.now (onto checker.old.sorts [])) (ty_of content) }
    ensures { InBoxAnswers sorts.now (ty_of content) (expr_of body.now) checker.old checker.new result }
{
    enter_box(checker, sorts, content)?;
    match expression(checker, body) {
        Ok(found) => {
            leave_box(checker, sorts.len());
            Ok(found)
        }
        Err(refusal) => Err(refusal),
    }
}

/// The type of an atom, where its premises are met.
#[cycle(typing)]
fn atom(checker: &mut Checker, a: &Atom) -> Result<Ty, TypeRefusal>
    requires steady { IsSteady checker.old }
    requires made { AtomMade (scope_of (context_of checker.old)) (atom_of a.now) }
    ensures found { AtomAnswers checker.old checker.new (atom_of a.now) result }
    ensures normal { IfOk result (λ t. norm_ty (ty_of t) ≡ ty_of t) }
{
    match &a.form {
        AtomForm::Int(_) => Ok(base_type(Base::Int)),
        AtomForm::Bool(_) => Ok(base_type(Base::Bool)),
        AtomForm::Char(_) => Ok(base_type(Base::Char)),
        AtomForm::TypeFn(count, body) => type_function(checker, a.at, *count, body.get()),
        AtomForm::IndexFn(sorts, body) => index_function(
            checker,
            a.at,
            sorts.as_slice(),
            body.get(),
        ),
        AtomForm::Boxed(indices, content, ty) => {
            boxing(checker, a.at, indices.as_slice(), content.get(), ty)
        }
        AtomForm::Fn(inputs, output, body) => term_function(
            checker,
            a.at,
            inputs.as_slice(),
            output,
            body.get(),
        ),
        AtomForm::Prim(p) => primitive_type(checker.alloc(), *p),
    }
}

/// `(fn ((x T) ..) R e)`
#[cycle(typing)]
fn term_function(
    checker: &mut Checker,
    at: Span,
    inputs: &[Ty],
    output: &Ty,
    body: &Expr,
) -> Result<Ty, TypeRefusal>
    requires steady { IsSteady checker.old }
    requires made { AtomMade (scope_of (context_of checker.old)) (syntax.Fn at (tys_of inputs.now) (ty_of output.now) (expr_of body.now)) }
    ensures found { AtomAnswers checker.old checker.new (syntax.Fn at (tys_of inputs.now) (ty_of output.now) (expr_of body.now)) result }
    ensures normal { IfOk result (λ t. norm_ty (ty_of t) ≡ ty_of t) }
{
    match function_opened(checker, inputs, output) {
        Ok(types) => function_body(checker, output.at, types, body),
        Err(refusal) => Err(refusal),
    }
}

/// `(fn ((x T) ..) R e)`, where the types are as they should be.
#[cycle(typing)]
fn function_body(
    checker: &mut Checker,
    output_at: Span,
    types: FunctionTypes,
    body: &Expr,
) -> Result<Ty, TypeRefusal>
    requires steady { IsSteady checker.old }
    requires sound { Each (IsSound checker.old.types (onto checker.old.sorts [])) (each ty_of types.inputs.items) }
    requires small { IsSmall (terms_more (length types.inputs.items) (scope_of (context_of checker.old))) }
    requires body { ExprMade (terms_more (length types.inputs.items) (scope_of (context_of checker.old))) (expr_of body.now) }
    ensures found { (at : Place) (ts : Tys) (r : syntax.Ty) → ((Γ : Context) → Like Γ (context_of checker.old) → AreFunctionTypes Γ ts r types) → AreArrays ts → IsArray r → HoldsArrays r →
        output_at ≡ syntax.ty_at r → AtomAnswers checker.old checker.new (syntax.Fn at ts r (expr_of body.now)) result }
    ensures normal { IfOk result (λ t. norm_ty (ty_of t) ≡ ty_of t) }
{
    match in_function(checker, types.inputs.as_slice(), body) {
        Ok(found) => close_function(checker.alloc(), output_at, types, &found),
        Err(refusal) => Err(refusal),
    }
}

/// The type of the body of a function, under its binders.
#[cycle(typing)]
fn in_function(
    checker: &mut Checker,
    inputs: &[NormType],
    body: &Expr,
) -> Result<NormType, TypeRefusal>
    requires steady { IsSteady checker.old }
    requires sound { Each (IsSound checker.old.types (onto checker.old.sorts [])) (each ty_of inputs.now) }
    requires small { IsSmall (terms_more (length inputs.now) (scope_of (context_of checker.old))) }
    requires body { ExprMade (terms_more (length inputs.now) (scope_of (context_of checker.old))) (expr_of body.now) }
    ensures { InFunctionAnswers (each ty_of inputs.now) (expr_of body.now) checker.old checker.new result }
{
    enter_terms(checker, inputs)?;
    match expression(checker, body) {
        Ok(found) => {
            checker.leave_terms(inputs.len());
            Ok(found)
        }
        Err(refusal) => Err(refusal),
    }
}

/// `(tfn (x ..) e)`
#[cycle(typing)]
fn type_function(
    checker: &mut Checker,
    at: Span,
    count: u32,
    body: &Expr,
) -> Result<Ty, TypeRefusal>
    requires steady { IsSteady checker.old }
    requires made { AtomMade (scope_of (context_of checker.old)) (syntax.TypeFn at count (expr_of body.now)) }
    ensures found { AtomAnswers checker.old checker.new (syntax.TypeFn at count (expr_of body.now)) result }
    ensures normal { IfOk result (λ t. norm_ty (ty_of t) ≡ ty_of t) }
{
    checker.enter_types(count);
    match expression(checker, body) {
        Ok(answer) => {
            checker.leave_types(count);
            forall_type(checker.alloc(), count, answer)
        }
        Err(refusal) => Err(refusal),
    }
}

/// `(ifn ((x S) ..) e)`
#[cycle(typing)]
fn index_function(
    checker: &mut Checker,
    at: Span,
    sorts: &[Sort],
    body: &Expr,
) -> Result<Ty, TypeRefusal>
    requires steady { IsSteady checker.old }
    requires made { AtomMade (scope_of (context_of checker.old)) (syntax.IndexFn at sorts.now (expr_of body.now)) }
    ensures found { AtomAnswers checker.old checker.new (syntax.IndexFn at sorts.now (expr_of body.now)) result }
    ensures normal { IfOk result (λ t. norm_ty (ty_of t) ≡ ty_of t) }
{
    checker.enter_sorts(sorts)?;
    match expression(checker, body) {
        Ok(answer) => {
            checker.leave_sorts(sorts.len());
            pi_type(checker.alloc(), sorts, answer)
        }
        Err(refusal) => Err(refusal),
    }
}

/// `(box (i ..) e T)`
#[cycle(typing)]
fn boxing(
    checker: &mut Checker,
    at: Span,
    indices: &[Index],
    content: &Expr,
    ty: &Ty,
) -> Result<Ty, TypeRefusal>
    requires steady { IsSteady checker.old }
    requires made { AtomMade (scope_of (context_of checker.old)) (syntax.Boxed at (each index_of indices.now) (expr_of content.now) (ty_of ty.now)) }
    ensures found { AtomAnswers checker.old checker.new (syntax.Boxed at (each index_of indices.now) (expr_of content.now) (ty_of ty.now)) result }
    ensures normal { IfOk result (λ t. norm_ty (ty_of t) ≡ ty_of t) }
{
    match box_opened(checker, at, indices, ty) {
        Ok(opened) => boxed_content(checker, content, opened),
        Err(refusal) => Err(refusal),
    }
}

/// `(box (i ..) e T)`, where the type is as it should be.
#[cycle(typing)]
fn boxed_content(
    checker: &mut Checker,
    content: &Expr,
    opened: OpenedBox,
) -> Result<Ty, TypeRefusal>
    requires steady { IsSteady checker.old }
    requires made { ExprMade (scope_of (context_of checker.old)) (expr_of content.now) }
    ensures found { (at : Place) (is : List PlainIndex) (t : syntax.Ty) → ((Γ : Context) → Like Γ (context_of checker.old) → IsOpenedBox Γ is t opened) → HoldsArrays t →
        AtomAnswers checker.old checker.new (syntax.Boxed at is (expr_of content.now) t) result }
    ensures normal { IfOk result (λ t. norm_ty (ty_of t) ≡ ty_of t) }
{
    match expression(checker, content) {
        Ok(found) => box_rule(content.at, &found, opened),
        Err(refusal) => Err(refusal),
    }
}

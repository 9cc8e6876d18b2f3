//! The parts of a program: its definitions in order, its inputs, and its body.
ghost use Rattle.std.specs.Prelude.{◌≡◌, ◌<◌, ◌^◌, true, [], length, Ok};
ghost use Rattle.core_syntax.specs.Lists.{each, Each};
ghost use Rattle.core_syntax.specs.Made.{ExprMade, DefsMade};
ghost use Rattle.core_syntax.specs.NormTypes.{norm_ty};
ghost use Rattle.core_syntax.specs.Programs.{def_of};
ghost use Rattle.core_syntax.specs.Refine.{ty_of, expr_of};
ghost use Rattle.core_syntax.specs.Syntax.{Ty as Plain};
ghost use Rattle.core_syntax.specs.TypeEqual.{Same};
ghost use Rattle.core_syntax.specs.Typing.{is_printable as prints};
ghost use Rattle.core_syntax.specs.Wholes.{program_of};
ghost use Rattle.type_check.specs.Contexts.{scope_of};
ghost use Rattle.type_check.specs.ProgramAnswers.{Tests, ClosedAnswers, ValueAnswers, DefAnswers, DefsAnswer, InputTypeAnswers, InputAnswers, InputsAnswer, BodyAnswers, ProgramAnswers};
ghost use Rattle.type_check.specs.ProgramState.{IsBehind};
ghost use Rattle.type_check.specs.State.{context_of, IsSteady};
ghost use Rattle.type_check.specs.Written.{IsWritten, IsWrittenArray};

use crate::expressions::expression;
use crate::refusal::TypeRefusal;
use crate::state::Checker;
use crate::values::{is_printable, is_value};
use crate::written::written;
use core_syntax::{Def, Expr, Program, Span, Ty};
use std::alloc::Global;
use type_equal::{NormType, same_part};

/// The normal type of a type that is written where no variables are in scope.
fn closed_type(alloc: Global, ty: &Ty) -> Result<NormType, TypeRefusal>
    requires { IsWritten 0 0 (ty_of ty.now) }
    ensures { ClosedAnswers (ty_of ty.now) result }
{
    let mut sorts = Vec::new(alloc);
    written(alloc, ty, 0, &mut sorts)
}

/// Tests that the type found of a definition's value is the written one, which has this normal
/// form and stands at this place.
fn has_written_type(found: &NormType, ty: &NormType, at: Span) -> Result<(), TypeRefusal>
    ensures { (t : Plain) → ty_of ty.now ≡ norm_ty t → Tests 27 at (Same (ty_of found.now) t) result }
{
    let own = found.ty();
    let other = ty.ty();
    if same_part(own, other) {
        Ok(())
    } else {
        Err(TypeRefusal::Refused {
            number: 27,
            span: at,
        })
    }
}

/// Tests the value of a definition, whose written type has this normal form.
fn definition_value(checker: &mut Checker, def: &Def, ty: &NormType) -> Result<(), TypeRefusal>
    requires steady { IsSteady checker.old }
    requires made { ExprMade (scope_of (context_of checker.old)) (expr_of def.now.value) }
    requires written { ty_of ty.now ≡ norm_ty (ty_of def.now.ty) }
    ensures { ValueAnswers (def_of def.now) checker.old checker.new result }
{
    if !is_value(&def.value) {
        return Err(TypeRefusal::Refused {
            number: 28,
            span: def.value.at,
        });
    }
    match expression(checker, &def.value) {
        Ok(found) => has_written_type(&found, ty, def.ty.at),
        Err(refusal) => Err(refusal),
    }
}

/// Tests a definition whose written type has this normal form, and adds it.
fn typed_definition(checker: &mut Checker, def: &Def, ty: NormType) -> Result<(), TypeRefusal>
    requires steady { IsSteady checker.old }
    requires made { ExprMade (scope_of (context_of checker.old)) (expr_of def.now.value) }
    requires array { IsWrittenArray 0 0 (ty_of def.now.ty) }
    requires written { ClosedAnswers (ty_of def.now.ty) (Ok ty) }
    ensures { DefAnswers (def_of def.now) checker.old checker.new result }
{
    match definition_value(checker, def, &ty) {
        Ok(()) => checker.define(ty),
        Err(refusal) => Err(refusal),
    }
}

/// Tests a definition behind those before it, and adds it.
fn definition(checker: &mut Checker, def: &Def) -> Result<(), TypeRefusal>
    requires steady { IsSteady checker.old }
    requires made { ExprMade (scope_of (context_of checker.old)) (expr_of def.now.value) }
    requires array { IsWrittenArray 0 0 (ty_of def.now.ty) }
    ensures { DefAnswers (def_of def.now) checker.old checker.new result }
{
    match closed_type(checker.alloc(), &def.ty) {
        Ok(ty) => typed_definition(checker, def, ty),
        Err(refusal) => Err(refusal),
    }
}

/// Tests the definitions of a program, in order.
fn definitions(checker: &mut Checker, defs: &[Def]) -> Result<(), TypeRefusal>
    requires start { IsBehind [] [] checker.old }
    requires made { DefsMade 0 (each def_of defs.now) }
    ensures { DefsAnswer (each def_of defs.now) checker.new result }
{
    for def in defs {
        definition(checker, def)?;
    }
    Ok(())
}

/// Tests that a type is printable, for the premise with this number, at this place.
fn printable(ty: &Ty, number: u8, at: Span) -> Result<(), TypeRefusal>
    ensures { Tests number at (prints (ty_of ty.now) ≡ true) result }
{
    if is_printable(ty) {
        Ok(())
    } else {
        Err(TypeRefusal::Refused { number, span: at })
    }
}

/// The normal type of an input, which is to be printable.
fn printable_type(alloc: Global, ty: &Ty) -> Result<NormType, TypeRefusal>
    requires { IsWritten 0 0 (ty_of ty.now) }
    ensures { InputTypeAnswers (ty_of ty.now) result }
{
    match closed_type(alloc, ty) {
        Ok(normal) => match printable(ty, 29, ty.at) {
            Ok(()) => Ok(normal),
            Err(refusal) => Err(refusal),
        },
        Err(refusal) => Err(refusal),
    }
}

/// Tests the type of an input behind those before it, and enters its variable.
fn input(checker: &mut Checker, ty: &Ty) -> Result<(), TypeRefusal>
    requires array { IsWrittenArray 0 0 (ty_of ty.now) }
    requires few { length checker.old.sorts < 2 ^ 31 }
    ensures { InputAnswers (ty_of ty.now) checker.old checker.new result }
{
    match printable_type(checker.alloc(), ty) {
        Ok(normal) => checker.enter_term(normal),
        Err(refusal) => Err(refusal),
    }
}

/// Tests the types of the inputs of a program, from left to right.
fn inputs(checker: &mut Checker, types: &[Ty]) -> Result<(), TypeRefusal>
    requires arrays { Each (IsWrittenArray 0 0) (each ty_of types.now) }
    requires few { length checker.old.sorts < 2 ^ 31 }
    ensures { InputsAnswer (each ty_of types.now) checker.old checker.new result }
{
    for ty in types {
        input(checker, ty)?;
    }
    Ok(())
}

/// The type of a program's body.
fn body_type(checker: &mut Checker, body: &Expr) -> Result<NormType, TypeRefusal>
    requires steady { IsSteady checker.old }
    requires made { ExprMade (scope_of (context_of checker.old)) (expr_of body.now) }
    ensures { BodyAnswers (expr_of body.now) checker.old checker.new result }
{
    match expression(checker, body) {
        Ok(found) => match printable(found.ty(), 30, body.at) {
            Ok(()) => Ok(found),
            Err(refusal) => Err(refusal),
        },
        Err(refusal) => Err(refusal),
    }
}

/// The type of the body of a program whose premises are met.
pub(crate) fn program_type(checker: &mut Checker, p: &Program) -> Result<NormType, TypeRefusal>
    requires { IsBehind [] [] checker.old }
    ensures { ProgramAnswers (program_of p.now) checker.new result }
{
    definitions(checker, p.defs.as_slice())?;
    inputs(checker, p.inputs.as_slice())?;
    body_type(checker, &p.body)
}

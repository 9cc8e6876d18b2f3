// What primitives give (docs/LANGUAGE.md, "What primitives give").
ghost use Rattle.std.specs.Prelude.{◌≡◌, ◌&&◌, [], ◌∷◌, IfOk, IfSome, IfNone, List, Option, is_some, option_map};
ghost use Rattle.core_syntax.specs.declared.errors.TrapKind.TheVariants as trap;
ghost use Rattle.core_syntax.specs.declared.primitive.Primitive.TheVariants as p;
ghost use Rattle.core_syntax.specs.Delta.{quotient as quotient_of, remainder as remainder_of};
ghost use Rattle.core_syntax.specs.Lists.{each};
ghost use Rattle.core_syntax.specs.Answer.{AnInt, ABool, AChar};
ghost use Rattle.core_syntax.specs.Move.{Goes};
ghost use Rattle.core_syntax.specs.Refine.{index_of, ty_of};
ghost use Rattle.core_syntax.specs.RefineTerms.{term_of};
ghost use Rattle.core_syntax.specs.Rules.{agrees, answered, apply_atom, array_term, atom_rules, atoms_of, has_types as takes_types, has_indices as takes_indices};
ghost use Rattle.core_syntax.specs.Syntax.{Ty as SyntaxTy, Index as SyntaxIndex};
ghost use Rattle.core_syntax.specs.Terms.{IndexValue, TPrim};
ghost use Rattle.core_syntax.specs.Typed.{atom_type, typed_rules};
ghost use Rattle.typed_prims.specs.Answers.{answer_given, answer_on, answer_on_looks, array_of, look_of, move_on, seen_of, IsPlain};
ghost use Rattle.typed_prims.specs.ArrayAnswers.{IsOnArrays};
ghost use Rattle.typed_prims.specs.Boxes.{GivesBox};
ghost use Rattle.typed_prims.specs.Outcomes.{move_of};
ghost use Rattle.typed_prims.specs.declared.deltas.Given.TheVariants as gives;

use crate::answer::answer_term;
use crate::outcome::Outcome;
use crate::{arrays, boxes, folds};
use core_syntax::{Index, Memory, Primitive, TermAtom, TermExpr, TrapKind, Ty};
use sqlite_items::Items;
use std::alloc::Global;
use term_values::scalar;

/// What a primitive of scalars sees of an argument: its one atom, where that is no function and no box.
#[derive(Clone, Copy, Debug, PartialEq, Eq)]
pub(crate) enum Look {
    Int(i64),
    Bool(bool),
    Char(char),
    Other,
}

/// What a primitive of scalars gives.
#[derive(Clone, Copy, Debug, PartialEq, Eq)]
enum Given {
    Int(i64),
    Bool(bool),
    Trap(TrapKind),
    /// The arguments are none of its row, which no typed term meets.
    Unfit,
}

/// A primitive with its types and its indices on arguments, which are values, where the result's cell has this type
/// (docs/LANGUAGE.md, "What primitives give"): its value, its trap, or the nested applications of a fold. What would nest
/// deeper than `room` finds no memory.
pub fn delta(
    alloc: Global,
    primitive: Primitive,
    types: &Option<Items<Ty>>,
    indices: &Option<Items<Index>>,
    args: &[TermExpr],
    answer: &Ty,
    room: u32,
) -> Result<Outcome, Memory>
    ensures { IfOk result (λ o. move_of o ≡ apply_atom typed_rules (TPrim primitive (option_map (each ty_of) types.now) (option_map (each index_of) indices.now) ∷ []) (each term_of args.now) (ty_of answer.now)) }
{
    if is_complete(primitive, types, indices) {
        answer_of(alloc, primitive, types, indices, args, answer, room)
    } else {
        Ok(Outcome::Lost)
    }
}

/// Whether a primitive has the types and the indices that it takes, and no others.
fn is_complete(
    primitive: Primitive,
    types: &Option<Items<Ty>>,
    indices: &Option<Items<Index>>,
) -> bool
    ensures { result ≡ agrees (takes_types primitive) (is_some types.now) && agrees (takes_indices primitive) (is_some indices.now) }
{
    types.is_some() == has_types(primitive) && indices.is_some() == has_indices(primitive)
}

/// Whether a primitive has type variables.
fn has_types(primitive: Primitive) -> bool
    ensures { result ≡ takes_types primitive }
{
    match primitive {
        Primitive::Select
        | Primitive::Append
        | Primitive::Reverse
        | Primitive::Take
        | Primitive::Drop
        | Primitive::Transpose
        | Primitive::Replicate
        | Primitive::Length
        | Primitive::Positions
        | Primitive::IndexOr
        | Primitive::Reduce
        | Primitive::Fold
        | Primitive::Reshape
        | Primitive::Ravel
        | Primitive::Filter => true,
        _ => false,
    }
}

/// Whether a primitive has index variables.
fn has_indices(primitive: Primitive) -> bool
    ensures { result ≡ takes_indices primitive }
{
    match primitive {
        Primitive::Iota => true,
        Primitive::Select => false,
        _ => has_types(primitive),
    }
}

/// The same of a primitive that has its types and its indices.
fn answer_of(
    alloc: Global,
    primitive: Primitive,
    types: &Option<Items<Ty>>,
    indices: &Option<Items<Index>>,
    args: &[TermExpr],
    answer: &Ty,
    room: u32,
) -> Result<Outcome, Memory>
    ensures { IfOk result (λ o. move_of o ≡ move_on (ty_of answer.now) primitive (option_map (each ty_of) types.now) (option_map (each index_of) indices.now) args.now) }
{
    match primitive {
        Primitive::Select => select(alloc, args, answer, room),
        Primitive::Append
        | Primitive::Reverse
        | Primitive::Take
        | Primitive::Drop
        | Primitive::Transpose
        | Primitive::Replicate
        | Primitive::Length
        | Primitive::Positions
        | Primitive::IndexOr => on_arrays(alloc, primitive, indices, args, answer, room),
        Primitive::Reduce => folds::reduce(alloc, types, indices, args, room),
        Primitive::Fold => folds::fold(alloc, types, indices, args, room),
        Primitive::Iota | Primitive::Reshape | Primitive::Ravel | Primitive::Filter => {
            on_boxes(alloc, primitive, args, answer, room)
        }
        _ => given_term(alloc, on_scalars(primitive, args)),
    }
}

/// A primitive that cuts, joins or reorders arrays.
fn on_arrays(
    alloc: Global,
    primitive: Primitive,
    indices: &Option<Items<Index>>,
    args: &[TermExpr],
    answer: &Ty,
    room: u32,
) -> Result<Outcome, Memory>
    requires { IsOnArrays primitive }
    ensures { (us : Option (List SyntaxTy)) → IfOk result (λ o. move_of o ≡ move_on (ty_of answer.now) primitive us (option_map (each index_of) indices.now) args.now) }
{
    match arrays::on_arrays(alloc, primitive, indices, args, room) {
        Ok(given) => answer_term(alloc, given, answer),
        Err(memory) => Err(memory),
    }
}

/// A primitive that gives a box.
fn on_boxes(
    alloc: Global,
    primitive: Primitive,
    args: &[TermExpr],
    answer: &Ty,
    room: u32,
) -> Result<Outcome, Memory>
    requires { GivesBox primitive }
    ensures { (us : Option (List SyntaxTy)) (is : Option (List SyntaxIndex)) → IfOk result (λ o. move_of o ≡ move_on (ty_of answer.now) primitive us is args.now) }
{
    match boxes::on_boxes(alloc, primitive, args, answer, room) {
        Ok(given) => answer_term(alloc, given, answer),
        Err(memory) => Err(memory),
    }
}

/// What a primitive of scalars gives, as a term.
fn given_term(alloc: Global, given: Given) -> Result<Outcome, Memory>
    ensures { (r : SyntaxTy) (us : Option (List SyntaxTy)) (is : Option (List SyntaxIndex)) → IfOk result (λ o. move_of o ≡ answered typed_rules r us is (answer_given given)) }
{
    let atom = match given {
        Given::Int(n) => TermAtom::Int(n),
        Given::Bool(b) => TermAtom::Bool(b),
        Given::Trap(kind) => return Ok(Outcome::Trap(kind)),
        Given::Unfit => return Ok(Outcome::Lost),
    };
    match scalar(alloc, atom) {
        Ok(value) => Ok(Outcome::Goes(value)),
        Err(memory) => Err(memory),
    }
}

/// A primitive of scalars on arguments.
fn on_scalars(primitive: Primitive, args: &[TermExpr]) -> Given
    requires { IsPlain primitive }
    ensures { (r : SyntaxTy) (is : List IndexValue) → answer_given result ≡ answer_on r primitive is args.now }
{
    match args {
        [x] => on_one(primitive, seen(x)),
        [x, y] => on_two(primitive, seen(x), seen(y)),
        _ => Given::Unfit,
    }
}

/// What a primitive of scalars sees of an argument.
pub(crate) fn seen(term: &TermExpr) -> Look
    ensures { look_of result ≡ seen_of (atoms_of typed_rules (term_of term.now)) }
{
    match term_values::atoms(term) {
        [TermAtom::Int(n)] => Look::Int(*n),
        [TermAtom::Bool(b)] => Look::Bool(*b),
        [TermAtom::Char(c)] => Look::Char(*c),
        _ => Look::Other,
    }
}

/// A primitive on one scalar.
fn on_one(primitive: Primitive, x: Look) -> Given
    requires { IsPlain primitive }
    ensures { (r : SyntaxTy) → answer_given result ≡ answer_on_looks r primitive (look_of x ∷ []) }
{
    match x {
        Look::Char(c) => match primitive {
            Primitive::CharToInt => Given::Int(i64::from(u32::from(c))),
            _ => Given::Unfit,
        },
        Look::Bool(b) => match primitive {
            Primitive::BoolToInt => Given::Int(i64::from(b)),
            Primitive::Not => Given::Bool(!b),
            _ => Given::Unfit,
        },
        Look::Int(_) | Look::Other => Given::Unfit,
    }
}

/// A primitive on two scalars.
fn on_two(primitive: Primitive, x: Look, y: Look) -> Given
    ensures { (r : SyntaxTy) → answer_given result ≡ answer_on_looks r primitive (look_of x ∷ look_of y ∷ []) }
{
    match (x, y) {
        (Look::Int(x), Look::Int(y)) => on_ints(primitive, x, y),
        (Look::Char(x), Look::Char(y)) => on_chars(primitive, x, y),
        (Look::Bool(x), Look::Bool(y)) => on_bools(primitive, x, y),
        _ => Given::Unfit,
    }
}

/// A primitive on two integers.
fn on_ints(primitive: Primitive, x: i64, y: i64) -> Given
    ensures { (r : SyntaxTy) → answer_given result ≡ answer_on_looks r primitive (AnInt x ∷ AnInt y ∷ []) }
{
    match primitive {
        Primitive::Add => exact(x.checked_add(y)),
        Primitive::Sub => exact(x.checked_sub(y)),
        Primitive::Mul => exact(x.checked_mul(y)),
        Primitive::Div => quotient(x, y),
        Primitive::Mod => remainder(x, y),
        Primitive::Min => Given::Int(if x <= y { x } else { y }),
        Primitive::Max => Given::Int(if x <= y { y } else { x }),
        Primitive::Equal => Given::Bool(x == y),
        Primitive::Less => Given::Bool(x < y),
        Primitive::AtMost => Given::Bool(x <= y),
        _ => Given::Unfit,
    }
}

/// An integer, or the trap where it isn't one of 64 bits.
fn exact(number: Option<i64>) -> Given
    ensures some { IfSome number (λ n. result ≡ gives.Int n) }
    ensures none { IfNone number (result ≡ gives.Trap trap.Overflow) }
{
    match number {
        Some(n) => Given::Int(n),
        None => Given::Trap(TrapKind::Overflow),
    }
}

/// The quotient of two integers, rounded toward zero.
fn quotient(x: i64, y: i64) -> Given
    ensures { (r : SyntaxTy) → answer_given result ≡ quotient_of (atom_rules typed_rules r) x y }
{
    if y == 0 {
        return Given::Trap(TrapKind::Zero);
    }
    match x.checked_div(y) {
        Some(n) => Given::Int(n),
        None => Given::Trap(TrapKind::Overflow),
    }
}

/// The remainder of that quotient.
fn remainder(x: i64, y: i64) -> Given
    ensures { (r : SyntaxTy) → answer_given result ≡ remainder_of (atom_rules typed_rules r) x y }
{
    match y {
        0 => Given::Trap(TrapKind::Zero),
        -1 => Given::Int(0),
        _ => Given::Int(x % y),
    }
}

/// A primitive on two characters.
fn on_chars(primitive: Primitive, x: char, y: char) -> Given
    ensures { (r : SyntaxTy) → answer_given result ≡ answer_on_looks r primitive (AChar x ∷ AChar y ∷ []) }
{
    match primitive {
        Primitive::CharEqual => Given::Bool(x == y),
        Primitive::CharLess => Given::Bool(x < y),
        _ => Given::Unfit,
    }
}

/// A primitive on two truth values.
fn on_bools(primitive: Primitive, x: bool, y: bool) -> Given
    ensures { (r : SyntaxTy) → answer_given result ≡ answer_on_looks r primitive (ABool x ∷ ABool y ∷ []) }
{
    match primitive {
        Primitive::And => Given::Bool(x && y),
        Primitive::Or => Given::Bool(x || y),
        _ => Given::Unfit,
    }
}

/// `select`: the second for true, the third for false.
fn select(alloc: Global, args: &[TermExpr], answer: &Ty, room: u32) -> Result<Outcome, Memory>
    ensures { (us : Option (List SyntaxTy)) (is : Option (List SyntaxIndex)) → IfOk result (λ o. move_of o ≡ move_on (ty_of answer.now) p.Select us is args.now) }
{
    match args {
        [by, yes, no] => match seen(by) {
            Look::Bool(true) => copied(alloc, yes, answer, room),
            Look::Bool(false) => copied(alloc, no, answer, room),
            _ => Ok(Outcome::Lost),
        },
        _ => Ok(Outcome::Lost),
    }
}

/// A copy of a value, with the atoms' type of a cell where it has none.
fn copied(alloc: Global, value: &TermExpr, cell: &Ty, room: u32) -> Result<Outcome, Memory>
    ensures { IfOk result (λ o. move_of o ≡ Goes (array_term typed_rules (atom_type (ty_of cell.now)) (array_of value.now))) }
{
    let dims = term_values::dims(value);
    match folds::value(alloc, dims, term_values::atoms(value), cell, room) {
        Ok(array) => Ok(Outcome::Goes(array)),
        Err(memory) => Err(memory),
    }
}

// Reduction of a checked program.
ghost use Rattle.std.specs.Prelude.{IfOk};
ghost use Rattle.core_syntax.specs.Data.{FitsValues};
ghost use Rattle.core_syntax.specs.Lists.{each};
ghost use Rattle.core_syntax.specs.Refine.{ty_of};
ghost use Rattle.core_syntax.specs.RefineTerms.{term_of};
ghost use Rattle.array_values.specs.Data.{array_data};
ghost use Rattle.remora_driver.specs.Reductions.{ended, EndsFrom, EndsIn, IsEndIn, IsEndOf, IsPrinted, IsValueOf, Prints, PrintsValues};

use array_values::Array;
use core_syntax::{Checked, Memory, TrapKind};
use reduction_laws::read_literals;
use std::alloc::Global;
use typed_step::{Closed, Next, reduce, start, value};

/// How a reduction ends within its budget.
#[derive(Drop)]
pub enum Reduction {
    /// It reached this value.
    Value(Array),
    /// A step trapped.
    Trap(TrapKind),
    /// It hasn't ended.
    Going,
}

// The end at a value.
fn value_end(alloc: Global, closed: &Closed) -> Result<Reduction, Memory>
    requires { IsPrinted (term_of closed.now.term) }
    ensures { IfOk result (λ end. IsValueOf (term_of closed.now.term) end) }
{
    let array = value(alloc, closed)?;
    Ok(Reduction::Value(array))
}

// The end of a run that stands there after its steps.
fn end(alloc: Global, next: &Next) -> Result<Reduction, Memory>
    requires { Prints next.now }
    ensures { IfOk result (λ end. IsEndOf next.now end) }
{
    match next {
        Next::Value(closed) => value_end(alloc, closed),
        Next::Trap(kind) => Ok(Reduction::Trap(*kind)),
        Next::Goes(_) => Ok(Reduction::Going),
    }
}

// The same of a run for whose steps there may have been no memory.
fn end_of(alloc: Global, next: &Result<Next, Memory>) -> Result<Reduction, Memory>
    requires { IfOk next.now (λ n. Prints n) }
    ensures { IfOk result (λ end. IsEndIn next.now end) }
{
    match next {
        Ok(next) => end(alloc, next),
        Err(_) => Err(Memory),
    }
}

// The end of at most so many steps from a closed term.
fn run(alloc: Global, closed: Closed, budget: u64) -> Result<Reduction, Memory>
    requires { PrintsValues closed }
    ensures { IfOk result (λ end. EndsFrom closed budget end) }
{
    let next = reduce(alloc, closed, budget);
    let end = end_of(alloc, &next);
    drop(next);
    end
}

/// How at most so many steps of a checked program end, on arrays that fit its inputs (docs/LANGUAGE.md, "Reduction"). Its literals are read, since data that is reached fits its type where they are those of a text. It answers
/// `Memory` where there is none.
pub fn reduce_program(
    alloc: Global,
    checked: &Checked,
    inputs: &[Array],
    budget: u64,
) -> Result<Reduction, Memory>
    requires { FitsValues (each ty_of checked.now.inputs) (each array_data inputs.now) }
    ensures { IfOk result (λ end. EndsIn checked.now budget (each array_data inputs.now) (ended end)) }
{
    read_literals(checked.program());
    match start(alloc, checked, inputs) {
        Ok(closed) => run(alloc, closed, budget),
        Err(memory) => Err(memory),
    }
}

// Runs of a code.
ghost use Rattle.std.specs.Prelude.{◌≡◌, length, max, IfOk};
ghost use Rattle.core_syntax.specs.Lists.{each};
ghost use Rattle.array_values.specs.Data.{array_data};
ghost use Rattle.machine.specs.Answers.{Answers};
ghost use Rattle.remora_driver.specs.Calls.{Tells, TellsDue};
ghost use Rattle.remora_driver.specs.Due.{HasCodeEnd, IsCodeDue};
ghost use Rattle.remora_driver.specs.Sources.{told};

use crate::answer::{Answer, value_answer};
use crate::telling::Telling;
use array_values::Array;
use core_syntax::Memory;
use machine::{Machine, Outcome, load};
use machine_table::Code;
use std::alloc::Global;
use value_text::{DataRefusal, read_data};

/// How a run ended, and the steps that it took.
#[derive(Drop)]
pub struct Ended {
    outcome: Outcome,
    steps: u64,
}

// How a machine ends, of which so many steps may be done in all.
fn end(machine: &mut Machine, budget: u64) -> Result<Ended, Memory>
    ensures { IfOk result (λ e. Answers machine.old.code machine.old.inputs (max budget machine.old.steps) e.steps e.outcome) }
{
    let outcome = machine.run(budget)?;
    Ok(Ended {
        outcome,
        steps: machine.steps(),
    })
}

// How a code ends on arrays, of which so many steps may be done.
fn code_end(alloc: Global, code: &Code, inputs: &[Array], budget: u64) -> Result<Ended, Memory>
    requires { length inputs.now ≡ length code.now.params }
    ensures { IfOk result (λ e. Answers code.now inputs.now budget e.steps e.outcome) }
{
    let mut machine = load(alloc, code, inputs)?;
    end(&mut machine, budget)
}

// The answer that shows an end, where a value is told so.
fn end_answer(alloc: Global, how: Telling, end: &Ended) -> Answer
    ensures { Tells (told how end.now.steps end.now.outcome) result }
{
    match &end.outcome {
        Outcome::Done(array) => value_answer(alloc, how, end.steps, array),
        Outcome::Trap(kind) => Answer::Trap(*kind),
        Outcome::Going => Answer::StillRunning,
        Outcome::Stuck(kind) => Answer::Stuck(*kind),
    }
}

// The answer of a code on arrays, of which so many steps may be done.
fn code_answer(alloc: Global, how: Telling, code: &Code, inputs: &[Array], budget: u64) -> Answer
    requires { length inputs.now ≡ length code.now.params }
    ensures { TellsDue (HasCodeEnd how code.now budget (each array_data inputs.now)) result }
{
    match code_end(alloc, code, inputs, budget) {
        Ok(end) => end_answer(alloc, how, &end),
        Err(Memory) => Answer::Memory,
    }
}

/// The answer of a code with these data and so many steps: why the data is refused (docs/LANGUAGE.md, "Data"), with 40 to 44, or
/// how the code ends on the arrays that it is the text of, where a value is told so. It is `Memory` where there is none.
pub fn run_code(alloc: Global, how: Telling, code: &Code, given: &[u8], budget: u64) -> Answer
    ensures { TellsDue (IsCodeDue how code.now given.now budget) result }
{
    match read_data(alloc, code.params(), given) {
        Ok(inputs) => code_answer(alloc, how, code, inputs.as_slice(), budget),
        Err(DataRefusal::Refused { number, span }) => Answer::DataRefused { number, span },
        Err(DataRefusal::Memory) => Answer::Memory,
    }
}

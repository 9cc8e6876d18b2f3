// The soak program, run.
ghost use Rattle.std.specs.Prelude.{◌≤◌, []};
ghost use Rattle.remora_driver.specs.Calls.{TellsDue};
ghost use Rattle.remora_driver.specs.Due.{IsRunDue, IsSoakDue};
ghost use Rattle.remora_driver.specs.Jobs.{usual_budget};

use crate::answer::Answer;
use crate::compiling::compile;
use crate::errors::SourceRefusal;
use crate::job::USUAL_BUDGET;
use crate::running::run_code;
use crate::telling::Telling;
use core_syntax::Memory;
use soak_gen::program;
use std::alloc::Global;

// What the code of a source comes to without data by the usual budget, where a value is told so.
fn run_told(alloc: Global, how: Telling, source: &[u8]) -> Answer
    ensures { TellsDue (IsRunDue how source.now [] usual_budget) result }
{
    match compile(alloc, source) {
        Ok(code) => run_code(alloc, how, &code, &[], USUAL_BUDGET),
        Err(SourceRefusal::Refused { number, span }) => Answer::Refused { number, span },
        Err(SourceRefusal::Memory) => Answer::Memory,
    }
}

/// What the soak program with so many definitions comes to (docs/LANGUAGE.md, "The soak program"): its source is written, checked,
/// compiled and run by at most 10,000,000 steps of the machine. The line of its value tells the steps that it took.
pub fn soak(alloc: Global, count: u32) -> Answer
    requires low { 1 ≤ count }
    requires high { count ≤ 4096 }
    ensures { TellsDue (IsSoakDue count) result }
{
    match program(alloc, count) {
        Ok(source) => run_told(alloc, Telling::Soak { count }, source.as_slice()),
        Err(Memory) => Answer::Memory,
    }
}

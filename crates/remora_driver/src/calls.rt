// Calls on a source or a code text.
ghost use Rattle.std.specs.Prelude.{◌≡◌, IfOk, IfErr};
ghost use Rattle.code_text.specs.Blame.{CodeText};
ghost use Rattle.remora_driver.specs.Due.{written, IsBuildDue, IsRunDue, IsExecDue, IsReduceDue};
ghost use Rattle.remora_driver.specs.Calls.{RefusesBuild, IsUnstuck, TellsDue};

use crate::answer::Answer;
use crate::compiling::compile;
use crate::errors::SourceRefusal;
use crate::task::{answer_on, exec_task, reduce_task, run_task};
use crate::telling::Telling;
use code_text::print;
use core_syntax::Memory;
use machine_table::Code;
use std::alloc::Global;

// The text of a code.
fn code_lines(alloc: Global, code: &Code) -> Result<Vec<u8>, SourceRefusal>
    ensures text { IfOk result (λ text. CodeText code.now text.items) }
    ensures memory { IfErr result (λ e. e ≡ SourceRefusal.Memory) }
{
    match print(alloc, code) {
        Ok(text) => Ok(text),
        Err(Memory) => Err(SourceRefusal::Memory),
    }
}

/// The text of the code of the program that a source means (docs/MACHINE.md, "Code text"). It refuses what `check_source`
/// refuses. It answers `Memory` where there is none.
pub fn build(alloc: Global, source: &[u8]) -> Result<Vec<u8>, SourceRefusal>
    ensures text { IfOk result (λ text. IsBuildDue source.now (written text.items)) }
    ensures refused { IfErr result (λ e. RefusesBuild source.now e) }
{
    match compile(alloc, source) {
        Ok(code) => code_lines(alloc, &code),
        Err(refusal) => Err(refusal),
    }
}

/// What the code of the program that a source means comes to by at most `budget` steps of the machine, on the arrays that the
/// data `given` is the text of (docs/LANGUAGE.md, "Calls"): the line of its value, a trap, or that it is still running. It refuses
/// what `check_source` refuses, and then data that doesn't fit the program's inputs, with 40 to 44 (docs/LANGUAGE.md, "Data"). It
/// is never `Stuck`. It answers `Memory` where there is none.
pub fn run_source(alloc: Global, source: &[u8], given: &[u8], budget: u64) -> Answer
    ensures due { TellsDue (IsRunDue Telling.Value source.now given.now budget) result }
    ensures unstuck { IsUnstuck result }
{
    answer_on(alloc, &run_task(alloc, source, budget), given)
}

/// What the program that a source means comes to by at most `budget` steps of reduction, on the values that the data `given` is the
/// text of (docs/LANGUAGE.md, "Reduction"): the line of its value, a trap, or that it is still running. It refuses what
/// `check_source` refuses, and then data that doesn't fit the program's inputs, with 40 to 44. It is never `Stuck`. It answers
/// `Memory` where there is none.
pub fn reduce_source(alloc: Global, source: &[u8], given: &[u8], budget: u64) -> Answer
    ensures due { TellsDue (IsReduceDue source.now given.now budget) result }
    ensures unstuck { IsUnstuck result }
{
    answer_on(alloc, &reduce_task(alloc, source, budget), given)
}

/// What the code with this text comes to by at most `budget` steps of the machine, on the arrays that the data `given` is the text
/// of (docs/MACHINE.md): the line of its value, a trap, where it is stuck, or that it is still running. It refuses with 31 a text
/// that is too long, with 32 and 33 one that is no code's, and then data that doesn't fit the code's inputs, with 40 to 44. It
/// answers `Memory` where there is none.
pub fn exec(alloc: Global, code: &[u8], given: &[u8], budget: u64) -> Answer
    ensures { TellsDue (IsExecDue code.now given.now budget) result }
{
    answer_on(alloc, &exec_task(alloc, code, budget), given)
}

// What a job comes to before its data.
ghost use Rattle.std.specs.Prelude.{◌≡◌, ◌↔◌, IsTrue};
ghost use Rattle.core_syntax.specs.Wholes.{program_of};
ghost use Rattle.remora_driver.specs.Calls.{Tells, TellsDue};
ghost use Rattle.remora_driver.specs.Due.{IsDueOn};
ghost use Rattle.remora_driver.specs.Programs.{input_types};
ghost use Rattle.remora_driver.specs.Reductions.{ended, EndsIn};
ghost use Rattle.remora_driver.specs.Tasks.{Answers, HasInputs, IsTaskDue, TaskFor};
ghost use Rattle.array_values.specs.Data.{array_data};
ghost use Rattle.core_syntax.specs.Data.{FitsValues};
ghost use Rattle.core_syntax.specs.Lists.{each};
ghost use Rattle.core_syntax.specs.Refine.{ty_of};

use crate::answer::{Answer, array_answer};
use crate::compiling::compile;
use crate::data::input_values;
use crate::errors::SourceRefusal;
use crate::executing::read_code;
use crate::job::Job;
use crate::reducing::{Reduction, reduce_program};
use crate::running::run_code;
use crate::source::check_source;
use crate::telling::Telling;
use array_values::Array;
use core_syntax::{Checked, Memory};
use machine_table::Code;
use std::alloc::Global;
use value_text::DataRefusal;

/// What is to be done on data, by so many steps.
#[derive(Drop)]
pub enum Task {
    /// The code is to be run.
    Run { code: Code, budget: u64 },
    /// The program is to be reduced.
    Reduce { checked: Checked, budget: u64 },
}

impl Task {
    /// Whether the code or the program has inputs.
    pub fn has_inputs(&self) -> bool
        ensures { IsTrue result ↔ HasInputs self.now }
    {
        match self {
            Task::Run { code, .. } => !code.params().is_empty(),
            Task::Reduce { checked, .. } => !checked.program().inputs.is_empty(),
        }
    }

    /// The answer of the task on these data.
    pub fn answer(&self, alloc: Global, given: &[u8]) -> Answer
        ensures { TellsDue (IsTaskDue self.now given.now) result }
    {
        match self {
            Task::Run { code, budget } => run_code(alloc, Telling::Value, code, given, *budget),
            Task::Reduce { checked, budget } => reduce_checked(alloc, checked, given, *budget),
        }
    }
}

// The answer that shows how a reduction ends.
fn end_answer(alloc: Global, end: &Reduction) -> Answer
    ensures { Tells (ended end.now) result }
{
    match end {
        Reduction::Value(array) => array_answer(alloc, array),
        Reduction::Trap(kind) => Answer::Trap(*kind),
        Reduction::Going => Answer::StillRunning,
    }
}

// The answer of a checked program that is reduced on arrays.
fn reduction_answer(alloc: Global, checked: &Checked, inputs: &[Array], budget: u64) -> Answer
    requires { FitsValues (input_types (program_of checked.now.program)) (each array_data inputs.now) }
    ensures { TellsDue (EndsIn checked.now budget (each array_data inputs.now)) result }
{
    match reduce_program(alloc, checked, inputs, budget) {
        Ok(end) => end_answer(alloc, &end),
        Err(Memory) => Answer::Memory,
    }
}

// The answer of a checked program that is reduced on these data.
fn reduce_checked(alloc: Global, checked: &Checked, given: &[u8], budget: u64) -> Answer
    ensures { TellsDue (IsDueOn (input_types (program_of checked.now.program)) given.now (EndsIn checked.now budget)) result }
{
    match input_values(alloc, checked, given) {
        Ok(inputs) => reduction_answer(alloc, checked, inputs.as_slice(), budget),
        Err(DataRefusal::Refused { number, span }) => Answer::DataRefused { number, span },
        Err(DataRefusal::Memory) => Answer::Memory,
    }
}

/// The task of running a source.
pub fn run_task(alloc: Global, source: &[u8], budget: u64) -> Result<Task, SourceRefusal>
    ensures { TaskFor (Job.Run budget) source.now result }
{
    match compile(alloc, source) {
        Ok(code) => Ok(Task::Run { code, budget }),
        Err(refusal) => Err(refusal),
    }
}

/// The task of executing a code text.
pub fn exec_task(alloc: Global, text: &[u8], budget: u64) -> Result<Task, SourceRefusal>
    ensures { TaskFor (Job.Exec budget) text.now result }
{
    match read_code(alloc, text) {
        Ok(code) => Ok(Task::Run { code, budget }),
        Err(refusal) => Err(refusal),
    }
}

/// The task of reducing a source.
pub fn reduce_task(alloc: Global, source: &[u8], budget: u64) -> Result<Task, SourceRefusal>
    ensures { TaskFor (Job.Reduce budget) source.now result }
{
    match check_source(alloc, source) {
        Ok(checked) => Ok(Task::Reduce { checked, budget }),
        Err(refusal) => Err(refusal),
    }
}

/// The answer of a task on these data, or that there is none.
pub fn answer_on(alloc: Global, task: &Result<Task, SourceRefusal>, given: &[u8]) -> Answer
    ensures { Answers task.now given.now result }
{
    match task {
        Ok(task) => task.answer(alloc, given),
        Err(SourceRefusal::Refused { number, span }) => Answer::Refused {
            number: *number,
            span: *span,
        },
        Err(SourceRefusal::Memory) => Answer::Memory,
    }
}

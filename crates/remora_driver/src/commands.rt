// What the words ask for, done on the bytes of a source and on data.
ghost use Rattle.std.specs.Prelude.{◌≡◌, ◌≤◌, Some, Err, IfOk};
ghost use Rattle.core_syntax.specs.Refine.{ty_of};
ghost use Rattle.remora_driver.specs.Calls.{answer_of};
ghost use Rattle.remora_driver.specs.Due.{accepted, IsCheckDue, IsBuildDue, IsSoakDue};
ghost use Rattle.remora_driver.specs.Sources.{seen};
ghost use Rattle.remora_driver.specs.Tasks.{AnsweredBy, IsAsked, IsBegun, IsTaskDue, Opens};

use crate::answer::Answer;
use crate::calls::build;
use crate::errors::SourceRefusal;
use crate::job::Job;
use crate::reply::{Reply, data_refusal, refusal, still_running, stuck, trap, type_answer};
use crate::soaking::soak;
use crate::source::check_source;
use crate::status::Status;
use crate::task::{Task, exec_task, reduce_task, run_task};
use core_syntax::{Checked, Memory};
use std::alloc::Global;

/// A job of which the source or the code text was read.
#[derive(Drop)]
pub enum Begun {
    /// It is answered, without data.
    Answered(Reply),
    /// It is to be done on data.
    Open(Task),
}

// The answer that shows the type of a checked program's body.
fn checked_answer(alloc: Global, checked: &Checked) -> Result<Reply, Memory>
    ensures { IfOk result (λ a. seen a ≡ accepted (ty_of checked.now.body)) }
{
    type_answer(alloc, checked.result())
}

fn check(alloc: Global, source: &[u8]) -> Result<Reply, Memory>
    ensures { IfOk result (λ a. IsCheckDue source.now (seen a)) }
{
    match check_source(alloc, source) {
        Ok(checked) => checked_answer(alloc, &checked),
        Err(SourceRefusal::Refused { number, span }) => refusal(alloc, number, span),
        Err(SourceRefusal::Memory) => Err(Memory),
    }
}

fn built(alloc: Global, source: &[u8]) -> Result<Reply, Memory>
    ensures { IfOk result (λ a. IsBuildDue source.now (seen a)) }
{
    match build(alloc, source) {
        Ok(text) => Ok(Reply {
            status: Status::Ok,
            text,
        }),
        Err(SourceRefusal::Refused { number, span }) => refusal(alloc, number, span),
        Err(SourceRefusal::Memory) => Err(Memory),
    }
}

// The status and the text of an answer.
fn replied(alloc: Global, answer: Answer) -> Result<Reply, Memory>
    ensures { IfOk result (λ a. answer_of answer ≡ Some (seen a)) }
{
    match answer {
        Answer::Text(text) => Ok(Reply {
            status: Status::Ok,
            text,
        }),
        Answer::Trap(kind) => trap(alloc, kind),
        Answer::Refused { number, span } => refusal(alloc, number, span),
        Answer::DataRefused { number, span } => data_refusal(alloc, number, span),
        Answer::Stuck(kind) => stuck(alloc, kind),
        Answer::StillRunning => still_running(alloc),
        Answer::Memory => Err(Memory),
    }
}

// The reply of the soak program with so many definitions.
fn soaked(alloc: Global, count: u32) -> Result<Reply, Memory>
    requires low { 1 ≤ count }
    requires high { count ≤ 4096 }
    ensures { IfOk result (λ a. IsSoakDue count (seen a)) }
{
    replied(alloc, soak(alloc, count))
}

// A job that this answers without data.
fn answered(reply: Result<Reply, Memory>) -> Result<Begun, Memory>
    ensures { IfOk result (λ b. AnsweredBy reply b) }
{
    match reply {
        Ok(reply) => Ok(Begun::Answered(reply)),
        Err(memory) => Err(memory),
    }
}

// A job of which this is the answer, since it has no task.
fn unopened(alloc: Global, why: SourceRefusal) -> Result<Begun, Memory>
    ensures { IfOk result (λ b. Opens (Err why) b) }
{
    match why {
        SourceRefusal::Refused { number, span } => answered(refusal(alloc, number, span)),
        SourceRefusal::Memory => Err(Memory),
    }
}

// A job with this task, or with its refusal as the answer.
fn opened(alloc: Global, task: Result<Task, SourceRefusal>) -> Result<Begun, Memory>
    ensures { IfOk result (λ b. Opens task b) }
{
    match task {
        Ok(task) => Ok(Begun::Open(task)),
        Err(why) => unopened(alloc, why),
    }
}

/// What a job on these bytes comes to before its data.
pub fn begin(alloc: Global, job: Job, bytes: &[u8]) -> Result<Begun, Memory>
    requires { IsAsked job }
    ensures { IfOk result (λ b. IsBegun job bytes.now b) }
{
    match job {
        Job::Check => answered(check(alloc, bytes)),
        Job::Build => answered(built(alloc, bytes)),
        Job::Run { budget } => opened(alloc, run_task(alloc, bytes, budget)),
        Job::Exec { budget } => opened(alloc, exec_task(alloc, bytes, budget)),
        Job::Reduce { budget } => opened(alloc, reduce_task(alloc, bytes, budget)),
        Job::Soak { count } => answered(soaked(alloc, count)),
    }
}

/// The reply of a task on these data.
pub fn finish(alloc: Global, task: &Task, given: &[u8]) -> Result<Reply, Memory>
    ensures { IfOk result (λ a. IsTaskDue task.now given.now (seen a)) }
{
    replied(alloc, task.answer(alloc, given))
}

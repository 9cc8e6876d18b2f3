// The top call.
ghost use Rattle.std.specs.Prelude.{◌≡◌, ◌≢◌, ◌⊎◌, ◌+◌, ◌<◌, ◌≤◌, ℕ, List, map, string_bytes, IfOk, IfErr, IsTrue};
ghost use Rattle.std.specs.Io.KnownBytes.{IsAtEnd, Appends};
ghost use Rattle.core_syntax.specs.declared.span.Span.{Span};
ghost use Rattle.rem_base.specs.Counts.{Rose};
ghost use Rattle.rem_base.specs.Taken.{AppendsFront, TakesAtMost};
ghost use Rattle.remora_driver.specs.Due.{Answer as Due, IsDue, IsJobDue, TakesData};
ghost use Rattle.remora_driver.specs.Jobs.{IsJob, longest, reads_source};
ghost use Rattle.remora_driver.specs.Meant.{IsMeant};
ghost use Rattle.remora_driver.specs.Sources.{seen};
ghost use Rattle.remora_driver.specs.Tasks.{HasInputs, IsAsked, IsTaskDue};
ghost use Rattle.remora_driver.specs.Top.{AsksForData, AsksForNone, AsksForSource, Faulted, HaltsFor, IsAnswer, IsDueFor, IsDueOnInput, IsJobDueFor, IsTold};
ghost use Rattle.value_text.specs.DataTexts.{longest_data};

use crate::commands::{Begun, begin, finish};
use crate::job::{Job, LONGEST_DATA, job_of};
use crate::reply::{Reply, data_too_long, too_long, usage_answer};
use crate::status::Status;
use crate::task::Task;
use core_syntax::Memory;
use rem_base::{ReadRefusal, Sink, Source, read_all, write_all};
use std::alloc::Global;
use thiserror::Error;

/// Why there is no answer to write.
#[derive(Clone, Copy, Debug, PartialEq, Eq, Error)]
pub enum Halt {
    #[error("the source failed")]
    ReadFault,
    #[error("no memory")]
    Memory,
}

impl From<Memory> for Halt {
    ghost use Rattle.std.specs.Prelude.{◌≡◌};
    ghost use Rattle.remora_driver.specs.declared.top.Halt.TheVariants.{Memory};

    ghost from_gives = { λ _ e. e ≡ Memory };

    fn from(_: Memory) -> Self {
        Halt::Memory
    }
}

// The answer of a task on the data that the input has.
fn data_answer<I: Source>(alloc: Global, task: &Task, input: &mut I) -> Result<Reply, Halt>
    ensures due { IfOk result (λ a. (given : List ℕ) × IsTold (I.left input.old) given × IsTaskDue task.now given (seen a)) }
    ensures fault { IfErr result (λ e. HaltsFor e (Rose (I.faults input.old) (I.faults input.new))) }
    ensures no_fault { result ≢ Err Halt.ReadFault → I.faults input.new ≡ I.faults input.old }
    ensures no_less { I.faults input.old ≤ I.faults input.new }
    ensures taken { TakesAtMost (longest_data + 1) (I.left input.old) (I.left input.new) }
    ensures end { IfOk result (λ a. a.status ≡ Status.Ok → IsAtEnd (I.left input.new)) }
{
    match read_all(alloc, input, LONGEST_DATA) {
        Ok(given) => Ok(finish(alloc, task, given.as_slice())?),
        Err(ReadRefusal::TooLong) => Ok(data_too_long(alloc)?),
        Err(ReadRefusal::ReadFault) => Err(Halt::ReadFault),
        Err(ReadRefusal::Memory) => Err(Halt::Memory),
    }
}

// The answer of a task, with the input as data where it has inputs.
fn task_answer<I: Source>(alloc: Global, task: &Task, input: &mut I) -> Result<Reply, Halt>
    ensures due { IfOk result (λ a. IsDueOnInput (HasInputs task.now) (IsTaskDue task.now) (I.left input.old) (seen a)) }
    ensures fault { IfErr result (λ e. HaltsFor e (Rose (I.faults input.old) (I.faults input.new))) }
    ensures no_fault { result ≢ Err Halt.ReadFault → I.faults input.new ≡ I.faults input.old }
    ensures no_less { I.faults input.old ≤ I.faults input.new }
    ensures unread { ¬ (HasInputs task.now) → input.new ≡ input.old }
    ensures unread_refused { IfOk result (λ a. (number : ℕ) (at : Span) → a.status ≡ Status.Refused number at → input.new ≡ input.old) }
    ensures taken { TakesAtMost (longest_data + 1) (I.left input.old) (I.left input.new) }
    ensures end { IfOk result (λ a. a.status ≡ Status.Ok → HasInputs task.now → IsAtEnd (I.left input.new)) }
{
    if task.has_inputs() {
        data_answer(alloc, task, input)
    } else {
        Ok(finish(alloc, task, &[])?)
    }
}

// The answer to a job on these bytes, with the input as data where it takes some.
fn bytes_answer<I: Source>(
    alloc: Global,
    job: Job,
    bytes: &[u8],
    input: &mut I,
) -> Result<Reply, Halt>
    requires { IsAsked job }
    ensures due { IfOk result (λ a. IsDueOnInput (TakesData job bytes.now) (IsJobDue job bytes.now) (I.left input.old) (seen a)) }
    ensures fault { IfErr result (λ e. HaltsFor e (Rose (I.faults input.old) (I.faults input.new))) }
    ensures no_fault { result ≢ Err Halt.ReadFault → I.faults input.new ≡ I.faults input.old }
    ensures no_less { I.faults input.old ≤ I.faults input.new }
    ensures unread { ¬ (TakesData job bytes.now) → input.new ≡ input.old }
    ensures unread_refused { IfOk result (λ a. (number : ℕ) (at : Span) → a.status ≡ Status.Refused number at → input.new ≡ input.old) }
    ensures taken { TakesAtMost (longest_data + 1) (I.left input.old) (I.left input.new) }
    ensures end { IfOk result (λ a. a.status ≡ Status.Ok → TakesData job bytes.now → IsAtEnd (I.left input.new)) }
{
    match begin(alloc, job, bytes) {
        Ok(Begun::Answered(reply)) => Ok(reply),
        Ok(Begun::Open(task)) => task_answer(alloc, &task, input),
        Err(Memory) => Err(Halt::Memory),
    }
}

// The answer to a job on the bytes that the program source has.
fn source_answer<P: Source, I: Source>(
    alloc: Global,
    job: Job,
    program: &mut P,
    input: &mut I,
) -> Result<Reply, Halt>
    requires asked { IsAsked job }
    requires reads { IsTrue (reads_source job) }
    ensures due { IfOk result (λ a. IsJobDueFor job (P.left program.old) (I.left input.old) (seen a)) }
    ensures fault { IfErr result (λ e. HaltsFor e (Faulted (P.faults program.old) (P.faults program.new) (I.faults input.old) (I.faults input.new))) }
    ensures no_fault { result ≢ Err Halt.ReadFault → (P.faults program.new ≡ P.faults program.old) × (I.faults input.new ≡ I.faults input.old) }
    ensures no_less { (P.faults program.old ≤ P.faults program.new) × (I.faults input.old ≤ I.faults input.new) }
    ensures unread { ((bytes : List ℕ) → IsTold (P.left program.old) bytes → ¬ (TakesData job bytes)) → input.new ≡ input.old }
    ensures unread_refused { IfOk result (λ a. (number : ℕ) (at : Span) → a.status ≡ Status.Refused number at → input.new ≡ input.old) }
    ensures unread_fault { P.faults program.old < P.faults program.new → input.new ≡ input.old }
    ensures taken { TakesAtMost (longest job + 1) (P.left program.old) (P.left program.new) × TakesAtMost (longest_data + 1) (I.left input.old) (I.left input.new) }
    ensures end { IfOk result (λ a. a.status ≡ Status.Ok → IsAtEnd (P.left program.new)) }
    ensures input_end { ((bytes : List ℕ) → IsTold (P.left program.old) bytes → TakesData job bytes) → IfOk result (λ a. a.status ≡ Status.Ok → IsAtEnd (I.left input.new)) }
{
    match read_all(alloc, program, job.longest()) {
        Ok(source) => bytes_answer(alloc, job, source.as_slice(), input),
        Err(ReadRefusal::TooLong) => Ok(too_long(alloc)?),
        Err(ReadRefusal::ReadFault) => Err(Halt::ReadFault),
        Err(ReadRefusal::Memory) => Err(Halt::Memory),
    }
}

// The answer to a job, on the bytes that the program source has where it reads them.
fn job_answer<P: Source, I: Source>(
    alloc: Global,
    job: Job,
    program: &mut P,
    input: &mut I,
) -> Result<Reply, Halt>
    requires { IsAsked job }
    ensures due { IfOk result (λ a. IsJobDueFor job (P.left program.old) (I.left input.old) (seen a)) }
    ensures fault { IfErr result (λ e. HaltsFor e (Faulted (P.faults program.old) (P.faults program.new) (I.faults input.old) (I.faults input.new))) }
    ensures no_fault { result ≢ Err Halt.ReadFault → (P.faults program.new ≡ P.faults program.old) × (I.faults input.new ≡ I.faults input.old) }
    ensures no_less { (P.faults program.old ≤ P.faults program.new) × (I.faults input.old ≤ I.faults input.new) }
    ensures program_unread { ¬ (IsTrue (reads_source job)) → program.new ≡ program.old }
    ensures unread { ((bytes : List ℕ) → IsTold (P.left program.old) bytes → ¬ (TakesData job bytes)) → input.new ≡ input.old }
    ensures unread_refused { IfOk result (λ a. (number : ℕ) (at : Span) → a.status ≡ Status.Refused number at → input.new ≡ input.old) }
    ensures unread_fault { P.faults program.old < P.faults program.new → input.new ≡ input.old }
    ensures taken { TakesAtMost (longest job + 1) (P.left program.old) (P.left program.new) × TakesAtMost (longest_data + 1) (I.left input.old) (I.left input.new) }
    ensures end { IsTrue (reads_source job) → IfOk result (λ a. a.status ≡ Status.Ok → IsAtEnd (P.left program.new)) }
    ensures input_end { ((bytes : List ℕ) → IsTold (P.left program.old) bytes → TakesData job bytes) → IfOk result (λ a. a.status ≡ Status.Ok → IsAtEnd (I.left input.new)) }
{
    if job.reads_source() {
        source_answer(alloc, job, program, input)
    } else {
        bytes_answer(alloc, job, &[], input)
    }
}

// The answer to these words.
fn answer<P: Source, I: Source>(
    alloc: Global,
    words: &[String],
    program: &mut P,
    input: &mut I,
) -> Result<Reply, Halt>
    ensures due { IfOk result (λ a. IsDueFor (map string_bytes words.now) (P.left program.old) (I.left input.old) (seen a)) }
    ensures answer { IfOk result (λ a. IsAnswer a.status) }
    ensures fault { IfErr result (λ e. HaltsFor e (Faulted (P.faults program.old) (P.faults program.new) (I.faults input.old) (I.faults input.new))) }
    ensures no_fault { result ≢ Err Halt.ReadFault → (P.faults program.new ≡ P.faults program.old) × (I.faults input.new ≡ I.faults input.old) }
    ensures no_less { (P.faults program.old ≤ P.faults program.new) × (I.faults input.old ≤ I.faults input.new) }
    ensures program_unread { ¬ (AsksForSource (map string_bytes words.now)) → program.new ≡ program.old }
    ensures input_unread { AsksForNone (map string_bytes words.now) (P.left program.old) → input.new ≡ input.old }
    ensures input_unread_refused { IfOk result (λ a. (number : ℕ) (at : Span) → a.status ≡ Status.Refused number at → input.new ≡ input.old) }
    ensures input_unread_fault { P.faults program.old < P.faults program.new → input.new ≡ input.old }
    ensures taken { (job : Job) → IsJob (map string_bytes words.now) job → TakesAtMost (longest job + 1) (P.left program.old) (P.left program.new) }
    ensures input_taken { TakesAtMost (longest_data + 1) (I.left input.old) (I.left input.new) }
    ensures end { AsksForSource (map string_bytes words.now) → IfOk result (λ a. a.status ≡ Status.Ok → IsAtEnd (P.left program.new)) }
    ensures input_end { AsksForData (map string_bytes words.now) (P.left program.old) → IfOk result (λ a. a.status ≡ Status.Ok → IsAtEnd (I.left input.new)) }
{
    match job_of(words) {
        Some(job) => job_answer(alloc, job, program, input),
        None => Ok(usage_answer(alloc)?),
    }
}

// Writes an answer.
fn write_answer<O: Sink>(out: &mut O, answer: Reply) -> Status
    requires { IsAnswer answer.status }
    ensures written { IsAnswer result → (result ≡ answer.status) × Appends (O.written out.old) (O.written out.new) answer.text.items }
    ensures fault { result ≡ Status.WriteFault → Rose (O.faults out.old) (O.faults out.new) × AppendsFront (O.written out.old) (O.written out.new) answer.text.items }
    ensures no_fault { result ≢ Status.WriteFault → O.faults out.new ≡ O.faults out.old }
    ensures only { (result ≢ Status.ReadFault) × (result ≢ Status.Memory) }
{
    match write_all(out, answer.text.as_slice()) {
        Ok(()) => answer.status,
        Err(_) => Status::WriteFault,
    }
}

/// Does what the words ask for (docs/LANGUAGE.md, "Calls"), and says how it ended.
///
/// `words` leaves out the program's own name. `program` is read to its end where the words ask for a job on a program source,
/// and is left alone where they don't, or ask for the soak program. Then `input` is read to its end where the program or the
/// code has inputs and isn't refused, and is left alone where not: where no job takes data, by the bytes that the source tells
/// (`input_unread`), and, whatever it tells, with each `Refused` (`input_unread_refused`) and where the count of faults of
/// `program` rose (`input_unread_fault`). Of either, where it is too long, one byte past the limit is taken. The whole text is
/// made before the first write to `out`. The status is that of the answer, whose text was written whole, or one of `ReadFault`
/// and `Memory`, where nothing was written, and `WriteFault`, where a front of the text was.
pub fn remora<P: Source, I: Source, O: Sink>(
    alloc: Global,
    words: &[String],
    program: &mut P,
    input: &mut I,
    out: &mut O,
) -> Status
    // The status and the bytes that were appended are those that are due.
    ensures due { IsAnswer result → (text : List ℕ) × IsDueFor (map string_bytes words.now) (P.left program.old) (I.left input.old) (record { status = result; text = text }) × Appends (O.written out.old) (O.written out.new) text }

    // What is due of `run`, of `build` and of `soak` is what typed reduction of the program comes to.
    ensures meant { (bytes given : List ℕ) (a : Due) → IsDue (map string_bytes words.now) bytes given a → IsMeant (map string_bytes words.now) bytes given a }

    // A fault comes only where the count rose. After a failed write a front of what was due was appended.
    ensures read_fault { result ≡ Status.ReadFault → Rose (P.faults program.old) (P.faults program.new) ⊎ Rose (I.faults input.old) (I.faults input.new) }
    ensures write_fault { result ≡ Status.WriteFault → Rose (O.faults out.old) (O.faults out.new)
        × ((a : Due) × IsDueFor (map string_bytes words.now) (P.left program.old) (I.left input.old) a × AppendsFront (O.written out.old) (O.written out.new) a.text) }
    ensures program_count { result ≢ Status.ReadFault → P.faults program.new ≡ P.faults program.old }
    ensures input_count { result ≢ Status.ReadFault → I.faults input.new ≡ I.faults input.old }
    ensures out_count { result ≢ Status.WriteFault → O.faults out.new ≡ O.faults out.old }
    ensures no_less { (P.faults program.old ≤ P.faults program.new) × (I.faults input.old ≤ I.faults input.new) }

    // What isn't needed is left alone, and what is needed was read to its end.
    ensures no_write { (result ≡ Status.ReadFault) ⊎ (result ≡ Status.Memory) → out.new ≡ out.old }
    ensures program_unread { ¬ (AsksForSource (map string_bytes words.now)) → program.new ≡ program.old }
    ensures input_unread { AsksForNone (map string_bytes words.now) (P.left program.old) → input.new ≡ input.old }
    ensures input_unread_refused { (number : ℕ) (at : Span) → result ≡ Status.Refused number at → input.new ≡ input.old }
    ensures input_unread_fault { P.faults program.old < P.faults program.new → input.new ≡ input.old }
    ensures taken { (job : Job) → IsJob (map string_bytes words.now) job → TakesAtMost (longest job + 1) (P.left program.old) (P.left program.new) }
    ensures input_taken { TakesAtMost (longest_data + 1) (I.left input.old) (I.left input.new) }
    ensures read_to_end { result ≡ Status.Ok → AsksForSource (map string_bytes words.now) → IsAtEnd (P.left program.new) }
    ensures input_to_end { result ≡ Status.Ok → AsksForData (map string_bytes words.now) (P.left program.old) → IsAtEnd (I.left input.new) }
{
    match answer(alloc, words, program, input) {
        Ok(answer) => write_answer(out, answer),
        Err(Halt::ReadFault) => Status::ReadFault,
        Err(Halt::Memory) => Status::Memory,
    }
}

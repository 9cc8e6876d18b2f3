// Replies: a status, and the text that is written with it.
ghost use Rattle.std.specs.Prelude.{◌≡◌, IfOk, string_bytes};
ghost use Rattle.core_syntax.specs.declared.span.Span.{Span};
ghost use Rattle.core_syntax.specs.Refine.{ty_of};
ghost use Rattle.remora_driver.specs.Due.{refused, data_refused, trapped, stuck as stuck_answer, still_running as still_running_answer, shown, accepted, usage, front};
ghost use Rattle.remora_driver.specs.Sources.{seen};

use crate::errors::{DATA_TOO_LONG, FRONT, TOO_LONG};
use crate::status::Status;
use crate::texts::{
    array_line, data_refusal_line, refusal_line, still_running_line, stuck_line, trap_line,
    type_line, usage_line,
};
use array_values::Array;
use core_syntax::{Memory, Span, StuckKind, TrapKind, Ty};
use std::alloc::Global;

/// A status, and the text that is written with it.
#[derive(Drop)]
pub struct Reply {
    pub status: Status,
    pub text: Vec<u8>,
}

// The answer of a status and a line.
fn with_line(status: Status, line: String) -> Reply
    ensures { seen result ≡ record { status = status; text = string_bytes line } }
{
    Reply {
        status,
        text: line.into_bytes(),
    }
}

/// The answer to a source that is refused with this number at this place.
pub fn refusal(alloc: Global, number: u8, span: Span) -> Result<Reply, Memory>
    ensures { IfOk result (λ a. seen a ≡ refused number span) }
{
    Ok(with_line(
        Status::Refused { number, span },
        refusal_line(alloc, number, span)?,
    ))
}

/// The answer to data that is refused with this number at this place.
pub fn data_refusal(alloc: Global, number: u8, span: Span) -> Result<Reply, Memory>
    ensures { IfOk result (λ a. seen a ≡ data_refused number span) }
{
    Ok(with_line(
        Status::DataRefused { number, span },
        data_refusal_line(alloc, number, span)?,
    ))
}

/// The answer of a run that traps.
pub fn trap(alloc: Global, kind: TrapKind) -> Result<Reply, Memory>
    ensures { IfOk result (λ a. seen a ≡ trapped kind) }
{
    Ok(with_line(Status::Trap(kind), trap_line(alloc, kind)?))
}

/// The answer of a machine that is stuck.
pub fn stuck(alloc: Global, kind: StuckKind) -> Result<Reply, Memory>
    ensures { IfOk result (λ a. seen a ≡ stuck_answer kind) }
{
    Ok(with_line(Status::Stuck(kind), stuck_line(alloc, kind)?))
}

/// The answer of a run that hadn't ended within its budget.
pub fn still_running(alloc: Global) -> Result<Reply, Memory>
    ensures { IfOk result (λ a. seen a ≡ still_running_answer) }
{
    Ok(with_line(Status::StillRunning, still_running_line(alloc)?))
}

/// The answer that shows an array.
pub fn shown_array(alloc: Global, array: &Array) -> Result<Reply, Memory>
    ensures { IfOk result (λ a. seen a ≡ shown array.now) }
{
    let text = array_line(alloc, array)?;
    Ok(Reply {
        status: Status::Ok,
        text,
    })
}

/// The answer that shows the type of an accepted program's body. The type is measured.
pub fn type_answer(alloc: Global, ty: &Ty) -> Result<Reply, Memory>
    ensures { IfOk result (λ a. seen a ≡ accepted (ty_of ty.now)) }
{
    let text = type_line(alloc, ty)?;
    Ok(Reply {
        status: Status::Ok,
        text,
    })
}

/// The answer to words that are no call.
pub fn usage_answer(alloc: Global) -> Result<Reply, Memory>
    ensures { IfOk result (λ a. seen a ≡ usage) }
{
    Ok(with_line(Status::Usage, usage_line(alloc)?))
}

/// The answer to a source that is longer than the limit.
pub fn too_long(alloc: Global) -> Result<Reply, Memory>
    ensures { IfOk result (λ a. seen a ≡ refused 31 front) }
{
    refusal(alloc, TOO_LONG, FRONT)
}

/// The answer to data that is longer than the limit.
pub fn data_too_long(alloc: Global) -> Result<Reply, Memory>
    ensures { IfOk result (λ a. seen a ≡ data_refused 44 front) }
{
    data_refusal(alloc, DATA_TOO_LONG, FRONT)
}

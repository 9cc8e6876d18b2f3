// The texts that the commands write.
ghost use Rattle.std.specs.Prelude.{◌≡◌, ◌++◌, IfOk, codes, string_bytes};
ghost use Rattle.core_syntax.specs.NormTypes.{ty_text};
ghost use Rattle.core_syntax.specs.Refine.{ty_of};
ghost use Rattle.value_text.specs.ValueText.{array_text};
ghost use Rattle.remora_driver.specs.Texts.{line, accepted_text, refusal_text, data_refusal_text, trap_text, stuck_text, soak_text, still_running_text, usage_text};

use array_values::Array;
use core_syntax::{Memory, Span, StuckKind, TrapKind, Ty};
use std::alloc::{AllocError, Global};
use type_equal::{NormType, normal, show_type};
use value_text::show;

/// The line of an array.
pub fn array_line(alloc: Global, array: &Array) -> Result<Vec<u8>, Memory>
    ensures { IfOk result (λ text. text.items ≡ line (array_text array.now)) }
{
    let mut out = show(alloc, array)?;
    out.push(b'\n')?;
    Ok(out)
}

/// The line of an array that the code of the soak program comes to by so many steps.
pub fn soak_line(alloc: Global, count: u32, steps: u64, array: &Array) -> Result<Vec<u8>, Memory>
    ensures { IfOk result (λ text. text.items ≡ line (soak_text count steps (array_text array.now))) }
{
    let shown = show(alloc, array)?;
    let mut out = format!(in alloc; "soak {count}: {steps} steps, ")?.into_bytes();
    out.extend_from_slice(shown.as_slice())?;
    out.push(b'\n')?;
    Ok(out)
}

// The line of a normal type.
fn normal_line(alloc: Global, ty: &NormType) -> Result<Vec<u8>, Memory>
    ensures { IfOk result (λ text. text.items ≡ line (codes "ok " ++ ty_text (ty_of ty.now))) }
{
    let shown = show_type(alloc, ty)?;
    let mut out = b"ok ".to_vec(alloc)?;
    out.extend_from_slice(shown.as_slice())?;
    out.push(b'\n')?;
    Ok(out)
}

/// The line of a type, which is measured: that its normal form isn't had can only be for want of memory.
pub fn type_line(alloc: Global, ty: &Ty) -> Result<Vec<u8>, Memory>
    ensures { IfOk result (λ text. text.items ≡ line (accepted_text (ty_of ty.now))) }
{
    match normal(alloc, ty) {
        Ok(normal) => normal_line(alloc, &normal),
        Err(_) => Err(Memory),
    }
}

/// The line of a refusal.
pub fn refusal_line(alloc: Global, number: u8, at: Span) -> Result<String, AllocError>
    ensures { IfOk result (λ text. string_bytes text ≡ line (refusal_text number at)) }
{
    let (row, column) = (at.line, at.col);
    let mut out = format!(in alloc; "refused {number} {row}:{column}")?;
    out.push_str("\n")?;
    Ok(out)
}

/// The line of a refusal of data.
pub fn data_refusal_line(alloc: Global, number: u8, at: Span) -> Result<String, AllocError>
    ensures { IfOk result (λ text. string_bytes text ≡ line (data_refusal_text number at)) }
{
    let (row, column) = (at.line, at.col);
    let mut out = format!(in alloc; "data refused {number} {row}:{column}")?;
    out.push_str("\n")?;
    Ok(out)
}

/// The line of a trap.
pub fn trap_line(alloc: Global, kind: TrapKind) -> Result<String, AllocError>
    ensures { IfOk result (λ text. string_bytes text ≡ line (trap_text kind)) }
{
    match kind {
        TrapKind::Overflow => String::from_str(alloc, "trap overflow\n"),
        TrapKind::Zero => String::from_str(alloc, "trap zero\n"),
        TrapKind::Size => String::from_str(alloc, "trap size\n"),
    }
}

/// The line of a machine that is stuck.
pub fn stuck_line(alloc: Global, kind: StuckKind) -> Result<String, AllocError>
    ensures { IfOk result (λ text. string_bytes text ≡ line (stuck_text kind)) }
{
    match kind {
        StuckKind::Operand => String::from_str(alloc, "stuck operand\n"),
        StuckKind::Kind => String::from_str(alloc, "stuck kind\n"),
        StuckKind::Rank => String::from_str(alloc, "stuck rank\n"),
        StuckKind::Shape => String::from_str(alloc, "stuck shape\n"),
    }
}

/// The line of a run that hadn't ended within its budget.
pub fn still_running_line(alloc: Global) -> Result<String, AllocError>
    ensures { IfOk result (λ text. string_bytes text ≡ line still_running_text) }
{
    String::from_str(alloc, "still running\n")
}

/// The line that says how the program is called.
pub fn usage_line(alloc: Global) -> Result<String, AllocError>
    ensures { IfOk result (λ text. string_bytes text ≡ line usage_text) }
{
    String::from_str(
        alloc,
        "usage: remora check FILE, build FILE, run or exec or reduce FILE [--steps N], soak K\n",
    )
}

// From a code text to its code.
ghost use Rattle.std.specs.Prelude.{◌≡◌, ◌≤◌, length};
ghost use Rattle.code_text.specs.Blame.{Blame};
ghost use Rattle.remora_driver.specs.Due.{text_number, text_place};
ghost use Rattle.remora_driver.specs.Jobs.{longest_code};
ghost use Rattle.remora_driver.specs.Sources.{ReadsCode};

use crate::errors::{FRONT, SourceRefusal, TOO_LONG};
use crate::job::LONGEST_CODE;
use code_text::{CodeKind, CodeRefusal, parse};
use machine_table::Code;
use sexp_reader::span_behind;
use std::alloc::Global;

/// The number of a code text that is none from some byte on.
const BAD_BYTE: u8 = 32;

/// The number of a code text that ends early.
const ENDS_EARLY: u8 = 33;

// The refusal of a code text at this byte.
fn refused(kind: CodeKind, at: usize, text: &[u8]) -> SourceRefusal
    requires short { length text.now ≤ longest_code }
    requires blame { Blame kind text.now at }
    ensures { result ≡ SourceRefusal.Refused (text_number kind) (text_place kind at text.now) }
{
    match kind {
        CodeKind::Byte => SourceRefusal::Refused {
            number: BAD_BYTE,
            span: span_behind(text, at, 1),
        },
        CodeKind::End => SourceRefusal::Refused {
            number: ENDS_EARLY,
            span: span_behind(text, at, 0),
        },
    }
}

// The code of a text within its limit.
fn read_short(alloc: Global, text: &[u8]) -> Result<Code, SourceRefusal>
    requires { length text.now ≤ longest_code }
    ensures { ReadsCode text.now result }
{
    match parse(alloc, text) {
        Ok(code) => Ok(code),
        Err(CodeRefusal::Refused { kind, at }) => Err(refused(kind, at, text)),
        Err(CodeRefusal::Memory) => Err(SourceRefusal::Memory),
    }
}

/// The code with this text (docs/MACHINE.md, "Code text"). It refuses with 31 a text that is too long, and with 32 and 33 one that
/// is no code's. It answers `Memory` where there is none.
pub fn read_code(alloc: Global, text: &[u8]) -> Result<Code, SourceRefusal>
    ensures { ReadsCode text.now result }
{
    if text.len() > LONGEST_CODE {
        return Err(SourceRefusal::Refused {
            number: TOO_LONG,
            span: FRONT,
        });
    }
    read_short(alloc, text)
}

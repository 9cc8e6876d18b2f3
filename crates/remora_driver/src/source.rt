// From the bytes of a source to the program that it means, and its check.
ghost use Rattle.std.specs.Prelude.{◌≤◌, ◌<◌, ◌^◌, length};
ghost use Rattle.sexp_reader.specs.Forms.{forms_of, forms_size, AreShort};
ghost use Rattle.remora_driver.specs.Jobs.{longest_source};
ghost use Rattle.remora_driver.specs.Sources.{Resolves, ResolvesSource, ChecksProgram, ChecksSource};

use crate::errors::{FRONT, SourceRefusal, TOO_LONG};
use crate::job::LONGEST_SOURCE;
use core_syntax::{Checked, Program};
use name_resolve::{NameRefusal, resolve};
use sexp_reader::{Sexp, SexpRefusal, read};
use std::alloc::Global;
use type_check::{TypeRefusal, check_owned};

// The program that forms mean.
fn resolved(alloc: Global, forms: &[Sexp]) -> Result<Program, SourceRefusal>
    requires small { forms_size (forms_of forms.now) < 2 ^ 26 }
    requires short { AreShort (forms_of forms.now) }
    ensures { Resolves (forms_of forms.now) result }
{
    match resolve(alloc, forms) {
        Ok(program) => Ok(program),
        Err(NameRefusal::Refused { number, span }) => Err(SourceRefusal::Refused { number, span }),
        Err(NameRefusal::Memory) => Err(SourceRefusal::Memory),
    }
}

// The program that a source means. It refuses with 1 to 6 a text that reads as no forms, and with 7 to 12 one whose forms
// mean no program (docs/LANGUAGE.md, "Refusals"). It answers `Memory` where there is none.
fn source_program(alloc: Global, source: &[u8]) -> Result<Program, SourceRefusal>
    requires { length source.now ≤ longest_source }
    ensures { ResolvesSource source.now result }
{
    match read(alloc, source) {
        Ok(forms) => resolved(alloc, forms.as_slice()),
        Err(SexpRefusal::Refused { number, span }) => Err(SourceRefusal::Refused { number, span }),
        Err(SexpRefusal::Memory) => Err(SourceRefusal::Memory),
    }
}

// The program with its types and notes.
fn checked(alloc: Global, program: Program) -> Result<Checked, SourceRefusal>
    ensures { ChecksProgram program result }
{
    match check_owned(alloc, program) {
        Ok(checked) => Ok(checked),
        Err(TypeRefusal::Refused { number, span }) => Err(SourceRefusal::Refused { number, span }),
        Err(TypeRefusal::Memory) => Err(SourceRefusal::Memory),
    }
}

// The checked program of a source within its limit.
fn check_short(alloc: Global, source: &[u8]) -> Result<Checked, SourceRefusal>
    requires { length source.now ≤ longest_source }
    ensures { ChecksSource source.now result }
{
    match source_program(alloc, source) {
        Ok(program) => checked(alloc, program),
        Err(refusal) => Err(refusal),
    }
}

/// The program that a source means, with its types and notes. It refuses with 31 a source that is too long, with 1 to 6 a
/// text that reads as no forms, with 7 to 12 one whose forms mean no program, and with 13 to 30 a program that isn't typed
/// or of which a measure is too large (docs/LANGUAGE.md, "Refusals"). It answers `Memory` where there is none.
pub fn check_source(alloc: Global, source: &[u8]) -> Result<Checked, SourceRefusal>
    ensures { ChecksSource source.now result }
{
    if source.len() > LONGEST_SOURCE {
        Err(SourceRefusal::Refused {
            number: TOO_LONG,
            span: FRONT,
        })
    } else {
        check_short(alloc, source)
    }
}

// From a program source to its code.
ghost use Rattle.std.specs.Prelude.{◌≡◌, IfOk, IfErr};
ghost use Rattle.remora_driver.specs.Sources.{Compiles, IsCodeOf};

use crate::errors::SourceRefusal;
use crate::source::check_source;
use core_syntax::{Checked, Memory};
use machine_table::Code;
use reduction_laws::read_literals;
use std::alloc::Global;

// The code of a checked program.
fn program_code(alloc: Global, checked: &Checked) -> Result<Code, SourceRefusal>
    ensures code { IfOk result (λ code. IsCodeOf checked.now code) }
    ensures memory { IfErr result (λ e. e ≡ SourceRefusal.Memory) }
{
    read_literals(checked.program());
    match compiled_laws::compile(alloc, checked) {
        Ok(code) => Ok(code),
        Err(Memory) => Err(SourceRefusal::Memory),
    }
}

/// The code of the program that a source means (docs/MACHINE.md, "The code of a program"). It refuses what `check_source`
/// refuses. It answers `Memory` where there is none.
pub fn compile(alloc: Global, source: &[u8]) -> Result<Code, SourceRefusal>
    ensures { Compiles source.now result }
{
    match check_source(alloc, source) {
        Ok(checked) => program_code(alloc, &checked),
        Err(refusal) => Err(refusal),
    }
}

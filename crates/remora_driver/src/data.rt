// The values of a checked program's inputs.
ghost use Rattle.std.specs.Prelude.{IfOk, IfErr};
ghost use Rattle.core_syntax.specs.Lists.{each};
ghost use Rattle.core_syntax.specs.Wholes.{program_of};
ghost use Rattle.array_values.specs.Data.{array_data};
ghost use Rattle.value_text.specs.DataFits.{Fits};
ghost use Rattle.value_text.specs.DataTexts.{IsDue};
ghost use Rattle.remora_driver.specs.Programs.{input_types};

use array_values::Array;
use core_syntax::{Checked, Memory};
use lowering::input_params;
use std::alloc::Global;
use value_text::{DataRefusal, read_data};

/// The values of a checked program's inputs, which the data is the text of (docs/LANGUAGE.md, "Data"). It refuses other data
/// with 40 to 44, and answers `Memory` where there is none.
pub fn input_values(
    alloc: Global,
    checked: &Checked,
    given: &[u8],
) -> Result<Vec<Array>, DataRefusal>
    ensures found { IfOk result (λ v. Fits given.now (input_types (program_of checked.now.program)) (each array_data v.items)) }
    ensures blame { IfErr result (λ e. IsDue given.now (input_types (program_of checked.now.program)) e) }
{
    match input_params(alloc, checked) {
        Ok(params) => read_data(alloc, params.as_slice(), given),
        Err(Memory) => Err(DataRefusal::Memory),
    }
}

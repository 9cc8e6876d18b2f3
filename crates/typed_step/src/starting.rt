// The start of a run of a checked program (docs/LANGUAGE.md, "Reduction").
ghost use Rattle.std.specs.Prelude.{IfOk};
ghost use Rattle.array_values.specs.Data.{array_data};
ghost use Rattle.core_syntax.specs.Data.{FitsValues};
ghost use Rattle.core_syntax.specs.Lists.{each};
ghost use Rattle.core_syntax.specs.Notes.{note_of};
ghost use Rattle.core_syntax.specs.Refine.{ty_of};
ghost use Rattle.core_syntax.specs.Start.{def_terms, start_term};
ghost use Rattle.core_syntax.specs.Wholes.{program_of};
ghost use Rattle.typed_step.specs.Steps.{IsTerm};

use crate::closed::Closed;
use array_values::Array;
use core_syntax::{Checked, Memory};
use std::alloc::Global;
use typed_start::{annotated_defs, started};

/// A checked program as the typed terms of its definitions and of its body, with data that fits in the place of its inputs
/// (docs/LANGUAGE.md, "Reduction").
///
/// # Errors
///
/// Where there is no memory.
pub fn start(alloc: Global, checked: &Checked, inputs: &[Array]) -> Result<Closed, Memory>
    requires { FitsValues (each ty_of checked.now.inputs) (each array_data inputs.now) }
    ensures { IfOk result (λ c. IsTerm (def_terms (program_of checked.now.program) (each note_of checked.now.notes)) (start_term (program_of checked.now.program) (each note_of checked.now.notes) (each array_data inputs.now)) c) }
{
    let program = checked.program();
    let notes = checked.notes();
    let mut at = 0;
    let defs = annotated_defs(alloc, program.defs.as_slice(), notes, &mut at)?;
    let term = started(alloc, &program.body, notes, at, checked.inputs(), inputs)?;
    Ok(Closed { defs, term })
}

// Variables and definitions.
ghost use Rattle.std.specs.Prelude.{◌≡◌, ◌<◌, length};
ghost use Rattle.core_syntax.specs.Syntax.{TermVar, DefVar};
ghost use Rattle.type_check.specs.Answers.{NodeAnswers};
ghost use Rattle.type_check.specs.State.{context_of, IsSteady};

use crate::concluded::Concluded;
use crate::moving::moved;
use crate::notes::no_note;
use crate::refusal::TypeRefusal;
use crate::state::Checker;
use core_syntax::Span;

/// The type of a term variable, moved to where it stands.
pub(crate) fn variable(checker: &Checker, _at: Span, k: u32) -> Result<Concluded, TypeRefusal>
    requires steady { IsSteady checker.now }
    requires bound { k < length (context_of checker.now).terms }
    ensures { NodeAnswers checker.now checker.now (TermVar _at k) result }
{
    let bound = checker.bound(k);
    let types = checker.types() - bound.types;
    let indices = checker.indices() - bound.indices;
    let note = no_note(checker.alloc());
    match moved(checker.alloc(), &bound.ty, types, indices) {
        Ok(ty) => Ok(Concluded { note, ty }),
        Err(_) => Err(TypeRefusal::Memory),
    }
}

/// The type of a definition.
pub(crate) fn definition(checker: &Checker, _at: Span, k: u32) -> Result<Concluded, TypeRefusal>
    requires steady { IsSteady checker.now }
    requires defined { k < length (context_of checker.now).defs }
    ensures { NodeAnswers checker.now checker.now (DefVar _at k) result }
{
    let note = no_note(checker.alloc());
    match moved(checker.alloc(), checker.definition_type(k), 0, 0) {
        Ok(ty) => Ok(Concluded { note, ty }),
        Err(_) => Err(TypeRefusal::Memory),
    }
}

ghost use Rattle.core_syntax.specs.Refine.{ty_of};
ghost use Rattle.core_syntax.specs.Notes.{note_of};
ghost use Rattle.type_check.specs.Forms.{Follows};

use crate::concluded::Concluded;
use crate::refusal::TypeRefusal;
use crate::written::measured;
use core_syntax::{Note, Span, Ty};
use std::alloc::Global;
use type_equal::normal;

/// What a rule concludes at a node: the normal form of the type that it gives, or the refusal of
/// its measure at the node's place.
pub(crate) fn conclusion(
    alloc: Global,
    at: Span,
    ty: &Ty,
    note: Note,
) -> Result<Concluded, TypeRefusal>
    ensures { Follows at (ty_of ty.now) (note_of note) result }
{
    match normal(alloc, ty) {
        Ok(ty) => Ok(Concluded { note, ty }),
        Err(refusal) => Err(measured(refusal, at)),
    }
}

ghost use Rattle.std.specs.Prelude.{◌≡◌};

use core_syntax::{Memory, Span};
use std::alloc::{AllocError, AllocFailed};
use thiserror::Error;

/// Why a program or an expression has no type.
#[derive(Clone, Copy, Debug, PartialEq, Eq, Error)]
pub enum TypeRefusal {
    /// The first premise that isn't met has this number, one of 13 to 30 of docs/LANGUAGE.md,
    /// "Refusals", and the place that "Typing" says.
    #[error("refused {number} {}:{}", .span.line, .span.col)]
    Refused { number: u8, span: Span },
    /// There was no memory for the check.
    #[error("no memory")]
    Memory,
}

impl From<Memory> for TypeRefusal {
    ghost use Rattle.std.specs.Prelude.{◌≡◌};
    ghost use Rattle.type_check.specs.declared.refusal.TypeRefusal.TheVariants.{Memory as NoMemory};

    ghost from_gives = { λ _ e. e ≡ NoMemory };

    fn from(_: Memory) -> Self {
        TypeRefusal::Memory
    }
}

impl From<AllocError> for TypeRefusal {
    ghost use Rattle.std.specs.Prelude.{◌≡◌};
    ghost use Rattle.type_check.specs.declared.refusal.TypeRefusal.TheVariants.{Memory as NoMemory};

    ghost from_gives = { λ _ e. e ≡ NoMemory };

    fn from(_: AllocError) -> Self {
        TypeRefusal::Memory
    }
}

impl<T: Drop> From<AllocFailed<T>> for TypeRefusal {
    ghost use Rattle.std.specs.Prelude.{◌≡◌};
    ghost use Rattle.type_check.specs.declared.refusal.TypeRefusal.TheVariants.{Memory as NoMemory};

    ghost from_gives = { λ _ e. e ≡ NoMemory };

    fn from(_: AllocFailed<T>) -> Self {
        TypeRefusal::Memory
    }
}

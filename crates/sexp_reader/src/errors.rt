use core_syntax::Span;
use std::alloc::{AllocError, AllocFailed};
use thiserror::Error;

/// Why a text was not read.
#[derive(Clone, Copy, Debug, PartialEq, Eq, Error)]
pub enum SexpRefusal {
    /// The text is refused: `number` is one of 1 to 6 of LANGUAGE.md, "Refusals", and `span` is the one byte that is to
    /// blame.
    #[error("refused {number} {}:{}", .span.line, .span.col)]
    Refused { number: u8, span: Span },
    /// There was no memory for the forms.
    #[error("no memory")]
    Memory,
}

impl From<AllocError> for SexpRefusal {
    ghost use Rattle.std.specs.Prelude.{◌≡◌};
    ghost use Rattle.sexp_reader.specs.declared.errors.SexpRefusal.TheVariants.{Memory};

    ghost from_gives = { λ _ e. e ≡ Memory };

    fn from(_: AllocError) -> Self {
        SexpRefusal::Memory
    }
}

impl<T: Drop> From<AllocFailed<T>> for SexpRefusal {
    ghost use Rattle.std.specs.Prelude.{◌≡◌};
    ghost use Rattle.sexp_reader.specs.declared.errors.SexpRefusal.TheVariants.{Memory};

    ghost from_gives = { λ _ e. e ≡ Memory };

    fn from(_: AllocFailed<T>) -> Self {
        SexpRefusal::Memory
    }
}

ghost use Rattle.std.specs.Prelude.{◌≡◌};

use core_syntax::{Memory, Span};
use std::alloc::{AllocError, AllocFailed};
use thiserror::Error;

/// Why forms mean no program.
#[derive(Clone, Copy, Debug, PartialEq, Eq, Error)]
pub enum NameRefusal {
    /// The forms are refused: `number` is one of 7 to 12 of LANGUAGE.md, "Refusals", and `span` the place that is named there.
    #[error("refused {number} {}:{}", .span.line, .span.col)]
    Refused { number: u8, span: Span },
    /// There was no memory for the program.
    #[error("no memory")]
    Memory,
}

impl From<Memory> for NameRefusal {
    ghost use Rattle.std.specs.Prelude.{◌≡◌};
    ghost use Rattle.name_resolve.specs.declared.errors.NameRefusal.TheVariants.{Memory as NoMemory};

    ghost from_gives = { λ _ e. e ≡ NoMemory };

    fn from(_: Memory) -> Self {
        NameRefusal::Memory
    }
}

impl From<AllocError> for NameRefusal {
    ghost use Rattle.std.specs.Prelude.{◌≡◌};
    ghost use Rattle.name_resolve.specs.declared.errors.NameRefusal.TheVariants.{Memory as NoMemory};

    ghost from_gives = { λ _ e. e ≡ NoMemory };

    fn from(_: AllocError) -> Self {
        NameRefusal::Memory
    }
}

impl<T: Drop> From<AllocFailed<T>> for NameRefusal {
    ghost use Rattle.std.specs.Prelude.{◌≡◌};
    ghost use Rattle.name_resolve.specs.declared.errors.NameRefusal.TheVariants.{Memory as NoMemory};

    ghost from_gives = { λ _ e. e ≡ NoMemory };

    fn from(_: AllocFailed<T>) -> Self {
        NameRefusal::Memory
    }
}

/// The numbers of the refusals.
const MALFORMED: u8 = 7;

const UNKNOWN: u8 = 8;

const REPEATED: u8 = 9;

const WRONG_COUNT: u8 = 10;

const TOO_LARGE: u8 = 11;

const TOO_MANY: u8 = 12;

/// A malformed form or part.
pub(crate) fn malformed(span: Span) -> NameRefusal
    ensures { result ≡ NameRefusal.Refused 7 span }
{
    NameRefusal::Refused {
        number: MALFORMED,
        span,
    }
}

/// A name that is not in scope.
pub(crate) fn unknown(span: Span) -> NameRefusal
    ensures { result ≡ NameRefusal.Refused 8 span }
{
    NameRefusal::Refused {
        number: UNKNOWN,
        span,
    }
}

/// A binder that repeats an earlier one of its list, or a definition's name that an earlier one has.
pub(crate) fn repeated(span: Span) -> NameRefusal
    ensures { result ≡ NameRefusal.Refused 9 span }
{
    NameRefusal::Refused {
        number: REPEATED,
        span,
    }
}

/// An `array` or a `frame` with another number of items than its numbers say.
pub(crate) fn wrong_count(span: Span) -> NameRefusal
    ensures { result ≡ NameRefusal.Refused 10 span }
{
    NameRefusal::Refused {
        number: WRONG_COUNT,
        span,
    }
}

/// A number of an `array` or a `frame` above the limit.
pub(crate) fn too_large(span: Span) -> NameRefusal
    ensures { result ≡ NameRefusal.Refused 11 span }
{
    NameRefusal::Refused {
        number: TOO_LARGE,
        span,
    }
}

/// The first number of an `array` or a `frame` that is one too many.
pub(crate) fn too_many(span: Span) -> NameRefusal
    ensures { result ≡ NameRefusal.Refused 12 span }
{
    NameRefusal::Refused {
        number: TOO_MANY,
        span,
    }
}

/// A refusal of what stands behind a part that was read, which is let go.
pub(crate) fn given_up<T: Drop>(refusal: NameRefusal, _read: T) -> NameRefusal
    ensures { result ≡ refusal }
{
    refusal
}

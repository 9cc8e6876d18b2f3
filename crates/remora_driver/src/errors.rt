use core_syntax::Span;
use thiserror::Error;

/// The start of a text.
pub const FRONT: Span = Span {
    from: 0,
    to: 0,
    line: 1,
    col: 1,
};

/// The number of a source that is too long.
pub const TOO_LONG: u8 = 31;

/// The number of data that is too long.
pub const DATA_TOO_LONG: u8 = 44;

/// Why a program source has no checked program or no code.
#[derive(Clone, Copy, Debug, PartialEq, Eq, Error)]
pub enum SourceRefusal {
    /// It is refused with this number at this place (docs/LANGUAGE.md, "Refusals").
    #[error("refused {number} {}:{}", .span.line, .span.col)]
    Refused { number: u8, span: Span },
    /// There was no memory.
    #[error("no memory")]
    Memory,
}

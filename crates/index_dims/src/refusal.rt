use thiserror::Error;

/// Why an index has no normal form within the limits (docs/LANGUAGE.md, "Limits").
#[derive(Clone, Copy, Debug, PartialEq, Eq, Error)]
pub enum DimRefusal {
    /// A constant is above [`core_syntax::LARGEST_NUMBER`]. `value` is the first such constant, or
    /// `u64::MAX` where it is larger.
    #[error("the number {value} is too large")]
    TooLarge { value: u64 },
    /// No constant is too large, and the size is above [`core_syntax::LARGEST_SIZE`].
    #[error("the index is too wide")]
    TooWide,
    /// There was no memory.
    #[error("no memory")]
    Memory,
}

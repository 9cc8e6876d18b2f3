//! Words: the normal forms of indices of sort Shape.
#![tactic(auto)]

mod equal;
mod joining;
mod norm;

/// A word: letters in order, each a linear form or a Shape variable.
pub use core_syntax::NormShape as Word;
pub use equal::{cell_split, is_prefix, same};
pub use joining::join;
pub use norm::{has_large, total_size, word};

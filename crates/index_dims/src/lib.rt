//! Linear forms: the normal forms of indices of sort Dim.
#![tactic(auto)]

mod counting;
mod equal;
mod norm;
mod refusal;

/// A linear form: a constant, and how often each variable is added to it.
pub use core_syntax::NormDim as Linear;
pub use equal::same;
pub use norm::{constant, linear, size};
pub use refusal::DimRefusal;

//! Substitution in typed terms.
#![tactic(auto)]

mod putting;
mod rebuilt;

pub use putting::{with_arguments, with_box, with_indices, with_types};

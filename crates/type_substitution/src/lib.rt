//! Substitution in indices and in types.
#![tactic(auto)]

mod moving;
mod types_put;

pub use moving::{binders, more};
pub use types_put::{Puts, Under, content_ty, put_each_index, put_each_type, put_type};

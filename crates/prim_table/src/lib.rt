//! The primitives of the language: their names and their types.
#![tactic(auto)]

mod names;
mod parts;
mod types;

pub use names::prim;
pub use types::type_of;

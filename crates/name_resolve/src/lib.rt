//! Names resolved: forms to the numbered program, or the first refusal.
#![tactic(auto)]

mod atoms;
mod binders;
mod definitions;
mod dims;
mod errors;
mod exprs;
mod headers;
mod indices;
mod laws;
mod lists;
mod scopes;
mod space;
mod top;
mod types;
mod unboxings;
mod words;

pub use errors::NameRefusal;
pub use laws::{one_meaning, refusal_numbers};
pub use top::resolve;

//! The typed terms of checked programs and of data.
#![tactic(auto)]

mod inputs;
mod noted;
mod starting;

pub use starting::{annotated_defs, started};

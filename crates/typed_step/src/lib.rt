//! Reduction of typed terms, step by step.
#![tactic(auto)]

mod closed;
mod lifting;
mod outcome;
mod rules;
mod run;
mod starting;
mod stepping;
mod valued;

pub use closed::{Closed, Next};
pub use starting::start;
pub use stepping::{reduce, step};
pub use valued::value;

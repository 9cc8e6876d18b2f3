//! What primitives give on the values of typed terms.
#![tactic(auto)]

mod answer;
mod arrays;
mod boxes;
mod deltas;
mod folds;
mod outcome;

pub use deltas::delta;
pub use outcome::Outcome;

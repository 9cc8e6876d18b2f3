//! What runs of a checked program come to, by the rules of reduction alone.
#![tactic(auto)]

mod laws;
mod literals;

pub use laws::{keeps_type, one_outcome};
pub use literals::read_literals;

//! The types of expressions and programs, or the first premise that isn't met.
#![tactic(auto)]

mod application;
mod applied;
mod arrays;
mod atoms;
mod binders;
mod boxes;
mod checking;
mod concluded;
mod conclusion;
mod context;
mod expressions;
mod forms;
mod framed;
mod frames;
mod functions;
mod given;
mod laws;
mod moving;
mod notes;
mod parts;
mod program;
mod refusal;
mod rules;
mod shapes;
mod state;
mod synthesis;
mod values;
mod variables;
mod written;

pub use checking::{check, check_owned};
pub use context::Context;
pub use laws::{accepted_is_typed, refusals_of_programs};
pub use refusal::TypeRefusal;
pub use synthesis::synth;

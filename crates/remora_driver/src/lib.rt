//! The commands: from the words and the bytes of a source to a status and a text.
#![tactic(auto)]

mod answer;
mod calls;
mod commands;
mod compiling;
mod data;
mod errors;
mod executing;
mod job;
mod laws;
mod reducing;
mod reply;
mod running;
mod soaking;
mod source;
mod status;
mod task;
mod telling;
mod texts;
mod top;

pub use answer::Answer;
pub use calls::{build, exec, reduce_source, run_source};
pub use errors::SourceRefusal;
pub use laws::{due_means, one_answer, run_is_reduce};
pub use source::check_source;
pub use status::Status;
pub use top::remora;

//! The soak program: as many definitions as asked for, each called in one cell of a frame whose cells are added up
//! (docs/LANGUAGE.md, "The soak program").
#![tactic(auto)]

mod writing;

pub use writing::program;

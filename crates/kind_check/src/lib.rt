//! The sorts of indices and the kinds of types.
#![tactic(auto)]

mod kinds;
mod sorts;

pub use kinds::{KindRefusal, kind_of, kind_within};
pub use sorts::{SortDiffers, sort_of, sort_within};

//! Normal types, and when types are equal.
#![tactic(auto)]

mod counting;
mod inner;
mod instantiate;
mod measuring;
mod moving;
mod norm_type;
mod normalize;
mod putting;
mod same_index;
mod same_type;
mod show;
mod tables;
mod tree;

pub use inner::same_part;
pub use instantiate::{instantiate_indices, instantiate_types};
pub use measuring::{NormRefusal, measure};
pub use norm_type::{NormType, moved, normal, same};
pub use show::show_type;
pub use tree::{dim_index, word_index};

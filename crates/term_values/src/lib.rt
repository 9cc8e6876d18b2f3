//! Typed terms made of parts, the dims and atoms of values, and the values of closed indices.
#![tactic(auto)]

mod indices;
mod terms;
mod values;

pub use indices::{NOWHERE, all_fit, kept, number, numbers, shape_dims, type_dims};
pub use terms::{
    application, array, array_over, atom_type, copied_dims, copied_indices, copied_part,
    copied_scalar, copied_sorts, copied_types, frame, frame_parts, index_application,
    index_function, joined, no_atoms, push_copies, scalar, type_application, type_function,
    unboxing, with_atoms,
};
pub use values::{DEEPEST, MOST_CELLS, MOST_DIMS, atoms, count, dims, forms, has_room, size};

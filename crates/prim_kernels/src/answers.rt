// What primitives give a machine.
use array_values::{Array, Value};
use core_syntax::{StuckKind, TrapKind};

/// What a primitive on arrays gives (docs/LANGUAGE.md, "What primitives give").
#[derive(Drop)]
pub enum Delta {
    /// An array.
    Value(Array),
    /// A trap.
    Trap(TrapKind),
    /// A fold by the atom of the first argument over the leading cells of `items`, the last. `fold` has the accumulator to
    /// begin with, its second argument; `reduce` has none, and begins with its first item.
    Fold {
        f: Value,
        acc: Option<Array>,
        items: Array,
    },
    /// The primitive or its arguments are none of its row, which makes a machine stuck.
    Wrong(StuckKind),
}

/// What a primitive of scalars gives on scalars (docs/LANGUAGE.md, "What primitives give").
#[derive(Clone, Copy, Debug, PartialEq, Eq)]
pub enum Scalar {
    /// An integer.
    Int(i64),
    /// A truth value.
    Bool(bool),
    /// A trap.
    Trap(TrapKind),
    /// The primitive or the scalars are none of its row, which makes a machine stuck.
    Wrong(StuckKind),
}

// The parts of a term, which can be changed where they stand.
ghost use Rattle.std.specs.Prelude.{◌≡◌, ◌<◌, length, IfOk, slice_set, slice_index_or};
ghost use Rattle.std.specs.Borrow.{Lends, sem};
ghost use Rattle.core_syntax.specs.contracts.parts.Part.{the_row as part_row};
ghost use Rattle.core_syntax.specs.contracts.parts.Parts.{the_row as parts_row};

use crate::errors::Memory;
use std::alloc::Global;
use std::marker::Model;

/// A `Box` that contracts see as its value, and whose value can be changed.
#[derive(Drop)]
pub struct Part<T> {
    inner: Box<T>,
}

impl<T> Model for Part<T> {
    ghost use Rattle.std.specs.Coded.{coded_list};

    ghost Value = { T };

    ghost coded = { T.code };

    ghost view = { λ b. b.inner.value };
}

impl<T> Part<T> {
    /// The value.
    pub fn get(&self) -> &T
        ensures { result.now ≡ self.now }
    {
        &self.inner
    }

    /// The value, to be changed.
    pub fn get_mut(&mut self) -> &mut T
        ensures* writes_back { sem 𝓛 (Lends (part_row T.row) T.row self.entry result (λ w. w)) }
        ensures value { result.now ≡ self.old }
    {
        &mut self.inner
    }
}

impl<T: Drop> Part<T> {
    /// The value in a box.
    pub fn new(alloc: Global, value: T) -> Result<Part<T>, Memory>
        ensures { IfOk result (λ p. p ≡ value) }
    {
        let inner = Box::new(alloc, value).map_err(|_| Memory)?;
        Ok(Part { inner })
    }
}

/// A `Vec` that contracts see as the list of its items, each of which can be changed.
#[derive(Drop)]
pub struct Parts<T> {
    items: Vec<T>,
}

impl<T> Model for Parts<T> {
    ghost use Rattle.std.specs.Prelude.{List};
    ghost use Rattle.std.specs.Coded.{coded_list};

    ghost Value = { List T };

    ghost coded = { coded_list T.code };

    ghost view = { λ it. it.items.items };
}

impl<T> Parts<T> {
    /// The items of a `Vec`.
    pub fn from_vec(items: Vec<T>) -> Parts<T>
        ensures { result ≡ items.items }
    {
        Parts { items }
    }

    /// The items.
    pub fn as_slice(&self) -> &[T]
        ensures { result.now ≡ self.now }
    {
        self.items.as_slice()
    }

    /// How many items there are.
    pub fn len(&self) -> usize
        ensures { result ≡ length self.now }
    {
        self.items.len()
    }

    /// The item at a place, to be changed.
    pub fn at_mut(&mut self, at: usize) -> &mut T
        requires { at < length self.old }
        ensures* writes_back { sem 𝓛 (Lends (parts_row T.row) T.row self.entry result (slice_set self.old at)) }
        ensures value { result.now ≡ slice_index_or self.old at result.now }
    {
        &mut self.items[at]
    }
}

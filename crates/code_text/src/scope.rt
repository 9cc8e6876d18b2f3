// The binders that are in scope of an index.
ghost use Rattle.std.specs.Prelude.{◌≡◌, ◌<◌, ◌≤◌, ◌^◌, ◌∷◌, [], Some, drop, length, slice_get, OnOk};
ghost use Rattle.machine_table.specs.IndexBounds.{under};
ghost use Rattle.code_text.specs.IndexReading.{same_sort, has};

use core_syntax::{Memory, Sort};
use std::alloc::Global;
use std::marker::Model;

/// Whether the sorts are the same.
pub(crate) fn same(left: Sort, right: Sort) -> bool
    ensures { result ≡ same_sort left right }
{
    match left {
        Sort::Dim => match right {
            Sort::Dim => true,
            Sort::Shape => false,
        },
        Sort::Shape => match right {
            Sort::Dim => false,
            Sort::Shape => true,
        },
    }
}

/// The binders that are in scope: those further inside were pushed later. How many of them have the sort Dim is counted, so
/// whether there is one of a sort is told without a walk over them.
#[derive(Drop)]
pub(crate) struct Binders {
    sorts: Vec<Sort>,
    dims: usize,
}

impl Model for Binders {
    ghost use Rattle.std.specs.Prelude.{◌≡◌, List, reverse};
    ghost use Rattle.core_syntax.specs.declared.index.Sort.{Sort};
    ghost use Rattle.code_text.specs.IndexReading.{dims_among};

    ghost Value = { List Sort };

    ghost view = { λ b. reverse b.sorts.items };

    ghost invariant = { λ b. b.dims ≡ dims_among (reverse b.sorts.items) };
}

impl Binders {
    /// No binders.
    pub(crate) fn new(alloc: Global) -> Binders
        ensures { result ≡ [] }
    {
        Binders {
            sorts: Vec::new(alloc),
            dims: 0,
        }
    }

    /// How many there are.
    pub(crate) fn len(&self) -> usize
        ensures value { result ≡ length self.now }
        ensures few { result < 2 ^ 63 }
    {
        self.sorts.len()
    }

    /// Whether there is one of this sort.
    pub(crate) fn have(&self, sort: Sort) -> bool
        ensures { result ≡ has sort self.now }
    {
        match sort {
            Sort::Dim => self.dims > 0,
            Sort::Shape => self.dims < self.sorts.len(),
        }
    }

    /// The sort of the binder with this number, where the innermost is 0.
    pub(crate) fn sort(&self, place: usize) -> Sort
        requires { place < length self.now }
        ensures { slice_get self.now place ≡ Some result }
    {
        self.sorts[self.sorts.len() - 1 - place]
    }

    /// Puts a binder inside of all.
    pub(crate) fn push(&mut self, sort: Sort) -> Result<(), Memory>
        ensures { OnOk result (self.new ≡ sort ∷ self.old) }
    {
        let dims = match sort {
            Sort::Dim => self.dims + 1,
            Sort::Shape => self.dims,
        };
        self.sorts.push(sort)?;
        self.dims = dims;
        Ok(())
    }

    /// Lets go of the innermost.
    pub(crate) fn pop(&mut self)
        ensures { self.new ≡ drop 1 self.old }
    {
        match self.sorts.pop() {
            Some(Sort::Dim) => self.dims -= 1,
            Some(Sort::Shape) | None => {}
        }
    }

    /// Puts binders inside of all, the last innermost.
    pub(crate) fn enter(&mut self, sorts: &[Sort]) -> Result<(), Memory>
        ensures { OnOk result (self.new ≡ under sorts.now self.old) }
    {
        let mut left = sorts;
        while let [sort, others @ ..] = left {
            self.push(*sort)?;
            left = others;
        }
        Ok(())
    }

    /// Lets go of so many, from the innermost.
    pub(crate) fn leave(&mut self, count: usize)
        ensures { self.new ≡ drop count self.old }
    {
        for _ in 0..count {
            self.pop();
        }
    }
}

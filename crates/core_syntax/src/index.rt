ghost use Rattle.std.specs.Prelude.{◌≡◌, IfOk};

use crate::errors::Memory;
use crate::span::Span;
use sqlite_items::Items;
use std::alloc::Global;

/// The sort of an index: one of sort Dim is a natural number, one of sort Shape a list of them
/// (docs/LANGUAGE.md, "Indices").
#[derive(Clone, Copy, Debug, PartialEq, Eq)]
pub enum Sort {
    Dim,
    Shape,
}

/// An index and its place in the source (docs/LANGUAGE.md, "Indices").
#[cycle(index)]
#[derive(Drop)]
pub struct Index {
    pub at: Span,
    pub form: IndexForm,
}

/// What an index is made of. Variables count from the innermost binder, 0 first.
#[cycle(index)]
#[derive(Drop)]
pub enum IndexForm {
    /// A number.
    Num(u64),
    /// A variable, of either sort.
    Var(u32),
    /// `(+ i ..)`: the sum of its parts.
    Sum(Items<Index>),
    /// `(shape i ..)`: the list of its parts.
    Dims(Items<Index>),
    /// `(++ i ..)`: the lists of its parts, joined.
    Join(Items<Index>),
}

impl Index {
    /// The same index once more, its place included.
    #[cycle(copying)]
    pub fn copy(&self, alloc: Global) -> Result<Index, Memory>
        ensures { IfOk result (λ c. c ≡ self.now) }
    {
        let form = match &self.form {
            IndexForm::Num(n) => IndexForm::Num(*n),
            IndexForm::Var(k) => IndexForm::Var(*k),
            IndexForm::Sum(parts) => IndexForm::Sum(copy_parts(alloc, parts.as_slice())?),
            IndexForm::Dims(parts) => IndexForm::Dims(copy_parts(alloc, parts.as_slice())?),
            IndexForm::Join(parts) => IndexForm::Join(copy_parts(alloc, parts.as_slice())?),
        };
        Ok(Index { at: self.at, form })
    }
}

/// Copies of the parts of an index.
#[cycle(copying)]
pub(crate) fn copy_parts(alloc: Global, parts: &[Index]) -> Result<Items<Index>, Memory>
    ensures { IfOk result (λ c. c ≡ parts.now) }
{
    let mut copies = Vec::new(alloc);
    for part in parts {
        let copy = part.copy(alloc)?;
        copies.push(copy).map_err(|_| Memory)?;
    }
    Ok(Items::from_vec(copies))
}

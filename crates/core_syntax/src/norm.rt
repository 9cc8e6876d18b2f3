ghost use Rattle.std.specs.Prelude.{◌≡◌, IfOk};

use crate::errors::Memory;
use sqlite_items::Items;
use std::alloc::Global;
use std::marker::Model;

/// The largest number that a normal form may hold.
pub const LARGEST_NUMBER: u64 = 1 << 40;

/// The largest size of a normal type, and of each index in one.
pub const LARGEST_SIZE: u64 = 16_384;

/// The largest depth of a normal type.
pub const LARGEST_DEPTH: u64 = 512;

/// A variable of sort Dim and how often a linear form adds it, at least once.
#[derive(Clone, Copy, Debug, PartialEq, Eq)]
pub struct Coef {
    pub var: u32,
    pub times: u64,
}

/// A linear form, the normal form of an index of sort Dim: a number and, in rising order of their
/// numbers, the variables that are added to it, each at least once (docs/LANGUAGE.md, "Normal
/// forms of indices").
#[derive(Debug, Drop)]
pub struct NormDim {
    pub constant: u64,
    pub coefs: Items<Coef>,
}

impl Model for NormDim {
    ghost use Rattle.core_syntax.specs.Linear.{Linear, IsAscending};

    ghost Value = { Linear };

    ghost view = { λ a. record { constant = a.constant; coefs = a.coefs } };

    ghost invariant = { λ a. IsAscending 0 a.coefs };

    ghost inverse = { λ d. record { constant = d.constant; coefs = d.coefs } };
}

impl NormDim {
    /// The same linear form once more.
    pub fn copy(&self, alloc: Global) -> Result<NormDim, Memory>
        ensures { IfOk result (λ c. c ≡ self.now) }
    {
        let coefs = Items::from_slice(alloc, self.coefs.as_slice()).map_err(|_| Memory)?;
        Ok(NormDim {
            constant: self.constant,
            coefs,
        })
    }
}

/// A letter of the word that an index of sort Shape comes to: one dimension, or a Shape variable.
#[derive(Debug, Drop)]
pub enum Letter {
    Dim(NormDim),
    Var(u32),
}

impl Letter {
    /// The same letter once more.
    pub fn copy(&self, alloc: Global) -> Result<Letter, Memory>
        ensures { IfOk result (λ c. c ≡ self.now) }
    {
        match self {
            Letter::Dim(d) => Ok(Letter::Dim(d.copy(alloc)?)),
            Letter::Var(k) => Ok(Letter::Var(*k)),
        }
    }
}

/// A word, the normal form of an index of sort Shape: its letters in order (docs/LANGUAGE.md,
/// "Normal forms of indices").
#[derive(Debug, Drop)]
pub struct NormShape {
    pub letters: Items<Letter>,
}

impl Model for NormShape {
    ghost use Rattle.std.specs.Prelude.{List};
    ghost use Rattle.core_syntax.specs.declared.norm.Letter.{Letter};
    ghost use Rattle.core_syntax.specs.Word.{AreNormal};

    ghost Value = { List Letter };

    ghost view = { λ a. a.letters };

    ghost invariant = { λ a. AreNormal a.letters };

    ghost inverse = { λ w. record { letters = w } };
}

/// Copies of letters.
fn copy_letters(alloc: Global, letters: &[Letter]) -> Result<Items<Letter>, Memory>
    ensures { IfOk result (λ c. c ≡ letters.now) }
{
    let mut copies = Vec::new(alloc);
    for letter in letters {
        let copy = letter.copy(alloc)?;
        copies.push(copy).map_err(|_| Memory)?;
    }
    Ok(Items::from_vec(copies))
}

impl NormShape {
    /// The same word once more.
    pub fn copy(&self, alloc: Global) -> Result<NormShape, Memory>
        ensures { IfOk result (λ c. c ≡ self.now) }
    {
        let letters = copy_letters(alloc, self.letters.as_slice())?;
        Ok(NormShape { letters })
    }
}

/// The normal form of an index of either sort.
#[derive(Debug, Drop)]
pub enum NormIndex {
    Dim(NormDim),
    Shape(NormShape),
}

impl NormIndex {
    /// The same normal form once more.
    pub fn copy(&self, alloc: Global) -> Result<NormIndex, Memory>
        ensures { IfOk result (λ c. c ≡ self.now) }
    {
        match self {
            NormIndex::Dim(d) => Ok(NormIndex::Dim(d.copy(alloc)?)),
            NormIndex::Shape(s) => Ok(NormIndex::Shape(s.copy(alloc)?)),
        }
    }
}

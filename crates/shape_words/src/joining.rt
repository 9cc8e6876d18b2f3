ghost use Rattle.std.specs.Prelude.{◌≡◌, ◌≤◌, ◌++◌, length, take, IfOk, OnOk};

use crate::Word;
use core_syntax::{Letter, Memory};
use sqlite_items::Items;
use std::alloc::Global;

/// Copies letters to the end of others.
fn push_copies(alloc: Global, from: &[Letter], to: &mut Vec<Letter>) -> Result<(), Memory>
    ensures { OnOk result (to.new.items ≡ to.old.items ++ from.now) }
{
    for letter in from {
        let copy = letter.copy(alloc)?;
        to.push(copy).map_err(|_| Memory)?;
    }
    Ok(())
}

/// The first `upto` letters of a word, and then another word.
///
/// # Errors
///
/// `Memory` where there was no memory.
pub fn join(alloc: Global, a: &Word, upto: usize, b: &Word) -> Result<Word, Memory>
    requires { upto ≤ length a.now }
    ensures { IfOk result (λ w. w ≡ take upto a.now ++ b.now) }
{
    let mut letters = Vec::new(alloc);
    push_copies(alloc, &a.letters.as_slice()[..upto], &mut letters)?;
    push_copies(alloc, b.letters.as_slice(), &mut letters)?;
    Ok(Word {
        letters: Items::from_vec(letters),
    })
}

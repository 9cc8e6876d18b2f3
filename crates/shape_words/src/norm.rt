ghost use Rattle.std.specs.Prelude.{◌≡◌, ◌≢◌, ◌-◌, ◌^◌, ◌⊎◌, ◌++◌, min, IfOk, IfErr, OnOk, option_map};
ghost use Rattle.core_syntax.specs.Refine.{index_of};
ghost use Rattle.core_syntax.specs.Word.{letters_size};
ghost use Rattle.core_syntax.specs.Norm.{norm_word, has_large as word_has_large};
ghost use Rattle.shape_words.specs.Refusal.{large_number, word_refusal};

use crate::Word;
use core_syntax::{Index, IndexForm, LARGEST_NUMBER, LARGEST_SIZE, Letter};
use index_dims::{DimRefusal, constant, linear, size};
use sqlite_items::Items;
use std::alloc::Global;

/// The first number above the limit in the word of an index of sort Shape; `u64::MAX` stands for
/// one that is larger.
fn first_large(i: &Index) -> Option<u64>
    ensures { result ≡ option_map (λ n. min n (2 ^ 64 - 1)) (large_number (norm_word (index_of i.now))) }
{
    match &i.form {
        IndexForm::Dims(parts) => {
            for part in parts.as_slice() {
                let number = constant(part);
                if number > LARGEST_NUMBER {
                    return Some(number);
                }
            }
            None
        }
        IndexForm::Join(parts) => {
            for part in parts.as_slice() {
                if let Some(number) = first_large(part) {
                    return Some(number);
                }
            }
            None
        }
        IndexForm::Num(_) | IndexForm::Var(_) | IndexForm::Sum(_) => None,
    }
}

/// Whether a constant in the word of an index of sort Shape is above the largest number. It takes
/// no memory.
pub fn has_large(i: &Index) -> bool
    ensures { result ≡ word_has_large (norm_word (index_of i.now)) }
{
    match first_large(i) {
        Some(_) => true,
        None => false,
    }
}

/// The size of the letters of an index of sort Shape, or `u64::MAX` where it is larger. The size
/// of its word is one more. It takes no memory.
pub fn total_size(i: &Index) -> u64
    ensures { result ≡ min (letters_size (norm_word (index_of i.now))) (2 ^ 64 - 1) }
{
    match &i.form {
        IndexForm::Var(_) => 1,
        IndexForm::Dims(parts) => {
            let mut total: u64 = 0;
            for part in parts.as_slice() {
                total = total.saturating_add(size(part));
            }
            total
        }
        IndexForm::Join(parts) => {
            let mut total: u64 = 0;
            for part in parts.as_slice() {
                total = total.saturating_add(total_size(part));
            }
            total
        }
        IndexForm::Num(_) | IndexForm::Sum(_) => 0,
    }
}

/// Puts the letters of an index of sort Shape to the end of `letters`. Any refusal but want of
/// memory comes only where the word is due one.
fn push_letters(alloc: Global, i: &Index, letters: &mut Vec<Letter>) -> Result<(), DimRefusal>
    ensures ok { OnOk result (letters.new.items ≡ letters.old.items ++ norm_word (index_of i.now)) }
    ensures err { IfErr result (λ e. (e ≡ DimRefusal.Memory) ⊎ (word_refusal (norm_word (index_of i.now)) ≢ None)) }
{
    match &i.form {
        IndexForm::Var(k) => letters
            .push(Letter::Var(*k))
            .map_err(|_| DimRefusal::Memory),
        IndexForm::Dims(parts) => {
            for part in parts.as_slice() {
                let dim = linear(alloc, part)?;
                letters
                    .push(Letter::Dim(dim))
                    .map_err(|_| DimRefusal::Memory)?;
            }
            Ok(())
        }
        IndexForm::Join(parts) => {
            for part in parts.as_slice() {
                push_letters(alloc, part, letters)?;
            }
            Ok(())
        }
        IndexForm::Num(_) | IndexForm::Sum(_) => Ok(()),
    }
}

/// The normal form of an index of sort Shape (docs/LANGUAGE.md, "Normal forms of indices"). An
/// index of the other sort is read as the empty word.
///
/// # Errors
///
/// `TooLarge` exactly where a constant of its letters is above the largest number, with the first
/// such constant, or `u64::MAX` where it is larger. `TooWide` exactly where none is, and the size
/// is above the largest size. `Memory` where there was no memory.
pub fn word(alloc: Global, i: &Index) -> Result<Word, DimRefusal>
    ensures ok { IfOk result (λ w. w ≡ norm_word (index_of i.now)) }
    ensures fits { OnOk result (word_refusal (norm_word (index_of i.now)) ≡ None) }
    ensures refused { IfErr result (λ e. (e ≡ DimRefusal.Memory) ⊎ (word_refusal (norm_word (index_of i.now)) ≡ Some e)) }
{
    if let Some(value) = first_large(i) {
        return Err(DimRefusal::TooLarge { value });
    }
    if total_size(i) >= LARGEST_SIZE {
        return Err(DimRefusal::TooWide);
    }
    let mut letters = Vec::new(alloc);
    push_letters(alloc, i, &mut letters)?;
    Ok(Word {
        letters: Items::from_vec(letters),
    })
}

ghost use Rattle.std.specs.Prelude.{◌≡◌, ◌↔◌, List, length, IsTrue, MatchOption};
ghost use Rattle.core_syntax.specs.Syntax.{Index};
ghost use Rattle.core_syntax.specs.Sorts.{IsSorted};
ghost use Rattle.core_syntax.specs.Word.{Begins};
ghost use Rattle.core_syntax.specs.Value.{Valuation, IndexEqual, IsPrefix, then_shape};
ghost use Rattle.core_syntax.specs.NormValue.{word_value_under};
ghost use Rattle.core_syntax.specs.Norm.{norm_word};
ghost use Rattle.shape_words.specs.Split.{Splits};

use crate::Word;
use core_syntax::{Letter, Sort};

/// Whether two letters are the same.
fn is_same_letter(a: &Letter, b: &Letter) -> bool
    ensures { IsTrue result ↔ (a.now ≡ b.now) }
{
    match (a, b) {
        (Letter::Dim(d), Letter::Dim(e)) => index_dims::same(d, e),
        (Letter::Var(j), Letter::Var(k)) => j == k,
        _ => false,
    }
}

/// Whether two runs of letters are the same.
fn are_same_letters(a: &[Letter], b: &[Letter]) -> bool
    ensures { IsTrue result ↔ (a.now ≡ b.now) }
{
    if a.len() != b.len() {
        return false;
    }
    for (i, letter) in a.iter().enumerate() {
        if !is_same_letter(letter, &b[i]) {
            return false;
        }
    }
    true
}

/// Whether the second run of letters begins with the first.
fn begins(a: &[Letter], b: &[Letter]) -> bool
    ensures { IsTrue result ↔ Begins a.now b.now }
{
    a.len() <= b.len() && are_same_letters(a, &b[..a.len()])
}

/// How many letters stand in front of the cell, where the cell ends the letters.
fn frame_length(whole: &[Letter], cell: &[Letter]) -> Option<usize>
    ensures { Splits result whole.now cell.now }
{
    if cell.len() > whole.len() {
        return None;
    }
    let frame = whole.len() - cell.len();
    if are_same_letters(&whole[frame..], cell) {
        Some(frame)
    } else {
        None
    }
}

/// Whether two words have the same value under every valuation. Of well-sorted indices of one
/// context that come to them, it is whether these are equal (docs/LANGUAGE.md, "Indices"). It
/// takes no memory.
pub fn same(a: &Word, b: &Word) -> bool
    ensures values { IsTrue result ↔ ((v : Valuation) → word_value_under v a.now ≡ word_value_under v b.now) }
    ensures indices { (sorts : List Sort) (i j : Index) → IsSorted sorts Sort.Shape i → IsSorted sorts Sort.Shape j →
        norm_word i ≡ a.now → norm_word j ≡ b.now → (IsTrue result ↔ IndexEqual sorts Sort.Shape i j) }
    ensures words { IsTrue result ↔ (a.now ≡ b.now) }
{
    are_same_letters(a.letters.as_slice(), b.letters.as_slice())
}

/// Whether the second word begins with the first. Of well-sorted indices of one context that come
/// to them, it is whether the first is a prefix of the second: some index behind the first gives
/// the second (docs/LANGUAGE.md, "Indices"). It takes no memory.
pub fn is_prefix(a: &Word, b: &Word) -> bool
    ensures words { IsTrue result ↔ Begins a.now b.now }
    ensures indices { (sorts : List Sort) (i j : Index) → IsSorted sorts Sort.Shape i → IsSorted sorts Sort.Shape j →
        norm_word i ≡ a.now → norm_word j ≡ b.now → (IsTrue result ↔ IsPrefix sorts i j) }
{
    begins(a.letters.as_slice(), b.letters.as_slice())
}

/// The length of the frame: how many letters of the whole stand in front of the cell, where the
/// cell ends the whole. `None` exactly where no index in front of the cell gives the whole
/// (docs/LANGUAGE.md, "Frames and cells"). It takes no memory.
pub fn cell_split(whole: &Word, cell: &Word) -> Option<usize>
    ensures words { Splits result whole.now cell.now }
    ensures indices { (sorts : List Sort) (i j : Index) → IsSorted sorts Sort.Shape i → IsSorted sorts Sort.Shape j →
        norm_word i ≡ cell.now → norm_word j ≡ whole.now →
        MatchOption result ((f : Index) → ¬ IndexEqual sorts Sort.Shape (then_shape f i) j)
        (λ n. (f : Index) × IndexEqual sorts Sort.Shape (then_shape f i) j × (length (norm_word f) ≡ n)) }
{
    frame_length(whole.letters.as_slice(), cell.letters.as_slice())
}

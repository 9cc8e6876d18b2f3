//! What the types and indices that are put add, each looked at once.
ghost use Rattle.std.specs.Prelude.{◌≡◌, ◌-◌, ◌^◌, ◌∷◌, [], min, IfOk};
ghost use Rattle.core_syntax.specs.Lists.{each, Each};
ghost use Rattle.core_syntax.specs.Linear.{coefs_total};
ghost use Rattle.core_syntax.specs.Word.{letter_size, letters_size};
ghost use Rattle.core_syntax.specs.Norm.{dim_tree, word_tree, norm_word, has_large};
ghost use Rattle.core_syntax.specs.NormTypes.{ty_size, ty_has_large};
ghost use Rattle.core_syntax.specs.Refine.{ty_of};
ghost use Rattle.type_equal.specs.Counted.{count_of, clipped, lone_letter, lone_sum, IsNoneLarge};
ghost use Rattle.type_equal.specs.Put.{index_tree};

use crate::counting::Count;
use crate::measuring::size;
use crate::norm_type::NormType;
use core_syntax::{Coef, LARGEST_NUMBER, Letter, Memory, NormDim, NormIndex, NormShape};
use std::alloc::Global;

// How often variables are added.
fn times(coefs: &[Coef]) -> u64
    ensures { result ≡ min (coefs_total coefs.now) (2 ^ 64 - 1) }
{
    let mut total: u64 = 0;
    for coef in coefs {
        total = total.saturating_add(coef.times);
    }
    total
}

fn size_of_letter(letter: &Letter) -> u64
    ensures { result ≡ min (letter_size letter.now) (2 ^ 64 - 1) }
{
    match letter {
        Letter::Dim(d) => times(d.coefs.as_slice()).saturating_add(1),
        Letter::Var(_) => 1,
    }
}

fn size_of_letters(letters: &[Letter]) -> u64
    ensures { result ≡ min (letters_size letters.now) (2 ^ 64 - 1) }
{
    let mut total: u64 = 0;
    for letter in letters {
        total = total.saturating_add(size_of_letter(letter));
    }
    total
}

fn is_large_letter(letter: &Letter) -> bool
    ensures { result ≡ has_large (letter.now ∷ []) }
{
    match letter {
        Letter::Dim(d) => d.constant > LARGEST_NUMBER,
        Letter::Var(_) => false,
    }
}

fn any_large_letter(letters: &[Letter]) -> bool
    ensures { result ≡ has_large letters.now }
{
    for letter in letters {
        if is_large_letter(letter) {
            return true;
        }
    }
    false
}

// 1 where the only letter is a variable.
fn lone_variable(letters: &[Letter]) -> u64
    ensures { result ≡ lone_letter letters.now }
{
    if letters.len() != 1 {
        return 0;
    }
    match &letters[0] {
        Letter::Dim(_) => 0,
        Letter::Var(_) => 1,
    }
}

// 1 where a linear form with this constant and so many variables is a variable alone.
fn lone_dim(constant: u64, variables: u64) -> u64
    ensures { result ≡ lone_sum constant variables }
{
    if constant != 0 {
        return 0;
    }
    if variables != 1 {
        return 0;
    }
    1
}

// What a linear form adds. It is a variable's name where it is one variable alone.
fn count_dim(d: &NormDim) -> Count
    ensures { result ≡ clipped (count_of (dim_tree d.now)) }
{
    let variables = times(d.coefs.as_slice());
    Count {
        constant: d.constant,
        variables,
        letters: lone_dim(d.constant, variables),
        large: false,
    }
}

// What a word adds.
fn count_word(w: &NormShape) -> Count
    ensures { result ≡ clipped (count_of (word_tree w.now)) }
{
    let letters = w.letters.as_slice();
    Count {
        constant: 0,
        variables: lone_variable(letters),
        letters: size_of_letters(letters),
        large: any_large_letter(letters),
    }
}

fn count(i: &NormIndex) -> Count
    ensures { result ≡ clipped (count_of (index_tree i.now)) }
{
    match i {
        NormIndex::Dim(d) => count_dim(d),
        NormIndex::Shape(w) => count_word(w),
    }
}

/// What each of these adds.
pub(crate) fn counts(alloc: Global, indices: &[NormIndex]) -> Result<Vec<Count>, Memory>
    ensures { IfOk result (λ counts. counts.items ≡ each (λ i. clipped (count_of (index_tree i))) indices.now) }
{
    let mut counts = Vec::new(alloc);
    for index in indices {
        counts.push(count(index)).map_err(|_| Memory)?;
    }
    Ok(counts)
}

fn size_of_type(t: &NormType) -> u64
    ensures size { result ≡ ty_size (ty_of t.now) }
    ensures none { IsNoneLarge t.now }
{
    size(t.ty())
}

/// The size of each of these types, in which no constant is too large.
pub(crate) fn sizes(alloc: Global, types: &[NormType]) -> Result<Vec<u64>, Memory>
    ensures sizes { IfOk result (λ sizes. sizes.items ≡ each (λ t. ty_size (ty_of t)) types.now) }
    ensures none { IfOk result (λ _. Each IsNoneLarge types.now) }
{
    let mut sizes = Vec::new(alloc);
    for ty in types {
        sizes.push(size_of_type(ty)).map_err(|_| Memory)?;
    }
    Ok(sizes)
}

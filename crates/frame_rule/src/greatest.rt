ghost use Rattle.std.specs.Prelude.{◌≡◌, ◌↔◌, List, All, map, length, IsTrue};
ghost use Rattle.core_syntax.specs.Syntax.{Index};
ghost use Rattle.core_syntax.specs.Sorts.{IsSorted};
ghost use Rattle.core_syntax.specs.Word.{Begins};
ghost use Rattle.core_syntax.specs.Value.{IsPrefix};
ghost use Rattle.core_syntax.specs.Norm.{norm_word};
ghost use Rattle.frame_rule.specs.Principal.{HasAll, IsPrincipal};
ghost use Rattle.frame_rule.specs.Longest.{IsLongest};

use core_syntax::Sort;
use shape_words::{Word, is_prefix};

/// How many letters a frame has.
fn letter_count(frame: &Word) -> usize
    ensures { result ≡ length frame.now }
{
    frame.letters.len()
}

/// The place of the first of the longest frames.
fn longest(frames: &[Word]) -> Option<usize>
    ensures { IsLongest frames.now result }
{
    if frames.is_empty() {
        return None;
    }
    let mut longest = 0;
    for (place, frame) in frames.iter().enumerate() {
        if letter_count(frame) > letter_count(&frames[longest]) {
            longest = place;
        }
    }
    Some(longest)
}

/// Whether a frame has each of these as a prefix.
fn has_all(frames: &[Word], frame: &Word) -> bool
    ensures { IsTrue result ↔ HasAll Begins frames.now frame.now }
{
    for other in frames {
        if !is_prefix(other, frame) {
            return false;
        }
    }
    true
}

/// The place of the first frame that begins with all others: only the longest can.
fn first_greatest(frames: &[Word]) -> Option<usize>
    ensures { IsPrincipal Begins frames.now result }
{
    let place = longest(frames)?;
    if has_all(frames, &frames[place]) {
        Some(place)
    } else {
        None
    }
}

/// The place of the principal frame: of the first frame that has all the others as prefixes.
/// `None` exactly where there is none (docs/LANGUAGE.md, "Frames and cells"). It takes no memory.
pub fn principal(frames: &[Word]) -> Option<usize>
    ensures words { IsPrincipal Begins frames.now result }
    ensures indices { (sorts : List Sort) (all : List Index) → All (IsSorted sorts Sort.Shape) all →
        map norm_word all ≡ frames.now → IsPrincipal (IsPrefix sorts) all result }
{
    first_greatest(frames)
}

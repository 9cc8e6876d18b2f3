// When a code has ended, and the arithmetic of frames, for whoever rests on the machine.
ghost use Rattle.machine.specs.Laws.{GoesOnUntilEnd, CellAtPlace, GreatestIsGreatest};

/// A code on some arrays hasn't ended within n steps exactly where none of them is its end. So `Machine::run` answers `Going`
/// exactly where no step up to the limit is the end; and there is one end at most, at one step and with one outcome
/// (`code_ends_once` of crate `compiled_laws`).
pub fn goes_on_until_end()
    ensures { GoesOnUntilEnd }
{}

/// The cell of an argument at a place of the principal frame (docs/LANGUAGE.md, "Frames"): where the argument has a frame from
/// which the principal one goes on, so many places of the principal frame share one of its cells, as the rest of that frame
/// has, and a division finds it.
pub fn cell_at_place()
    ensures { CellAtPlace }
{}

/// The principal frame of an application (docs/LANGUAGE.md, "Frames") is one of the frames, and has all of them as prefixes;
/// there is none exactly where no frame has.
pub fn greatest_is_greatest()
    ensures { GreatestIsGreatest }
{}

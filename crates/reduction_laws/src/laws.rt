// What runs of a checked program come to, for whoever rests on them.
ghost use Rattle.reduction_laws.specs.Laws.{StartsTyped, KeepsType, NeverStuck, ReachesData, HasOutcome, HasOneOutcome, EndsOnce, TrapsOnce};

/// Each term of a run has the type of the program's body, none is stuck, and the data of a value that is
/// reached fits that type, as an input fits its own, where the program's literals are those of a text.
pub fn keeps_type()
    ensures start { StartsTyped }
    ensures way { KeepsType }
    ensures steps { NeverStuck }
    ensures value { ReachesData }
{}

/// After each number of steps exactly one holds: a value has been reached, the run has trapped, or it goes on.
pub fn one_outcome()
    ensures some { HasOutcome }
    ensures one { HasOneOutcome }
    ensures once { EndsOnce }
    ensures trap { TrapsOnce }
{}

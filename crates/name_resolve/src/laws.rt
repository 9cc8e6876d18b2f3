// What the definitions come to, for whoever rests on them.
ghost use Rattle.name_resolve.specs.Laws.{MeansOneProgram, HasOneRefusal, MeansUnrefused, IsNumbered};

/// Forms mean one program at most, or are refused, then for one reason.
pub fn one_meaning()
    ensures meaning { MeansOneProgram }
    ensures refusal { HasOneRefusal }
    ensures either { MeansUnrefused }
{}

/// The refusals of names are those numbered 7 to 12.
pub fn refusal_numbers()
    ensures { IsNumbered }
{}

// What the premises come to, for whoever rests on them.
ghost use Rattle.type_check.specs.Laws.{AcceptedIsTyped, AcceptedIsUnrefused, HasOneRefusal, TypedIsRefusedForAMeasure};

/// A program whose premises are all met is typed, and it isn't refused.
pub fn accepted_is_typed()
    ensures typed { AcceptedIsTyped }
    ensures unrefused { AcceptedIsUnrefused }
{}

/// A program is refused with one number at one place, and a typed program for a measure alone (13,
/// 16).
pub fn refusals_of_programs()
    ensures one { HasOneRefusal }
    ensures measures { TypedIsRefusedForAMeasure }
{}

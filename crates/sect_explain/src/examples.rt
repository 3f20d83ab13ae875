// Worked examples: scripts from the empty desk, and how the reply to the last command is explained. The function does
// nothing: its contract is its examples, which the check computes by the definitions.

ghost use Rattle.sect_explain.specs.Examples.{BatchWithASubstitute, FullSection, NotBlocked, Overlapping, ParentsWithoutAPlace, DaysOfAReservation};

/// Replies that block, in words.
pub fn explained()
    ensures full_section { FullSection }
    ensures overlapping { Overlapping }
    ensures days_of_a_reservation { DaysOfAReservation }
    ensures parents_without_a_place { ParentsWithoutAPlace }
    ensures batch_with_a_substitute { BatchWithASubstitute }
    ensures not_blocked { NotBlocked }
{}

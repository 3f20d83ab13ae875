// What the calendars rest on. The functions do nothing: the contract of each is a law.

ghost use Rattle.sect_weeks.specs.Laws.{EnrolledIsTold, LeftIsTold, KeptIsTold, QuietKeepsWeeks, QuietKeepsCredits, QuietIsTold, BackIsTold};

/// One enrolment more takes the slots of its sections and counts its credits, and one that left no more, but for slots that
/// another still takes. A calendar more is an empty one.
pub fn weeks_follow_enrolments()
    ensures enrolled { EnrolledIsTold }
    ensures left { LeftIsTold }
    ensures kept { KeptIsTold }
{}

/// No change but of enrolments touches a student's week or credits.
pub fn other_changes_leave_weeks()
    ensures weeks { QuietKeepsWeeks }
    ensures credits { QuietKeepsCredits }
    ensures told { QuietIsTold }
    ensures back { BackIsTold }
{}

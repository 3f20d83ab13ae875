// Worked examples: scripts from the empty desk, and what a clerk is shown after them. The function does nothing: its
// contract is its examples, which the check computes by the definitions.

ghost use Rattle.sect_shown.specs.Examples.{NoCourse, UnknownStudent, Wanted, Week};

/// What is wanted of courses, and the week of a student.
pub fn shown()
    ensures wanted { Wanted }
    ensures no_course { NoCourse }
    ensures week { Week }
    ensures unknown_student { UnknownStudent }
{}

// Laws of a list of enrolments in order of student. The functions do nothing; their contracts are the laws.

ghost use Rattle.std.specs.Prelude.{◌≡◌, ◌≤◌, ◌+◌, ℕ, List, not, length, filter, find, Some, IsTrue};
ghost use Rattle.std.specs.List.{position_or_len};
ghost use Rattle.sect_base.specs.declared.ids.StudentId.{StudentId as Student};
ghost use Rattle.sect_base.specs.declared.ids.CourseId.{CourseId as Course};
ghost use Rattle.sect_people.specs.Index.{rank};
ghost use Rattle.sect_model.specs.World.{is_in};
ghost use Rattle.sect_model.specs.Kept.{is_ordered};
ghost use Rattle.sect_model.specs.declared.held.Enrolment.{Enrolment as Held};
ghost use Rattle.sect_roster.specs.Rostered.{of_student, number_held, put_among};

/// A student's one enrolment in a course, taken out, comes back where it stood among those of the student.
pub fn what_was_taken_out_comes_back()
    ensures { (student : Student) (course : Course) (es : List Held) (e : Held) → IsTrue (is_ordered es)
        → length (filter (is_in student course) es) ≡ 1 → Some e ≡ find (is_in student course) es
        → put_among (position_or_len (is_in student course) (of_student student.0 es)) e (filter (λ x. not (is_in student course x)) es) ≡ es }
{}

/// A student's enrolments stand behind those of lower students, within the list.
pub fn own_enrolments_stand_within_the_list()
    ensures { (n : ℕ) (es : List Held) → rank (λ e. e.student.0) n es + number_held n es ≤ length es }
{}

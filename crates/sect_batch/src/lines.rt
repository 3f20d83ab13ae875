// The lines of a batch so far, and what later lines count of them.

ghost use Rattle.std.specs.Prelude.{◌≡◌, ◌&&◌, ◌==◌, ◌++◌, [], ◌∷◌, nat_le, filter, count_by, IfOk, OnOk};
ghost use Rattle.sect_model.specs.Batch.{is_unmet as is_line_unmet, is_met as is_line_met};
ghost use Rattle.sect_batch.specs.Lines.{choice_by, is_counted, line_by, mark_by, unmet_of, met_of};

use sect_base::{Choice, Items, Memory, StudentId};
use sect_command::{Line, LineResult};
use std::alloc::Global;

/// What became of a request, and what kind of request it is.
#[derive(Drop)]
pub struct Answer {
    pub result: LineResult,
    pub wait: bool,
    pub substitute: bool,
}

/// What later lines of the student count of a line.
#[derive(Clone, Copy, PartialEq, Eq)]
pub struct Mark {
    pub student: StudentId,
    /// It is blocked or spent, and its request is neither a substitute nor wait-listed.
    pub unmet: bool,
    /// It is met or held, and its request is a substitute.
    pub met: bool,
}

/// The lines of a batch so far, with the marks of those that count.
#[derive(Drop)]
pub struct Lines {
    pub lines: Vec<Line>,
    pub marks: Vec<Mark>,
}

impl Lines {
    /// No lines, with room for `n`. It takes memory.
    pub fn with_room(alloc: Global, n: usize) -> Result<Lines, Memory>
        ensures lines { IfOk result (λ made. made.lines.items ≡ []) }
        ensures marks { IfOk result (λ made. made.marks.items ≡ []) }
    {
        Ok(Lines {
            lines: Vec::with_capacity(alloc, n)?,
            marks: Vec::new(alloc),
        })
    }

    /// Puts a line behind the others.
    pub fn push(&mut self, student: StudentId, rank: u8, answer: Answer) -> Result<(), Memory>
        ensures lines { OnOk result (self.new.lines.items ≡ self.old.lines.items ++ line_by student rank answer ∷ []) }
        ensures marks { OnOk result (self.new.marks.items ≡ self.old.marks.items ++ filter is_counted (mark_by student answer ∷ [])) }
    {
        self.keep(marked(student, &answer))?;
        let Answer {
            result,
            wait: _,
            substitute: _,
        } = answer;
        self.lines.push(Line {
            student,
            rank,
            result,
        })?;
        Ok(())
    }

    /// Keeps a mark where later lines count it.
    fn keep(&mut self, mark: Mark) -> Result<(), Memory>
        ensures lines { self.new.lines.items ≡ self.old.lines.items }
        ensures marks { OnOk result (self.new.marks.items ≡ self.old.marks.items ++ filter is_counted (mark ∷ [])) }
    {
        if mark.unmet || mark.met {
            self.marks.push(mark)?;
        }
        Ok(())
    }

    /// Whether no more of the student's requests are unmet than substitutes met. It takes no memory.
    pub fn has_enough(&self, student: StudentId) -> bool
        ensures { result ≡ nat_le (unmet_of student self.now.marks.items) (met_of student self.now.marks.items) }
    {
        let unmet = unmet(self.marks.as_slice(), student);
        unmet == 0 || unmet <= met(self.marks.as_slice(), student)
    }

    /// The lines. It takes no memory.
    pub fn into_items(self) -> Items<Line>
        ensures { result ≡ self.lines.items }
    {
        let Lines { lines, marks: _ } = self;
        Items::from_vec(lines)
    }
}

/// How many of the student's marks are unmet.
fn unmet(marks: &[Mark], student: StudentId) -> usize
    ensures { result ≡ unmet_of student marks.now }
{
    marks
        .iter()
        .filter(|mark| mark.student == student && mark.unmet)
        .count()
}

/// How many of the student's marks are met.
fn met(marks: &[Mark], student: StudentId) -> usize
    ensures { result ≡ met_of student marks.now }
{
    marks
        .iter()
        .filter(|mark| mark.student == student && mark.met)
        .count()
}

/// The mark of the student's line with this answer.
fn marked(student: StudentId, answer: &Answer) -> Mark
    ensures { result ≡ mark_by student answer.now }
{
    Mark {
        student,
        unmet: is_unmet(&answer.result) && !(answer.substitute || answer.wait),
        met: is_met(&answer.result) && answer.substitute,
    }
}

/// Whether the line is blocked or spent. It takes no memory.
pub fn is_unmet(line: &LineResult) -> bool
    ensures { result ≡ is_line_unmet line.now }
{
    match line {
        LineResult::Blocked(_, _) => true,
        LineResult::Spent => true,
        LineResult::Met(_) => false,
        LineResult::Held(_) => false,
        LineResult::Waiting(_) => false,
        LineResult::Skipped => false,
    }
}

/// Whether the line is met or held.
fn is_met(line: &LineResult) -> bool
    ensures { result ≡ is_line_met line.now }
{
    match line {
        LineResult::Met(_) => true,
        LineResult::Held(_) => true,
        LineResult::Blocked(_, _) => false,
        LineResult::Spent => false,
        LineResult::Waiting(_) => false,
        LineResult::Skipped => false,
    }
}

/// The choice of a line that is met, by which its student is to be enrolled. None of another line. It takes no memory.
pub fn choice_of(line: &LineResult) -> Option<Choice>
    ensures { result ≡ choice_by line.now }
{
    match line {
        LineResult::Met(choice) => Some(*choice),
        LineResult::Held(_) => None,
        LineResult::Blocked(_, _) => None,
        LineResult::Spent => None,
        LineResult::Waiting(_) => None,
        LineResult::Skipped => None,
    }
}

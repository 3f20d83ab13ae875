// The queue: entries join behind the others, leave by their tickets, and changes are taken back.

ghost use Rattle.std.specs.Prelude.{
  ◌≡◌,
  ◌<◌,
  ◌≤◌,
  ◌+◌,
  ◌^◌,
  ◌==◌,
  ◌&&◌,
  ◌++◌,
  [],
  ◌∷◌,
  length,
  take,
  drop,
  insert,
  find,
  position,
  map,
  filter,
  cond,
  false,
  option_copied,
  Some,
  IfOk,
  OnOk,
  OnErr,
  IsTrue,
};
ghost use Rattle.std.specs.Vec.{vec_len, vec_capacity};
ghost use Rattle.std.specs.List.{list_any};
ghost use Rattle.std.specs.Option.{is_some, option_map_or};
ghost use Rattle.sect_people.specs.Index.{rank as rank_of};
ghost use Rattle.sect_model.specs.Kept.{is_ordered_by};
ghost use Rattle.sect_model.specs.Rules.{least};
ghost use Rattle.sect_refuse.specs.Tickets.{is_shared, lesser as lesser_of, with_entry};
ghost use Rattle.sect_wait.specs.Queued.{empty_queue, joined, left, IsQueue};
ghost use Rattle.sect_wait.specs.Indexed.{AreTold};
ghost use Rattle.sect_wait.specs.Undo.{left_back, taken_back, undone, Ready, Since, Undoable};
ghost use Rattle.sect_wait.specs.declared.back.QueueBack.TheVariants.{Joined};

use crate::back::QueueBack;
use crate::index::Index;
use crate::undo::QueueUndo;
use sect_base::{CourseId, Memory, StudentId, Want};
use sect_model::Waiting;
use sect_refuse::ticket_of;
use std::alloc::Global;
use std::marker::Model;
use std::slice::from_ref;

/// Who waits, in order of ticket, and the next ticket, at first 1. Contracts see both, with the room of the list. An index
/// tells the tickets of a student and of those who want a course, and it is kept how many give a course up.
pub struct Queue {
    entries: Vec<Waiting>,
    next: u64,
    index: Index,
    givers: usize,
}

/// It is written out, so that a caller does not prove again how each part is dropped.
impl Drop for Queue {
    fn drop(self) {
        let Queue {
            entries: _,
            next: _,
            index: _,
            givers: _,
        } = self;
    }
}

impl Model for Queue {
    ghost use Rattle.std.specs.Vec.{vec_capacity};
    ghost use Rattle.sect_wait.specs.Queued.{Queued, RoomedQueue};
    ghost use Rattle.sect_wait.specs.Indexed.{IsIndexed};

    ghost Value = { RoomedQueue };

    ghost view = { λ q. record { queue = record { entries = q.entries.items; next = q.next }; room = vec_capacity q.entries } };

    ghost invariant = { λ q. IsIndexed (record { entries = q.entries.items; next = q.next }) q.index q.givers };
}

impl Queue {
    /// Nobody waits, and the next ticket is 1. It takes no memory.
    pub fn empty(alloc: Global) -> Queue
        ensures { result.queue ≡ empty_queue }
    {
        Queue {
            entries: Vec::new(alloc),
            next: 1,
            index: Index::empty(alloc),
            givers: 0,
        }
    }

    /// Does nothing: the contract tells what holds of every queue.
    pub fn recall_kept(&self)
        ensures kept { IsQueue self.now.queue }
        ensures bound { length self.now.queue.entries ≤ self.now.room }
    {
        let _ = self.entries.as_slice();
    }

    /// The entries in order of ticket. It takes no memory.
    pub fn entries(&self) -> &[Waiting]
        ensures { result.now ≡ self.now.queue.entries }
    {
        self.entries.as_slice()
    }

    /// Puts an entry with the next ticket behind the others, and gives the ticket. Where memory runs out, and where the
    /// next ticket is 2^64 - 1, the queue is as before.
    pub fn join(
        &mut self,
        student: StudentId,
        want: Want,
        give: Option<CourseId>,
        class: u8,
        undo: &mut QueueUndo,
    ) -> Result<u64, Memory>
        ensures ticket { IfOk result (λ ticket. ticket ≡ self.old.queue.next) }
        ensures ok { OnOk result (self.new.queue ≡ joined self.old.queue student want give class) }
        ensures err { OnErr result (self.new.queue ≡ self.old.queue) }
        ensures recorded { OnOk result (undo.new ≡ undo.old ++ Joined ∷ []) }
        ensures not_recorded { OnErr result (undo.new ≡ undo.old) }
        ensures since { Since self.old.queue undo.old self.new.queue undo.new }
        ensures undoable { Undoable self.old undo.old → Undoable self.new undo.new }
    {
        if self.next == u64::MAX {
            return Err(Memory);
        }
        undo.backs.reserve(1)?;
        let ticket = self.next;
        let entry = Waiting {
            ticket,
            student,
            want,
            give,
            class,
        };
        let gives = entry.give.is_some();
        self.index.note(&entry)?;
        self.entries.push(entry)?;
        self.next += 1;
        self.givers = with_giver(self.givers, gives);
        undo.backs.push(QueueBack::Joined)?;
        Ok(ticket)
    }

    /// Takes the entry of a ticket out. False exactly where no entry has it. Where memory runs out, the queue is as before.
    pub fn leave(&mut self, ticket: u64, undo: &mut QueueUndo) -> Result<bool, Memory>
        ensures found { IfOk result (λ found. found ≡ list_any (λ e. e.ticket == ticket) self.old.queue.entries) }
        ensures ok { OnOk result (self.new.queue ≡ left self.old.queue ticket) }
        ensures err { OnErr result (self.new.queue ≡ self.old.queue) }
        ensures recorded { OnOk result (undo.new ≡ undo.old ++ left_back self.old.queue ticket) }
        ensures not_recorded { OnErr result (undo.new ≡ undo.old) }
        ensures since { Since self.old.queue undo.old self.new.queue undo.new }
        ensures undoable { Undoable self.old undo.old → Undoable self.new undo.new }
    {
        self.recall_kept();
        match self.place(ticket) {
            Some(place) => {
                self.take(place, ticket, undo)?;
                Ok(true)
            }
            None => Ok(false),
        }
    }

    /// Takes the entry of a ticket out, which stands at the place.
    fn take(&mut self, place: usize, ticket: u64, undo: &mut QueueUndo) -> Result<(), Memory>
        requires { position (λ e. e.ticket == ticket) self.old.queue.entries ≡ Some place }
        ensures ok { OnOk result (self.new.queue ≡ left self.old.queue ticket) }
        ensures err { OnErr result (self.new.queue ≡ self.old.queue) }
        ensures recorded { OnOk result (undo.new ≡ undo.old ++ left_back self.old.queue ticket) }
        ensures not_recorded { OnErr result (undo.new ≡ undo.old) }
        ensures room { self.new.room ≡ self.old.room }
    {
        undo.backs.reserve(1)?;
        let entry = self.entries.remove(place);
        self.index.strike(&entry);
        self.givers = without_giver(self.givers, entry.give.is_some());
        undo.backs.push(QueueBack::Left(place, entry))?;
        Ok(())
    }

    /// Where the entry of a ticket stands, None exactly where no entry has it.
    fn place(&self, ticket: u64) -> Option<usize>
        ensures { result ≡ position (λ e. e.ticket == ticket) self.now.queue.entries }
    {
        let place = rank(self.entries.as_slice(), ticket);
        let entry = self.entries.get(place)?;
        if entry.ticket == ticket {
            Some(place)
        } else {
            None
        }
    }

    /// The entry of a ticket, None exactly where no entry has it. It takes no memory.
    pub(crate) fn entry(&self, ticket: u64) -> Option<&Waiting>
        ensures { option_copied result ≡ find (λ e. e.ticket == ticket) self.now.queue.entries }
    {
        let place = self.place(ticket)?;
        self.entries.get(place)
    }

    /// The tickets of a student's entries, and maybe others. None where they aren't known. It takes no memory.
    #[inline(always)]
    pub(crate) fn of_student(&self, student: StudentId) -> Option<&[u64]>
        ensures { AreTold (λ e. student.0 == e.student.0) self.now.queue.entries (option_copied result) }
    {
        self.index.of_student(student)
    }

    /// Whether one of the student's entries has the ticket. It takes no memory.
    pub fn is_waiting(&self, student: StudentId, ticket: u64) -> bool
        ensures { result ≡ list_any (λ e. e.student.0 == student.0 && e.ticket == ticket) self.now.queue.entries }
    {
        self.recall_kept();
        match self.entry(ticket) {
            Some(entry) => entry.student == student,
            None => false,
        }
    }

    /// The least ticket of the student's entries that share a course, None where there are none. Only the student's own
    /// tickets are looked at, or all entries where these aren't known. It takes no memory.
    pub fn waiting_ticket(&self, student: StudentId, courses: &[CourseId]) -> Option<u64>
        ensures { result ≡ least (map (λ e. e.ticket) (filter (is_shared student courses.now) self.now.queue.entries)) }
    {
        match self.of_student(student) {
            Some(tickets) => self.least_shared(tickets, student, courses),
            None => ticket_of(self.entries(), student, courses),
        }
    }

    /// The least of these tickets whose entries are the student's and share a course. It takes no memory.
    fn least_shared(&self, tickets: &[u64], student: StudentId, courses: &[CourseId]) -> Option<u64>
        requires { AreTold (λ e. student.0 == e.student.0) self.now.queue.entries (Some tickets.now) }
        ensures { result ≡ least (map (λ e. e.ticket) (filter (is_shared student courses.now) self.now.queue.entries)) }
    {
        self.recall_kept();
        let mut best = None;
        for ticket in tickets {
            best = self.with_ticket(student, courses, best, *ticket);
        }
        best
    }

    /// The least ticket so far with one more, which counts where its entry is the student's and shares a course.
    fn with_ticket(
        &self,
        student: StudentId,
        courses: &[CourseId],
        best: Option<u64>,
        ticket: u64,
    ) -> Option<u64>
        ensures { result ≡ option_map_or (with_entry student courses.now best) (find (λ e. e.ticket == ticket) self.now.queue.entries) best }
    {
        match self.entry(ticket) {
            Some(entry) => lesser(best, ticket_of(from_ref(entry), student, courses)),
            None => best,
        }
    }

    /// The tickets of the entries that want a course, and maybe others. None where they aren't known. It takes no memory.
    pub(crate) fn of_course(&self, course: CourseId) -> Option<&[u64]>
        ensures { AreTold (λ e. list_any (λ c. course.0 == c.0) e.want.courses) self.now.queue.entries (option_copied result) }
    {
        self.index.of_course(course)
    }

    /// Whether one of the entries gives a course up. It takes no memory.
    pub(crate) fn gives_some(&self) -> bool
        ensures { result ≡ list_any (λ e. is_some e.give) self.now.queue.entries }
    {
        self.givers > 0
    }

    /// Takes all recorded changes back. It takes no memory.
    pub fn undo(&mut self, undo: QueueUndo)
        requires { Undoable self.old undo }
        ensures { self.new.queue ≡ undone self.old.queue undo }
    {
        let mut undo = undo;
        self.undo_to(&mut undo, 0);
    }

    /// Takes the recorded changes back but for the first `len`. It takes no memory.
    pub fn undo_to(&mut self, undo: &mut QueueUndo, len: usize)
        requires { Undoable self.old undo.old }
        ensures queue { self.new.queue ≡ undone self.old.queue (drop len undo.old) }
        ensures recorded { undo.new ≡ take len undo.old }
        ensures undoable { Undoable self.new undo.new }
    {
        while undo.len() > len {
            self.take_back(undo.pop());
        }
    }

    /// Takes a change back.
    fn take_back(&mut self, back: QueueBack)
        requires { Ready self.old.room self.old.queue back }
        ensures queue { self.new.queue ≡ taken_back self.old.queue back }
        ensures room { self.new.room ≡ self.old.room }
    {
        match back {
            QueueBack::Joined => {
                self.next -= 1;
                let gives = does_give(self.entries.pop());
                self.givers = without_giver(self.givers, gives);
            }
            QueueBack::Left(place, entry) => {
                let gives = entry.give.is_some();
                self.index.note_again(&entry);
                put_at(&mut self.entries, place, entry);
                self.givers = with_giver(self.givers, gives);
            }
        }
    }
}

/// One more, where an entry more gives a course up.
fn with_giver(givers: usize, gives: bool) -> usize
    requires { givers + cond gives 1 0 < 2 ^ 64 }
    ensures { result ≡ givers + cond gives 1 0 }
{
    if gives { givers + 1 } else { givers }
}

/// One less, where an entry that gives a course up is taken away.
fn without_giver(givers: usize, gives: bool) -> usize
    requires { cond gives 1 0 ≤ givers }
    ensures { result + cond gives 1 0 ≡ givers }
{
    if gives { givers - 1 } else { givers }
}

/// Whether there is an entry, and it gives a course up.
fn does_give(entry: Option<Waiting>) -> bool
    ensures { result ≡ option_map_or (λ e. is_some e.give) entry false }
{
    match entry {
        Some(entry) => entry.give.is_some(),
        None => false,
    }
}

/// The lesser of the tickets, or the one that there is.
fn lesser(best: Option<u64>, other: Option<u64>) -> Option<u64>
    ensures { result ≡ lesser_of best other }
{
    match best {
        Some(least) => match other {
            Some(ticket) => Some(if least <= ticket { least } else { ticket }),
            None => best,
        },
        None => other,
    }
}

/// How many entries have tickets below this one, which is where its entry stands.
fn rank(entries: &[Waiting], ticket: u64) -> usize
    requires { IsTrue (is_ordered_by (λ e. e.ticket) entries.now) }
    ensures { result ≡ rank_of (λ e. e.ticket) ticket entries.now }
{
    let mut low = 0;
    let mut high = entries.len();
    while low < high {
        let middle = low + (high - low) / 2;
        if entries[middle].ticket < ticket {
            low = middle + 1;
        } else {
            high = middle;
        }
    }
    low
}

/// Puts an entry at the place, where there is room. It takes no memory.
fn put_at(entries: &mut Vec<Waiting>, place: usize, entry: Waiting)
    requires room { vec_len entries.old < vec_capacity entries.old }
    requires within { place ≤ length entries.old.items }
    ensures items { entries.new.items ≡ insert entries.old.items place entry }
    ensures capacity { vec_capacity entries.new ≡ vec_capacity entries.old }
{
    if entries.insert(place, entry).is_err() {
        unreachable!();
    }
}

// The entry to be placed next: of the smallest class among those that can be placed, and in it the smallest ticket.

ghost use Rattle.std.specs.Prelude.{◌≡◌, ◌≤◌, ◌+◌, ◌++◌, [], ◌∷◌, false, cond, List, find, IfOk, OnOk, IsTrue, ◌==◌, Some as Told};
ghost use Rattle.std.specs.List.{list_all};
ghost use Rattle.std.specs.Option.{option_or};
ghost use Rattle.sect_model.specs.declared.held.Waiting.{Waiting as Entry};
ghost use Rattle.sect_model.specs.Kept.{entry_fits};
ghost use Rattle.sect_wait.specs.Opened.{AreListed, OthersBut, UnsoughtNeedNone, is_sought};
ghost use Rattle.sect_wait.specs.Placing.{IsBest, OthersAfter, OthersTried, TriesMore, candidate_of, is_before as comes_before, is_behind as is_best_before, marks_from, turn_of as turn_of_candidate};
ghost use Rattle.sect_wait.specs.Touched.{ListsSought, PutsOnly, SeeksOnly, count_sought, count_tried};

use crate::entry::{Left, placement};
use crate::marking::{mark_each, note_each};
use crate::marks::{Marks, Turn};
use crate::opened::Opened;
use crate::queue::Queue;
use crate::sought::{seeks, sought};
use sect_base::{Choice, CourseId, Memory, Steps, StudentId};
use sect_model::Waiting;
use sect_space::World;
use std::alloc::Global;
use std::collections::BTreeSet;
use std::sync::ledger::Ledger;

/// An entry that can be placed, and the choice that its search found.
#[derive(Clone, Copy, PartialEq, Eq)]
pub struct Candidate {
    pub ticket: u64,
    pub class: u8,
    pub student: StudentId,
    pub give: Option<CourseId>,
    pub choice: Choice,
}

/// The first of the entries, by class and then by ticket, that can be placed. None exactly where none can be. Only entries
/// are searched that are marked or want what opened; the marks of those that are blocked or spent are taken
/// off, and these are noted as spent.
pub fn next<L: Ledger>(
    alloc: Global,
    world: &World,
    queue: &Queue,
    marks: &mut Marks,
    opened: &Opened,
    steps: &mut Steps<L>,
) -> Result<Option<Candidate>, Memory>
    requires fit { IsTrue (list_all (entry_fits world.now.world) queue.now.queue.entries) }
    requires others { OthersBut world.now.world queue.now.queue.entries marks.old opened.now }
    ensures best { IfOk result (λ best. IsBest world.now.world queue.now.queue.entries best) }
    ensures others { IfOk result (λ best. OthersAfter world.now.world queue.now.queue.entries best marks.new opened.now) }
    ensures only { OnOk result (SeeksOnly (λ e. false) queue.now.queue.entries marks.old opened.now.courses.items marks.new opened.now.courses.items) }
    ensures steps { OnOk result (steps.new ≤ steps.old + count_sought marks.old opened.now queue.now.queue.entries) }
{
    queue.recall_kept();
    let mut left = Left::none(alloc);
    let best = first(alloc, world, queue, marks, opened, &mut left, steps)?;
    pass(alloc, &best, marks);
    note_each(left.spent.as_slice(), marks)?;
    mark_each(left.again.as_slice(), marks)?;
    Ok(best)
}

/// Those before the best need not be tried again, and where there is no best, none.
fn pass(alloc: Global, best: &Option<Candidate>, marks: &mut Marks)
    ensures { marks.new ≡ marks_from best.now marks.old }
{
    match best {
        Some(candidate) => marks.pass(turn_of(candidate)),
        None => marks.clear(alloc),
    }
}

/// The first of the entries that can be placed, and which of them must be tried again. It is found among the tickets that
/// are sought, or among the entries where those aren't few.
fn first<L: Ledger>(
    alloc: Global,
    world: &World,
    queue: &Queue,
    marks: &Marks,
    opened: &Opened,
    left: &mut Left,
    steps: &mut Steps<L>,
) -> Result<Option<Candidate>, Memory>
    requires fit { IsTrue (list_all (entry_fits world.now.world) queue.now.queue.entries) }
    requires others { UnsoughtNeedNone world.now.world queue.now.queue.entries marks.now opened.now }
    ensures best { IfOk result (λ best. IsBest world.now.world queue.now.queue.entries best) }
    ensures others { IfOk result (λ best. OthersTried world.now.world queue.now.queue.entries best marks.now.spent left.new) }
    ensures again { OnOk result (ListsSought marks.now opened.now queue.now.queue.entries left.old.again.items left.new.again.items) }
    ensures steps { OnOk result (steps.new ≤ steps.old + count_sought marks.now opened.now queue.now.queue.entries) }
{
    match sought(alloc, queue, marks, opened)? {
        Some(tickets) => best_of_sought(
            alloc,
            world,
            queue,
            tickets.as_slice(),
            marks,
            opened,
            left,
            steps,
        ),
        None => best_of(alloc, world, queue.entries(), marks, opened, left, steps),
    }
}

/// The first of the entries that can be placed, where these tickets are sought, and which must be tried again.
fn best_of_sought<L: Ledger>(
    alloc: Global,
    world: &World,
    queue: &Queue,
    tickets: &[u64],
    marks: &Marks,
    opened: &Opened,
    left: &mut Left,
    steps: &mut Steps<L>,
) -> Result<Option<Candidate>, Memory>
    requires fit { IsTrue (list_all (entry_fits world.now.world) queue.now.queue.entries) }
    requires others { UnsoughtNeedNone world.now.world queue.now.queue.entries marks.now opened.now }
    requires all { AreListed (is_sought marks.now opened.now) queue.now.queue.entries tickets.now }
    ensures best { IfOk result (λ best. IsBest world.now.world queue.now.queue.entries best) }
    ensures others { IfOk result (λ best. OthersTried world.now.world queue.now.queue.entries best marks.now.spent left.new) }
    ensures again { OnOk result (ListsSought marks.now opened.now queue.now.queue.entries left.old.again.items left.new.again.items) }
    ensures steps { OnOk result (steps.new ≤ steps.old + count_sought marks.now opened.now queue.now.queue.entries) }
{
    queue.recall_kept();
    let mut best = None;
    let mut tried = BTreeSet::new(alloc);
    for ticket in tickets {
        best = better_by(
            alloc, world, &best, queue, *ticket, &mut tried, marks, opened, left, steps,
        )?
        .or(best);
    }
    Ok(best)
}

/// The entry of a ticket with the choice that its search finds, where it comes before the best so far, and None where
/// that stays, no entry has the ticket, or it was tried already.
fn better_by<L: Ledger>(
    alloc: Global,
    world: &World,
    best: &Option<Candidate>,
    queue: &Queue,
    ticket: u64,
    tried: &mut BTreeSet<u64>,
    marks: &Marks,
    opened: &Opened,
    left: &mut Left,
    steps: &mut Steps<L>,
) -> Result<Option<Candidate>, Memory>
    requires fit { IsTrue (list_all (entry_fits world.now.world) queue.now.queue.entries) }
    requires others { UnsoughtNeedNone world.now.world queue.now.queue.entries marks.now opened.now }
    ensures tried { IfOk result (λ new. TriesMore world.now.world queue.now.queue.entries ticket tried.old marks.now.spent best.now left.old
        (option_or new best.now) left.new) }
    ensures puts { OnOk result (PutsOnly ticket tried.old tried.new) }
    ensures again { OnOk result (ListsSought marks.now opened.now queue.now.queue.entries left.old.again.items left.new.again.items) }
    ensures steps { OnOk result (steps.new + count_tried marks.now opened.now queue.now.queue.entries tried.old
        ≤ steps.old + count_tried marks.now opened.now queue.now.queue.entries tried.new) }
{
    queue.recall_kept();
    match queue.entry(ticket) {
        Some(entry) => {
            if is_behind(best, entry) {
                return Ok(None);
            }
            better_once(
                alloc, world, best, queue, entry, ticket, tried, marks, opened, left, steps,
            )
        }
        None => Ok(None),
    }
}

/// The entry of the ticket, which comes before the best so far, with the choice that its search finds, and None where the best
/// stays, or the entry was tried already.
fn better_once<L: Ledger>(
    alloc: Global,
    world: &World,
    best: &Option<Candidate>,
    queue: &Queue,
    entry: &Waiting,
    ticket: u64,
    tried: &mut BTreeSet<u64>,
    marks: &Marks,
    opened: &Opened,
    left: &mut Left,
    steps: &mut Steps<L>,
) -> Result<Option<Candidate>, Memory>
    requires found { Told entry.now ≡ find (λ e. e.ticket == ticket) queue.now.queue.entries }
    requires ahead { is_best_before best.now entry.now ≡ false }
    requires fits { IsTrue (entry_fits world.now.world entry.now) }
    requires others { UnsoughtNeedNone world.now.world (entry.now ∷ []) marks.now opened.now }
    ensures tried { IfOk result (λ new. TriesMore world.now.world queue.now.queue.entries ticket tried.old marks.now.spent best.now left.old
        (option_or new best.now) left.new) }
    ensures puts { OnOk result (PutsOnly ticket tried.old tried.new) }
    ensures again { OnOk result (ListsSought marks.now opened.now queue.now.queue.entries left.old.again.items left.new.again.items) }
    ensures steps { OnOk result (steps.new + count_tried marks.now opened.now queue.now.queue.entries tried.old
        ≤ steps.old + count_tried marks.now opened.now queue.now.queue.entries tried.new) }
{
    queue.recall_kept();
    if tried.contains(&ticket) {
        return Ok(None);
    }
    let new = better(alloc, world, best, entry, marks, opened, left, steps)?;
    tried.insert(ticket)?;
    Ok(new)
}

/// The first of the entries that can be placed, and which of them must be tried again.
fn best_of<L: Ledger>(
    alloc: Global,
    world: &World,
    entries: &[Waiting],
    marks: &Marks,
    opened: &Opened,
    left: &mut Left,
    steps: &mut Steps<L>,
) -> Result<Option<Candidate>, Memory>
    requires fit { IsTrue (list_all (entry_fits world.now.world) entries.now) }
    requires others { UnsoughtNeedNone world.now.world entries.now marks.now opened.now }
    ensures best { IfOk result (λ best. IsBest world.now.world entries.now best) }
    ensures others { IfOk result (λ best. OthersTried world.now.world entries.now best marks.now.spent left.new) }
    ensures again { OnOk result (ListsSought marks.now opened.now entries.now left.old.again.items left.new.again.items) }
    ensures steps { OnOk result (steps.new ≤ steps.old + count_sought marks.now opened.now entries.now) }
{
    let mut best = None;
    for entry in entries {
        if is_behind(&best, entry) {
            continue;
        }
        best = better(alloc, world, &best, entry, marks, opened, left, steps)?.or(best);
    }
    Ok(best)
}

/// The entry, which comes before the best so far, with the choice that its search finds, and None where the best stays. The
/// entry is searched only where it is sought. It must be tried again unless its search is blocked or spent.
fn better<L: Ledger>(
    alloc: Global,
    world: &World,
    best: &Option<Candidate>,
    entry: &Waiting,
    marks: &Marks,
    opened: &Opened,
    left: &mut Left,
    steps: &mut Steps<L>,
) -> Result<Option<Candidate>, Memory>
    requires ahead { is_best_before best.now entry.now ≡ false }
    requires fits { IsTrue (entry_fits world.now.world entry.now) }
    requires others { UnsoughtNeedNone world.now.world (entry.now ∷ []) marks.now opened.now }
    ensures best { IfOk result (λ new. (before : List Entry) → IsBest world.now.world before best.now
        → IsBest world.now.world (before ++ entry.now ∷ []) (option_or new best.now)) }
    ensures others { IfOk result (λ new. (before : List Entry) → OthersTried world.now.world before best.now marks.now.spent left.old
        → OthersTried world.now.world (before ++ entry.now ∷ []) (option_or new best.now) marks.now.spent left.new) }
    ensures again { OnOk result (ListsSought marks.now opened.now (entry.now ∷ []) left.old.again.items left.new.again.items) }
    ensures steps { steps.new ≤ steps.old + cond (is_sought marks.now opened.now entry.now) 1 0 }
{
    if !seeks(marks, opened, entry) {
        return Ok(None);
    }
    match placement(alloc, world, entry, left, steps)? {
        Some(choice) => Ok(Some(chosen(entry, choice))),
        None => Ok(None),
    }
}

/// Whether the best so far comes before the entry.
fn is_behind(best: &Option<Candidate>, entry: &Waiting) -> bool
    ensures { result ≡ is_best_before best.now entry.now }
{
    match best {
        Some(candidate) => is_before(candidate, entry),
        None => false,
    }
}

/// Whether the candidate comes before the entry.
fn is_before(candidate: &Candidate, entry: &Waiting) -> bool
    ensures { result ≡ comes_before candidate.now entry.now }
{
    candidate.class < entry.class
        || candidate.class == entry.class && candidate.ticket <= entry.ticket
}

/// The entry with the choice of its placement.
fn chosen(entry: &Waiting, choice: Choice) -> Candidate
    ensures { result ≡ candidate_of entry.now choice }
{
    Candidate {
        ticket: entry.ticket,
        class: entry.class,
        student: entry.student,
        give: entry.give,
        choice,
    }
}

/// When the candidate's entry is tried.
fn turn_of(candidate: &Candidate) -> Turn
    ensures { result ≡ turn_of_candidate candidate.now }
{
    Turn {
        class: candidate.class,
        ticket: candidate.ticket,
    }
}

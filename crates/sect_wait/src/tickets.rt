// Tickets by a number: those of a student, or those that want a course.

ghost use Rattle.std.specs.Prelude.{◌≡◌, ℕ, ◌==◌, ◌++◌, [], ◌∷◌, true, None, cond, filter, not, OnErr, OnOk};
ghost use Rattle.std.specs.List.{list_all};
ghost use Rattle.std.specs.Ordering.{nat_cmp};
ghost use Rattle.std.specs.BTreeMap.{get};
ghost use Rattle.sect_wait.specs.Indexed.{KeepsOtherTickets, KeepsTickets, has_ticket, tickets_by};

use sect_base::{CourseId, Memory};
use std::alloc::Global;
use std::collections::BTreeMap;

/// The tickets that stand by a number. It takes no memory.
pub(crate) fn tickets_of(index: &BTreeMap<u32, Vec<u64>>, number: u32) -> &[u64]
    ensures { result.now ≡ tickets_by index.now number }
{
    match index.get(&number) {
        Some(tickets) => tickets.as_slice(),
        None => &[],
    }
}

/// Puts a ticket behind those of a number. Where memory runs out, all stand as before.
fn put(
    alloc: Global,
    index: &mut BTreeMap<u32, Vec<u64>>,
    number: u32,
    ticket: u64,
) -> Result<(), Memory>
    ensures ok { OnOk result ((n : ℕ) → tickets_by index.new n ≡ cond (number == n) (tickets_by index.old n ++ ticket ∷ []) (tickets_by index.old n)) }
    ensures err { OnErr result ((n : ℕ) → tickets_by index.new n ≡ tickets_by index.old n) }
{
    match index.get_mut(&number) {
        Some(tickets) => {
            tickets.push(ticket)?;
            Ok(())
        }
        None => put_first(alloc, index, number, ticket),
    }
}

/// Gives a new number its first ticket.
fn put_first(
    alloc: Global,
    index: &mut BTreeMap<u32, Vec<u64>>,
    number: u32,
    ticket: u64,
) -> Result<(), Memory>
    requires { get nat_cmp index.old number ≡ None }
    ensures ok { OnOk result ((n : ℕ) → tickets_by index.new n ≡ cond (number == n) (tickets_by index.old n ++ ticket ∷ []) (tickets_by index.old n)) }
    ensures err { OnErr result ((n : ℕ) → tickets_by index.new n ≡ tickets_by index.old n) }
{
    let mut tickets = Vec::new(alloc);
    tickets.push(ticket)?;
    index.insert(number, tickets)?;
    Ok(())
}

/// Takes a ticket away from those of a number. It takes no memory, and the room stays.
fn take(index: &mut BTreeMap<u32, Vec<u64>>, number: u32, ticket: u64)
    ensures { (n : ℕ) → tickets_by index.new n ≡ cond (number == n) (filter (λ t. not (t == ticket)) (tickets_by index.old n)) (tickets_by index.old n) }
{
    if let Some(tickets) = index.get_mut(&number) {
        remove(tickets, ticket);
    }
}

/// Takes a ticket away from the tickets.
fn remove(tickets: &mut Vec<u64>, ticket: u64)
    ensures { tickets.new.items ≡ filter (λ t. not (t == ticket)) tickets.old.items }
{
    tickets.retain(|other| *other != ticket);
}

/// Puts a ticket behind those of a number. Where memory runs out, all stand as before.
pub(crate) fn note(
    alloc: Global,
    index: &mut BTreeMap<u32, Vec<u64>>,
    number: u32,
    ticket: u64,
) -> Result<(), Memory>
    ensures kept { KeepsTickets index.old index.new }
    ensures noted { OnOk result (has_ticket ticket (tickets_by index.new number) ≡ true) }
{
    put(alloc, index, number, ticket)
}

/// Puts a ticket behind those of each of the courses. Where memory runs out, it stands by some of them.
pub(crate) fn note_courses(
    alloc: Global,
    index: &mut BTreeMap<u32, Vec<u64>>,
    courses: &[CourseId],
    ticket: u64,
) -> Result<(), Memory>
    ensures kept { KeepsTickets index.old index.new }
    ensures noted { OnOk result (list_all (λ c. has_ticket ticket (tickets_by index.new c.0)) courses.now ≡ true) }
{
    for course in courses {
        note(alloc, index, course.0, ticket)?;
    }
    Ok(())
}

/// Takes a ticket away from those of a number. It takes no memory, and the room stays.
pub(crate) fn strike(index: &mut BTreeMap<u32, Vec<u64>>, number: u32, ticket: u64)
    ensures { KeepsOtherTickets ticket index.old index.new }
{
    take(index, number, ticket);
}

/// Takes a ticket away from those of each of the courses. It takes no memory, and the room stays.
pub(crate) fn strike_courses(index: &mut BTreeMap<u32, Vec<u64>>, courses: &[CourseId], ticket: u64)
    ensures { KeepsOtherTickets ticket index.old index.new }
{
    for course in courses {
        strike(index, course.0, ticket);
    }
}

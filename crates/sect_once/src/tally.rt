// A small object: the sum of its commands.
ghost use Rattle.std.specs.Prelude.{◌≡◌, ℕ, ◌<◌, ◌≤◌, ◌+◌, ◌-◌, ◌^◌, ◌++◌, [], ◌∷◌, min, drop, length, take, IfNone, IfSome};
ghost use Rattle.std.specs.Int.{from_be_bytes, to_be_bytes, w32, w64};
ghost use Rattle.sect_base.specs.declared.limit.Caller.{Caller};
ghost use Rattle.sect_once.specs.declared.entry.Entry.{Entry};
ghost use Rattle.sect_once.specs.Tallies.{IsSumText, IsTallyAsked, IsTallyRequest, IsTallyRow, MayAsk, caller_number, caller_tag, tallied, tally_entry};

use crate::entry::{AskedText, Entry, Request};
use crate::object::Object;
use sect_base::{Caller, Day, Id, Memory, StudentId};
use std::alloc::Global;

/// A sum, which stays at the greatest number where it would pass it, and the sum before the last command. A command adds its
/// number.
#[derive(Drop)]
pub struct Tally {
    sum: u64,
    before: u64,
}

impl Object for Tally {
    type State = u64;

    type Command = u8;

    type Reply = u64;

    type Query = ();

    type View = u64;

    ghost state = { λ t. t.sum };

    ghost start = { 0 };

    ghost stepped = { tallied };

    ghost restores = { λ t before. t.before ≡ before };

    ghost looked = { λ sum q. sum };

    ghost is_request = { IsTallyRequest };

    ghost is_asked = { IsTallyAsked };

    ghost is_row = { IsTallyRow };

    ghost is_told = { IsSumText };

    ghost entry_of = { tally_entry };

    ghost may_ask = { MayAsk };

    fn empty(_alloc: Global) -> Self {
        Tally { sum: 0, before: 0 }
    }

    fn step(&mut self, _day: Day, _caller: Caller, command: &mut u8) -> Result<u64, Memory> {
        self.before = self.sum;
        self.sum = self.before.saturating_add(u64::from(*command));
        Ok(self.sum)
    }

    fn undo(&mut self) {
        self.sum = self.before;
    }

    fn look(&self, _query: &()) -> Result<u64, Memory> {
        Ok(self.sum)
    }

    fn same_command(a: &u8, b: &u8) -> bool {
        a == b
    }

    fn same_reply(a: &u64, b: &u64) -> bool {
        a == b
    }

    fn print_request(id: Id, day: Day, command: &u8, into: &mut Vec<u8>) -> Result<(), Memory> {
        into.clear();
        into.extend_from_slice(&request_of(day, id.caller, id.number, *command))?;
        Ok(())
    }

    fn copy_request(_command: &u8, asked: AskedText, into: &mut Vec<u8>) -> Result<(), Memory> {
        into.clear();
        into.extend_from_slice(asked.day)?;
        into.extend_from_slice(asked.rest)?;
        Ok(())
    }

    fn print_reply(reply: &u64, into: &mut Vec<u8>) -> Result<usize, Memory> {
        let at = into.len();
        into.extend_from_slice(&reply.to_be_bytes())?;
        Ok(at)
    }

    fn read_entry(_alloc: Global, row: &[u8]) -> Result<Option<Entry<u8, u64>>, Memory> {
        if row.len() == 26 {
            Ok(entry_of(row))
        } else {
            Ok(None)
        }
    }

    fn read_request(_alloc: Global, row: &[u8]) -> Result<Option<(Request<u8>, usize)>, Memory> {
        if row.len() == 26 {
            Ok(request_in(row))
        } else {
            Ok(None)
        }
    }

    ghost use Rattle.sect_once.specs.TallyLaws.{tally_next_has_row, tally_one_entry, tally_one_row, tally_reads_row};

    ghost one_row = { tally_one_row };

    ghost one_entry = { tally_one_entry };

    ghost reads_row = { tally_reads_row };

    ghost next_has_row = { tally_next_has_row };
}

/// The request of a row of the right length, and the place behind it.
fn request_in(row: &[u8]) -> Option<(Request<u8>, usize)>
    requires { length row.now ≡ 26 }
    ensures text { IfSome result (λ r. (r.1 ≤ length row.now) × IsTallyRequest r.0.id r.0.day r.0.command (take r.1 row.now)) }
    ensures askable { IfSome result (λ r. MayAsk r.0.id r.0.day r.0.command) }
{
    let entry = entry_of(row)?;
    let request = Request {
        id: entry.id,
        day: entry.day,
        command: entry.command,
    };
    Some((request, 18))
}

/// The letter of a caller.
fn tag_of(caller: Caller) -> u8
    ensures { result ≡ caller_tag caller }
{
    match caller {
        Caller::Registrar(_) => b'r',
        Caller::Student(_) => b's',
    }
}

/// The number of a caller.
fn number_of(caller: Caller) -> u32
    ensures { result ≡ caller_number caller }
{
    match caller {
        Caller::Registrar(number) => number,
        Caller::Student(student) => student.0,
    }
}

/// The number of a day.
fn day_number(day: Day) -> u32
    ensures same { result ≡ day }
    ensures range { result ≤ 84005 }
{
    day.get() as u32
}

/// A request's part of a row.
fn request_of(day: Day, caller: Caller, number: u64, command: u8) -> [u8; 18]
    ensures { IsTallyRequest (record { caller = caller; number = number }) day command result }
{
    let [a, b, c, d] = day_number(day).to_be_bytes();
    let tag = tag_of(caller);
    let [e, f, g, h] = number_of(caller).to_be_bytes();
    let [i, j, k, l, m, n, o, p] = number.to_be_bytes();
    [a, b, c, d, tag, e, f, g, h, i, j, k, l, m, n, o, p, command]
}

/// The number in the four bytes from a place on, the highest byte first.
fn u32_at(row: &[u8], at: usize) -> u32
    requires { at + 4 ≤ length row.now }
    ensures { to_be_bytes w32 result ≡ take 4 (drop at row.now) }
{
    u32::from_be_bytes([row[at], row[at + 1], row[at + 2], row[at + 3]])
}

/// The number in the eight bytes from a place on, the highest byte first.
fn u64_at(row: &[u8], at: usize) -> u64
    requires { at + 8 ≤ length row.now }
    ensures { to_be_bytes w64 result ≡ take 8 (drop at row.now) }
{
    u64::from_be_bytes([
        row[at],
        row[at + 1],
        row[at + 2],
        row[at + 3],
        row[at + 4],
        row[at + 5],
        row[at + 6],
        row[at + 7],
    ])
}

/// The day with this number, where there is one.
fn day_of(number: u32) -> Option<Day>
    ensures found { IfSome result (λ day. (day ≡ number) × (day ≤ 84005)) }
    ensures none { IfNone result (84005 < number) }
{
    if number <= 84_005 {
        Day::new(number as i32)
    } else {
        None
    }
}

/// The caller with this letter and number, where there is one.
fn caller_of(tag: u8, number: u32) -> Option<Caller>
    ensures found { IfSome result (λ caller. (caller_tag caller ≡ tag) × (caller_number caller ≡ number)) }
    ensures none { IfNone result ((caller : Caller) → caller_tag caller ≡ tag → ⊥) }
{
    match tag {
        b'r' => Some(Caller::Registrar(number)),
        b's' => Some(Caller::Student(StudentId(number))),
        _ => None,
    }
}

/// The entry of a row of the right length.
fn entry_of(row: &[u8]) -> Option<Entry<u8, u64>>
    requires { length row.now ≡ 26 }
    ensures found { IfSome result (λ entry. IsTallyRow entry row.now) }
    ensures none { IfNone result ((entry : Entry ℕ ℕ) → IsTallyRow entry row.now → ⊥) }
{
    let day = day_of(u32_at(row, 0))?;
    let caller = caller_of(row[4], u32_at(row, 5))?;
    let number = u64_at(row, 9);
    let reply = u64_at(row, 18);
    Some(Entry {
        id: Id { caller, number },
        day,
        command: row[17],
        reply,
    })
}

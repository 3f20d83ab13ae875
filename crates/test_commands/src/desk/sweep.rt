// Runs of a command, in each of which another call fails.

use crate::desk::serving::put_served;
use crate::desk::table::Table;
use crate::desk::whole::put_once;
use crate::keepers::{Failing, keeper_of};
use crate::runs::Setting;
use crate::stand::Stand;
use sect_base::Memory;
use sect_edge::MemKeeper;
use std::alloc::{AllocGlobal, Global};
use std::sync::Wait;
use std::thread::Threads;

/// What fails.
#[derive(Clone, Copy)]
enum Call {
    Read,
    Write,
    Append,
    Row,
    Accept,
    Byte,
}

/// So many runs, in the n-th of which the n-th call of a kind fails.
#[derive(Clone, Copy)]
pub struct Sweep {
    call: Call,
    /// The most bytes that a read gives.
    piece: usize,
    count: u64,
}

impl Sweep {
    /// The runs of `CALL PIECE COUNT`.
    pub fn read(text: &str) -> Option<Sweep> {
        let mut words = text.split_whitespace();
        let call = call_of(words.next()?)?;
        let piece = words.next()?.parse::<usize>().ok()?;
        let count = words.next()?.parse::<u64>().ok()?;
        Some(Sweep { call, piece, count })
    }

    /// How the table's command runs where the call with this number fails.
    fn setting<'a>(&self, table: &'a Table, number: u64) -> Setting<'a> {
        Setting {
            piece: self.piece,
            failing_read: number_where(matches!(self.call, Call::Read), number),
            failing_write: number_where(matches!(self.call, Call::Write), number),
            ..table.setting()
        }
    }

    /// The calls of the keeper that fail then.
    fn failing(&self, number: u64) -> Failing {
        Failing {
            append: number_where(matches!(self.call, Call::Append), number),
            row: number_where(matches!(self.call, Call::Row), number),
        }
    }
}

/// The number where it is of a call that fails, and else 0.
fn number_where(fails: bool, number: u64) -> u64 {
    if fails { number } else { 0 }
}

fn call_of(name: &str) -> Option<Call> {
    match name {
        "read" => Some(Call::Read),
        "write" => Some(Call::Write),
        "append" => Some(Call::Append),
        "row" => Some(Call::Row),
        "accept" => Some(Call::Accept),
        "byte" => Some(Call::Byte),
        _ => None,
    }
}

/// Puts what came of each run behind the text, in a line of its own. The last run's keeper stays at the stand.
pub fn put_runs<R: AllocGlobal + Threads + Wait + Sync>(
    rt: &R,
    table: &Table,
    sweep: &Sweep,
    stand: &mut Stand,
    into: &mut String,
) -> Result<(), Memory> {
    for before in 0..sweep.count {
        let number = before.saturating_add(1);
        write!(into, "{number}: ")?;
        put_run(rt, table, sweep, number, stand, into)?;
        into.push('\n')?;
    }
    Ok(())
}

/// Puts what came of a run, and of the same words and input over the keeper that came back, behind the text.
fn put_run<R: AllocGlobal + Threads + Wait + Sync>(
    rt: &R,
    table: &Table,
    sweep: &Sweep,
    number: u64,
    stand: &mut Stand,
    into: &mut String,
) -> Result<(), Memory> {
    *stand = Stand::new(Some(keeper_of_run(rt.alloc(), table, sweep, number)?));
    let setting = sweep.setting(table, number);
    if matches!(sweep.call, Call::Accept) {
        return put_served(rt, &setting, number, stand, into);
    }
    let input = table.input.as_slice();
    put_once(rt, &setting, input, stand, into)?;
    into.push_str(" then ")?;
    put_once(rt, &table.setting(), input, stand, into)
}

/// The keeper of the run with this number.
fn keeper_of_run(
    alloc: Global,
    table: &Table,
    sweep: &Sweep,
    number: u64,
) -> Result<MemKeeper, Memory> {
    let rows = rows_of_run(alloc, table, sweep, number)?;
    keeper_of(alloc, rows.as_str(), sweep.failing(number))
}

/// The keeper's rows, with `x` in the place of the byte of the last row with this number, from 1, where bytes are replaced.
fn rows_of_run(alloc: Global, table: &Table, sweep: &Sweep, number: u64) -> Result<String, Memory> {
    let mut bytes = table.rows.as_bytes().to_vec(alloc)?;
    if matches!(sweep.call, Call::Byte) {
        let place = (number as usize).saturating_sub(1);
        if let Some(byte) = bytes.get_mut(table.last_row.saturating_add(place)) {
            *byte = b'x';
        }
    }
    match String::from_utf8(bytes) {
        Ok(rows) => Ok(rows),
        Err(_) => Err(Memory),
    }
}

// Commands of the desk of which one call fails.

mod serving;
mod sweep;
mod table;
mod whole;

use crate::lines::put_as_it_is;
use crate::stand::Stand;
use sect_base::Memory;
use std::alloc::{AllocGlobal, Global};
use std::sync::Wait;
use std::thread::Threads;
use sweep::{Sweep, put_runs};
use table::Table;

/// A command over keepers.
#[derive(Drop)]
pub struct DeskCommands {
    table: Table,
    /// The keeper of the last of many runs.
    swept: Stand,
}

impl DeskCommands {
    /// No command, and no keeper.
    pub fn new(alloc: Global) -> DeskCommands {
        DeskCommands {
            table: Table::new(alloc),
            swept: Stand::new(None),
        }
    }

    /// Does what a line says, and puts what is printed for it behind the text.
    pub fn put<R: AllocGlobal + Threads + Wait + Sync>(
        &mut self,
        rt: &R,
        line: &str,
        into: &mut Vec<u8>,
    ) -> Result<(), Memory> {
        if line.starts_with('#') || line.starts_with('$') || line.starts_with('?') {
            put_as_it_is(line, into)?;
        }
        let Some(asked) = line.strip_prefix("? ") else {
            return Ok(self.table.take(line)?);
        };
        let mut text = String::new(rt.alloc());
        self.put_asked(rt, asked, &mut text)?;
        Ok(into.extend_from_slice(text.as_bytes())?)
    }

    /// Makes the runs for which a line with `?` asks, and puts what came of them behind the text.
    fn put_asked<R: AllocGlobal + Threads + Wait + Sync>(
        &mut self,
        rt: &R,
        asked: &str,
        into: &mut String,
    ) -> Result<(), Memory> {
        match Sweep::read(asked) {
            Some(sweep) => put_runs(rt, &self.table, &sweep, &mut self.swept, into),
            None => Ok(into.push_str("no runs\n")?),
        }
    }
}

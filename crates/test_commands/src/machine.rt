// Lines over a machine: what they act, how many searches they take, and trees that are held against them.

mod acting;
mod counting;
mod judging;

use crate::lines::put_as_it_is;
use acting::answer;
use counting::count;
use judging::judge;
use sect_base::Memory;
use sect_machine::Machine;
use sect_once::Object;
use std::alloc::Global;

/// A machine, and the request that it was asked last.
#[derive(Drop)]
pub struct OverMachine {
    machine: Machine,
    request: String,
}

impl OverMachine {
    /// An empty machine.
    pub fn new(alloc: Global) -> OverMachine {
        OverMachine {
            machine: Machine::empty(alloc),
            request: String::new(alloc),
        }
    }

    /// Does what a line says, and puts what is printed for it behind the text.
    pub fn put(&mut self, alloc: Global, line: &str, into: &mut Vec<u8>) -> Result<(), Memory> {
        if line.starts_with('#') {
            self.machine = Machine::empty(alloc);
            return put_as_it_is(line, into);
        }
        let request = self.request.as_str();
        tell(alloc, &mut self.machine, request, line, into)?;
        if !line.starts_with('?') && !line.starts_with('%') {
            self.request.clear();
            self.request.push_str(line)?;
        }
        Ok(())
    }
}

/// Appends what is printed for a line, where the request before it is known.
fn tell(
    alloc: Global,
    machine: &mut Machine,
    request: &str,
    line: &str,
    into: &mut Vec<u8>,
) -> Result<(), Memory> {
    if let Some(tree) = line.strip_prefix("? ") {
        return judge(alloc, machine, request, tree, into);
    }
    if let Some(line) = line.strip_prefix("% ") {
        return count(alloc, machine, line, into);
    }
    answer(alloc, machine, line, into)
}

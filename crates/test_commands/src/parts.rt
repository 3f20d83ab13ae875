// The parts of the input.

use crate::answers::told_of_answers;
use crate::bodies::put_line;
use crate::calling::called;
use crate::cuts::told_of_cuts;
use crate::desk::DeskCommands;
use crate::disks::Disks;
use crate::machine::OverMachine;
use crate::workers::told_of_workers;
use sect_base::Memory;
use std::alloc::{AllocGlobal, Global};
use std::sync::Wait;
use std::thread::Threads;

/// What the lines of a part are.
#[derive(Clone, Copy)]
pub enum Part {
    Desk,
    Machine,
    Bodies,
    Disks,
    Connections,
    Answers,
    Workers,
    Calling,
}

/// The part that a line begins, where it begins one.
pub fn part_of(line: &str) -> Option<Part> {
    match line {
        "== desk" => Some(Part::Desk),
        "== machine" => Some(Part::Machine),
        "== bodies" => Some(Part::Bodies),
        "== disks" => Some(Part::Disks),
        "== connections" => Some(Part::Connections),
        "== answers" => Some(Part::Answers),
        "== workers" => Some(Part::Workers),
        "== calling" => Some(Part::Calling),
        _ => None,
    }
}

/// What the lines of each part are told over.
#[derive(Drop)]
pub struct Parts {
    desk: DeskCommands,
    machine: OverMachine,
    disks: Disks,
}

impl Parts {
    /// Parts of which no line was told.
    pub fn new(alloc: Global) -> Parts {
        Parts {
            desk: DeskCommands::new(alloc),
            machine: OverMachine::new(alloc),
            disks: Disks::new(),
        }
    }

    /// Does what a line of a part says, and gives what is printed for it.
    pub fn told<R: AllocGlobal + Threads + Wait + Sync>(
        &mut self,
        rt: &R,
        part: Part,
        line: &str,
    ) -> Result<Vec<u8>, Memory> {
        let mut into = Vec::new(rt.alloc());
        match part {
            Part::Desk => self.desk.put(rt, line, &mut into)?,
            Part::Machine => self.machine.put(rt.alloc(), line, &mut into)?,
            Part::Bodies => put_line(line, &mut into)?,
            Part::Disks => self.disks.put(rt.alloc(), line, &mut into)?,
            Part::Connections | Part::Answers | Part::Workers | Part::Calling => {}
        }
        Ok(into)
    }
}

/// What is printed where a part begins: all of it for those that have no lines.
pub fn told_at_first<R: AllocGlobal + Threads + Wait + Sync>(
    rt: &R,
    part: Part,
) -> Result<Vec<u8>, Memory> {
    match part {
        Part::Connections => told_of_cuts(rt),
        Part::Answers => told_of_answers(rt.alloc()),
        Part::Workers => told_of_workers(rt),
        Part::Calling => called(rt.alloc()),
        _ => Ok(Vec::new(rt.alloc())),
    }
}

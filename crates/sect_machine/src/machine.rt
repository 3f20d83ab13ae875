// The machine: a world, and who waits.

ghost use Rattle.std.specs.Prelude.{◌≡◌, ◌<◌, IfOk, OnErr, OnOk, IsTrue};
ghost use Rattle.sect_model.specs.Kept.{KeptState};
ghost use Rattle.sect_model.specs.Look.{look as looked_at};
ghost use Rattle.sect_model.specs.Settle.{is_settled};
ghost use Rattle.sect_model.specs.Step.{step as step_of};
ghost use Rattle.sect_machine.specs.Settling.{placements};
ghost use Rattle.sect_machine.specs.Standing.{state_in, Restores};
ghost use Rattle.sect_model.specs.World.{State};

use crate::stepping::step;
use crate::told::ToldStep;
use crate::undo::MachineUndo;
use sect_base::{Caller, Day, Memory, Steps};
use sect_command::{Command, Query, Reply, View};
use sect_space::World;
use sect_view::view;
use sect_wait::{Marks, Opened, Queue};
use std::alloc::Global;
use std::marker::{Brand, Model};
use std::sync::ledger::{Blank, Ledger};

/// The world and those who wait, none of whom can be placed, and which of them must be tried again: the others have no
/// move. No limit is passed, and no student holds what may not be held together. What the last step changed is kept, so that
/// it can be taken back; the next step records its changes in the same lists, and tells in the same ones what a leaving opens.
/// Contracts see the world and the queue, with the room of their lists, and what the last step changed.
pub struct Machine {
    pub(crate) alloc: Global,
    pub(crate) world: World,
    pub(crate) queue: Queue,
    pub(crate) marks: Marks,
    pub(crate) changes: MachineUndo,
    pub(crate) opened: Opened,
}

/// It is written out, so that a caller does not prove again how each part is dropped.
impl Drop for Machine {
    fn drop(self) {
        let Machine {
            alloc: _,
            world: _,
            queue: _,
            marks: _,
            changes: _,
            opened: _,
        } = self;
    }
}

impl Model for Machine {
    ghost use Rattle.sect_wait.specs.Marked.{OthersNeedNoSearch};
    ghost use Rattle.sect_wait.specs.Queued.{state_of};
    ghost use Rattle.sect_machine.specs.Standing.{Standing, IsResting};

    ghost Value = { Standing };

    ghost view = { λ m. record { world = m.world; queue = m.queue; changes = m.changes } };

    ghost invariant = { λ m. IsResting (state_of m.world.world m.queue.queue) × OthersNeedNoSearch m.world.world m.queue.queue.entries m.marks };
}

/// A step whose searches are counted in a ledger of its own.
fn counted<L: Ledger>(
    machine: &mut Machine,
    day: Day,
    caller: Caller,
    command: &mut Command,
    blank: Blank,
) -> Result<ToldStep, Memory>
    requires name { blank.name ≡ L.name }
    requires parts { blank.parts ≡ L.parts }
    requires some { 0 < blank.parts }
    ensures state { OnOk result (state_in machine.new ≡ (step_of (state_in machine.old) day caller command.old).state) }
    ensures reply { IfOk result (λ r. r.reply ≡ (step_of (state_in machine.old) day caller command.old).reply) }
    ensures placed { IfOk result (λ r. r.placed ≡ placements (state_in machine.old) day caller command.old) }
    ensures undo { OnOk result (Restores machine.new (state_in machine.old)) }
    ensures err { OnErr result (state_in machine.new ≡ state_in machine.old) }
{
    let mut steps: Steps<L> = Steps::new(blank);
    machine.step_counted(day, caller, command, &mut steps)
}

impl Machine {
    /// Does nothing: the contract tells what holds of every machine.
    pub fn recall_kept(&self)
        ensures kept { KeptState (state_in self.now) }
        ensures settled { IsTrue (is_settled (state_in self.now)) }
    {
        self.world.recall_kept();
        self.queue.recall_kept();
    }

    /// The world. It takes no memory.
    pub fn world(&self) -> &World
        ensures { result.now.world ≡ (state_in self.now).world }
    {
        &self.world
    }

    /// Acts a command of a caller on a day, settles, and tells whom settling placed, in order. After want of memory the state is
    /// as before.
    pub fn step_told(
        &mut self,
        day: Day,
        caller: Caller,
        command: &mut Command,
    ) -> Result<ToldStep, Memory>
        ensures state { OnOk result (state_in self.new ≡ (step_of (state_in self.old) day caller command.old).state) }
        ensures reply { IfOk result (λ r. r.reply ≡ (step_of (state_in self.old) day caller command.old).reply) }
        ensures placed { IfOk result (λ r. r.placed ≡ placements (state_in self.old) day caller command.old) }
        ensures undo { OnOk result (Restores self.new (state_in self.old)) }
        ensures err { OnErr result (state_in self.new ≡ state_in self.old) }
    {
        counted::<Brand>(self, day, caller, command, Blank::new(1))
    }

    /// The same, where each search that the step takes is counted: those of the command itself and those of settling.
    pub fn step_counted<L: Ledger>(
        &mut self,
        day: Day,
        caller: Caller,
        command: &mut Command,
        steps: &mut Steps<L>,
    ) -> Result<ToldStep, Memory>
        ensures state { OnOk result (state_in self.new ≡ (step_of (state_in self.old) day caller command.old).state) }
        ensures reply { IfOk result (λ r. r.reply ≡ (step_of (state_in self.old) day caller command.old).reply) }
        ensures placed { IfOk result (λ r. r.placed ≡ placements (state_in self.old) day caller command.old) }
        ensures undo { OnOk result (Restores self.new (state_in self.old)) }
        ensures err { OnErr result (state_in self.new ≡ state_in self.old) }
    {
        self.recall_kept();
        step(
            self.alloc,
            &mut self.world,
            &mut self.queue,
            &mut self.marks,
            &mut self.opened,
            day,
            caller,
            command,
            &mut self.changes,
            steps,
        )
    }

    /// The same, where nobody asks whom settling placed.
    pub(crate) fn act(
        &mut self,
        day: Day,
        caller: Caller,
        command: &mut Command,
    ) -> Result<Reply, Memory>
        ensures state { OnOk result (state_in self.new ≡ (step_of (state_in self.old) day caller command.old).state) }
        ensures reply { IfOk result (λ reply. reply ≡ (step_of (state_in self.old) day caller command.old).reply) }
        ensures undo { OnOk result (Restores self.new (state_in self.old)) }
        ensures err { OnErr result (state_in self.new ≡ state_in self.old) }
    {
        let ToldStep { reply, placed: _ } = self.step_told(day, caller, command)?;
        Ok(reply)
    }

    /// Answers a query.
    pub(crate) fn view(&self, query: &Query) -> Result<View, Memory>
        ensures { IfOk result (λ v. v ≡ looked_at (state_in self.now) query.now) }
    {
        view(self.alloc, &self.world, self.queue.entries(), query)
    }

    /// Takes back what the last step changed. It takes no memory.
    pub(crate) fn take_back(&mut self)
        requires { (before : State) × Restores self.old before }
        ensures { (before : State) → Restores self.old before → state_in self.new ≡ before }
    {
        self.changes.take_back(&mut self.world, &mut self.queue);
        self.marks.mark_all();
    }
}

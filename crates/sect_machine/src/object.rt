// The machine as an object whose commands act one at a time.

ghost use Rattle.std.specs.Prelude.{◌≡◌};
ghost use Rattle.sect_model.specs.World.{empty_state};
ghost use Rattle.sect_model.specs.Look.{look as looked_at};
ghost use Rattle.sect_model.specs.Step.{step as step_of};
ghost use Rattle.sect_rows.specs.Laws.{MayAsk};
ghost use Rattle.sect_read.specs.ReadingLines.{row_of};
ghost use Rattle.sect_wire.specs.ToldRows.{IsAskedText, IsReplyText, IsRequestText};
ghost use Rattle.sect_wire.specs.Laws.{IsRow};
ghost use Rattle.sect_machine.specs.Standing.{state_in, Restores};

use crate::machine::Machine;
use crate::state::State;
use crate::undo::MachineUndo;
use sect_base::{Caller, Day, Id, Memory, Same};
use sect_command::{Command, Query, Reply, View};
use sect_once::{AskedText, Entry, Object, Request};
use sect_space::World;
use sect_wait::{Marks, Opened, Queue};
use sect_wire::{
    TextObject, copy_request, print_request, print_told_reply, read_request, read_row,
};
use std::alloc::Global;

impl TextObject for Machine {
    ghost takes_texts = { λ id day command named dated told. (named, dated, told) };

    ghost asks_texts = { λ id day command dated rest told. told };

    ghost tells_texts = { λ reply text told. told };
}

impl Object for Machine {
    type State = State;

    type Command = Command;

    type Reply = Reply;

    type Query = Query;

    type View = View;

    ghost state = { state_in };

    ghost start = { empty_state };

    ghost stepped = { λ s day caller command. ((step_of s day caller command).state, (step_of s day caller command).reply) };

    ghost restores = { Restores };

    ghost looked = { looked_at };

    ghost is_request = { IsRequestText };

    ghost is_asked = { IsAskedText };

    ghost is_row = { IsRow };

    ghost is_told = { IsReplyText };

    ghost entry_of = { row_of };

    ghost may_ask = { MayAsk };

    fn empty(alloc: Global) -> Self {
        Machine {
            alloc,
            world: World::empty(alloc),
            queue: Queue::empty(alloc),
            marks: Marks::none(alloc),
            changes: MachineUndo::empty(alloc),
            opened: Opened::none(alloc),
        }
    }

    fn step(&mut self, day: Day, caller: Caller, command: &mut Command) -> Result<Reply, Memory> {
        self.act(day, caller, command)
    }

    fn undo(&mut self) {
        self.take_back();
    }

    fn look(&self, query: &Query) -> Result<View, Memory> {
        self.view(query)
    }

    fn same_command(a: &Command, b: &Command) -> bool {
        a.same(b)
    }

    fn same_reply(a: &Reply, b: &Reply) -> bool {
        a.same(b)
    }

    fn print_request(
        id: Id,
        day: Day,
        command: &Command,
        into: &mut Vec<u8>,
    ) -> Result<(), Memory> {
        into.clear();
        print_request(id, day, command, into)
    }

    fn copy_request(command: &Command, asked: AskedText, into: &mut Vec<u8>) -> Result<(), Memory> {
        into.clear();
        copy_request(command, asked, into)
    }

    fn print_reply(reply: &Reply, into: &mut Vec<u8>) -> Result<usize, Memory> {
        let at = print_told_reply(reply, into)?;
        Ok(at)
    }

    fn read_entry(alloc: Global, row: &[u8]) -> Result<Option<Entry<Command, Reply>>, Memory> {
        read_row(alloc, row)
    }

    fn read_request(
        alloc: Global,
        row: &[u8],
    ) -> Result<Option<(Request<Command>, usize)>, Memory> {
        read_request(alloc, row)
    }

    ghost use Rattle.sect_read.proofs.TextLaws.{one_row as row_is_one, one_entry as entry_is_one, row_again};

    ghost one_row = { row_is_one };

    ghost one_entry = { entry_is_one };

    ghost reads_row = { row_again };

    ghost use Rattle.sect_rows.proofs.Histories.{entry-has-row as entry_has_row};

    ghost next_has_row = { entry_has_row };
}

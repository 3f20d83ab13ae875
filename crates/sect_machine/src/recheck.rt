// Whether a tree refutes the move of a command, in the world on a day.

ghost use Rattle.std.specs.Prelude.{◌≡◌, max, Some, None, IfOk, IsTrue};
ghost use Rattle.std.specs.Option.{is_some};
ghost use Rattle.sect_base.specs.declared.limit.Caller.{Caller};
ghost use Rattle.sect_base.specs.declared.choice.Move.{Move as Moved};
ghost use Rattle.sect_model.specs.Change.{put_day};
ghost use Rattle.sect_model.specs.Covers.{covers};
ghost use Rattle.sect_model.specs.Premises.{MoveFits};
ghost use Rattle.sect_model.specs.Refusals.{refusal_of};
ghost use Rattle.sect_model.specs.Refuted.{move_in};
ghost use Rattle.sect_model.specs.Step.{enrol_move as move_of_enrolment, on_day};
ghost use Rattle.sect_space.specs.Undo.{Since, Undoable};
ghost use Rattle.sect_machine.specs.Standing.{state_in};

use crate::change::set_day;
use crate::machine::Machine;
use sect_base::{Block, Day, Duplicate, Items, Memory, Move, StudentId, Want};
use sect_command::Command;
use sect_search::verify;
use sect_space::{Undo, World};
use std::alloc::Global;

impl Machine {
    /// Whether the tree refutes every choice of an enrolment or a swap, in the world whose day is the larger of the two. The
    /// command is one that isn't refused on that day. Afterwards the machine is as before, after `Memory` too.
    pub fn recheck(&mut self, day: Day, command: &Command, tree: &Block) -> Result<bool, Memory>
        requires searches { IsTrue (is_some (move_in command.now)) }
        requires accepted { (caller : Caller) × (refusal_of (on_day (state_in self.old) day) caller command.now ≡ None) }
        ensures answer { IfOk result (λ refutes. (mv : Moved) → move_in command.now ≡ Some mv
            → refutes ≡ covers (on_day (state_in self.old) day).world mv tree.now) }
        ensures state { state_in self.new ≡ state_in self.old }
    {
        self.recall_kept();
        refutes_then(self.alloc, &mut self.world, day, command, tree)
    }
}

/// Whether the tree refutes every choice of the command's move, in the world on the day. Afterwards the world is as before.
fn refutes_then(
    alloc: Global,
    world: &mut World,
    day: Day,
    command: &Command,
    tree: &Block,
) -> Result<bool, Memory>
    requires searches { IsTrue (is_some (move_in command.now)) }
    requires fits { (mv : Moved) → move_in command.now ≡ Some mv → MoveFits (put_day world.old.world (max world.old.world.day day)) mv }
    ensures answer { IfOk result (λ refutes. (mv : Moved) → move_in command.now ≡ Some mv
        → refutes ≡ covers (put_day world.old.world (max world.old.world.day day)) mv tree.now) }
    ensures world { world.new.world ≡ world.old.world }
{
    world.recall_kept();
    let mut undo = Undo::empty(alloc);
    let refutes = refutes_on(alloc, world, day, command, tree, &mut undo);
    world.undo(undo);
    refutes
}

/// The same, with the world left on the day.
fn refutes_on(
    alloc: Global,
    world: &mut World,
    day: Day,
    command: &Command,
    tree: &Block,
    undo: &mut Undo,
) -> Result<bool, Memory>
    requires searches { IsTrue (is_some (move_in command.now)) }
    requires fits { (mv : Moved) → move_in command.now ≡ Some mv → MoveFits (put_day world.old.world (max world.old.world.day day)) mv }
    requires undoable { Undoable world.old undo.old.backs }
    ensures answer { IfOk result (λ refutes. (mv : Moved) → move_in command.now ≡ Some mv
        → refutes ≡ covers (put_day world.old.world (max world.old.world.day day)) mv tree.now) }
    ensures since { Since world.old.world undo.old.backs world.new.world undo.new.backs }
    ensures undoable { Undoable world.new undo.new.backs }
{
    set_day(world, day, undo)?;
    refutes(alloc, world, command, tree)
}

/// Whether the tree refutes every choice of the command's move.
fn refutes(alloc: Global, world: &World, command: &Command, tree: &Block) -> Result<bool, Memory>
    requires searches { IsTrue (is_some (move_in command.now)) }
    requires fits { (mv : Moved) → move_in command.now ≡ Some mv → MoveFits world.now.world mv }
    ensures { IfOk result (λ refutes. (mv : Moved) → move_in command.now ≡ Some mv → refutes ≡ covers world.now.world mv tree.now) }
{
    match move_of(alloc, command)? {
        Some(mv) => Ok(verify(world, &mv, tree)),
        None => Ok(false),
    }
}

/// The move that a command searches for.
fn move_of(alloc: Global, command: &Command) -> Result<Option<Move>, Memory>
    ensures { IfOk result (λ mv. mv ≡ move_in command.now) }
{
    match command {
        Command::Enrol {
            student,
            want,
            budget: _,
        } => Ok(Some(enrol_move(alloc, *student, want)?)),
        Command::Swap {
            student,
            give,
            take,
            budget: _,
        } => Ok(Some(Move {
            student: *student,
            give: give.copy(alloc)?,
            take: take.copy(alloc)?,
        })),
        _ => Ok(None),
    }
}

/// The move that takes one want.
fn enrol_move(alloc: Global, student: StudentId, want: &Want) -> Result<Move, Memory>
    ensures { IfOk result (λ mv. mv ≡ move_of_enrolment student want.now) }
{
    let mut take = Vec::new(alloc);
    take.push(want.copy(alloc)?)?;
    Ok(Move {
        student,
        give: Items::from_vec(Vec::new(alloc)),
        take: Items::from_vec(take),
    })
}

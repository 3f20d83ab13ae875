// A reply in words, where it blocks.

ghost use Rattle.std.specs.Prelude.{◌≡◌, ℕ, ◌≤◌, ◌++◌, Some, cond, OnOk, length, take};
ghost use Rattle.sect_base.specs.Tree.{Tree};
ghost use Rattle.sect_base.specs.declared.choice.Move.{Move as Moved};
ghost use Rattle.sect_model.specs.Refuted.{move_in};
ghost use Rattle.sect_explain.specs.Replied.{
  explain_lines,
  explain_move,
  explain_result,
  has_blocked,
  is_blocked_result,
  reply_explained,
  request_line,
  unblocked_text,
};

use crate::moves::{move_of, requested};
use crate::tree::explain;
use sect_base::{Block, Memory, Move, StudentId};
use sect_command::{Command, Line, LineResult, Reply};
use sect_space::World;
use sect_words::{print_number, print_text};
use std::alloc::Global;

/// Appends why there is no place, where the reply to the command in this world blocks: the tree in words, or for a batch each
/// request whose search is blocked, with its tree. For another reply it says that it doesn't block. It takes memory; after
/// `Memory` a part of it may stand at the end.
pub fn explain_reply(
    alloc: Global,
    world: &World,
    command: &Command,
    reply: &Reply,
    into: &mut Vec<u8>,
) -> Result<(), Memory>
    requires { (visits : ℕ) (tree : Tree) → reply.now ≡ Reply.Blocked visits tree → (mv : Moved) → move_in command.now ≡ Some mv → length mv.take ≤ 4 }
    ensures text { OnOk result (into.new.items ≡ into.old.items ++ reply_explained world.now.world command.now reply.now) }
    ensures front { take (length into.old.items) into.new.items ≡ into.old.items }
{
    match reply {
        Reply::Blocked(_, tree) => {
            let mv = move_of(alloc, command)?;
            explain_move(world, &mv, tree, into)
        }
        Reply::Batched(lines) => explain_batch(alloc, world, lines.as_slice(), into),
        _ => print_unblocked(into),
    }
}

/// Appends the tree that refutes the move, where there is a move.
fn explain_move(
    world: &World,
    mv: &Option<Move>,
    tree: &Block,
    into: &mut Vec<u8>,
) -> Result<(), Memory>
    requires { (m : Moved) → mv.now ≡ Some m → length m.take ≤ 4 }
    ensures text { OnOk result (into.new.items ≡ into.old.items ++ explain_move world.now.world mv.now tree.now) }
    ensures front { take (length into.old.items) into.new.items ≡ into.old.items }
{
    match mv {
        Some(mv) => explain(world, mv, tree, into),
        None => Ok(()),
    }
}

/// Appends the lines whose searches are blocked, or that there is none.
fn explain_batch(
    alloc: Global,
    world: &World,
    lines: &[Line],
    into: &mut Vec<u8>,
) -> Result<(), Memory>
    ensures text { OnOk result (into.new.items ≡ into.old.items ++ cond (has_blocked lines.now) (explain_lines world.now.world lines.now) unblocked_text) }
    ensures front { take (length into.old.items) into.new.items ≡ into.old.items }
{
    if has_blocked(lines) {
        print_lines(alloc, world, lines, into)
    } else {
        print_unblocked(into)
    }
}

/// Appends that a reply doesn't block.
fn print_unblocked(into: &mut Vec<u8>) -> Result<(), Memory>
    ensures text { OnOk result (into.new.items ≡ into.old.items ++ unblocked_text) }
    ensures front { take (length into.old.items) into.new.items ≡ into.old.items }
{
    print_text("not blocked\n", into)
}

/// Whether the search for one of the lines is blocked.
fn has_blocked(lines: &[Line]) -> bool
    ensures { result ≡ has_blocked lines.now }
{
    lines.iter().any(|line| is_blocked(&line.result))
}

/// Whether the search for the line is blocked.
fn is_blocked(told: &LineResult) -> bool
    ensures { result ≡ is_blocked_result told.now }
{
    matches!(told, LineResult::Blocked(_, _))
}

/// Appends the lines whose searches are blocked.
fn print_lines(
    alloc: Global,
    world: &World,
    lines: &[Line],
    into: &mut Vec<u8>,
) -> Result<(), Memory>
    ensures text { OnOk result (into.new.items ≡ into.old.items ++ explain_lines world.now.world lines.now) }
    ensures front { take (length into.old.items) into.new.items ≡ into.old.items }
{
    for line in lines {
        print_result(alloc, world, line.student, line.rank, &line.result, into)?;
    }
    Ok(())
}

/// Appends why the request of a line found no place, where its search is blocked.
fn print_result(
    alloc: Global,
    world: &World,
    student: StudentId,
    rank: u8,
    told: &LineResult,
    into: &mut Vec<u8>,
) -> Result<(), Memory>
    ensures text { OnOk result (into.new.items ≡ into.old.items ++ explain_result world.now.world student rank told.now) }
    ensures front { take (length into.old.items) into.new.items ≡ into.old.items }
{
    match told {
        LineResult::Blocked(_, tree) => {
            print_request(student, rank, into)?;
            let mv = requested(alloc, world, student, rank)?;
            explain_move(world, &mv, tree, into)
        }
        _ => Ok(()),
    }
}

/// Appends the line of a request.
fn print_request(student: StudentId, rank: u8, into: &mut Vec<u8>) -> Result<(), Memory>
    ensures text { OnOk result (into.new.items ≡ into.old.items ++ request_line student rank) }
    ensures front { take (length into.old.items) into.new.items ≡ into.old.items }
{
    print_text("student ", into)?;
    print_number(student.0, into)?;
    print_text(" rank ", into)?;
    print_number(rank, into)?;
    print_text("\n", into)
}

// The moves that commands and requests ask for.

ghost use Rattle.std.specs.Prelude.{◌≡◌, ◌-◌, ◌∷◌, [], IfOk, slice_get, option_copied};
ghost use Rattle.sect_model.specs.Batch.{asks_of, request_move as move_of_request};
ghost use Rattle.sect_model.specs.Refuted.{move_in};
ghost use Rattle.sect_explain.specs.Replied.{move_of_ask, requested as move_requested};

use sect_base::{Duplicate, Items, Memory, Move, StudentId, Want};
use sect_command::Command;
use sect_people::{Ask, CourseAsk};
use sect_space::World;
use std::alloc::Global;

/// The move that a command searches for, None where it searches for none.
pub fn move_of(alloc: Global, command: &Command) -> Result<Option<Move>, Memory>
    ensures { IfOk result (λ mv. mv ≡ move_in command.now) }
{
    match command {
        Command::Enrol {
            student,
            want,
            budget: _,
        } => Ok(Some(taking(alloc, *student, want.copy(alloc)?)?)),
        Command::Swap {
            student,
            give,
            take,
            budget: _,
        } => Ok(Some(Move {
            student: *student,
            give: give.copy(alloc)?,
            take: take.copy(alloc)?,
        })),
        _ => Ok(None),
    }
}

/// The move that the request of a student at a position, from 1, asks for; None where there is none, or it is a free time.
pub fn requested(
    alloc: Global,
    world: &World,
    student: StudentId,
    rank: u8,
) -> Result<Option<Move>, Memory>
    ensures { IfOk result (λ mv. mv ≡ move_requested world.now.world student rank) }
{
    match ask_at(world, student, rank) {
        Some(ask) => move_of_ask(alloc, student, rank, ask),
        None => Ok(None),
    }
}

/// The request of a student at a position, from 1.
fn ask_at(world: &World, student: StudentId, rank: u8) -> Option<&Ask>
    ensures { option_copied result ≡ slice_get (asks_of world.now.world student) (rank - 1) }
{
    match world.people().asks(student) {
        Some(asks) => asks.get(usize::from(rank.saturating_sub(1))),
        None => None,
    }
}

/// The move that a request asks for, None for a free time.
fn move_of_ask(
    alloc: Global,
    student: StudentId,
    rank: u8,
    ask: &Ask,
) -> Result<Option<Move>, Memory>
    ensures { IfOk result (λ mv. mv ≡ move_of_ask student rank ask.now) }
{
    match ask {
        Ask::Course(ask) => Ok(Some(request_move(alloc, student, rank, ask)?)),
        Ask::Free(_) => Ok(None),
    }
}

/// The move that takes one of the request's courses, at this rank.
fn request_move(
    alloc: Global,
    student: StudentId,
    rank: u8,
    ask: &CourseAsk,
) -> Result<Move, Memory>
    ensures { IfOk result (λ mv. mv ≡ move_of_request student ask.now rank) }
{
    let want = Want {
        courses: ask.courses.copy(alloc)?,
        only: Items::from_vec(Vec::new(alloc)),
        rank,
    };
    taking(alloc, student, want)
}

/// The move that takes one want.
fn taking(alloc: Global, student: StudentId, want: Want) -> Result<Move, Memory>
    ensures { IfOk result (λ mv. mv ≡ record { student = student; give = []; take = want ∷ [] }) }
{
    let mut take = Vec::new(alloc);
    take.push(want)?;
    Ok(Move {
        student,
        give: Items::from_vec(Vec::new(alloc)),
        take: Items::from_vec(take),
    })
}

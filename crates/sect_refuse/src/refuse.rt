// The first condition of a command that holds, in their order.

ghost use Rattle.std.specs.Prelude.{◌≡◌, ℕ};
ghost use Rattle.sect_model.specs.Refusals.{refusal_of};
ghost use Rattle.sect_refuse.specs.Refused.{own_refusal, refused_with};

use crate::yours::is_yours;
use crate::{registrar, student};
use sect_base::Caller;
use sect_command::{Command, Refusal};
use sect_model::Waiting;
use sect_space::World;

/// Why the command is refused in the world, with these entries waiting: the first condition that holds, in their order.
/// None exactly where the command is not refused. What the next ticket is counts for nothing. `own` is the last condition of a
/// wait and of an unwait, on the student's own entries, which the caller finds without looking through all. It takes no memory.
#[tactic(auto, unfolding(sect_model::specs::Refusals::refusal_of))]
pub fn refusal(
    world: &World,
    entries: &[Waiting],
    own: Option<Refusal>,
    caller: Caller,
    command: &Command,
) -> Option<Refusal>
    requires own { own ≡ own_refusal entries.now command.now }
    ensures { (next : ℕ) → result ≡ refusal_of (record { world = world.now.world; entries = entries.now; next = next }) caller command.now }
{
    if is_yours(caller, command) {
        first_condition(world, entries, own, command)
    } else {
        Some(Refusal::NotYours)
    }
}

/// The first condition that holds, whoever gives the command.
fn first_condition(
    world: &World,
    entries: &[Waiting],
    own: Option<Refusal>,
    command: &Command,
) -> Option<Refusal>
    requires own { own ≡ own_refusal entries.now command.now }
    ensures { result ≡ refused_with world.now.world entries.now command.now }
{
    match command {
        Command::Offering(row) => registrar::offering(world, row),
        Command::Student(row) => registrar::student(world, row),
        Command::Requests { student, asks } => registrar::requests(world, *student, asks),
        Command::Reserve(row) => registrar::reserve(world, row),
        Command::Unreserve(id) => registrar::unreserve(world, *id),
        Command::Expire { reservation, .. } => registrar::expire(world, *reservation),
        Command::Restrict(row) => registrar::restrict(world, row),
        Command::Unrestrict(id) => registrar::unrestrict(world, *id),
        Command::SetLimit { cap, limit } => registrar::set_limit(world, *cap, *limit),
        Command::Cancel(id) => registrar::cancel(world, *id),
        Command::Enrol { student, want, .. } => student::enrol(world, *student, want),
        Command::Drop { student, course } => student::drop(world, *student, *course),
        Command::Swap {
            student,
            give,
            take,
            ..
        } => student::swap(world, *student, give, take),
        Command::Wait {
            student,
            want,
            give,
            ..
        } => student::wait(world, entries, own, *student, want, *give),
        Command::Unwait { student, ticket } => student::unwait(
            world, entries, own, *student, *ticket,
        ),
        Command::Batch { students } => registrar::batch(world, entries, students.as_slice()),
    }
}

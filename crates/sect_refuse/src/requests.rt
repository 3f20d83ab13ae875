// The requests of a student, and those of them that wait.

ghost use Rattle.std.specs.Prelude.{◌≡◌, ◌≤◌, length, flat_map};
ghost use Rattle.std.specs.Option.{option_map};
ghost use Rattle.sect_people.specs.Fault.{fault_of};
ghost use Rattle.sect_model.specs.World.{course_ids as ids_of_courses};
ghost use Rattle.sect_model.specs.Batch.{asks_of as asks_in};
ghost use Rattle.sect_model.specs.Refusals.{waits_in as ones_of, waits_of as waits_among};

use sect_base::StudentId;
use sect_command::{Refusal, RowFault};
use sect_people::{Ask, RequestFault, check_asks};
use sect_space::World;

/// The first fault of requests as a refusal.
pub fn request_fault(world: &World, asks: &[Ask]) -> Option<Refusal>
    ensures { result ≡ option_map (λ f. Refusal.Row (RowFault.Request f)) (fault_of asks.now (ids_of_courses world.now.world)) }
{
    let fault = first_fault(world, asks)?;
    Some(Refusal::Row(RowFault::Request(fault)))
}

/// The first fault of requests, by the courses of the catalogue.
fn first_fault(world: &World, asks: &[Ask]) -> Option<RequestFault>
    ensures { result ≡ fault_of asks.now (ids_of_courses world.now.world) }
{
    check_asks(asks, world.catalogue().course_ids()).err()
}

/// The wait-listed course requests of at most 100 students.
pub fn waits_of(world: &World, students: &[StudentId]) -> usize
    requires { length students.now ≤ 100 }
    ensures value { result ≡ waits_among world.now.world students.now }
    ensures bound { result ≤ 2000 }
{
    let mut total = 0;
    for student in students {
        total += waits_of_one(world, *student);
    }
    total
}

/// The wait-listed course requests of a student.
fn waits_of_one(world: &World, student: StudentId) -> usize
    ensures value { result ≡ length (flat_map ones_of (asks_in world.now.world student)) }
    ensures bound { result ≤ 20 }
{
    world.recall_kept();
    waits_in(world.asks(student))
}

/// How many of the requests are wait-listed course requests.
fn waits_in(asks: &[Ask]) -> usize
    ensures value { result ≡ length (flat_map ones_of asks.now) }
    ensures bound { result ≤ length asks.now }
{
    let mut total = 0;
    for ask in asks {
        total += one_of(ask);
    }
    total
}

/// 1 for a wait-listed course request, and 0 for another.
fn one_of(ask: &Ask) -> usize
    ensures value { result ≡ length (ones_of ask.now) }
    ensures bound { result ≤ 1 }
{
    match ask {
        Ask::Course(ask) if ask.wait => 1,
        _ => 0,
    }
}

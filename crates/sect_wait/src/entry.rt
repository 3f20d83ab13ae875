// What a waiting entry asks of the search, and what the search finds for it.

ghost use Rattle.std.specs.Prelude.{◌≡◌, ◌≤◌, ◌+◌, [], ◌∷◌, filter, IfOk, IsTrue, OnOk};
ghost use Rattle.std.specs.Option.{option_map, option_to_list};
ghost use Rattle.sect_model.specs.World.{holds as is_held};
ghost use Rattle.sect_model.specs.Kept.{entry_fits};
ghost use Rattle.sect_model.specs.Settle.{move_of as move_of_entry, placement_of};
ghost use Rattle.sect_wait.specs.Placing.{KeepsLeft, RestNeedNone};
ghost use Rattle.sect_wait.specs.Touched.{AddsOnly};

use sect_base::{Choice, CourseId, Memory, Steps};
use sect_model::Waiting;
use sect_search::{LentMove, LentWant, OneOutcome, search_one, usual_budget};
use sect_space::World;
use std::alloc::Global;
use std::slice::from_ref;
use std::sync::ledger::Ledger;

/// What a round leaves: the tickets of entries that must be tried again, and of those whose searches were spent.
#[derive(Drop)]
pub struct Left {
    pub again: Vec<u64>,
    pub spent: Vec<u64>,
}

impl Left {
    /// Nothing is left. It takes no memory.
    pub fn none(alloc: Global) -> Left
        ensures again { result.again.items ≡ [] }
        ensures spent { result.spent.items ≡ [] }
    {
        Left {
            again: Vec::new(alloc),
            spent: Vec::new(alloc),
        }
    }
}

/// The choice by which the entry can be placed, None exactly where it can't be. It is left to be tried again where it can
/// be placed, and as spent where its search is; else it has no move.
pub fn placement<L: Ledger>(
    alloc: Global,
    world: &World,
    entry: &Waiting,
    left: &mut Left,
    steps: &mut Steps<L>,
) -> Result<Option<Choice>, Memory>
    requires { IsTrue (entry_fits world.now.world entry.now) }
    ensures choice { IfOk result (λ found. option_map (λ c. c ∷ []) found ≡ placement_of world.now.world entry.now) }
    ensures kept { KeepsLeft left.old left.new }
    ensures others { OnOk result (RestNeedNone world.now.world (entry.now ∷ []) left.new) }
    ensures again { OnOk result (AddsOnly entry.now.ticket left.old.again.items left.new.again.items) }
    ensures steps { steps.new ≤ steps.old + 1 }
{
    world.recall_kept();
    let mv = move_of(world, entry);
    let found = search_one(alloc, world, &mv, usual_budget(), steps)?;
    match &found {
        OneOutcome::Found(choice, _) => {
            left.again.push(entry.ticket)?;
            Ok(Some(*choice))
        }
        OneOutcome::Blocked(_, _) => Ok(None),
        OneOutcome::Spent(_) => {
            left.spent.push(entry.ticket)?;
            Ok(None)
        }
    }
}

/// The entry's move: it takes the want, and gives up the course where the student holds it.
fn move_of<'a>(world: &World, entry: &'a Waiting) -> LentMove<'a>
    ensures { result ≡ move_of_entry world.now.world entry.now }
{
    let want = LentWant::of(&entry.want);
    LentMove::one(entry.student, given(world, entry), want)
}

/// The courses that the entry gives up: its course, where the student holds it.
fn given<'a>(world: &World, entry: &'a Waiting) -> &'a [CourseId]
    ensures { result.now ≡ filter (is_held world.now.world entry.now.student) (option_to_list entry.now.give) }
{
    match &entry.give {
        Some(course) => {
            if world.holds(entry.student, *course) {
                from_ref(course)
            } else {
                &[]
            }
        }
        None => &[],
    }
}

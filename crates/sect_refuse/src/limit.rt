// Limits and counts that a change would pass.

ghost use Rattle.std.specs.Prelude.{◌≡◌, nat_lt};
ghost use Rattle.std.specs.Bool.{then_some};
ghost use Rattle.sect_base.specs.Capped.{capped as capped_of};
ghost use Rattle.sect_model.specs.Refusals.{
  level_of as level_under,
  limit_below as limit_fault,
  many_students as students_fault,
  credits_above as credits_fault,
};

use sect_base::{Cap, Level, Limit, capped};
use sect_command::Refusal;
use sect_people::StudentRow;
use sect_space::World;

/// The most students.
const MOST_STUDENTS: usize = 50_000;

/// The level whose limit is set.
fn level_of(cap: Cap) -> Level
    ensures { result ≡ level_under cap }
{
    match cap {
        Cap::Course(id) => Level::Course(id),
        Cap::Config(id) => Level::Config(id),
        Cap::Section(id) => Level::Section(id),
    }
}

/// A new limit is below the counted enrolments.
pub fn limit_below(world: &World, cap: Cap, limit: Limit) -> Option<Refusal>
    ensures { result ≡ limit_fault world.now.world cap limit }
{
    match limit {
        Limit::Places(places) => below(places, world.counted(level_of(cap))),
        Limit::Unlimited => None,
    }
}

/// The places are fewer than the counted enrolments.
fn below(places: u32, counted: u32) -> Option<Refusal>
    ensures { result ≡ then_some (nat_lt places counted) (Refusal.LimitBelow (capped_of counted)) }
{
    if places < counted {
        Some(Refusal::LimitBelow(capped(counted as usize)))
    } else {
        None
    }
}

/// A new student beyond the most.
pub fn many_students(world: &World, row: &StudentRow) -> Option<Refusal>
    ensures { result ≡ students_fault world.now.world row.now }
{
    let is_new = world.people().row(row.id).is_none();
    if is_new && world.people().students().len() >= MOST_STUDENTS {
        Some(Refusal::TooMany(50_001))
    } else {
        None
    }
}

/// A new maximum is below the credits held.
pub fn credits_above(world: &World, row: &StudentRow) -> Option<Refusal>
    ensures { result ≡ credits_fault world.now.world row.now }
{
    let credits = world.credits_held(row.id);
    if usize::from(row.max_credits) < credits {
        Some(Refusal::LimitBelow(capped(credits)))
    } else {
        None
    }
}

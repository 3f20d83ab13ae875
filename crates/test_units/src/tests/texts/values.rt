// What no line shows: copies that no command makes, the slots of a calendar, and the days of a clock.

use sect_base::{
    Calendar, ConfigId, CourseId, Day, Duplicate, Items, Limit, Meeting, Memory, Move, OfferingId,
    RestrictionId, Same, SectionId, StudentId,
};
use sect_command::{RollView, View};
use sect_edge::{Clock, MemClock};
use sect_reserve::{Audience, Includes, Restriction};
use std::alloc::Global;
use std::test::Fail;

/// Whether a copy of a value is the same.
fn is_kept<T: Duplicate + Same + Drop>(alloc: Global, value: &T) -> Result<bool, Memory> {
    Ok(value.copy(alloc)?.same(value))
}

/// A move that gives a course up.
fn a_move(alloc: Global) -> Result<Move, Memory> {
    let give = vec![in alloc; CourseId(1)]?;
    Ok(Move {
        student: StudentId(11),
        give: Items::from_vec(give),
        take: Items::from_vec(Vec::new(alloc)),
    })
}

/// Whether a copy of the move is the same.
fn move_is_kept(alloc: Global) -> Result<bool, Memory> {
    let mv = a_move(alloc)?;
    is_kept(alloc, &mv)
}

/// A restriction to a configuration.
fn a_restriction(alloc: Global) -> Result<Restriction, Memory> {
    let configs = vec![in alloc; ConfigId(21)]?;
    Ok(Restriction {
        id: RestrictionId(3),
        offering: OfferingId(2),
        audience: Audience::Course(CourseId(1)),
        includes: Includes {
            configs: Items::from_vec(configs),
            sections: Items::from_vec(Vec::new(alloc)),
        },
    })
}

/// Whether a copy of the restriction is the same.
fn restriction_is_kept(alloc: Global) -> Result<bool, Memory> {
    let restriction = a_restriction(alloc)?;
    is_kept(alloc, &restriction)
}

/// The view of an empty roll.
fn empty_roll(alloc: Global) -> View {
    View::Roll(RollView {
        section: SectionId(21),
        limit: Limit::Unlimited,
        held: Items::from_vec(Vec::new(alloc)),
    })
}

#[test]
fn copies_are_the_same(rt: HostRuntime) {
    let alloc = rt.alloc();
    assert_eq!(rt; move_is_kept(alloc), Ok(true));
    assert_eq!(rt; restriction_is_kept(alloc), Ok(true));
    assert!(rt; empty_roll(alloc).copy(alloc).is_ok());
}

#[test]
fn a_calendar_has_what_it_took(rt: HostRuntime) -> Result<(), Fail> {
    let taken = Meeting::new(21, 108, 10, 1).ok_or("no meeting")?;
    let mut calendar = Calendar::empty();
    calendar.add(&taken);
    assert!(rt; calendar.has(0, 108) && calendar.has(4, 117));
    assert!(rt; !calendar.has(1, 108) && !calendar.has(0, 118));
    Ok(())
}

/// Two days.
fn days() -> Option<(Day, Day)> {
    Some((Day::new(1)?, Day::new(2)?))
}

/// A clock of a day and a later one.
fn a_clock(alloc: Global, day: Day, later: Day) -> Result<MemClock, Memory> {
    let later = vec![in alloc; later]?;
    Ok(MemClock::new(day, later))
}

/// The number of the day that is given next.
fn today(clock: &mut MemClock) -> i32 {
    clock.today().get()
}

#[test]
fn the_last_day_is_given_again(rt: HostRuntime) -> Result<(), Fail> {
    let (day, later) = days().ok_or("no such day")?;
    let mut clock = a_clock(rt.alloc(), day, later)?;
    assert_eq!(rt; today(&mut clock), 1);
    assert_eq!(rt; today(&mut clock), 2);
    assert_eq!(rt; today(&mut clock), 2);
    Ok(())
}

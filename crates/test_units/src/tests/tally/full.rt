// A log that takes no more.

use super::{day, id};
use sect_edge::MemKeeper;
use sect_once::{Answer, Desk, Tally};
use std::alloc::Global;
use std::test::Fail;

/// The requests that a log takes.
const MOST: u64 = 1_048_576;

/// A desk whose requests add to a sum.
type Sums = Desk<Tally, MemKeeper>;

/// Asks the registrar's request with this number to add so much.
fn add(desk: &mut Sums, number: u64, count: u8) -> Answer<u64> {
    desk.ask(id(number), day(0), count)
}

/// A desk that was asked to add one, with each number below the count. None where one isn't answered by its number as its
/// place, and the next as the sum.
fn ones(alloc: Global, count: u64) -> Option<Sums> {
    let Ok(mut desk) = Desk::open(alloc, MemKeeper::new(Vec::new(alloc), Vec::new(alloc))) else {
        return None;
    };
    for number in 0..count {
        match add(&mut desk, number, 1) {
            Answer::Done { place, reply }
                if u64::from(place) == number && reply == number.wrapping_add(1) => {}
            _ => return None,
        }
    }
    Some(desk)
}

#[test]
fn a_full_log_answers_repeats_alone(rt: HostRuntime) -> Result<(), Fail> {
    let mut desk = ones(rt.alloc(), MOST).ok_or("a request isn't answered")?;
    assert!(rt; matches!(add(&mut desk, MOST, 1), Answer::LogFull));
    assert!(rt; matches!(add(&mut desk, 0, 1), Answer::Done { place: 0, reply: 1 }));
    assert!(rt; matches!(add(&mut desk, 0, 2), Answer::NumberReused(0)));
    Ok(())
}

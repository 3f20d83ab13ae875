// It is asked, over a keeper in memory that may fail.

use super::{day, id};
use sect_base::Chronicle;
use sect_edge::MemKeeper;
use sect_once::{Answer, Desk, OpenFault, Tally};
use std::alloc::Global;
use std::test::Fail;

/// The desk of these rows, of which the appends with these numbers fail.
fn desk_of(
    alloc: Global,
    rows: Vec<Vec<u8>>,
    fail: Vec<u64>,
) -> Result<Desk<Tally, MemKeeper>, OpenFault> {
    match Desk::open(alloc, MemKeeper::new(rows, fail)) {
        Ok(desk) => Ok(desk),
        Err((fault, _)) => Err(fault),
    }
}

/// Place and reply of an answer that is Done.
fn done(answer: Answer<u64>) -> Option<(u32, u64)> {
    match answer {
        Answer::Done { place, reply } => Some((place, reply)),
        _ => None,
    }
}

/// Asks the numbers from 0 as commands of 1, and tells how many were done.
fn ask_ones(desk: &mut Desk<Tally, MemKeeper>, count: u64) -> u64 {
    let mut acted = 0u64;
    for number in 0..count {
        if let Some((_, _)) = done(desk.ask(id(number), day(0), 1)) {
            acted = acted.wrapping_add(1);
        }
    }
    acted
}

#[test]
fn a_repeat_has_its_kept_reply(rt: HostRuntime) -> Result<(), Fail> {
    let alloc = rt.alloc();
    let Ok(mut desk) = desk_of(alloc, Vec::new(alloc), Vec::new(alloc)) else {
        panic!(rt; "it opens")
    };
    assert!(rt; done(desk.ask(id(0), day(0), 5)) == Some((0, 5)));
    assert!(rt; done(desk.ask(id(1), day(0), 7)) == Some((1, 12)));
    assert!(rt; done(desk.ask(id(0), day(9), 5)) == Some((0, 5)));
    assert!(rt; matches!(desk.ask(id(0), day(0), 6), Answer::NumberReused(0)));
    assert_eq!(rt; desk.acted(), 2);
    assert!(rt; matches!(desk.look(&()), Ok(12)));
    Ok(())
}

#[test]
fn a_fault_of_the_keeper_is_undone(rt: HostRuntime) -> Result<(), Fail> {
    let alloc = rt.alloc();
    let Ok(mut desk) = desk_of(alloc, Vec::new(alloc), vec![in alloc; 4]?) else {
        panic!(rt; "it opens")
    };
    assert_eq!(rt; ask_ones(&mut desk, 3), 3);
    assert!(rt; matches!(desk.ask(id(3), day(0), 1), Answer::KeeperFault));
    assert_eq!(rt; desk.acted(), 3);
    assert_eq!(rt; desk.len(), 4);
    assert!(rt; matches!(desk.look(&()), Ok(3)));
    assert!(rt; done(desk.ask(id(3), day(0), 1)) == Some((3, 4)));
    assert_eq!(rt; desk.len(), 5);
    Ok(())
}

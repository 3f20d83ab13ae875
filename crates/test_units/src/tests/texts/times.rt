// Why a text is no meeting, which no line tells.

use sect_base::{TimeFault, read_meeting};

#[test]
fn a_meeting_that_is_none_tells_its_fault(rt: HostRuntime) {
    let cases: [(&[u8], TimeFault); 5] = [
        (b"FM/0900-0950/1", TimeFault::BadDays),
        (b"M/0903-0950/1", TimeFault::BadTime),
        (b"M/2300-0030/1", TimeFault::PastMidnight),
        (b"M/2300-2405/1", TimeFault::PastMidnight),
        (b"M/0900-0950/1.2", TimeFault::BadWeeks),
    ];
    for (text, fault) in cases {
        assert!(rt; read_meeting(text) == Err(fault));
    }
}

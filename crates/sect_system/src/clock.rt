// The day by the machine's clock.
ghost use Rattle.std.specs.Prelude.{None};

use sect_base::Day;
use sect_edge::Clock;
use std::time::{SystemTime, UNIX_EPOCH};

const SECONDS_A_DAY: u64 = 86_400;

/// The day in UTC by the machine's clock; where that gives none from 1970 to 2199, the day that it gave last, at first
/// 1970-01-01.
#[derive(Drop)]
pub struct RealClock {
    rt: HostRuntime,
    last: Day,
}

impl RealClock {
    /// A clock that hasn't told a day.
    pub fn new(rt: HostRuntime) -> RealClock {
        match Day::new(0) {
            Some(last) => RealClock { rt, last },
            None => unreachable!(),
        }
    }
}

impl Clock for RealClock {
    ghost days = { λ c. None };

    fn today(&mut self) -> Day {
        if let Some(day) = day_of(&self.rt) {
            self.last = day;
        }
        self.last
    }
}

/// The day by the machine's clock, where it tells one.
fn day_of(rt: &HostRuntime) -> Option<Day> {
    let now = SystemTime::now(rt).ok()?;
    let since = now.duration_since(UNIX_EPOCH).ok()?;
    Day::new(i32::try_from(since.as_secs() / SECONDS_A_DAY).ok()?)
}

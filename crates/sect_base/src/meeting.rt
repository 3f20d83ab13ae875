// Weekly meetings.

ghost use Rattle.std.specs.Prelude.{◌≡◌};
ghost use Rattle.std.specs.Option.{SomeIff};
ghost use Rattle.sect_base.specs.Pattern.{Pattern, IsPattern, meetings_overlap};

use std::marker::Model;

/// The weekdays, slots of five minutes and weeks at which a class meets. Contracts see it as a `Pattern`.
#[derive(Clone, Copy, PartialEq, Eq)]
pub struct Meeting {
    days: u8,
    start: u16,
    slots: u16,
    weeks: u64,
}

impl Model for Meeting {
    ghost use Rattle.sect_base.specs.Pattern.{Pattern, IsPattern};

    ghost Value = { Pattern };

    ghost view = { λ m. record { days = m.days; start = m.start; slots = m.slots; weeks = m.weeks } };

    ghost inverse = { λ p. record { days = p.days; start = p.start; slots = p.slots; weeks = p.weeks } };

    ghost invariant = { λ m. IsPattern (record { days = m.days; start = m.start; slots = m.slots; weeks = m.weeks }) };
}

impl Meeting {
    /// The meeting on these weekdays (bit 0 is Monday, bit 6 Sunday), from this slot of the day on (0 to 287), of so many
    /// slots, in these weeks (bit 0 is week 1, bit 59 week 60). None exactly where a set is empty or has another bit,
    /// there is no slot, or the slots don't end by midnight.
    pub fn new(days: u8, start: u16, slots: u16, weeks: u64) -> Option<Meeting>
        ensures { let p : Pattern = record { days = days; start = start; slots = slots; weeks = weeks } in SomeIff result (IsPattern p) p }
    {
        let right_days = 0 < days && days < 128;
        let right_time = start < 288 && 0 < slots && slots <= 288 - start;
        let right_weeks = 0 < weeks && weeks < 1 << 60;
        if right_days && right_time && right_weeks {
            Some(Meeting {
                days,
                start,
                slots,
                weeks,
            })
        } else {
            None
        }
    }

    /// The weekdays, from bit 0 for Monday.
    pub fn days(&self) -> u8
        ensures days { result ≡ self.now.days }
        ensures meeting { IsPattern self.now }
    {
        self.days
    }

    /// The first slot of five minutes, from 0 at midnight.
    pub fn start(&self) -> u16
        ensures start { result ≡ self.now.start }
        ensures meeting { IsPattern self.now }
    {
        self.start
    }

    /// How many slots it takes.
    pub fn slots(&self) -> u16
        ensures slots { result ≡ self.now.slots }
        ensures meeting { IsPattern self.now }
    {
        self.slots
    }

    /// The weeks, from bit 0 for week 1.
    pub fn weeks(&self) -> u64
        ensures weeks { result ≡ self.now.weeks }
        ensures meeting { IsPattern self.now }
    {
        self.weeks
    }
}

/// Whether a weekday, a week and a slot is in both.
pub fn overlaps(a: &Meeting, b: &Meeting) -> bool
    ensures { result ≡ meetings_overlap a.now b.now }
{
    let same_day = a.days & b.days != 0;
    let same_week = a.weeks & b.weeks != 0;
    let same_slot = a.start < b.start + b.slots && b.start < a.start + a.slots;
    same_day && same_week && same_slot
}

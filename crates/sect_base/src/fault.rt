// What is wrong with a text.

/// Why a text says no meeting or no day. Faults of a meeting are found in this order.
#[derive(Clone, Copy, Debug, PartialEq, Eq)]
pub enum TimeFault {
    /// The weekdays aren't letters of `MTWRFSU`, at least one, each at most once and in this order.
    BadDays,
    /// The time isn't `HHMM-HHMM` in steps of five minutes, or begins after 23:55.
    BadTime,
    /// The time ends after 24:00 or not after its start.
    PastMidnight,
    /// The weeks aren't the one spelling of some of the weeks 1 to 60.
    BadWeeks,
    /// The text isn't `YYYY-MM-DD` of a day from 1970 to 2199.
    BadDate,
}

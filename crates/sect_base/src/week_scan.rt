// Reads sets of weeks.

ghost use Rattle.std.specs.Prelude.{◌≡◌, ◌↔◌, ℕ, ◌<◌, ◌≤◌, ◌^◌, IsTrue, IfSome, IfNone};
ghost use Rattle.sect_base.specs.WeekScan.{run_set, weeks_of_scan, scan_after, weeks_in};
ghost use Rattle.sect_base.specs.WeekText.{weeks_text, IsWeeksText};

use crate::spelling::MeetingText;
use crate::week_text::print_weeks;
use crate::weeks::week_range;

/// The weeks of which this is the printed form. A text is read leniently, and then held against the printed form of
/// what was read.
pub(crate) fn read_weeks(text: &[u8]) -> Option<u64>
    ensures found { IfSome result (IsWeeksText text.now) }
    ensures none { IfNone result ((weeks : ℕ) → IsWeeksText text.now weeks → ⊥) }
{
    let weeks = weeks_in(text);
    if weeks != 0 && spells_weeks(text, weeks) {
        Some(weeks)
    } else {
        None
    }
}

/// Whether this is the printed form of these weeks.
fn spells_weeks(text: &[u8], weeks: u64) -> bool
    requires { weeks < 2 ^ 60 }
    ensures { IsTrue result ↔ (text.now ≡ weeks_text weeks) }
{
    let mut spelling = MeetingText::empty();
    print_weeks(&mut spelling, weeks);
    spelling.as_bytes() == text
}

/// The weeks that the text says, if it is the printed form of some.
fn weeks_in(text: &[u8]) -> u64
    ensures weeks { result ≡ weeks_in text.now }
    ensures bound { result < 2 ^ 60 }
{
    let mut scan = Scan::start();
    for byte in text {
        scan = scan.after(*byte);
    }
    scan.weeks()
}

/// What was read: whole runs, the first week of the run that is open (0 where it has but one number), and its number.
#[derive(Clone, Copy)]
struct Scan {
    weeks: u64,
    first: u8,
    number: u8,
}

impl Scan {
    /// The scan before the first byte: no weeks, and no number read.
    fn start() -> Scan
        ensures { result ≡ record { weeks = 0; first = 0; number = 0 } }
    {
        Scan {
            weeks: 0,
            first: 0,
            number: 0,
        }
    }

    /// The scan behind one byte more.
    fn after(self, byte: u8) -> Scan
        ensures { result ≡ scan_after self byte }
    {
        match byte {
            b'0'..=b'9' => Scan {
                number: self.number % 10 * 10 + (byte - b'0'),
                ..self
            },
            b'-' => Scan {
                weeks: self.weeks,
                first: self.number,
                number: 0,
            },
            _ => Scan {
                weeks: self.weeks(),
                first: 0,
                number: 0,
            },
        }
    }

    /// The weeks of the scan, with the run whose end is the number read last.
    fn weeks(self) -> u64
        ensures { result ≡ weeks_of_scan self }
    {
        let first = if self.first == 0 {
            self.number
        } else {
            self.first
        };
        self.weeks | run_set(first, self.number)
    }
}

/// The run of weeks between two numbers of 1 to 60.
fn run_set(first: u8, last: u8) -> u64
    ensures { result ≡ run_set first last }
{
    if 0 < first && first <= last && last <= 60 {
        week_range(u32::from(first - 1), u32::from(last - 1))
    } else {
        0
    }
}

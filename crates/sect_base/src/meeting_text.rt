// The texts of meetings.

ghost use Rattle.std.specs.Prelude.{◌≡◌, ◌==◌, IfOk, IfErr, Ok, position};
ghost use Rattle.sect_base.specs.MeetingText.{meeting_text, before_slash, after_slash, IsFaultOf};
ghost use Rattle.sect_base.specs.Pattern.{Pattern, IsPattern};

use crate::clock_text::{print_time, read_time};
use crate::spelling::MeetingText;
use crate::week_scan::read_weeks;
use crate::week_text::print_weeks;
use crate::weekday_text::{print_days, read_days};
use crate::{Meeting, TimeFault};

const MIDNIGHT: u16 = 288;

/// The meeting's text, as `MWF/0900-0950/1-15`: weekdays, time of day and weeks.
pub fn print_meeting(m: &Meeting) -> MeetingText
    ensures { result ≡ meeting_text m.now }
{
    let mut text = MeetingText::empty();
    print_days(&mut text, m.days());
    text.push(b'/');
    print_time(&mut text, m.start(), m.start() + m.slots());
    text.push(b'/');
    print_weeks(&mut text, m.weeks());
    text
}

/// The meeting that the text says. Each meeting has one spelling, which is the one that `print_meeting` gives. The
/// fault is the first of `TimeFault` that the text has; it is never BadDate.
pub fn read_meeting(text: &[u8]) -> Result<Meeting, TimeFault>
    ensures ok { IfOk result (λ m. text.now ≡ meeting_text m) }
    ensures printed { (m : Pattern) → IsPattern m → text.now ≡ meeting_text m → result ≡ Ok m }
    ensures fault { IfErr result (IsFaultOf text.now) }
{
    let (days, rest) = cut_at_slash(text);
    let (time, weeks) = cut_at_slash(rest);
    let Some(days) = read_days(days) else {
        return Err(TimeFault::BadDays);
    };
    let Some((start, end)) = read_time(time) else {
        return Err(TimeFault::BadTime);
    };
    if end <= start || end > MIDNIGHT {
        return Err(TimeFault::PastMidnight);
    }
    let Some(weeks) = read_weeks(weeks) else {
        return Err(TimeFault::BadWeeks);
    };
    match Meeting::new(days, start, end - start, weeks) {
        Some(meeting) => Ok(meeting),
        None => unreachable!(),
    }
}

/// What stands before and after the first slash; all and nothing where there is none.
fn cut_at_slash(text: &[u8]) -> (&[u8], &[u8])
    ensures before { result.0.now ≡ before_slash text.now }
    ensures after { result.1.now ≡ after_slash text.now }
{
    match slash_in(text) {
        Some(at) => (&text[..at], &text[at + 1..]),
        None => (text, &[]),
    }
}

/// The place of the first slash.
fn slash_in(text: &[u8]) -> Option<usize>
    ensures { result ≡ position (λ byte. byte == 47) text.now }
{
    text.iter().position(|byte| *byte == b'/')
}

// Reading meetings whose weeks may be said by days of a term. It takes memory.

ghost use Rattle.std.specs.Prelude.{◌≡◌, ◌<◌, ◌^◌, ◌++◌, ◌∷◌, [], IfOk, IfSome};
ghost use Rattle.sect_words.specs.Parts.{joined, pieces};
ghost use Rattle.sect_words.specs.Reading.{Means, Reads, all_of};
ghost use Rattle.sect_words.specs.ReadingWords.{list_of};
ghost use Rattle.sect_words.specs.Times.{dated_at, dated_of, dates_of, days_at, term_meeting_of, weeks_between};

use crate::fault::Fault;
use crate::parts::Parts;
use crate::readable::Readable;
use crate::same::same_bytes;
use sect_base::{Day, Items, Meeting, Memory, weeks_of};
use std::alloc::Global;

/// The meetings of words joined by pluses, or none for a dash. Their weeks may be said as `DAY..DAY` where there is
/// a term. `Bad` exactly where a word is no meeting, unless memory ran out.
#[tactic(auto, unfolding(crate::specs::ReadingWords::list_of))]
pub fn read_meetings(alloc: Global, term: Option<Day>, word: &[u8]) -> Result<Items<Meeting>, Fault>
    ensures { Means result (list_of 43 (term_meeting_of term) word.now) }
{
    if same_bytes(word, b"-") {
        return Ok(Items::from_vec(Vec::new(alloc)));
    }
    read_all_meetings(alloc, &term, word)
}

/// The meetings of all words.
fn read_all_meetings(
    alloc: Global,
    term: &Option<Day>,
    word: &[u8],
) -> Result<Items<Meeting>, Fault>
    ensures { Means result (all_of (term_meeting_of term.now) (pieces 43 word.now)) }
{
    let mut parts = Parts::new(word, b'+');
    let mut items = Vec::new(alloc);
    while let Some(part) = parts.next() {
        items.push(read_term_meeting(alloc, term, part)?)?;
    }
    Ok(Items::from_vec(items))
}

/// The meeting of a word.
fn read_term_meeting(alloc: Global, term: &Option<Day>, word: &[u8]) -> Result<Meeting, Fault>
    ensures { Means result (term_meeting_of term.now word.now) }
{
    match Meeting::read(alloc, word) {
        Ok(meeting) => Ok(meeting),
        Err(Fault::Memory) => Err(Fault::Memory),
        Err(Fault::Bad) => match term {
            Some(term) => read_dated(alloc, *term, word),
            None => Err(Fault::Bad),
        },
    }
}

/// The meeting of a word whose weeks are said as `DAY..DAY`.
fn read_dated(alloc: Global, term: Day, word: &[u8]) -> Result<Meeting, Fault>
    ensures { Means result (dated_of term word.now) }
{
    let mut parts = Parts::new(word, b'/');
    let meeting = read_dated_parts(alloc, term, &mut parts)?;
    parts.end()?;
    Ok(meeting)
}

/// The meeting of its days, its time and the dates of its weeks.
#[tactic(auto, unfolding(crate::specs::Times::dated_at))]
fn read_dated_parts(alloc: Global, term: Day, parts: &mut Parts) -> Result<Meeting, Fault>
    ensures { Reads result parts.new (dated_at term parts.old) }
{
    let Some(days) = parts.next() else {
        return Err(Fault::Bad);
    };
    let Some(time) = parts.next() else {
        return Err(Fault::Bad);
    };
    let Some(dates) = parts.next() else {
        return Err(Fault::Bad);
    };
    let weeks = read_dates(alloc, term, dates)?;
    let plain = first_week(alloc, days, time)?;
    let meeting = Meeting::read(alloc, plain.as_slice())?;
    Ok(in_weeks(&meeting, weeks))
}

/// The weeks of a term that `DAY..DAY` meets.
#[tactic(auto, unfolding(crate::specs::Times::dates_of))]
fn read_dates(alloc: Global, term: Day, word: &[u8]) -> Result<u64, Fault>
    ensures weeks { Means result (dates_of term word.now) }
    ensures some { IfOk result (λ weeks. 0 < weeks) }
    ensures bound { IfOk result (λ weeks. weeks < 2 ^ 60) }
{
    let mut parts = Parts::new(word, b'.');
    let (first, last) = read_days(alloc, &mut parts)?;
    parts.end()?;
    match term_weeks(term, first, last) {
        Some(weeks) => Ok(weeks),
        None => Err(Fault::Bad),
    }
}

/// The first and the last day.
#[tactic(auto, unfolding(crate::specs::Times::days_at))]
fn read_days(alloc: Global, parts: &mut Parts) -> Result<(Day, Day), Fault>
    ensures { Reads result parts.new (days_at parts.old) }
{
    let first = parts.word(alloc)?;
    parts.key(b"")?;
    let last = parts.word(alloc)?;
    Ok((first, last))
}

/// The text of a meeting on these days and at this time in week 1.
fn first_week(alloc: Global, days: &[u8], time: &[u8]) -> Result<Vec<u8>, Memory>
    ensures { IfOk result (λ text. text.items ≡ joined 47 (days.now ∷ time.now ∷ (49 ∷ []) ∷ [])) }
{
    let mut text = Vec::from_slice(alloc, days)?;
    text.push(b'/')?;
    text.extend_from_slice(time)?;
    text.extend_from_slice(b"/1")?;
    Ok(text)
}

/// The weeks of a term that meet the days from the first to the last.
fn term_weeks(term: Day, first: Day, last: Day) -> Option<u64>
    ensures value { result ≡ weeks_between term first last }
    ensures some { IfSome result (λ weeks. 0 < weeks) }
    ensures bound { IfSome result (λ weeks. weeks < 2 ^ 60) }
{
    weeks_of(term, first, last)
}

/// The meeting in other weeks.
fn in_weeks(meeting: &Meeting, weeks: u64) -> Meeting
    requires some { 0 < weeks }
    requires bound { weeks < 2 ^ 60 }
    ensures { result ≡ record { days = meeting.now.days; start = meeting.now.start; slots = meeting.now.slots; weeks = weeks } }
{
    match Meeting::new(meeting.days(), meeting.start(), meeting.slots(), weeks) {
        Some(moved) => moved,
        None => unreachable!(),
    }
}

// The slots of a week that are taken.

ghost use Rattle.std.specs.Prelude.{◌≡◌, ◌↔◌, ◌<◌, ◌≤◌, ◌+◌, ◌*◌, ◌&&◌, ◌||◌, ℕ, IsTrue, false, nat_le, nat_lt};
ghost use Rattle.sect_base.specs.Calendar.{is_set, is_of_word, takes_pair, HasPairsOf, IsClearFor};
ghost use Rattle.sect_base.specs.Pattern.{Pattern, has_bit, meetings_overlap};

use crate::Meeting;
use crate::bits::{bits_below, is_bit_set, share_bit};
use std::marker::Model;

const DAYS: u8 = 7;

const DAY_WORDS: usize = 5;

const WORDS: usize = 35;

/// Which of the 288 slots of each of the seven weekdays are taken, in 280 bytes. Contracts see it as its 35 words.
#[derive(Clone, Copy)]
pub struct Calendar {
    words: [u64; WORDS],
}

impl Model for Calendar {
    ghost use Rattle.std.specs.Prelude.{ℕ, List};

    ghost Value = { List ℕ };

    ghost view = { λ c. c.words };

    ghost inverse = { λ words. record { words = words } };
}

impl Calendar {
    /// The calendar in which nothing is taken.
    pub fn empty() -> Calendar
        ensures { (day slot : ℕ) → is_set result day slot ≡ false }
    {
        Calendar { words: [0; WORDS] }
    }

    /// Takes the meeting's slots on its weekdays, and leaves the rest.
    pub fn add(&mut self, m: &Meeting)
        ensures { (day slot : ℕ) → slot < 288 → is_set self.new day slot ≡ (is_set self.old day slot || takes_pair m.now day slot) }
    {
        let days = u64::from(m.days());
        let start = m.start();
        let end = start + m.slots();
        for word in start / 64..(end + 63) / 64 {
            self.take(days, word, slots_of(start, end, word));
        }
    }

    /// Whether this slot (0 to 287) of this day (0 for Monday to 6) is taken.
    #[tactic(auto, unfolding(crate::specs::Calendar::is_set))]
    pub fn has(&self, day: u8, slot: u16) -> bool
        requires day { day ≤ 6 }
        requires slot { slot ≤ 287 }
        ensures { result ≡ is_set self.now day slot }
    {
        is_bit_set(self.words[word_at(day, slot / 64)], (slot % 64) as u8)
    }

    /// Whether none of the meeting's slots on its weekdays is taken. Its weeks aren't looked at. A meeting that is
    /// clear overlaps none whose slots are all taken.
    pub fn clear(&self, m: &Meeting) -> bool
        ensures clear { IsTrue result ↔ IsClearFor self.now m.now }
        ensures no_overlap { IsTrue result → (other : Pattern) → HasPairsOf self.now other → meetings_overlap m.now other ≡ false }
    {
        let days = u64::from(m.days());
        let start = m.start();
        let end = start + m.slots();
        for word in start / 64..(end + 63) / 64 {
            if !self.is_free(days, word, slots_of(start, end, word)) {
                return false;
            }
        }
        true
    }

    /// Takes these slots of the word with this number on each of the days.
    fn take(&mut self, days: u64, word: u16, slots: u64)
        requires { word < 5 }
        ensures { (d slot : ℕ) → slot < 288 → is_set self.new d slot ≡ (is_set self.old d slot || nat_lt d 7 && is_of_word days word slots d slot) }
    {
        for day in 0..DAYS {
            if is_bit_set(days, day) {
                self.words[word_at(day, word)] |= slots;
            }
        }
    }

    /// Whether none of these slots of the word with this number is taken on any of the days.
    fn is_free(&self, days: u64, word: u16, slots: u64) -> bool
        requires { word < 5 }
        ensures { IsTrue result ↔ ((d slot : ℕ) → d < 7 → IsTrue (is_of_word days word slots d slot) → is_set self.now d slot ≡ false) }
    {
        for day in 0..DAYS {
            if is_bit_set(days, day) && share_bit(self.words[word_at(day, word)], slots) {
                return false;
            }
        }
        true
    }
}

/// The place of the day's word with this number.
fn word_at(day: u8, word: u16) -> usize
    requires day { day < 7 }
    requires word { word < 5 }
    ensures { result ≡ 5 * day + word }
{
    DAY_WORDS * usize::from(day) + usize::from(word)
}

/// The bits of the day's word with this number, for the slots from `start` until before `end`.
fn slots_of(start: u16, end: u16, word: u16) -> u64
    requires { word < 5 }
    ensures { (bit : ℕ) → bit < 64 → has_bit result bit ≡ (nat_le start (64 * word + bit) && nat_lt (64 * word + bit) end) }
{
    bits_below(end.saturating_sub(64 * word)) & !bits_below(start.saturating_sub(64 * word))
}

// Passing words of a line, each by its form.

ghost use Rattle.std.specs.Prelude.{◌≡◌, ◌<◌, ◌≤◌, ◌||◌, ℕ, Bool, List, IfOk, Option, codes, length};
ghost use Rattle.std.specs.Option.{is_some};
ghost use Rattle.sect_words.specs.Reading.{Means, later_parts};
ghost use Rattle.sect_check.specs.declared.form.Halt.TheVariants as halts;
ghost use Rattle.sect_check.specs.Fits.{fits as fits_form};
ghost use Rattle.sect_check.specs.Walks.{Walk, Walks, behind_mark, each_walk, key_walk, level_walk, option_walk, pair_walk, word_walk};

use crate::form::{Form, Halt};
use sect_base::{Caller, Curriculum, Day, Items, Limit, Meeting, Memory};
use sect_reserve::Audience;
use sect_words::{Fault, Parts, Readable, read_between};
use std::alloc::Global;

/// Whether a value was read.
fn is_read<T: Drop>(read: Result<T, Fault>) -> Result<bool, Memory>
    ensures { (value : Option T) → Means read value → IfOk result (λ found. found ≡ is_some value) }
{
    match read {
        Ok(_) => Ok(true),
        Err(Fault::Bad) => Ok(false),
        Err(Fault::Memory) => Err(Memory),
    }
}

/// Whether the word has the form.
#[tactic(auto, unfolding(crate::specs::Fits::fits))]
pub(crate) fn fits(alloc: Global, form: Form, word: &[u8]) -> Result<bool, Memory>
    ensures { IfOk result (λ found. found ≡ fits_form form word.now) }
{
    match form {
        Form::Caller => is_read(Caller::read(alloc, word)),
        Form::Number => is_read(u64::read(alloc, word)),
        Form::Id => is_read(u32::read(alloc, word)),
        Form::Ids => is_read(Items::<u32>::read(alloc, word)),
        Form::OptionalId => is_read(Option::<u32>::read(alloc, word)),
        Form::Limit => is_read(Limit::read(alloc, word)),
        Form::Credits => is_read(read_between(word, 0, 30)),
        Form::MostCredits => is_read(u16::read(alloc, word)),
        Form::Day => is_read(Day::read(alloc, word)),
        Form::OptionalDay => is_read(Option::<Day>::read(alloc, word)),
        Form::Meeting => is_read(Meeting::read(alloc, word)),
        Form::Meetings => is_read(Items::<Meeting>::read(alloc, word)),
        Form::Audience => is_read(Audience::read(alloc, word)),
        Form::Curriculum => is_read(Curriculum::read(alloc, word)),
        Form::UpTo(most) => is_read(read_between(word, 1, most)),
        _ => Ok(false),
    }
}

/// Passes a word of this form.
#[tactic(auto, unfolding(crate::specs::Walks::word_walk))]
pub(crate) fn word(alloc: Global, form: Form, words: &mut Parts) -> Result<(), Halt>
    ensures walks { Walks result words.new (word_walk form words.old) }
    ensures shorter { IfOk result (λ _. length words.new < length words.old) }
{
    let Some(first) = words.first() else {
        return Err(Halt::Bad(form));
    };
    if !fits(alloc, form, first)? {
        return Err(Halt::Bad(form));
    }
    words.take();
    Ok(())
}

/// Passes a key, which stands for this form.
#[tactic(auto, unfolding(crate::specs::Walks::key_walk))]
pub(crate) fn key(key: &[u8], form: Form, words: &mut Parts) -> Result<(), Halt>
    ensures walks { Walks result words.new (key_walk key.now form words.old) }
    ensures longest { length words.new ≤ length words.old }
{
    if words.takes(key) {
        Ok(())
    } else {
        Err(Halt::Bad(form))
    }
}

/// Passes a key and a word of this form, where the key stands there.
#[tactic(auto, unfolding(crate::specs::Walks::option_walk))]
pub(crate) fn option(alloc: Global, key: &[u8], form: Form, words: &mut Parts) -> Result<(), Halt>
    ensures walks { Walks result words.new (option_walk key.now form words.old) }
    ensures longest { IfOk result (λ _. length words.new ≤ length words.old) }
{
    if words.takes(key) {
        word(alloc, form, words)
    } else {
        Ok(())
    }
}

/// Passes a mark, where it stands there.
pub(crate) fn mark(key: &[u8], words: &mut Parts)
    ensures walks { words.new ≡ behind_mark key.now words.old }
    ensures longest { length words.new ≤ length words.old }
{
    let _ = words.takes(key);
}

/// Passes a key that stands there, and a word of this form.
pub(crate) fn pair(alloc: Global, form: Form, words: &mut Parts) -> Result<(), Halt>
    ensures walks { Walks result words.new (pair_walk form words.old) }
    ensures shorter { IfOk result (λ _. length words.new < length words.old) }
{
    words.take();
    word(alloc, form, words)
}

/// Passes the word of a level.
#[tactic(auto, unfolding(crate::specs::Walks::level_walk))]
pub(crate) fn level(words: &mut Parts) -> Result<(), Halt>
    ensures { Walks result words.new (level_walk words.old) }
{
    if words.begins(b"course") || words.begins(b"config") || words.begins(b"section") {
        words.take();
        Ok(())
    } else {
        Err(Halt::Bad(Form::Level))
    }
}

/// Words that begin with a key of their own.
pub(crate) trait Group {
    /// Whether such words start.
    ghost starts: { List (List ℕ) → Bool };

    /// The walk over them, where they start.
    ghost walk: { List (List ℕ) → Walk };

    /// Whether such words start.
    fn starts(words: &Parts) -> bool
        ensures { result ≡ starts words.now };

    /// Passes the words, where they start.
    fn pass(alloc: Global, words: &mut Parts) -> Result<(), Halt>
        ensures walks { Walks result words.new (walk words.old) }
        ensures shorter { IfOk result (λ _. length words.new < length words.old) };
}

/// Passes groups in a row, as long as another one starts.
pub(crate) fn each<G: Group>(alloc: Global, words: &mut Parts) -> Result<(), Halt>
    ensures walks { Walks result words.new (each_walk G.starts G.walk words.old) }
    ensures longest { IfOk result (λ _. length words.new ≤ length words.old) }
{
    while G::starts(words) {
        G::pass(alloc, words)?;
    }
    Ok(())
}

impl From<Memory> for Halt {
    ghost from_gives = { λ _ halt. halt ≡ halts.Memory };

    fn from(_: Memory) -> Self {
        Halt::Memory
    }
}

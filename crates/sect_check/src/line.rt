// The words of a line, from its day to its end.

ghost use Rattle.std.specs.Prelude.{◌≡◌};
ghost use Rattle.sect_check.specs.Walks.{Walks, day_walk, end_walk, front_walk, verb_walk, verb_at, request_walk};

use crate::commands::arguments;
use crate::form::{Form, Halt};
use crate::walk::{fits, word};
use sect_read::{Verb, behind_at, verb_of};
use sect_words::Parts;
use std::alloc::Global;

/// Passes the day, where the line names one.
#[tactic(auto, unfolding(crate::specs::Walks::day_walk))]
fn day(alloc: Global, words: &mut Parts) -> Result<(), Halt>
    ensures { Walks result words.new (day_walk words.old) }
{
    let Some(text) = behind_at(words) else {
        return Ok(());
    };
    if !fits(alloc, Form::Day, text)? {
        return Err(Halt::Bad(Form::DayMark));
    }
    words.take();
    Ok(())
}

/// Passes the day, the caller and the number.
#[tactic(auto, unfolding(crate::specs::Walks::front_walk))]
fn front(alloc: Global, words: &mut Parts) -> Result<(), Halt>
    ensures { Walks result words.new (front_walk words.old) }
{
    day(alloc, words)?;
    word(alloc, Form::Caller, words)?;
    word(alloc, Form::Number, words)
}

/// The command that the next word names.
fn next_verb(words: &Parts) -> Option<Verb>
    ensures { result ≡ verb_at words.now }
{
    match words.first() {
        Some(word) => verb_of(word),
        None => None,
    }
}

/// Passes the end of this command.
fn end(verb: Verb, words: &mut Parts) -> Result<(), Halt>
    ensures { Walks result words.new (end_walk verb words.old) }
{
    if words.is_empty() {
        Ok(())
    } else {
        Err(Halt::Bad(Form::End(verb)))
    }
}

/// Passes a command, whose word comes first.
fn command(alloc: Global, verb: Option<Verb>, words: &mut Parts) -> Result<(), Halt>
    ensures { Walks result words.new (verb_walk verb words.old) }
{
    let Some(verb) = verb else {
        return Err(Halt::Bad(Form::Command));
    };
    words.take();
    arguments(alloc, verb, words)?;
    end(verb, words)
}

/// Passes the words of a request.
#[tactic(auto, unfolding(crate::specs::Walks::request_walk))]
pub(crate) fn request(alloc: Global, words: &mut Parts) -> Result<(), Halt>
    ensures { Walks result words.new (request_walk words.old) }
{
    front(alloc, words)?;
    let verb = next_verb(words);
    command(alloc, verb, words)
}

// Reading script lines.

ghost use Rattle.std.specs.Prelude.{◌≡◌, ◌==◌, ◌∷◌, position, IfOk, IfSome, Ok, Err, Some, true};
ghost use Rattle.std.specs.Option.{option_map};
ghost use Rattle.sect_words.specs.Parts.{pieces};
ghost use Rattle.sect_words.specs.Reading.{Reads, later_parts};
ghost use Rattle.sect_read.specs.ReadingCommands.{arguments_at, verb_text};
ghost use Rattle.sect_read.specs.ReadingLines.{at_of, line_day_at, front_at, line_at, line_of, command_in, undated, Fronts, Says};
ghost use Rattle.sect_read.specs.Lines.{IsCommand, IsLine, HasUnknownVerb};
ghost use Rattle.sect_command.specs.declared.command.Command.{Command};
ghost use Rattle.sect_read.specs.declared.line.LineAsk.{LineAsk};

use crate::commands::{read_arguments, read_command_words};
use crate::fault::WireFault;
use crate::row::read_id;
use crate::verb::{Verb, verb_of};
use sect_base::{Day, Id};
use sect_command::Command;
use sect_words::{Fault, Parts, Readable};
use std::alloc::Global;

/// A request as a script line asks it. Where the line names no day, it is asked on the clock's.
#[derive(Drop)]
pub struct LineAsk {
    pub day: Option<Day>,
    pub id: Id,
    pub command: Command,
}

/// What stands before the arguments of a line's command: its day, where it names one, its id and its verb.
#[derive(Clone, Copy)]
pub struct LineFront {
    pub day: Option<Day>,
    pub id: Id,
    pub verb: Verb,
}

/// What stands behind `@` in the next word, None where it doesn't begin so. It takes no memory.
pub fn behind_at<'a>(words: &Parts<'a>) -> Option<&'a [u8]>
    ensures { option_map (λ text. text.now) result ≡ at_of words.now }
{
    match words.first()? {
        [b'@', text @ ..] => Some(text),
        _ => None,
    }
}

/// `@` and a day, where the line names one.
#[tactic(auto, unfolding(crate::specs::ReadingLines::line_day_at))]
fn read_line_day(alloc: Global, words: &mut Parts) -> Result<Option<Day>, Fault>
    ensures { Reads result words.new (line_day_at words.old) }
{
    let Some(text) = behind_at(words) else {
        return Ok(None);
    };
    words.take();
    Ok(Some(Day::read(alloc, text)?))
}

/// What stands before the verb.
#[tactic(auto, unfolding(crate::specs::ReadingLines::front_at))]
fn read_front(alloc: Global, words: &mut Parts) -> Result<(Option<Day>, Id), Fault>
    ensures { Reads result words.new (front_at words.old) }
{
    let day = read_line_day(alloc, words)?;
    let id = read_id(alloc, words)?;
    Ok((day, id))
}

/// What stands in the words of a line before its command's arguments, which are left.
#[inline(always)]
pub fn read_line_front(alloc: Global, words: &mut Parts) -> Result<LineFront, WireFault>
    ensures reads { Fronts result words.new (line_at (front_at words.old)) }
    ensures front { IfOk result (λ front. front_at words.old ≡ Some ((front.day, front.id), verb_text front.verb ∷ words.new)) }
{
    let (day, id) = read_front(alloc, words)?;
    let Some(verb) = words.next() else {
        return Err(WireFault::BadLine);
    };
    let Some(verb) = verb_of(verb) else {
        return Err(WireFault::UnknownVerb);
    };
    Ok(LineFront { day, id, verb })
}

/// The command of a line whose verb was read. Where `shown`, a default may be written. What is left behind it has to be nothing.
/// It takes memory.
pub fn read_line_command(
    alloc: Global,
    shown: bool,
    verb: Verb,
    words: &mut Parts,
) -> Result<Command, Fault>
    ensures { Reads result words.new (arguments_at shown verb words.old) }
{
    read_arguments(alloc, shown, verb, words)
}

/// What stands in a line behind its day, which is all of it where it names none. None where it is `@` and one word.
pub fn behind_day(line: &[u8]) -> Option<&[u8]>
    ensures { IfSome result (λ text. pieces 32 text.now ≡ undated (pieces 32 line.now)) }
{
    match line {
        [b'@', ..] => behind_space(line),
        _ => Some(line),
    }
}

/// The place of the first space.
fn space_in(line: &[u8]) -> Option<usize>
    ensures { result ≡ position (λ byte. byte == 32) line.now }
{
    line.iter().position(|byte| *byte == b' ')
}

/// What stands behind the first space, where there is one.
fn behind_space(line: &[u8]) -> Option<&[u8]>
    ensures { IfSome result (λ text. pieces 32 text.now ≡ later_parts (pieces 32 line.now)) }
{
    let at = space_in(line)?;
    let (_, text) = line.split_at(at + 1);
    Some(text)
}

/// What the line asks.
fn read_ask(alloc: Global, line: &[u8]) -> Result<LineAsk, WireFault>
    ensures { Says result (line_of line.now) }
{
    let mut words = Parts::new(line, b' ');
    let LineFront { day, id, verb } = read_line_front(alloc, &mut words)?;
    let command = read_line_command(alloc, true, verb, &mut words)?;
    words.end()?;
    Ok(LineAsk { day, id, command })
}

/// The request that a line asks. `UnknownVerb` exactly where the caller and the number are there and the next word is
/// no verb, `BadLine` where the line asks nothing for another cause. It takes memory.
pub fn read_line(alloc: Global, line: &[u8]) -> Result<LineAsk, WireFault>
    ensures found { IfOk result (λ ask. IsLine line.now ask) }
    ensures only { (ask : LineAsk) → IsLine line.now ask → Says result (Ok ask) }
    ensures unknown { HasUnknownVerb line.now → Says result (Err WireFault.UnknownVerb) }
    ensures told { result ≡ Err WireFault.UnknownVerb → HasUnknownVerb line.now }
    ensures reads { Says result (line_of line.now) }
{
    read_ask(alloc, line)
}

/// What the text of a command says.
fn read_whole_command(alloc: Global, text: &[u8]) -> Result<Command, WireFault>
    ensures { Says result (command_in text.now) }
{
    let mut words = Parts::new(text, b' ');
    let command = read_command_words(alloc, true, &mut words)?;
    words.end()?;
    Ok(command)
}

/// The command of a text that has nothing else, where what has a default may be written. `BadLine` exactly where it is
/// the text of none. It takes memory.
pub fn read_command(alloc: Global, text: &[u8]) -> Result<Command, WireFault>
    ensures found { IfOk result (λ c. IsCommand true c (pieces 32 text.now)) }
    ensures only { (c : Command) → IsCommand true c (pieces 32 text.now) → Says result (Ok c) }
    ensures reads { Says result (command_in text.now) }
{
    read_whole_command(alloc, text)
}

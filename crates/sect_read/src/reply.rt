// Reading replies.

ghost use Rattle.std.specs.Prelude.{◌≡◌, ◌<◌, ◌≤◌, ℕ, List, IfOk, IfSome, length, codes, Some, not};
ghost use Rattle.sect_command.specs.declared.reply.Reply.{Reply};
ghost use Rattle.sect_words.specs.Parts.{pieces};
ghost use Rattle.sect_text.specs.Replies.{reply_text};
ghost use Rattle.sect_read.specs.Fits.{FitsReply};
ghost use Rattle.sect_words.specs.Reading.{any_word, Reads, Means, Finds, whole, word_at};
ghost use Rattle.sect_words.specs.ReadingWords.{choice_of};
ghost use Rattle.sect_read.specs.ReadingReplies.{
  blocked_at,
  blocked_result_at,
  result_named,
  result_at,
  any_starts,
  line_at,
  swapped_at,
  placed_at,
  batched_at,
  blocked_reply_at,
  refused_at,
  reply_named,
  reply_at,
  reply_of,
};

use crate::read_phrase::{ReadPhrase, read_each};
use crate::refusal::{read_refusal, take_name};
use crate::request::Request;
use sect_base::{Block, Choice, Memory, StudentId};
use sect_command::{Line, LineResult, Reply};
use sect_words::{Fault, Parts, same_bytes};
use std::alloc::Global;

/// How many decisions were visited, and the tree.
#[tactic(auto, unfolding(crate::specs::ReadingReplies::blocked_at))]
fn read_blocked(alloc: Global, words: &mut Parts) -> Result<(u32, Block), Fault>
    ensures reads { Reads result words.new (blocked_at words.old) }
    ensures longest { IfOk result (λ _. length words.new ≤ length words.old) }
{
    let visits = words.word(alloc)?;
    let tree = words.word(alloc)?;
    Ok((visits, tree))
}

/// The result of a course request for which no choice is possible.
#[tactic(auto, unfolding(crate::specs::ReadingReplies::blocked_result_at))]
fn read_blocked_result(alloc: Global, words: &mut Parts) -> Result<LineResult, Fault>
    ensures reads { Reads result words.new (blocked_result_at words.old) }
    ensures longest { IfOk result (λ _. length words.new ≤ length words.old) }
{
    let (visits, tree) = read_blocked(alloc, words)?;
    Ok(LineResult::Blocked(visits, tree))
}

/// The result of a course request that has this name.
#[tactic(auto, unfolding(crate::specs::ReadingReplies::result_named))]
fn read_named_result(alloc: Global, name: &[u8], words: &mut Parts) -> Result<LineResult, Fault>
    ensures reads { Reads result words.new (result_named name.now words.old) }
    ensures longest { IfOk result (λ _. length words.new ≤ length words.old) }
{
    if same_bytes(name, b"met") {
        return Ok(LineResult::Met(words.word(alloc)?));
    }
    if same_bytes(name, b"held") {
        return Ok(LineResult::Held(words.word(alloc)?));
    }
    if same_bytes(name, b"blocked") {
        return read_blocked_result(alloc, words);
    }
    if same_bytes(name, b"spent") {
        return Ok(LineResult::Spent);
    }
    if same_bytes(name, b"waiting") {
        return Ok(LineResult::Waiting(words.word(alloc)?));
    }
    if same_bytes(name, b"skipped") {
        return Ok(LineResult::Skipped);
    }
    Err(Fault::Bad)
}

/// What became of a course request.
#[tactic(auto, unfolding(crate::specs::ReadingReplies::result_at))]
fn read_result(alloc: Global, words: &mut Parts) -> Result<LineResult, Fault>
    ensures reads { Reads result words.new (result_at words.old) }
    ensures longest { IfOk result (λ _. length words.new ≤ length words.old) }
{
    let name = take_name(words)?;
    read_named_result(alloc, name, words)
}

#[tactic(auto, unfolding(crate::specs::ReadingReplies::line_at))]
impl ReadPhrase for Line {
    ghost starts = { any_starts };

    ghost at = { λ _. line_at };

    fn starts(words: &Parts) -> bool {
        !words.is_empty()
    }

    fn read(alloc: Global, _shown: bool, words: &mut Parts) -> Result<Line, Fault> {
        let request: Request = words.word(alloc)?;
        let became = read_result(alloc, words)?;
        Ok(Line {
            student: StudentId(request.student),
            rank: request.rank,
            result: became,
        })
    }
}

impl ReadPhrase for Choice {
    ghost starts = { any_starts };

    ghost at = { λ _. word_at choice_of };

    fn starts(words: &Parts) -> bool {
        !words.is_empty()
    }

    fn read(alloc: Global, _shown: bool, words: &mut Parts) -> Result<Choice, Fault> {
        words.word(alloc)
    }
}

/// The reply to a swap: the places that the student has.
#[tactic(auto, unfolding(crate::specs::ReadingReplies::swapped_at))]
fn read_swapped(alloc: Global, words: &mut Parts) -> Result<Reply, Fault>
    ensures { Reads result words.new (swapped_at words.old) }
{
    Ok(Reply::Swapped(read_each(alloc, false, words)?))
}

/// The reply that the entry with a ticket was placed at once.
#[tactic(auto, unfolding(crate::specs::ReadingReplies::placed_at))]
fn read_placed(alloc: Global, words: &mut Parts) -> Result<Reply, Fault>
    ensures { Reads result words.new (placed_at words.old) }
{
    let ticket = words.word(alloc)?;
    let choice = words.word(alloc)?;
    Ok(Reply::Placed(ticket, choice))
}

/// The reply to a batch: a line for each course request.
#[tactic(auto, unfolding(crate::specs::ReadingReplies::batched_at))]
fn read_batched(alloc: Global, words: &mut Parts) -> Result<Reply, Fault>
    ensures { Reads result words.new (batched_at words.old) }
{
    Ok(Reply::Batched(read_each(alloc, false, words)?))
}

/// The reply that no choice is possible.
#[tactic(auto, unfolding(crate::specs::ReadingReplies::blocked_reply_at))]
fn read_blocked_reply(alloc: Global, words: &mut Parts) -> Result<Reply, Fault>
    ensures { Reads result words.new (blocked_reply_at words.old) }
{
    let (visits, tree) = read_blocked(alloc, words)?;
    Ok(Reply::Blocked(visits, tree))
}

/// The reply that the command was refused.
#[tactic(auto, unfolding(crate::specs::ReadingReplies::refused_at))]
fn read_refused(alloc: Global, words: &mut Parts) -> Result<Reply, Fault>
    ensures { Reads result words.new (refused_at words.old) }
{
    Ok(Reply::Refused(read_refusal(alloc, words)?))
}

/// The reply that has this name.
#[tactic(auto, unfolding(crate::specs::ReadingReplies::reply_named))]
fn read_named_reply(alloc: Global, name: &[u8], words: &mut Parts) -> Result<Reply, Fault>
    ensures { Reads result words.new (reply_named name.now words.old) }
{
    if same_bytes(name, b"amended") {
        return Ok(Reply::Amended);
    }
    if same_bytes(name, b"enrolled") {
        return Ok(Reply::Enrolled(words.word(alloc)?));
    }
    if same_bytes(name, b"dropped") {
        return Ok(Reply::Dropped(words.word(alloc)?));
    }
    if same_bytes(name, b"swapped") {
        return read_swapped(alloc, words);
    }
    if same_bytes(name, b"waiting") {
        return Ok(Reply::Waiting(words.word(alloc)?));
    }
    if same_bytes(name, b"placed") {
        return read_placed(alloc, words);
    }
    if same_bytes(name, b"batched") {
        return read_batched(alloc, words);
    }
    if same_bytes(name, b"blocked") {
        return read_blocked_reply(alloc, words);
    }
    if same_bytes(name, b"spent") {
        return Ok(Reply::Spent(words.word(alloc)?));
    }
    if same_bytes(name, b"refused") {
        return read_refused(alloc, words);
    }
    Err(Fault::Bad)
}

/// A reply.
#[tactic(auto, unfolding(crate::specs::ReadingReplies::reply_at))]
pub(crate) fn read_reply_words(alloc: Global, words: &mut Parts) -> Result<Reply, Fault>
    ensures { Reads result words.new (reply_at words.old) }
{
    let name = take_name(words)?;
    read_named_reply(alloc, name, words)
}

/// The reply of a text.
fn read_whole_reply(alloc: Global, text: &[u8]) -> Result<Reply, Fault>
    ensures { Means result (reply_of text.now) }
{
    let mut words = Parts::new(text, b' ');
    let reply = read_reply_words(alloc, &mut words)?;
    words.end()?;
    Ok(reply)
}

/// The reply of a text, where it has one.
fn find_reply(alloc: Global, text: &[u8]) -> Result<Option<Reply>, Memory>
    ensures { Finds result (reply_of text.now) }
{
    match read_whole_reply(alloc, text) {
        Ok(reply) => Ok(Some(reply)),
        Err(Fault::Bad) => Ok(None),
        Err(Fault::Memory) => Err(Memory),
    }
}

/// The reply of a text. None exactly where the text is not that of a reply. It takes memory.
pub fn read_reply(alloc: Global, text: &[u8]) -> Result<Option<Reply>, Memory>
    ensures found { IfOk result (λ found. IfSome found (λ r. FitsReply r × (text.now ≡ reply_text r))) }
    ensures only { (r : Reply) → FitsReply r → text.now ≡ reply_text r → IfOk result (λ found. found ≡ Some r) }
{
    find_reply(alloc, text)
}

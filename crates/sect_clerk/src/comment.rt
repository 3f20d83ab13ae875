// Comments: lines that a run passes over.
ghost use Rattle.std.specs.Prelude.{◌≡◌, ◌++◌, ◌∷◌, List, ℕ, OnOk, codes, decimal, length, take};
ghost use Rattle.sect_clerk.specs.Log.{line_text, placed_comment, placed_words, reply_comment};
ghost use Rattle.sect_script.specs.Reading.{LINE_LIMIT};
ghost use Rattle.sect_text.specs.Replies.{reply_text};
ghost use Rattle.sect_words.specs.Parts.{sentence};

use sect_base::{Caller, Memory};
use sect_command::Reply;
use sect_model::Placed;
use sect_text::print_reply;
use sect_words::{print_bytes, print_marked, print_number};

/// How many bytes a line may have before its line feed.
const MAX_LINE: usize = 65_536;

/// Appends the reply at a place as a comment. After `Memory` a part of it may stand at the end.
#[tactic(auto, unfolding(crate::specs::Log::comment_text))]
pub fn print_reply_comment(place: u32, reply: &Reply, into: &mut Vec<u8>) -> Result<(), Memory>
    ensures { OnOk result (into.new.items ≡ into.old.items ++ reply_comment place reply.now) }
{
    let start = into.len();
    print_reply_words(place, reply, into)?;
    end_comment(start, into)
}

/// Appends whom settling placed as a comment. After `Memory` a part of it may stand at the end.
#[tactic(auto, unfolding(crate::specs::Log::comment_text))]
pub fn print_placed_comment(placed: &Placed, into: &mut Vec<u8>) -> Result<(), Memory>
    ensures { OnOk result (into.new.items ≡ into.old.items ++ placed_comment placed.now) }
{
    let start = into.len();
    print_placed_words(placed, into)?;
    end_comment(start, into)
}

/// Appends `# PLACE REPLY`.
fn print_reply_words(place: u32, reply: &Reply, into: &mut Vec<u8>) -> Result<(), Memory>
    ensures { OnOk result (into.new.items ≡ into.old.items ++ (35 ∷ 32 ∷ (decimal place ++ 32 ∷ reply_text reply.now))) }
{
    print_bytes(b"# ", into)?;
    print_number(place, into)?;
    print_bytes(b" ", into)?;
    print_reply(reply, into)
}

/// Appends `# placed TICKET STUDENT CHOICE`.
fn print_placed_words(placed: &Placed, into: &mut Vec<u8>) -> Result<(), Memory>
    ensures { OnOk result (into.new.items ≡ into.old.items ++ (35 ∷ 32 ∷ sentence (placed_words placed.now))) }
{
    print_bytes(b"# placed", into)?;
    print_marked(b' ', &placed.ticket, into)?;
    print_marked(b' ', &Caller::Student(placed.student), into)?;
    print_marked(b' ', &placed.choice, into)
}

/// Cuts the comment that begins at a place to what a line may have.
fn cut_comment(start: usize, into: &mut Vec<u8>)
    requires { (before : List ℕ) × (comment : List ℕ) × (into.old.items ≡ before ++ comment) × (start ≡ length before) }
    ensures { (before comment : List ℕ) → into.old.items ≡ before ++ comment → start ≡ length before → into.new.items ≡ before ++ take LINE_LIMIT comment }
{
    if into.len() - start > MAX_LINE {
        into.truncate(start + MAX_LINE);
    }
}

/// Ends the comment that begins at a place: it is cut to what a line may have, and gets its line feed.
fn end_comment(start: usize, into: &mut Vec<u8>) -> Result<(), Memory>
    requires { (before : List ℕ) × (comment : List ℕ) × (into.old.items ≡ before ++ comment) × (start ≡ length before) }
    ensures { (before comment : List ℕ) → into.old.items ≡ before ++ comment → start ≡ length before
        → OnOk result (into.new.items ≡ before ++ line_text (take LINE_LIMIT comment)) }
{
    cut_comment(start, into);
    into.push(b'\n')?;
    Ok(())
}

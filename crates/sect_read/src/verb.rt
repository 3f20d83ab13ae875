// The verbs of commands.

ghost use Rattle.std.specs.Prelude.{◌≡◌, codes};
ghost use Rattle.sect_read.specs.ReadingCommands.{verb_of as verb_named, verb_text};

use sect_words::same_bytes;

/// The first word of a command.
#[derive(Clone, Copy, PartialEq, Eq)]
pub enum Verb {
    Offering,
    Student,
    Requests,
    Reserve,
    Unreserve,
    Expire,
    Restrict,
    Unrestrict,
    Limit,
    Cancel,
    Enrol,
    Drop,
    Swap,
    Wait,
    Unwait,
    Batch,
}

/// The verb of a word. It takes no memory.
#[tactic(auto, unfolding(crate::specs::ReadingCommands::verb_of))]
pub fn verb_of(word: &[u8]) -> Option<Verb>
    ensures { result ≡ verb_named word.now }
{
    if same_bytes(word, b"offering") {
        return Some(Verb::Offering);
    }
    if same_bytes(word, b"student") {
        return Some(Verb::Student);
    }
    if same_bytes(word, b"requests") {
        return Some(Verb::Requests);
    }
    if same_bytes(word, b"reserve") {
        return Some(Verb::Reserve);
    }
    if same_bytes(word, b"unreserve") {
        return Some(Verb::Unreserve);
    }
    if same_bytes(word, b"expire") {
        return Some(Verb::Expire);
    }
    if same_bytes(word, b"restrict") {
        return Some(Verb::Restrict);
    }
    if same_bytes(word, b"unrestrict") {
        return Some(Verb::Unrestrict);
    }
    if same_bytes(word, b"limit") {
        return Some(Verb::Limit);
    }
    if same_bytes(word, b"cancel") {
        return Some(Verb::Cancel);
    }
    if same_bytes(word, b"enrol") {
        return Some(Verb::Enrol);
    }
    if same_bytes(word, b"drop") {
        return Some(Verb::Drop);
    }
    if same_bytes(word, b"swap") {
        return Some(Verb::Swap);
    }
    if same_bytes(word, b"wait") {
        return Some(Verb::Wait);
    }
    if same_bytes(word, b"unwait") {
        return Some(Verb::Unwait);
    }
    if same_bytes(word, b"batch") {
        return Some(Verb::Batch);
    }
    None
}

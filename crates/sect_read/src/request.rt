// The request that a line of a batch answers.

ghost use Rattle.std.specs.Prelude.{◌≡◌};
ghost use Rattle.sect_words.specs.Parts.{pieces};
ghost use Rattle.sect_words.specs.Reading.{Means, Reads, whole};
ghost use Rattle.sect_read.specs.ReadingReplies.{request_at, request_of};

use sect_words::{Fault, Parts, Readable};
use std::alloc::Global;

/// The student and the request's position, from 1.
#[derive(Clone, Copy)]
pub(crate) struct Request {
    pub(crate) student: u32,
    pub(crate) rank: u8,
}

/// The request of a line, as the student and its position.
#[tactic(auto, unfolding(crate::specs::ReadingReplies::request_at))]
fn read_request(alloc: Global, parts: &mut Parts) -> Result<Request, Fault>
    ensures { Reads result parts.new (request_at parts.old) }
{
    let student = parts.word(alloc)?;
    let rank = parts.word(alloc)?;
    Ok(Request { student, rank })
}

impl Readable for Request {
    ghost reads = { request_of };

    fn read(alloc: Global, word: &[u8]) -> Result<Request, Fault> {
        let mut parts = Parts::new(word, b'.');
        let request = read_request(alloc, &mut parts)?;
        parts.end()?;
        Ok(request)
    }
}

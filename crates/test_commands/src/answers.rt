// Answers over HTTP that no whole run has.

use sect_base::Memory;
use sect_command::Reply;
use sect_once::Answer;
use sect_wire::print_answer;
use sect_words::{print_bytes, print_number};
use std::alloc::Global;

/// Puts the status and the body of an answer, and a line feed, behind the text.
fn put_page(answer: &Answer<Reply>, into: &mut Vec<u8>) -> Result<(), Memory> {
    let mut body = Vec::new(*into.allocator());
    let status = print_answer(answer, &mut body)?;
    print_number(status, into)?;
    into.push(b' ')?;
    print_bytes(body.as_slice(), into)?;
    into.push(b'\n')?;
    Ok(())
}

/// Tells the statuses and bodies of a log that is full, of a keeper that fails, and of want of memory.
pub fn told_of_answers(alloc: Global) -> Result<Vec<u8>, Memory> {
    let mut into = Vec::new(alloc);
    put_page(&Answer::LogFull, &mut into)?;
    put_page(&Answer::KeeperFault, &mut into)?;
    put_page(&Answer::Memory, &mut into)?;
    Ok(into)
}

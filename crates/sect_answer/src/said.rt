// The pages of what is answered, with their texts.

ghost use Rattle.std.specs.Prelude.{[], None, false, ◌≡◌, ◌≤◌, ◌+◌, ◌++◌, length, vec_capacity};
ghost use Rattle.sect_answer.specs.Answering.{answer_said, closes_behind, said_of, Tells};
ghost use Rattle.sect_talk.specs.Said.{no_command, no_route, other_method, json_page};

use http::StatusCode;
use sect_base::{Memory, append};
use sect_command::Reply;
use sect_once::Answer;
use sect_talk::{Kind, Method, Page};
use sect_wire::print_answer;

/// A page of JSON, and whether the connection closes behind it.
pub fn json_page(status: StatusCode, allow: Option<Method>, closing: bool) -> Page
    ensures { result ≡ json_page status allow closing }
{
    Page {
        status,
        kind: Kind::Json,
        allow,
        closing,
    }
}

/// Puts a text where nothing stands and there is room for it. It takes no memory.
pub fn put(text: &[u8], into: &mut Vec<u8>)
    requires empty { into.old.items ≡ [] }
    requires room { length text.now ≤ vec_capacity into.old }
    ensures { into.new.items ≡ text.now }
{
    match append(text, into) {
        Ok(()) => {}
        Err(_) => unreachable!(),
    }
}

/// No route matches.
pub(crate) fn no_route(into: &mut Vec<u8>) -> Page
    requires empty { into.old.items ≡ [] }
    requires room { 64 ≤ vec_capacity into.old }
    ensures { record { page = result; body = into.new.items } ≡ no_route }
{
    put(b"{\"error\":\"route\"}", into);
    json_page(StatusCode::NOT_FOUND, None, false)
}

/// The target has another method.
pub(crate) fn other_method(method: Method, into: &mut Vec<u8>) -> Page
    requires empty { into.old.items ≡ [] }
    requires room { 64 ≤ vec_capacity into.old }
    ensures { record { page = result; body = into.new.items } ≡ other_method method }
{
    put(b"{\"error\":\"method\"}", into);
    json_page(StatusCode::METHOD_NOT_ALLOWED, Some(method), false)
}

/// The body says no command.
pub(crate) fn no_command(into: &mut Vec<u8>) -> Page
    requires empty { into.old.items ≡ [] }
    requires room { 64 ≤ vec_capacity into.old }
    ensures { record { page = result; body = into.new.items } ≡ no_command }
{
    put(b"{\"error\":\"body\"}", into);
    json_page(StatusCode::BAD_REQUEST, None, false)
}

/// The page of an answer of the office.
fn answer_page(answer: &Answer<Reply>) -> Page
    ensures { result ≡ (answer_said answer.now).page }
{
    match answer {
        Answer::Done { .. } => json_page(StatusCode::OK, None, false),
        Answer::NumberReused(_) | Answer::LogFull => json_page(StatusCode::CONFLICT, None, false),
        Answer::KeeperFault => json_page(StatusCode::SERVICE_UNAVAILABLE, None, false),
        Answer::Memory => json_page(StatusCode::INSUFFICIENT_STORAGE, None, true),
    }
}

/// The page of an answer, whose text is put into the room. Only that of a request that acted can want memory.
pub(crate) fn answered(answer: &Answer<Reply>, into: &mut Vec<u8>) -> Result<Page, Memory>
    requires empty { into.old.items ≡ [] }
    requires room { 64 ≤ vec_capacity into.old }
    ensures { Tells answer.now (said_of result into.new.items) }
{
    print_answer(answer, into)?;
    Ok(answer_page(answer))
}

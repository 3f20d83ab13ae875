// The text of an answer.

ghost use Rattle.std.specs.Prelude.{true, false, ◌≡◌, ◌≤◌, ◌++◌, ◌+◌, OnOk, OnErr, IsOk, length, take, vec_capacity};
ghost use Rattle.sect_talk.specs.Pages.{allow_line, closing_line, code_text, kind_text, page_end, page_front, page_text, phrase, shown_body};
ghost use Rattle.sect_talk.specs.Said.{no_memory};

use crate::page::{Kind, Method, Page};
use http::StatusCode;
use itoa::Buffer;
use sect_base::{Memory, append, append_all};

/// The digits of a status.
#[tactic(auto, unfolding(crate::specs::Pages::code_text))]
fn code_text(status: StatusCode) -> &'static [u8]
    ensures { result.now ≡ code_text status }
{
    status.as_str().as_bytes()
}

/// The words of a status, and none where it has none.
#[tactic(auto, unfolding(crate::specs::Pages::phrase))]
fn phrase(status: StatusCode) -> &'static [u8]
    ensures { result.now ≡ phrase status }
{
    status.canonical_reason().unwrap_or("").as_bytes()
}

/// The media type of a body.
fn kind_text(kind: Kind) -> &'static [u8]
    ensures { result.now ≡ kind_text kind }
{
    match kind {
        Kind::Json => b"application/json",
        Kind::Text => b"text/plain",
    }
}

/// The line for the method that is allowed, where one is named.
fn allow_line(allow: Option<Method>) -> &'static [u8]
    ensures { result.now ≡ allow_line allow }
{
    match allow {
        None => b"",
        Some(Method::Get) => b"Allow: GET\r\n",
        Some(Method::Post) => b"Allow: POST\r\n",
    }
}

/// The line for a connection that is closed, where it is.
fn closing_line(closing: bool) -> &'static [u8]
    ensures { result.now ≡ closing_line closing }
{
    if closing {
        b"Connection: close\r\n"
    } else {
        b""
    }
}

/// The body, unless the answer is `headless`.
fn shown_body(headless: bool, body: &[u8]) -> &[u8]
    ensures { result.now ≡ shown_body headless body.now }
{
    if headless { b"" } else { body }
}

/// Appends what stands before the length of the body.
#[tactic(auto, unfolding(crate::specs::Pages::page_front))]
fn print_front(page: &Page, into: &mut Vec<u8>) -> Result<(), Memory>
    ensures text { OnOk result (into.new.items ≡ into.old.items ++ page_front page.now) }
    ensures memory { OnErr result (into.new.items ≡ into.old.items) }
    ensures capacity { vec_capacity into.old ≤ vec_capacity into.new }
    ensures room { length into.old.items + length (page_front page.now) ≤ vec_capacity into.old → IsOk result }
{
    append_all(
        &[
            b"HTTP/1.1 ",
            code_text(page.status),
            b" ",
            phrase(page.status),
            b"\r\nContent-Type: ",
            kind_text(page.kind),
            b"\r\nContent-Length: ",
        ],
        into,
    )
}

/// Appends what stands between the length and the body.
#[tactic(auto, unfolding(crate::specs::Pages::page_end))]
fn print_end(page: &Page, into: &mut Vec<u8>) -> Result<(), Memory>
    ensures text { OnOk result (into.new.items ≡ into.old.items ++ page_end page.now) }
    ensures memory { OnErr result (into.new.items ≡ into.old.items) }
    ensures capacity { vec_capacity into.old ≤ vec_capacity into.new }
    ensures room { length into.old.items + length (page_end page.now) ≤ vec_capacity into.old → IsOk result }
{
    append_all(
        &[
            b"\r\n",
            allow_line(page.allow),
            closing_line(page.closing),
            b"\r\n",
        ],
        into,
    )
}

/// Appends an answer. After `Memory` a part of it may stand at the end.
fn write_page(page: &Page, headless: bool, body: &[u8], into: &mut Vec<u8>) -> Result<(), Memory>
    ensures text { OnOk result (into.new.items ≡ into.old.items ++ page_text page.now headless body.now) }
    ensures front { take (length into.old.items) into.new.items ≡ into.old.items }
    ensures room { length into.old.items + length (page_text page.now headless body.now) ≤ vec_capacity into.old → IsOk result }
{
    print_front(page, into)?;
    append(Buffer::new().format(body.len()).as_bytes(), into)?;
    print_end(page, into)?;
    append(shown_body(headless, body), into)
}

/// Appends an answer: its page, and its body unless it is `headless`. After `Memory` the bytes are as before; where the
/// answer has room, it takes no memory.
pub fn print_page(
    page: &Page,
    headless: bool,
    body: &[u8],
    into: &mut Vec<u8>,
) -> Result<(), Memory>
    ensures text { OnOk result (into.new.items ≡ into.old.items ++ page_text page.now headless body.now) }
    ensures memory { OnErr result (into.new.items ≡ into.old.items) }
    ensures room { length into.old.items + length (page_text page.now headless body.now) ≤ vec_capacity into.old → IsOk result }
{
    let start = into.len();
    let printed = write_page(page, headless, body, into);
    if printed.is_err() {
        into.truncate(start);
    }
    printed
}

/// The answer for want of memory, without its body.
fn no_memory_page() -> &'static [u8]
    ensures { result.now ≡ page_text no_memory.page true no_memory.body }
{
    b"HTTP/1.1 507 Insufficient Storage\r\nContent-Type: application/json\r\nContent-Length: 18\r\nConnection: close\r\n\r\n"
}

/// The answer for want of memory, with its body.
fn no_memory_whole() -> &'static [u8]
    ensures { result.now ≡ page_text no_memory.page false no_memory.body }
{
    b"HTTP/1.1 507 Insufficient Storage\r\nContent-Type: application/json\r\nContent-Length: 18\r\nConnection: close\r\n\r\n{\"error\":\"memory\"}"
}

/// The answer for want of memory, with its body unless it is `headless`. It takes no memory.
pub fn no_memory(headless: bool) -> &'static [u8]
    ensures { result.now ≡ page_text no_memory.page headless no_memory.body }
{
    if headless {
        no_memory_page()
    } else {
        no_memory_whole()
    }
}

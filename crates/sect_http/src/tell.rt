// What was to be said is written.

ghost use Rattle.std.specs.Prelude.{[], Bool, Ok, true, ◌≡◌, ◌≤◌, ◌||◌, List, vec_capacity};
ghost use Rattle.sect_answer.specs.Answering.{said_of};
ghost use Rattle.sect_edge.specs.Causes.{HasCause};
ghost use Rattle.sect_http.specs.Telling.{ANSWER_ROOM, IsTold, Tells, said_text};
ghost use Rattle.sect_talk.specs.Said.{Said, no_memory as no_memory_said};

use sect_base::Memory;
use sect_edge::{Failed, Sink};
use sect_talk::{Page, no_memory, print_page, write_all};

/// Makes a buffer empty, with room for so many bytes. False where memory is wanted for that.
pub(crate) fn ready(buffer: &mut Vec<u8>, room: usize) -> bool
    ensures empty { buffer.new.items ≡ [] }
    ensures room { result ≡ true → room ≤ vec_capacity buffer.new }
{
    buffer.clear();
    buffer.reserve(room).is_ok()
}

/// The page, behind which the connection closes if it did or does now.
fn with_closing(page: Page, closing: bool) -> Page
    ensures { result ≡ record page { closing = page.closing || closing } }
{
    Page {
        closing: page.closing || closing,
        ..page
    }
}

/// Writes that memory was wanted. The connection closes.
fn tell_want<T: Sink>(sink: &mut T, headless: bool) -> Result<bool, Failed>
    ensures told { (closing : Bool) → Tells (T.taken sink.old) (T.taken sink.new) no_memory_said closing headless result }
    ensures cause { HasCause (T.faults sink.old) (T.faults sink.new) result }
{
    match write_all(sink, no_memory(headless)) {
        Ok(()) => Ok(true),
        Err(fault) => Err(fault),
    }
}

/// Writes a text, and tells whether the connection closes behind it.
fn tell_text<T: Sink>(sink: &mut T, text: &[u8], closing: bool) -> Result<bool, Failed>
    ensures told { (said : Said) (asks headless : Bool) → text.now ≡ said_text said asks headless → closing ≡ (said.page.closing || asks)
        → Tells (T.taken sink.old) (T.taken sink.new) said asks headless result }
    ensures cause { HasCause (T.faults sink.old) (T.faults sink.new) result }
{
    match write_all(sink, text) {
        Ok(()) => Ok(closing),
        Err(fault) => Err(fault),
    }
}

/// Writes a page with its text.
fn tell_page<T: Sink>(
    sink: &mut T,
    page: Page,
    closing: bool,
    headless: bool,
    text: &[u8],
    out: &mut Vec<u8>,
) -> Result<bool, Failed>
    requires empty { out.old.items ≡ [] }
    requires room { ANSWER_ROOM ≤ vec_capacity out.old }
    ensures told { (told : Said) × IsTold (record { page = page; body = text.now }) closing headless told
        × Tells (T.taken sink.old) (T.taken sink.new) told closing headless result }
    ensures cause { HasCause (T.faults sink.old) (T.faults sink.new) result }
{
    let closed = with_closing(page, closing);
    match print_page(&closed, headless, text, out) {
        Ok(()) => tell_text(sink, out, closed.closing),
        Err(_) => tell_want(sink, headless),
    }
}

/// Writes the page with the text, unless it is `headless`, and gives whether the connection closes behind it. Where
/// nothing was said, or memory is wanted for a page that is long, it writes that.
pub(crate) fn tell<T: Sink>(
    sink: &mut T,
    said: Result<Page, Memory>,
    closing: bool,
    headless: bool,
    text: &[u8],
    out: &mut Vec<u8>,
) -> Result<bool, Failed>
    requires room { (page : Page) → said ≡ Ok page → (out.old.items ≡ []) × (ANSWER_ROOM ≤ vec_capacity out.old) }
    ensures told { (told : Said) × IsTold (said_of said text.now) closing headless told
        × Tells (T.taken sink.old) (T.taken sink.new) told closing headless result }
    ensures cause { HasCause (T.faults sink.old) (T.faults sink.new) result }
{
    match said {
        Ok(page) => tell_page(sink, page, closing, headless, text, out),
        Err(_) => tell_want(sink, headless),
    }
}

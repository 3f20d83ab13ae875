// What a request wishes is done.

ghost use Rattle.std.specs.Prelude.{[], Ok, true, ◌≡◌, ◌≤◌, vec_capacity};
ghost use Rattle.sect_answer.specs.Answering.{said_of, sitting};
ghost use Rattle.sect_wire.specs.Objects.{TakesTexts};
ghost use Rattle.sect_http.specs.Answers.{Answers, refused};
ghost use Rattle.sect_http.specs.Hearing.{IsFramed, Wishes};
ghost use Rattle.sect_http.specs.Telling.{ANSWER_ROOM};
ghost use Rattle.sect_http.specs.Turns.{IsRefusal};
ghost use Rattle.sect_talk.specs.Asked.{Asked};
ghost use Rattle.sect_turn.specs.Passes.{opening, share, IsIdle, IsPassOf};

use crate::heard::Wish;
use crate::tell::ready;
use http::StatusCode;
use sect_answer::{act, json_page, put};
use sect_base::Memory;
use sect_command::{Command, Query, Reply, View};
use sect_edge::{Clock, Keeper};
use sect_head::Refusal;
use sect_office::Office;
use sect_once::{Desk, Object};
use sect_talk::Page;
use sect_turn::Pass;
use std::sync::Wait;

/// The page of a refused head, with its text in the room.
fn refuse(why: Refusal, into: &mut Vec<u8>) -> Page
    requires empty { into.old.items ≡ [] }
    requires room { 64 ≤ vec_capacity into.old }
    ensures said { record { page = result; body = into.new.items } ≡ refused why }
    ensures closing { result.closing ≡ true }
{
    match why {
        Refusal::Head => {
            put(b"{\"error\":\"head\"}", into);
            json_page(StatusCode::BAD_REQUEST, None, true)
        }
        Refusal::Coding => {
            put(b"{\"error\":\"coding\"}", into);
            json_page(StatusCode::NOT_IMPLEMENTED, None, true)
        }
        Refusal::Length => {
            put(b"{\"error\":\"length\"}", into);
            json_page(StatusCode::LENGTH_REQUIRED, None, true)
        }
        Refusal::Size => {
            put(b"{\"error\":\"size\"}", into);
            json_page(StatusCode::PAYLOAD_TOO_LARGE, None, true)
        }
    }
}

/// Does what a request wishes, and gives the page of the answer, with its text in the room. `Memory` is where the answer
/// is that memory was wanted.
fn say<
    O: Object<Command = Command, Reply = Reply, Query = Query, View = View>,
    K: Keeper,
    C: Clock,
    R: Wait,
>(
    rt: &R,
    office: &Office<O, K>,
    pass: &mut Pass<Desk<O, K>>,
    clock: &mut C,
    wish: Wish,
    into: &mut Vec<u8>,
) -> Result<Page, Memory>
    requires turn { IsPassOf (λ d. d.log) (λ d. d.base) office.now.turn pass.old }
    requires between_turns { IsIdle pass.old }
    requires texts { TakesTexts O.may_ask }
    requires wished { (asked : Asked) × Wishes asked wish }
    requires empty { into.old.items ≡ [] }
    requires room { 64 ≤ vec_capacity into.old }
    ensures turn { IsPassOf (λ d. d.log) (λ d. d.base) office.now.turn pass.new × IsIdle pass.new }
    ensures same { (share pass.new ≡ share pass.old) × (opening pass.new ≡ opening pass.old) }
    ensures shut { IsRefusal wish → (said_of result into.new.items).page.closing ≡ true }
    ensures answers { (asked : Asked) → IsFramed asked → Wishes asked wish → Answers O.start O.stepped O.is_row O.looked
        (sitting pass.old (C.days clock.old)) asked (said_of result into.new.items) (sitting pass.new (C.days clock.new)) }
{
    match wish {
        Wish::Refused(why) => Ok(refuse(why, into)),
        Wish::Wanting => Err(Memory),
        Wish::Asks(errand, _) => act(rt, office, pass, clock, errand, into),
    }
}

/// Does what a request wishes, where there is room for its answer, and gives the page of that, with its text. `Memory`
/// is where the answer is that memory was wanted.
pub(crate) fn say_ready<
    O: Object<Command = Command, Reply = Reply, Query = Query, View = View>,
    K: Keeper,
    C: Clock,
    R: Wait,
>(
    rt: &R,
    office: &Office<O, K>,
    pass: &mut Pass<Desk<O, K>>,
    clock: &mut C,
    wish: Wish,
    text: &mut Vec<u8>,
    out: &mut Vec<u8>,
) -> Result<Page, Memory>
    requires turn { IsPassOf (λ d. d.log) (λ d. d.base) office.now.turn pass.old }
    requires between_turns { IsIdle pass.old }
    requires texts { TakesTexts O.may_ask }
    requires wished { (asked : Asked) × Wishes asked wish }
    ensures turn { IsPassOf (λ d. d.log) (λ d. d.base) office.now.turn pass.new × IsIdle pass.new }
    ensures same { (share pass.new ≡ share pass.old) × (opening pass.new ≡ opening pass.old) }
    ensures room { (page : Page) → result ≡ Ok page → (out.new.items ≡ []) × (ANSWER_ROOM ≤ vec_capacity out.new) }
    ensures shut { IsRefusal wish → (said_of result text.new.items).page.closing ≡ true }
    ensures answers { (asked : Asked) → IsFramed asked → Wishes asked wish → Answers O.start O.stepped O.is_row O.looked
        (sitting pass.old (C.days clock.old)) asked (said_of result text.new.items) (sitting pass.new (C.days clock.new)) }
{
    if !ready(text, 64) {
        return Err(Memory);
    }
    if !ready(out, 256) {
        return Err(Memory);
    }
    say(rt, office, pass, clock, wish, text)
}

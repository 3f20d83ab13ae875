// What a desk needs of its object.
ghost use Rattle.std.specs.Prelude.{◌≡◌, ◌≤◌, ℕ, List, Option, Some, length, take, ◌↔◌, IsTrue, IfOk, OnOk, OnErr, IfSome, IfNone};
ghost use Rattle.sect_base.specs.declared.limit.Caller.{Caller};
ghost use Rattle.sect_base.specs.declared.limit.Id.{Id};
ghost use Rattle.sect_once.specs.declared.entry.Entry.{Entry};
ghost use Rattle.sect_once.specs.Desks.{NextHasRow};
ghost use Rattle.sect_once.specs.History.{HasRow};
ghost use Rattle.sect_once.specs.Told.{TellsFrom};

use crate::entry::{AskedText, Entry, Request};
use sect_base::{Caller, Day, Id, Memory};
use std::alloc::Global;

/// An object whose commands act one at a time, and whose entries have rows as texts.
pub trait Object: Sized {
    /// What commands and queries see of the object: all but the room that it has for more. Contracts alone speak of it.
    type State;

    type Command: Drop;

    type Reply: Drop;

    type Query;

    type View;

    /// The object's state.
    ghost state: { Self → Self.State };

    /// The state at the start.
    ghost start: { Self.State };

    /// The state and the reply after a command of a caller on a day.
    ghost stepped: { Self.State → ℕ → Caller → Self.Command → Self.State × Self.Reply };

    /// The last step can be taken back, which restores this state.
    ghost restores: { Self → Self.State → Type 0 };

    /// What a query is answered in a state.
    ghost looked: { Self.State → Self.Query → Self.View };

    /// The text is that of the request, as it stands in front of a reply's in a row.
    ghost is_request: { Id → ℕ → Self.Command → List ℕ → Type 0 };

    /// The two texts are those of the request's day and of the rest, as they stand in a row.
    ghost is_asked: { Id → ℕ → Self.Command → List ℕ → List ℕ → Type 0 };

    /// The row is the text of the entry.
    ghost is_row: { Entry Self.Command Self.Reply → List ℕ → Type 0 };

    /// The text is that of the reply.
    ghost is_told: { Self.Reply → List ℕ → Type 0 };

    /// The entry that a row is read as.
    ghost entry_of: { List ℕ → Option (Entry Self.Command Self.Reply) };

    /// The request may be asked: its id, its day and its command have texts.
    ghost may_ask: { Id → ℕ → Self.Command → Type 0 };

    /// The object at the start.
    fn empty(alloc: Global) -> Self
        ensures { state result ≡ start };

    /// Acts a command, of which it may take over what it keeps: what is left of the command isn't told. The object keeps what the
    /// step changed, so that it can be taken back. After want of memory the state is as before.
    fn step(
        &mut self,
        day: Day,
        caller: Caller,
        command: &mut Self::Command,
    ) -> Result<Self::Reply, Memory>
        ensures state { OnOk result (state self.new ≡ (stepped (state self.old) day caller command.old).0) }
        ensures reply { IfOk result (λ reply. reply ≡ (stepped (state self.old) day caller command.old).1) }
        ensures undo { OnOk result (restores self.new (state self.old)) }
        ensures err { OnErr result (state self.new ≡ state self.old) };

    /// Takes back the last step. It takes no memory.
    fn undo(&mut self)
        requires { (before : Self.State) × restores self.old before }
        ensures { (before : Self.State) → restores self.old before → state self.new ≡ before };

    /// Answers a query.
    fn look(&self, query: &Self::Query) -> Result<Self::View, Memory>
        ensures { IfOk result (λ v. v ≡ looked (state self.now) query.now) };

    fn same_command(a: &Self::Command, b: &Self::Command) -> bool
        ensures { IsTrue result ↔ (a.now ≡ b.now) };

    fn same_reply(a: &Self::Reply, b: &Self::Reply) -> bool
        ensures { IsTrue result ↔ (a.now ≡ b.now) };

    /// Writes the request, as it stands in a row, in place of what is there.
    fn print_request(
        id: Id,
        day: Day,
        command: &Self::Command,
        into: &mut Vec<u8>,
    ) -> Result<(), Memory>
        ensures { OnOk result (is_request id day command.now into.new.items) };

    /// Writes the same of the text that the request has, in place of what is there.
    fn copy_request(
        command: &Self::Command,
        asked: AskedText,
        into: &mut Vec<u8>,
    ) -> Result<(), Memory>
        ensures { OnOk result ((id : Id) (day : ℕ) → is_asked id day command.now asked.entry.day.now asked.entry.rest.now → is_request id day command.now into.new.items) };

    /// Writes the text of the reply behind a request, which completes the row of each entry with this request and this reply that
    /// has one, and gives the place of the text.
    fn print_reply(reply: &Self::Reply, into: &mut Vec<u8>) -> Result<usize, Memory>
        ensures row { OnOk result ((id : Id) (day : ℕ) (command : Self.Command) → is_request id day command into.old.items
            → HasRow is_row (record { id = id; day = day; command = command; reply = reply.now })
            → is_row (record { id = id; day = day; command = command; reply = reply.now }) into.new.items) }
        ensures told { IfOk result (λ at. TellsFrom is_told at into.new.items reply.now) };

    /// The entry of which this is the row, where there is one.
    fn read_entry(
        alloc: Global,
        row: &[u8],
    ) -> Result<Option<Entry<Self::Command, Self::Reply>>, Memory>
        ensures found { IfOk result (λ found. IfSome found (λ entry. is_row entry row.now)) }
        ensures none { IfOk result (λ found. IfNone found ((entry : Entry Self.Command Self.Reply) → is_row entry row.now → ⊥)) };

    /// The request that stands in front of a row, and the place behind its text. None says nothing of the row.
    fn read_request(
        alloc: Global,
        row: &[u8],
    ) -> Result<Option<(Request<Self::Command>, usize)>, Memory>
        ensures text { IfOk result (λ found. IfSome found (λ r. (r.1 ≤ length row.now) × is_request r.0.id r.0.day r.0.command (take r.1 row.now))) }
        ensures askable { IfOk result (λ found. IfSome found (λ r. may_ask r.0.id r.0.day r.0.command)) };

    /// An entry has at most one row.
    ghost one_row: { (entry : Entry Self.Command Self.Reply) (a b : List ℕ) → is_row entry a → is_row entry b → a ≡ b };

    /// A row is of at most one entry.
    ghost one_entry: { (a b : Entry Self.Command Self.Reply) (row : List ℕ) → is_row a row → is_row b row → a ≡ b };

    /// The row of an entry is read as that entry.
    ghost reads_row: { (entry : Entry Self.Command Self.Reply) (row : List ℕ) → is_row entry row → entry_of row ≡ Some entry };

    /// Behind entries with rows, the entry of a request that may be asked has a row.
    ghost next_has_row: { NextHasRow start stepped is_row may_ask };
}

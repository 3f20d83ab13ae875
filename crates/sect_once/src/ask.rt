// A request asked of the desk, and a look at its object.
ghost use Rattle.std.specs.Prelude.{◌≡◌, ◌≢◌, ◌⊎◌, ◌<◌, ℕ, IfNone, IfOk, IfSome, Some, length, slice_get};
ghost use Rattle.sect_once.specs.declared.entry.Entry.{Entry};
ghost use Rattle.sect_once.specs.Opening.{HasActed};
ghost use Rattle.sect_once.specs.declared.answer.Answer.TheVariants.{Done, NumberReused};
ghost use Rattle.sect_once.specs.Desks.{Answers, IsSound};
ghost use Rattle.sect_once.specs.History.{history, state_after, IsFull, IsNew};

use crate::answer::Answer;
use crate::desk::Desk;
use crate::entry::{AskedText, Entry, Note, Unkept};
use crate::object::Object;
use sect_base::{Chronicle, Day, Id, Memory};
use sect_edge::{KeepFault, Keeper};

/// What a command is answered whose id the entry has: its reply where it is the same command.
fn repeat<O: Object>(
    place: u32,
    entry: Entry<O::Command, O::Reply>,
    command: &O::Command,
) -> Answer<O::Reply>
    ensures { ((entry.command ≡ command.now) × (result ≡ Done place entry.reply)) ⊎ ((entry.command ≢ command.now) × (result ≡ NumberReused place)) }
{
    if O::same_command(&entry.command, command) {
        Answer::Done {
            place,
            reply: entry.reply,
        }
    } else {
        Answer::NumberReused(place)
    }
}

impl<O: Object, K: Keeper> Desk<O, K> {
    /// The place of the entry with an id.
    fn place_with(&self, id: &Id) -> Option<u32>
        ensures found { IfSome result (λ place. HasActed O.start O.stepped O.is_row id.now (history self.now.log) × (place < length (history self.now.log))
            × ((e : Entry O.Command O.Reply) → slice_get (history self.now.log) place ≡ Some e → e.id ≡ id.now)) }
        ensures none { IfNone result (IsNew id.now (history self.now.log)) }
    {
        self.past.place_of(id)
    }

    /// What is answered to the id that the entry at a place has. Reading the entry takes memory.
    fn again(&self, id: Id, place: u32, command: &O::Command) -> Answer<O::Reply>
        requires { HasActed O.start O.stepped O.is_row id (history self.now.log) × (place < length (history self.now.log))
            × ((e : Entry O.Command O.Reply) → slice_get (history self.now.log) place ≡ Some e → e.id ≡ id) }
        ensures { (day : ℕ) → Answers O.stepped O.is_row K.rows K.faults id day command.now self.now self.now result }
    {
        match self.entry(place) {
            Ok(entry) => repeat::<O>(place, entry, command),
            Err(Memory) => Answer::Memory,
        }
    }

    /// A new request acts, of which the text may be known.
    fn act(
        &mut self,
        id: Id,
        day: Day,
        command: &mut O::Command,
        asked: Option<AskedText>,
    ) -> Answer<O::Reply>
        requires askable { O.may_ask id day command.old }
        requires asked { IfSome asked (λ text. O.is_asked id day command.old text.day.now text.rest.now) }
        requires new { IsNew id (history self.old.log) }
        requires room { IsFull O.is_row self.old.log → ⊥ }
        ensures sound { IsSound O.stepped O.is_row K.rows K.faults O.start self.new }
        ensures answer { Answers O.stepped O.is_row K.rows K.faults id day command.old self.old self.new result }
    {
        if self.unkept.reserve(1).is_err() {
            self.recall_sound();
            return Answer::Memory;
        }
        let place = self.past.acted();
        self.reply_at = None;
        let acted = self
            .past
            .act(&mut self.keeper, &mut self.row, id, day, command, asked);
        match acted {
            Ok((reply, at)) => {
                self.reply_at = Some(at);
                self.recall_sound();
                Answer::Done { place, reply }
            }
            Err(fault) => match fault {
                KeepFault::Failed => {
                    self.unkept.push_reserved(Unkept { behind: place, id });
                    self.recall_sound();
                    Answer::KeeperFault
                }
                KeepFault::Memory => {
                    self.recall_sound();
                    Answer::Memory
                }
            },
        }
    }

    /// The log is legal and was never full, the object is the replay of its history, and the rows, where they are told, are those of it. The type keeps this.
    pub fn recall_sound(&self)
        ensures { IsSound O.stepped O.is_row K.rows K.faults O.start self.now }
    {
        self.past.recall_trail();
    }

    /// Asks a request that may be asked: its id, its day and its command have texts, as those of each line that was read. It
    /// acts only where its id is new: a repeat is answered with the kept reply, whatever its day.
    pub fn ask(&mut self, id: Id, day: Day, command: O::Command) -> Answer<O::Reply>
        requires { O.may_ask id day command }
        ensures answer { Answers O.stepped O.is_row K.rows K.faults id day command self.old self.new result }
        ensures sound { IsSound O.stepped O.is_row K.rows K.faults O.start self.new }
    {
        let mut command = command;
        self.ask_lent(id, day, &mut command, None)
    }

    /// Asks the same of a command that the caller lends, with the text of the request, where the caller has that. The object may take over what it keeps of the command: what is left isn't told.
    pub fn ask_lent(
        &mut self,
        id: Id,
        day: Day,
        command: &mut O::Command,
        asked: Option<AskedText>,
    ) -> Answer<O::Reply>
        requires askable { O.may_ask id day command.old }
        requires asked { IfSome asked (λ text. O.is_asked id day command.old text.day.now text.rest.now) }
        ensures answer { Answers O.stepped O.is_row K.rows K.faults id day command.old self.old self.new result }
        ensures sound { IsSound O.stepped O.is_row K.rows K.faults O.start self.new }
    {
        self.recall_sound();
        if let Some(place) = self.place_with(&id) {
            return self.again(id, place, command);
        }
        if self.is_full() {
            return Answer::LogFull;
        }
        self.act(id, day, command, asked)
    }

    /// Looks at the object, which is the replay of the history.
    pub fn look(&self, query: &O::Query) -> Result<O::View, Memory>
        ensures view { IfOk result (λ v. v ≡ O.looked (state_after O.stepped O.start (history self.now.log)) query.now) }
        ensures sound { IsSound O.stepped O.is_row K.rows K.faults O.start self.now }
    {
        self.recall_sound();
        self.past.object.as_ref().look(query)
    }
}

impl<O: Object, K: Keeper> Chronicle for Desk<O, K> {
    type Note = Note<O::Command, O::Reply>;

    ghost notes = { λ d. d.log };

    ghost base = { λ d. d.base };

    fn len(&self) -> u64 {
        self.notes()
    }
}

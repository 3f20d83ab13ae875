// Tries the lines of a script.
ghost use Rattle.std.specs.Prelude.{◌≡◌, ◌⊎◌, ◌<◌, ℕ, false, OnOk, OnErr, IsErrOf, Some, length, slice_get, take};
ghost use Rattle.sect_script.specs.declared.script.LineFault.TheVariants as faults;
ghost use Rattle.sect_script.specs.Run.{AnswersBehind, MayAnswer};
ghost use Rattle.sect_command.specs.declared.command.Command.{Command};
ghost use Rattle.sect_command.specs.declared.reply.Reply.{Reply};
ghost use Rattle.sect_once.specs.declared.answer.Answer.TheVariants.{Done, Memory as NoMemory};
ghost use Rattle.sect_once.specs.declared.entry.Entry.{Entry};
ghost use Rattle.sect_once.specs.Desks.{IsSound};
ghost use Rattle.sect_once.specs.History.{history, IsFull, IsNew};
ghost use Rattle.sect_asking.specs.Asks.{is_passed_over, IsAskedOn, IsKnown};
ghost use Rattle.sect_clerk.specs.Answered.{WouldAnswer};
ghost use Rattle.sect_clerk.specs.Tried.{TriesLine};

use sect_asking::{asked_on, is_passed_over, print_answer, read_request};
use sect_base::{Day, Id, Memory};
use sect_command::{Command, Reply};
use sect_edge::{Clock, Keeper};
use sect_once::{Answer, Desk, Entry, Object, Seen};
use sect_read::LineAsk;
use sect_script::{Handler, LineFault};
use sect_wire::TextObject;
use std::marker::Model;

/// A desk, an object in the desk's state on which requests act to be taken back, and the clock that gives the day of
/// those that name none.
pub struct Trier<O: Object, K: Keeper, C: Clock> {
    desk: Desk<O, K>,
    object: O,
    clock: C,
}

/// It is written out, so that a caller does not prove again how each part is dropped.
impl<O: Object + Drop, K: Keeper + Drop, C: Clock + Drop> Drop for Trier<O, K, C> {
    fn drop(self) {
        let Trier {
            desk: _,
            object: _,
            clock: _,
        } = self;
    }
}

impl<O: Object, K: Keeper, C: Clock> Model for Trier<O, K, C> {
    ghost use Rattle.std.specs.Prelude.{◌≡◌};
    ghost use Rattle.sect_once.specs.Desks.{IsSound};
    ghost use Rattle.sect_asking.specs.Asks.{Sitting};

    ghost Value = { Sitting O.State O.Command O.Reply K };

    ghost view = { λ t. record { desk = t.desk; days = C.days t.clock } };

    ghost invariant = { λ t. IsSound O.stepped O.is_row K.rows K.faults O.start t.desk × (O.state t.object ≡ t.desk.object) };
}

impl<O: Object, K: Keeper, C: Clock> Trier<O, K, C> {
    /// The desk, with an object in the same state.
    pub fn new(desk: Desk<O, K>, object: O, clock: C) -> Self
        requires sound { IsSound O.stepped O.is_row K.rows K.faults O.start desk }
        requires same { O.state object ≡ desk.object }
        ensures { result ≡ record { desk = desk; days = C.days clock } }
    {
        Trier {
            desk,
            object,
            clock,
        }
    }

    /// The keeper, with the rows that it has.
    pub fn close(self) -> K
    where
        O: Drop,
        C: Drop,
        ensures { result ≡ self.desk.keeper }
    {
        let Trier {
            desk,
            object: _,
            clock: _,
        } = self;
        desk.close()
    }
}

impl<O: TextObject, K: Keeper, C: Clock> Trier<O, K, C> {
    /// What a request would be answered on a day.
    pub fn would_answer(&mut self, id: &Id, day: Day, command: Command) -> Answer<Reply>
        ensures answer { WouldAnswer O.stepped O.is_row id.now day command self.old.desk result }
        ensures same { self.new ≡ self.old }
    {
        let Ok(seen) = self.desk.find(id, &command) else {
            return Answer::Memory;
        };
        match seen {
            Seen::Place(place) => self.repeat(place),
            Seen::Reused(place) => Answer::NumberReused(place),
            Seen::New => {
                if self.desk.is_full() {
                    Answer::LogFull
                } else {
                    self.act(id, day, command)
                }
            }
        }
    }

    /// The kept reply of a request that acted.
    fn repeat(&self, place: u32) -> Answer<Reply>
        requires { place < length (history self.now.desk.log) }
        ensures { (result ≡ NoMemory) ⊎ ((e : Entry Command Reply) × (slice_get (history self.now.desk.log) place ≡ Some e) × (result ≡ Done place e.reply)) }
    {
        match self.desk.entry(place) {
            Ok(entry) => {
                let Entry { reply, .. } = entry;
                Answer::Done { place, reply }
            }
            Err(_) => Answer::Memory,
        }
    }

    /// The reply that a new request would have. The object acts, and takes it back.
    fn act(&mut self, id: &Id, day: Day, command: Command) -> Answer<Reply>
        requires new { IsNew id.now (history self.old.desk.log) }
        requires room { IsFull O.is_row self.old.desk.log → ⊥ }
        ensures answer { WouldAnswer O.stepped O.is_row id.now day command self.old.desk result }
        ensures same { self.new ≡ self.old }
    {
        let place = self.desk.acted();
        let mut command = command;
        match self.object.step(day, id.caller, &mut command) {
            Ok(reply) => {
                self.object.undo();
                Answer::Done { place, reply }
            }
            Err(_) => Answer::Memory,
        }
    }

    /// What a request with a text would be answered on its day, or where it names none on the clock's.
    pub fn try_ask(&mut self, ask: LineAsk) -> Answer<Reply>
        ensures { (day : ℕ) × IsAskedOn ask.day self.old.days self.new.days day
            × WouldAnswer O.stepped O.is_row ask.id day ask.command self.old.desk result × (self.new.desk ≡ self.old.desk) }
    {
        let LineAsk { day, id, command } = ask;
        let day = asked_on(day, &mut self.clock);
        self.would_answer(&id, day, command)
    }

    /// Puts the answer to a line that isn't passed over behind what `into` holds, which stands in front at a fault too.
    fn try_request(&mut self, line: &[u8], into: &mut Vec<u8>) -> Result<(), LineFault>
        requires request { is_passed_over line.now ≡ false }
        ensures answered { OnOk result (AnswersBehind (TriesLine O.stepped O.is_row) self.old line.now into.old.items into.new.items self.new) }
        ensures front { OnErr result (take (length into.old.items) into.new.items ≡ into.old.items) }
        ensures bad { IsErrOf result faults.Bad → IsKnown line.now → ⊥ }
        ensures kept { IsErrOf result faults.Bad → self.new ≡ self.old }
        ensures memory { IsErrOf result faults.Memory → MayAnswer (TriesLine O.stepped O.is_row) self.old line.now self.new }
    {
        let ask = read_request(*into.allocator(), line)?;
        let answer = self.try_ask(ask);
        match print_answer(&answer, into) {
            Ok(()) => Ok(()),
            Err(Memory) => Err(LineFault::Memory),
        }
    }
}

impl<O: TextObject, K: Keeper, C: Clock> Handler for Trier<O, K, C> {
    ghost known = { IsKnown };

    ghost answers = { TriesLine O.stepped O.is_row };

    fn answer(&mut self, line: &[u8], into: &mut Vec<u8>) -> Result<(), LineFault> {
        if is_passed_over(line) {
            return Ok(());
        }
        self.try_request(line, into)
    }
}

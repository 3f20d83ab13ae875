// Answers the lines of a script.
ghost use Rattle.std.specs.Prelude.{◌≡◌, ℕ, List, ◌++◌, false, length, take, IfOk, IfSome, OnOk, OnErr, IsErrOf};
ghost use Rattle.sect_script.specs.declared.script.LineFault.TheVariants as faults;
ghost use Rattle.sect_once.specs.Desks.{Answers as AnswersAsk, IsSound};
ghost use Rattle.sect_asking.specs.Asks.{is_passed_over, AnswersScript, HasReply, IsAskedOn, IsKnown};
ghost use Rattle.sect_asking.specs.AnswerLines.{answer_line};
ghost use Rattle.sect_script.specs.Run.{AnswersBehind, MayAnswer};
ghost use Rattle.sect_read.specs.declared.fault.WireFault.TheVariants as wire;
ghost use Rattle.sect_text.specs.Rows.{asked_part};
ghost use Rattle.sect_wire.specs.Fits.{FitsCommand, FitsDay, FitsId};
ghost use Rattle.sect_wire.specs.Lines.{IsLine};

use crate::answer::{print_answer, print_told};
use crate::dated::Dated;
use sect_base::{Day, Id, Memory};
use sect_command::{Command, Reply};
use sect_edge::{Clock, Keeper};
use sect_once::{Answer, AskedText, Desk, Object};
use sect_read::{behind_day, read_line_command, read_line_front};
use sect_script::{Handler, LineFault};
use sect_wire::{LineAsk, TextObject, WireFault, read_line};
use sect_words::Parts;
use std::alloc::Global;
use std::marker::Model;

/// A desk whose requests come in lines, and the clock that gives the day of those that name none. The text of a day is kept.
pub struct Asker<O: Object, K: Keeper, C: Clock> {
    desk: Desk<O, K>,
    clock: C,
    dated: Dated,
}

/// It is written out, so that a caller does not prove again how each part is dropped.
impl<O: Object + Drop, K: Keeper + Drop, C: Clock + Drop> Drop for Asker<O, K, C> {
    fn drop(self) {
        let Asker {
            desk: _,
            clock: _,
            dated: _,
        } = self;
    }
}

impl<O: Object, K: Keeper, C: Clock> Model for Asker<O, K, C> {
    ghost use Rattle.std.specs.Prelude.{◌≡◌};
    ghost use Rattle.sect_once.specs.Desks.{IsSound};
    ghost use Rattle.sect_asking.specs.Asks.{Sitting};

    ghost Value = { Sitting O.State O.Command O.Reply K };

    ghost view = { λ a. record { desk = a.desk; days = C.days a.clock } };

    ghost invariant = { λ a. IsSound O.stepped O.is_row K.rows K.faults O.start a.desk };
}

impl<O: Object, K: Keeper, C: Clock> Asker<O, K, C> {
    /// The desk, of which nothing was asked in lines yet.
    pub fn new(desk: Desk<O, K>, clock: C) -> Self
        requires { IsSound O.stepped O.is_row K.rows K.faults O.start desk }
        ensures { result ≡ record { desk = desk; days = C.days clock } }
    {
        Asker {
            desk,
            clock,
            dated: Dated::first(),
        }
    }

    /// The keeper, with the rows that it has.
    pub fn close(self) -> K
    where
        O: Drop,
        C: Drop,
        ensures keeper { result ≡ self.desk.keeper }
        ensures sound { IsSound O.stepped O.is_row K.rows K.faults O.start self.desk }
    {
        let Asker {
            desk,
            clock: _,
            dated: _,
        } = self;
        desk.close()
    }

    /// The keeper, with the rows that it has, as `close` gives it back, for a process that is about to end: the desk is
    /// left, and what it holds isn't freed.
    pub fn leave(self) -> K
    where
        O: Drop,
        C: Drop,
        ensures keeper { result ≡ self.desk.keeper }
        ensures sound { IsSound O.stepped O.is_row K.rows K.faults O.start self.desk }
    {
        let Asker {
            desk,
            clock: _,
            dated: _,
        } = self;
        desk.leave()
    }
}

impl<O: TextObject, K: Keeper, C: Clock> Asker<O, K, C> {
    /// Asks a request with a text on its day, or where it names none on the clock's.
    pub fn ask(&mut self, ask: LineAsk) -> Answer<Reply>
        requires { FitsId ask.id × FitsCommand ask.command }
        ensures { (day : ℕ) × IsAskedOn ask.day self.old.days self.new.days day
            × AnswersAsk O.stepped O.is_row K.rows K.faults ask.id day ask.command self.old.desk self.new.desk result }
    {
        let LineAsk { day, id, command } = ask;
        let mut command = command;
        self.ask_lent(day, id, &mut command, None)
    }

    /// Asks a command with a text, which the caller lends, on the day that was named, or where none was on the clock's. Where the
    /// caller has what stands behind the day in the text of the request, that is copied. What is left of the command isn't told.
    #[inline(always)]
    fn ask_lent(
        &mut self,
        named: Option<Day>,
        id: Id,
        command: &mut Command,
        rest: Option<&[u8]>,
    ) -> Answer<Reply>
        requires fits { FitsId id × FitsCommand command.old }
        requires rest { IfSome rest (λ text. text.now ≡ asked_part id command.old) }
        ensures { (day : ℕ) × IsAskedOn named self.old.days self.new.days day
            × AnswersAsk O.stepped O.is_row K.rows K.faults id day command.old self.old.desk self.new.desk result }
    {
        let day = asked_on(named, &mut self.clock);
        let Some(rest) = rest else {
            return self.desk.ask_lent(id, day, command, None);
        };
        self.dated.turn_to(day);
        let asked = AskedText {
            day: self.dated.text(),
            rest,
        };
        self.desk.ask_lent(id, day, command, Some(asked))
    }

    /// Appends the line of an answer of the desk. Where its entry is the last, the text of the reply is that in the entry's row.
    #[inline(always)]
    fn print_line(&self, answer: &Answer<Reply>, into: &mut Vec<u8>) -> Result<(), Memory>
        requires { HasReply self.now.desk.log answer.now }
        ensures text { OnOk result (into.new.items ≡ into.old.items ++ answer_line answer.now) }
        ensures front { take (length into.old.items) into.new.items ≡ into.old.items }
    {
        if let Answer::Done { place, reply: _ } = answer {
            if let Some(text) = self.desk.reply_text(*place) {
                return print_told(*place, text, into);
            }
        }
        print_answer(answer, into)
    }

    /// Puts the answer to a line that isn't passed over behind what `into` holds, which stands in front at a fault too.
    fn answer_request(&mut self, line: &[u8], into: &mut Vec<u8>) -> Result<(), LineFault>
        requires request { is_passed_over line.now ≡ false }
        ensures answered { OnOk result (AnswersBehind (AnswersScript O.stepped O.is_row K.rows K.faults) self.old line.now into.old.items into.new.items self.new) }
        ensures front { OnErr result (take (length into.old.items) into.new.items ≡ into.old.items) }
        ensures bad { IsErrOf result faults.Bad → IsKnown line.now → ⊥ }
        ensures kept { IsErrOf result faults.Bad → self.new ≡ self.old }
        ensures memory { IsErrOf result faults.Memory → MayAnswer (AnswersScript O.stepped O.is_row K.rows K.faults) self.old line.now self.new }
    {
        let alloc = *into.allocator();
        let mut words = Parts::new(line, b' ');
        let front = match read_line_front(alloc, &mut words) {
            Ok(front) => front,
            Err(fault) => return Err(line_fault(fault)),
        };
        if let Ok(command) = &mut read_line_command(alloc, false, front.verb, &mut words) {
            if words.is_empty() {
                let answer = self.ask_lent(front.day, front.id, command, behind_day(line));
                return self.print_answer(&answer, into);
            }
        }
        self.answer_shown(line, into)
    }

    /// The same of a line in which what has a default may be written though it is the default, or which isn't a request.
    #[inline(never)]
    fn answer_shown(&mut self, line: &[u8], into: &mut Vec<u8>) -> Result<(), LineFault>
        requires request { is_passed_over line.now ≡ false }
        ensures answered { OnOk result (AnswersBehind (AnswersScript O.stepped O.is_row K.rows K.faults) self.old line.now into.old.items into.new.items self.new) }
        ensures front { OnErr result (take (length into.old.items) into.new.items ≡ into.old.items) }
        ensures bad { IsErrOf result faults.Bad → IsKnown line.now → ⊥ }
        ensures kept { IsErrOf result faults.Bad → self.new ≡ self.old }
        ensures memory { IsErrOf result faults.Memory → MayAnswer (AnswersScript O.stepped O.is_row K.rows K.faults) self.old line.now self.new }
    {
        let ask = read_request(*into.allocator(), line)?;
        let answer = self.ask(ask);
        self.print_answer(&answer, into)
    }

    /// Appends the line of an answer, and tells as a fault of the line that memory was wanted.
    #[inline(always)]
    fn print_answer(&self, answer: &Answer<Reply>, into: &mut Vec<u8>) -> Result<(), LineFault>
        requires { HasReply self.now.desk.log answer.now }
        ensures text { OnOk result (into.new.items ≡ into.old.items ++ answer_line answer.now) }
        ensures front { take (length into.old.items) into.new.items ≡ into.old.items }
        ensures fault { IsErrOf result faults.Bad → ⊥ }
    {
        match self.print_line(answer, into) {
            Ok(()) => Ok(()),
            Err(Memory) => Err(LineFault::Memory),
        }
    }
}

impl<O: TextObject, K: Keeper, C: Clock> Handler for Asker<O, K, C> {
    ghost known = { IsKnown };

    ghost answers = { AnswersScript O.stepped O.is_row K.rows K.faults };

    fn answer(&mut self, line: &[u8], into: &mut Vec<u8>) -> Result<(), LineFault> {
        if is_passed_over(line) {
            return Ok(());
        }
        self.answer_request(line, into)
    }
}

/// The request of a line that isn't passed over, which may be asked of a desk: its id and its command have texts. `Bad` comes
/// exactly where it is none.
pub fn read_request(alloc: Global, line: &[u8]) -> Result<LineAsk, LineFault>
    requires { is_passed_over line.now ≡ false }
    ensures found { IfOk result (λ ask. IsLine line.now ask) }
    ensures fits { IfOk result (λ ask. FitsId ask.id × FitsCommand ask.command) }
    ensures bad { IsErrOf result faults.Bad → IsKnown line.now → ⊥ }
{
    match read_line(alloc, line) {
        Ok(ask) => Ok(ask),
        Err(fault) => Err(line_fault(fault)),
    }
}

/// Why a line wasn't read, as a script tells it.
fn line_fault(fault: WireFault) -> LineFault
    ensures { result ≡ faults.Bad → fault ≡ wire.Memory → ⊥ }
{
    match fault {
        WireFault::BadLine => LineFault::Bad,
        WireFault::UnknownVerb => LineFault::Bad,
        WireFault::BadBody(_) => LineFault::Bad,
        WireFault::Memory => LineFault::Memory,
    }
}

/// The day that a line names, or else the clock's next.
pub fn asked_on<C: Clock>(named: Option<Day>, clock: &mut C) -> Day
    ensures on { IsAskedOn named (C.days clock.old) (C.days clock.new) result }
    ensures text { FitsDay result }
{
    match named {
        Some(day) => day,
        None => clock.today(),
    }
}

/// Whether a line is empty, or begins with `#`.
pub fn is_passed_over(line: &[u8]) -> bool
    ensures { result ≡ is_passed_over line.now }
{
    match line {
        [] => true,
        [byte, ..] => *byte == b'#',
    }
}

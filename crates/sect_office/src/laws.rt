// The laws of asks. The functions do nothing: the contract of each is a law.
ghost use Rattle.std.specs.Prelude.{◌≡◌, ◌⊎◌, ℕ, List};
ghost use mathlib.Core.List.{IsPrefix};
ghost use Rattle.sect_base.specs.declared.limit.Id.{Id};
ghost use Rattle.sect_once.specs.declared.answer.Answer.{Answer};
ghost use Rattle.sect_once.specs.declared.answer.Answer.TheVariants.{NumberReused, LogFull, Memory};
ghost use Rattle.sect_once.specs.declared.entry.Note.{Note};
ghost use Rattle.sect_once.specs.Desks.{HasOther};
ghost use Rattle.sect_once.specs.History.{history, IsFull, IsLegal, IsNew, NeverFull};
ghost use Rattle.sect_office.specs.Calls.{AddsCalls, Ask, Asks};
ghost use Rattle.sect_office.specs.Offices.{Shows};

use sect_once::Object;

/// The own calls of a pass rise: each stands at or above the length of the front that the pass had before that ask.
pub fn own_calls_rise<O: Object>()
    ensures one { (id : Id) (day : ℕ) (command : O.Command) (old front : List (Note O.Command O.Reply)) (own next : List ℕ)
        (answer : Answer O.Reply) → IsPrefix old front → Shows O.is_row id day command old front own next answer
        → AddsCalls old front own next }
    ensures all { (old front : List (Note O.Command O.Reply)) (own next : List ℕ) (asks : List (Ask O.Command O.Reply))
        → Asks O.is_row old own asks front next → AddsCalls old front own next }
{}

/// Where another command has the id, the answer is that its number is reused, or memory was wanted.
pub fn a_reused_number_is_told<O: Object>()
    ensures { (id : Id) (day : ℕ) (command : O.Command) (old front : List (Note O.Command O.Reply)) (own next : List ℕ)
        (answer : Answer O.Reply) (place : ℕ) → IsLegal O.stepped O.start front → HasOther front place id command
        → Shows O.is_row id day command old front own next answer → (answer ≡ NumberReused place) ⊎ (answer ≡ Memory) }
{}

/// Where the old front was full and the id is new, the answer is that the log is full.
pub fn a_full_log_is_told<O: Object>()
    ensures { (id : Id) (day : ℕ) (command : O.Command) (old front : List (Note O.Command O.Reply)) (own next : List ℕ)
        (answer : Answer O.Reply) → NeverFull O.is_row front → IsPrefix old front → IsFull O.is_row old
        → IsNew id (history front) → Shows O.is_row id day command old front own next answer → answer ≡ LogFull }
{}

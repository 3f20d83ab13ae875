// The laws of the machine. The functions do nothing: the contract of each is a law.

ghost use Rattle.std.specs.Prelude.{◌≡◌, ℕ, List, None, IsTrue};
ghost use Rattle.std.specs.Option.{is_some};
ghost use Rattle.sect_base.specs.Tree.{Tree};
ghost use Rattle.sect_base.specs.declared.limit.Caller.{Caller};
ghost use Rattle.sect_command.specs.declared.command.Command.{Command};
ghost use Rattle.sect_command.specs.declared.command.Command.TheVariants.{Swap};
ghost use Rattle.sect_command.specs.declared.reply.Reply.TheVariants.{Blocked, Swapped};
ghost use Rattle.sect_model.specs.Data.{StudentId, CourseId, Want, Choice};
ghost use Rattle.sect_model.specs.World.{State};
ghost use Rattle.sect_model.specs.Kept.{KeptState};
ghost use Rattle.sect_model.specs.Refusals.{refusal_of};
ghost use Rattle.sect_model.specs.Refuted.{move_in};
ghost use Rattle.sect_model.specs.Settle.{make_move, settle};
ghost use Rattle.sect_model.specs.Step.{in_world, on_day, step};
ghost use Rattle.sect_machine.specs.NotDone.{IsNotDone};

/// A command whose reply is blocked is one that `recheck` takes on that day: it searches, and isn't refused.
pub fn blocked_commands_are_taken()
    ensures searches { (s : State) (day : ℕ) (caller : Caller) (command : Command) (visits : ℕ) (tree : Tree) → KeptState s
        → (step s day caller command).reply ≡ Blocked visits tree → IsTrue (is_some (move_in command)) }
    ensures accepted { (s : State) (day : ℕ) (caller : Caller) (command : Command) (visits : ℕ) (tree : Tree)
        → (step s day caller command).reply ≡ Blocked visits tree → refusal_of (on_day s day) caller command ≡ None }
{}

/// A command that is refused or blocked, or whose budget is spent, changes the day and what settling places, and nothing else.
pub fn what_is_not_done_changes_nothing()
    ensures { (s : State) (day : ℕ) (caller : Caller) (command : Command) → IsNotDone (step s day caller command).reply
        → (step s day caller command).state ≡ (settle (on_day s day)).state }
{}

/// A swap that is made gives up and takes all of it.
pub fn a_swap_is_made_whole()
    ensures { (s : State) (day : ℕ) (caller : Caller) (student : StudentId) (give : List CourseId) (take : List Want)
        (budget : ℕ) (choices : List Choice) → (step s day caller (Swap student give take budget)).reply ≡ Swapped choices
        → (step s day caller (Swap student give take budget)).state
        ≡ (settle (in_world (on_day s day) (make_move (on_day s day).world
        (record { student = student; give = give; take = take }) choices))).state }
{}

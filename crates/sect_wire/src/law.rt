// Laws of bodies and answers.

ghost use Rattle.std.specs.Prelude.{◌≡◌, ◌++◌, ◌∷◌, [], ◌<◌, ◌^◌, ℕ, List, Ok, Some};
ghost use Rattle.json.specs.Print.{quoted};
ghost use Rattle.serde_json.specs.Read.{read};
ghost use Rattle.serde_json.specs.Written.{compact_text};
ghost use Rattle.sect_command.specs.declared.command.Command.{Command};
ghost use Rattle.sect_command.specs.declared.reply.Reply.{Reply};
ghost use Rattle.sect_once.specs.declared.answer.Answer.{Answer};
ghost use Rattle.sect_read.specs.Fits.{FitsCommand};
ghost use Rattle.sect_text.specs.Replies.{reply_text};
ghost use Rattle.sect_wire.specs.Answers.{FitsPlace, answer_body, answer_data};
ghost use Rattle.sect_wire.specs.Bodies.{command_of};

/// The command of a body has a text, so that the entry of a request that asks it has a row.
pub fn a_read_command_has_a_text()
    ensures { (body : List ℕ) (c : Command) → command_of body ≡ Ok c → FitsCommand c }
{}

/// The text of an answer is what is written for its data without a space, and is read again as this data.
pub fn an_answer_is_read_again()
    ensures written { (a : Answer Reply) → answer_body a ≡ compact_text (answer_data a) }
    ensures again { (a : Answer Reply) → FitsPlace a → read (answer_body a) ≡ Some (answer_data a) }
{}

/// No byte of a reply's text needs an escape: it stands in an answer as it is, between two quotes.
pub fn a_reply_stands_as_it_is()
    ensures { (r : Reply) → quoted (reply_text r) ≡ 34 ∷ (reply_text r ++ 34 ∷ []) }
{}

// Objects that are asked what texts say.

ghost use Rattle.sect_wire.specs.Objects.{AsksTexts, TakesTexts, TellsTexts};

use sect_command::{Command, Reply};
use sect_once::Object;

/// An object of which each request whose id, day and command have texts may be asked, and whose rows end in the texts of replies.
pub trait TextObject: Object<Command = Command, Reply = Reply> {
    /// A request that was read may be asked.
    ghost takes_texts: { TakesTexts Self.may_ask };

    /// What is asked for are the texts of a request's day and of the rest.
    ghost asks_texts: { AsksTexts Self.is_asked };

    /// What tells a reply is its text.
    ghost tells_texts: { TellsTexts Self.is_told };
}

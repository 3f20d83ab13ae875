// The reply, once those who wait are placed.

ghost use Rattle.std.specs.Prelude.{◌≡◌, ◌==◌, find, option_copied};
ghost use Rattle.std.specs.Option.{option_map_or};
ghost use Rattle.sect_command.specs.declared.reply.Reply.TheVariants.{Placed as reply_placed, Waiting as reply_waiting};
ghost use Rattle.sect_model.specs.World.{State};
ghost use Rattle.sect_model.specs.Step.{reply_after as reply_behind};

use sect_command::Reply;
use sect_model::Placed;

/// The reply, once these are placed: a wait whose ticket is among them is placed.
pub fn reply_after(reply: Reply, placed: &[Placed]) -> Reply
    ensures { (state : State) → result ≡ reply_behind reply (record { state = state; placed = placed.now }) }
{
    if let Reply::Waiting(ticket) = &reply {
        return ticket_reply(*ticket, placed);
    }
    reply
}

/// The reply to a wait with this ticket.
fn ticket_reply(ticket: u64, placed: &[Placed]) -> Reply
    ensures { result ≡ option_map_or (λ p. reply_placed ticket p.choice) (find (λ p. p.ticket == ticket) placed.now) (reply_waiting ticket) }
{
    match placed_by(ticket, placed) {
        Some(p) => Reply::Placed(ticket, p.choice),
        None => Reply::Waiting(ticket),
    }
}

/// The placement of this ticket.
fn placed_by(ticket: u64, placed: &[Placed]) -> Option<&Placed>
    ensures { option_copied result ≡ find (λ p. p.ticket == ticket) placed.now }
{
    placed.iter().find(|p| p.ticket == ticket)
}

// A step with all that it tells.

use sect_base::Items;
use sect_command::Reply;
use sect_model::Placed;

/// What a step told: the reply to its command, and whom settling placed after it, in order.
#[derive(Drop)]
pub struct ToldStep {
    pub reply: Reply,
    pub placed: Items<Placed>,
}

// What commands and queries see of a machine.

use std::marker::Model;

/// The state of which contracts speak: a world, and who waits. There is no other use of this type.
#[derive(Drop)]
pub struct State {}

impl Model for State {
    ghost use Rattle.sect_model.specs.World.{State, empty_state};

    ghost Value = { State };

    ghost view = { λ s. empty_state };
}

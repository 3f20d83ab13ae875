// The machine's day.

ghost use Rattle.std.specs.Prelude.{◌≡◌};
ghost use Rattle.sect_machine.specs.Standing.{state_in};

use crate::machine::Machine;
use sect_base::Day;

impl Machine {
    /// The day of the world. It takes no memory.
    pub fn day(&self) -> Day
        ensures { result ≡ (state_in self.now).world.day }
    {
        self.world.day()
    }
}

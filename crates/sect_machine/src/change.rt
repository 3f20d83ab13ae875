// A change that fits is made, and recorded.

ghost use Rattle.std.specs.Prelude.{◌≡◌, ◌++◌, [], ◌∷◌, max, OnOk, OnErr};
ghost use Rattle.sect_model.specs.Change.{put_day};
ghost use Rattle.sect_model.specs.Fits.{Fits, changed};
ghost use Rattle.sect_space.specs.Back.{back_of};
ghost use Rattle.sect_space.specs.Undo.{Since, Undoable};

use sect_base::{Day, Memory};
use sect_model::Change;
use sect_space::{Undo, World};

/// Makes a change that fits. Where memory runs out, the world is as before.
pub fn make(world: &mut World, change: Change, undo: &mut Undo) -> Result<(), Memory>
    requires fits { Fits world.old.world change }
    requires undoable { Undoable world.old undo.old.backs }
    ensures ok { OnOk result (world.new.world ≡ changed world.old.world change) }
    ensures recorded { OnOk result (undo.new.backs ≡ undo.old.backs ++ back_of world.old.world change ∷ []) }
    ensures err { OnErr result (world.new.world ≡ world.old.world) }
    ensures since { Since world.old.world undo.old.backs world.new.world undo.new.backs }
    ensures undoable { Undoable world.new undo.new.backs }
{
    world.apply(change, undo)
}

/// The day becomes the larger of the two.
pub fn set_day(world: &mut World, day: Day, undo: &mut Undo) -> Result<(), Memory>
    requires undoable { Undoable world.old undo.old.backs }
    ensures ok { OnOk result (world.new.world ≡ put_day world.old.world (max world.old.world.day day)) }
    ensures err { OnErr result (world.new.world ≡ world.old.world) }
    ensures since { Since world.old.world undo.old.backs world.new.world undo.new.backs }
    ensures undoable { Undoable world.new undo.new.backs }
{
    if world.day().get() < day.get() {
        make(world, Change::Day(day), undo)
    } else {
        Ok(())
    }
}

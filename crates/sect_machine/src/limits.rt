// Limits, cancelled sections, and courses that are given up.

ghost use Rattle.std.specs.Prelude.{◌≡◌, ◌++◌, [], ◌∷◌, false, OnOk};
ghost use Rattle.sect_catalog.specs.Catalogue.{is_cancelled as cancelled_in};
ghost use Rattle.sect_model.specs.Change.{put_limit, cancel as world_without};
ghost use Rattle.sect_model.specs.World.{leave};
ghost use Rattle.sect_model.specs.Fits.{Fits};
ghost use Rattle.sect_space.specs.Back.{back_of};
ghost use Rattle.sect_space.specs.Undo.{Since, Undoable};

use crate::change::make;
use sect_base::{Cap, CourseId, Limit, Memory, SectionId, StudentId};
use sect_model::Change;
use sect_space::{Undo, World};

/// Sets a limit that isn't below the counted enrolments.
pub fn set_limit(world: &mut World, cap: Cap, limit: Limit, undo: &mut Undo) -> Result<(), Memory>
    requires fits { Fits world.old.world (Change.Cap cap limit) }
    requires undoable { Undoable world.old undo.old.backs }
    ensures ok { OnOk result (world.new.world ≡ put_limit world.old.world cap limit) }
    ensures recorded { OnOk result (undo.new.backs ≡ undo.old.backs ++ back_of world.old.world (Change.Cap cap limit) ∷ []) }
    ensures since { Since world.old.world undo.old.backs world.new.world undo.new.backs }
    ensures undoable { Undoable world.new undo.new.backs }
{
    make(world, Change::Cap(cap, limit), undo)
}

/// Cancels a section that nobody holds. One that is cancelled already stays so.
pub fn cancel(world: &mut World, id: SectionId, undo: &mut Undo) -> Result<(), Memory>
    requires fits { cancelled_in world.old.world.catalogue id ≡ false → Fits world.old.world (Change.Cancelled id) }
    requires undoable { Undoable world.old undo.old.backs }
    ensures ok { OnOk result (world.new.world ≡ world_without world.old.world id) }
    ensures since { Since world.old.world undo.old.backs world.new.world undo.new.backs }
    ensures undoable { Undoable world.new undo.new.backs }
{
    if world.catalogue().is_cancelled(id) {
        Ok(())
    } else {
        make(world, Change::Cancelled(id), undo)
    }
}

/// Takes the student out of a course that it holds.
pub fn drop_course(
    world: &mut World,
    student: StudentId,
    course: CourseId,
    undo: &mut Undo,
) -> Result<(), Memory>
    requires fits { Fits world.old.world (Change.Leave student course) }
    requires undoable { Undoable world.old undo.old.backs }
    ensures ok { OnOk result (world.new.world ≡ leave world.old.world student course) }
    ensures since { Since world.old.world undo.old.backs world.new.world undo.new.backs }
    ensures undoable { Undoable world.new undo.new.backs }
{
    make(world, Change::Leave(student, course), undo)
}

// What a step changed, so that it can be taken back.

ghost use Rattle.std.specs.Prelude.{◌≡◌, []};
ghost use Rattle.sect_space.specs.Undo.{Undoable, undone};
ghost use Rattle.sect_wait.specs.Undo.{Undoable as QueueUndoable, undone as queue_undone};

use sect_space::{Undo, World};
use sect_wait::{Queue, QueueUndo};
use std::alloc::Global;

/// The changes that a step made of the world and of those who wait.
#[derive(Drop)]
pub struct MachineUndo {
    pub(crate) world: Undo,
    pub(crate) queue: QueueUndo,
}

impl MachineUndo {
    /// No changes. It takes no memory.
    pub(crate) fn empty(alloc: Global) -> MachineUndo
        ensures world { result.world.backs ≡ [] }
        ensures queue { result.queue ≡ [] }
    {
        MachineUndo {
            world: Undo::empty(alloc),
            queue: QueueUndo::empty(alloc),
        }
    }

    /// Forgets the changes, and keeps their room. It takes no memory.
    pub(crate) fn clear(&mut self)
        ensures world { self.new.world.backs ≡ [] }
        ensures queue { self.new.queue ≡ [] }
    {
        self.world.clear();
        self.queue.clear();
    }

    /// Takes the changes back, and keeps their room. It takes no memory.
    pub(crate) fn take_back(&mut self, world: &mut World, queue: &mut Queue)
        requires undoable { Undoable world.old self.old.world.backs }
        requires queue_undoable { QueueUndoable queue.old self.old.queue }
        ensures world { world.new.world ≡ undone world.old.world self.old.world.backs }
        ensures queue { queue.new.queue ≡ queue_undone queue.old.queue self.old.queue }
    {
        world.undo_to(&mut self.world, 0);
        queue.undo_to(&mut self.queue, 0);
    }
}

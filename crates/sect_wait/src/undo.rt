// The changes of a queue that were made, so that they can be taken back.

ghost use Rattle.std.specs.Prelude.{◌≡◌, ◌<◌, ◌++◌, [], ◌∷◌, length};

use crate::back::QueueBack;
use std::alloc::Global;
use std::marker::Model;

/// What was kept of the changes of a queue, the first one first. Contracts see that list.
pub struct QueueUndo {
    pub(crate) backs: Vec<QueueBack>,
}

/// It is written out, so that a caller does not prove again how each part is dropped.
impl Drop for QueueUndo {
    fn drop(self) {
        let QueueUndo { backs: _ } = self;
    }
}

impl Model for QueueUndo {
    ghost use Rattle.std.specs.Prelude.{List};
    ghost use Rattle.sect_wait.specs.declared.back.QueueBack.{QueueBack};

    ghost Value = { List QueueBack };

    ghost view = { λ u. u.backs.items };
}

impl QueueUndo {
    /// No changes. It takes no memory.
    pub fn empty(alloc: Global) -> QueueUndo
        ensures { result ≡ [] }
    {
        QueueUndo {
            backs: Vec::new(alloc),
        }
    }

    /// Forgets the changes, and keeps their room. It takes no memory.
    pub fn clear(&mut self)
        ensures { self.new ≡ [] }
    {
        self.backs.clear();
    }

    /// How many changes are recorded. It takes no memory.
    pub fn len(&self) -> usize
        ensures { result ≡ length self.now }
    {
        self.backs.len()
    }

    /// Takes the last change off.
    pub(crate) fn pop(&mut self) -> QueueBack
        requires { 0 < length self.old }
        ensures { self.old ≡ self.new ++ result ∷ [] }
    {
        match self.backs.pop() {
            Some(back) => back,
            None => unreachable!(),
        }
    }
}

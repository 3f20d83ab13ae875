// A text that only proofs read.

ghost use Rattle.std.specs.Prelude.{◌≡◌, List, ℕ, [], ◌++◌};
ghost use Rattle.std.specs.Borrow.{ftrue};

use std::marker::{Model, PhantomData};

/// The bytes that came. It takes no memory, and its methods do nothing at run time.
#[derive(Drop)]
pub(crate) struct Past {
    marker: PhantomData<u8>,
    pub(crate) ghost bytes: { List ℕ },
}

impl Model for Past {
    ghost also_owns = { λ _. ftrue };
}

impl Past {
    /// No bytes.
    pub(crate) fn new() -> Past
        ensures { result.bytes ≡ [] }
    {
        Past {
            marker: PhantomData,
        }
    }

    /// Puts the piece behind the bytes that came.
    pub(crate) fn note(&mut self, _piece: &[u8])
        ensures { self.new.bytes ≡ self.old.bytes ++ _piece.now }
    {}
}

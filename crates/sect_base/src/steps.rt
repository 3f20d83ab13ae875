// A count of the steps of a computation.

ghost use Rattle.std.specs.Prelude.{◌≡◌, ◌+◌, ◌<◌, min};

use std::marker::Model;
use std::sync::ledger::{Blank, Book, Ledger, Share};

/// How many steps were taken. Contracts see the number, and only `tick` changes it. A program reads it as far as 64 bits go.
#[derive(Drop)]
pub struct Steps<L: Ledger> {
    book: Book<L>,
    share: Share<L>,
    counted: u64,
}

impl<L: Ledger> Model for Steps<L> {
    ghost use Rattle.std.specs.Prelude.{◌≡◌, ℕ, ◌<◌, min};

    ghost Value = { ℕ };

    ghost view = { λ s. s.book.total };

    ghost invariant = { λ s. 0 < s.share.parts × s.counted ≡ min s.book.total 18446744073709551615 };
}

impl<L: Ledger> Steps<L> {
    /// No steps. It takes no memory.
    pub fn new(blank: Blank) -> Steps<L>
        requires name { blank.name ≡ L.name }
        requires parts { blank.parts ≡ L.parts }
        requires some { 0 < blank.parts }
        ensures { result ≡ 0 }
    {
        let (book, share) = blank.open();
        Steps {
            book,
            share,
            counted: 0,
        }
    }

    /// Counts a step. It takes no memory.
    pub fn tick(&mut self)
        ensures { self.new ≡ self.old + 1 }
    {
        self.book.add(&mut self.share, 1);
        self.counted = self.counted.saturating_add(1);
    }

    /// How many steps were taken, and 2^64 - 1 where they are more. It takes no memory.
    pub fn counted(&self) -> u64
        ensures { result ≡ min self.now 18446744073709551615 }
    {
        self.counted
    }
}

// A student: the row, and the ranked requests.

ghost use Rattle.std.specs.Prelude.{◌≡◌, []};
ghost use Rattle.std.specs.List.{list_any};
ghost use Rattle.sect_people.specs.Student.{is_free};

use crate::row::{Ask, StudentRow};
use sect_base::Items;
use std::alloc::Global;
use std::marker::Model;

/// A row, and what the student asks for, the first request first.
pub struct Student {
    row: StudentRow,
    asks: Items<Ask>,
    // Whether a time is to be kept free, so that most requests aren't looked at for one.
    keeps_free: bool,
}

/// It is written out, so that a caller does not prove again how each part is dropped.
impl Drop for Student {
    fn drop(self) {
        let Student {
            row: _,
            asks: _,
            keeps_free: _,
        } = self;
    }
}

impl Model for Student {
    ghost use Rattle.std.specs.Prelude.{◌≡◌};
    ghost use Rattle.std.specs.List.{list_any};
    ghost use Rattle.sect_people.specs.Student.{Student as Value_of, is_free};

    ghost Value = { Value_of };

    ghost view = { λ s. record { row = s.row; asks = s.asks } };

    ghost invariant = { λ s. s.keeps_free ≡ list_any is_free s.asks };
}

/// Whether one of the requests keeps a time free.
fn any_free(asks: &[Ask]) -> bool
    ensures { result ≡ list_any is_free asks.now }
{
    asks.iter().any(keeps_free)
}

/// Whether the request keeps a time free.
fn keeps_free(ask: &Ask) -> bool
    ensures { result ≡ is_free ask.now }
{
    match ask {
        Ask::Course(_) => false,
        Ask::Free(_) => true,
    }
}

impl Student {
    /// A student who asks for nothing. It takes no memory.
    pub fn new(alloc: Global, row: StudentRow) -> Student
        ensures { result ≡ record { row = row; asks = [] } }
    {
        Student {
            row,
            asks: Items::from_vec(Vec::new(alloc)),
            keeps_free: false,
        }
    }

    pub fn row(&self) -> &StudentRow
        ensures { result.now ≡ self.now.row }
    {
        &self.row
    }

    pub fn asks(&self) -> &[Ask]
        ensures { result.now ≡ self.now.asks }
    {
        self.asks.as_slice()
    }

    /// Whether one of the requests keeps a time free. None is looked at.
    pub fn keeps_free(&self) -> bool
        ensures { result ≡ list_any is_free self.now.asks }
    {
        self.keeps_free
    }

    /// The row alone.
    pub fn into_row(self) -> StudentRow
        ensures { result ≡ self.row }
    {
        let Student {
            row,
            asks: _,
            keeps_free: _,
        } = self;
        row
    }

    /// Another row. The old one is given back, and the requests stay.
    pub fn replace_row(&mut self, row: StudentRow) -> StudentRow
        ensures given_back { result ≡ self.old.row }
        ensures replaced { self.new ≡ record self.old { row = row } }
    {
        std::mem::replace(&mut self.row, row)
    }

    /// Other requests. The old ones are given back.
    pub fn replace_asks(&mut self, asks: Items<Ask>) -> Items<Ask>
        ensures given_back { result ≡ self.old.asks }
        ensures replaced { self.new ≡ record self.old { asks = asks } }
    {
        self.keeps_free = any_free(asks.as_slice());
        std::mem::replace(&mut self.asks, asks)
    }
}

// Calendars for what is new.

ghost use Rattle.std.specs.Prelude.{◌≡◌, true, false, IsOk, OnOk};
ghost use Rattle.sect_weeks.specs.Quiet.{has_new, adds_students};
ghost use Rattle.sect_weeks.specs.Rows.{Keeps};

use crate::weeks::Weeks;
use sect_base::Memory;
use sect_model::Change;

impl Weeks {
    /// Gives the student whom the change brings an empty calendar, where there is none. Where memory runs out, what is
    /// taken stays.
    pub fn add_rows(&mut self, change: &Change) -> Result<(), Memory>
        ensures keeps { Keeps self.old self.new }
        ensures ok { OnOk result (has_new self.new change.now ≡ true) }
        ensures enough { adds_students change.now ≡ false → IsOk result }
    {
        match change {
            Change::Student(row) => self.add_row(row.id),
            _ => Ok(()),
        }
    }
}

// Rows for what is new.

ghost use Rattle.std.specs.Prelude.{◌≡◌, true, false, IsOk, OnOk};
ghost use Rattle.sect_numbers.specs.Numbers.{has_level, Grown, have_courses, have_sections, have_subparts, have_configs, has_offering};
ghost use Rattle.sect_numbers.specs.Quiet.{has_new, adds_rows};
ghost use Rattle.sect_numbers.specs.Tally.{has_row};

use crate::numbers::Numbers;
use sect_base::{Level, Memory, ReservationId};
use sect_catalog::{ConfigRow, CourseRow, OfferingRow, SectionRow, SubpartRow};
use sect_model::Change;

impl Numbers {
    /// Gives what the change brings its rows: an offering and each of its levels, or a reservation. Where memory runs out, the
    /// numbers stay.
    pub fn add_rows(&mut self, change: &Change) -> Result<(), Memory>
        ensures grown { Grown self.old self.new }
        ensures ok { OnOk result (has_new self.new change.now ≡ true) }
        ensures enough { adds_rows change.now ≡ false → IsOk result }
    {
        match change {
            Change::Offering(row) => self.add_offering(row),
            Change::Reserve(row) => self.add_reservation(row.id),
            _ => Ok(()),
        }
    }

    /// Gives the offering, and each of its courses, configurations and sections, a row. Where memory runs out, the numbers stay.
    fn add_offering(&mut self, row: &OfferingRow) -> Result<(), Memory>
        ensures grown { Grown self.old self.new }
        ensures ok { OnOk result (has_offering self.new row.now ≡ true) }
    {
        self.add_courses(row.courses.as_slice())?;
        self.add_configs(row.configs.as_slice())?;
        self.add_level(Level::Offering(row.id))
    }

    /// Gives each of the courses a row. Where memory runs out, some have it.
    fn add_courses(&mut self, rows: &[CourseRow]) -> Result<(), Memory>
        ensures grown { Grown self.old self.new }
        ensures ok { OnOk result (have_courses self.new rows.now ≡ true) }
    {
        for row in rows {
            self.add_level(Level::Course(row.id))?;
        }
        Ok(())
    }

    /// Gives each of the configurations, and each of their sections, a row. Where memory runs out, some have it.
    fn add_configs(&mut self, rows: &[ConfigRow]) -> Result<(), Memory>
        ensures grown { Grown self.old self.new }
        ensures ok { OnOk result (have_configs self.new rows.now ≡ true) }
    {
        for row in rows {
            self.add_level(Level::Config(row.id))?;
            self.add_subparts(row.subparts.as_slice())?;
        }
        Ok(())
    }

    /// Gives each section of the subparts a row. Where memory runs out, some have it.
    fn add_subparts(&mut self, rows: &[SubpartRow]) -> Result<(), Memory>
        ensures grown { Grown self.old self.new }
        ensures ok { OnOk result (have_subparts self.new rows.now ≡ true) }
    {
        for row in rows {
            self.add_sections(row.sections.as_slice())?;
        }
        Ok(())
    }

    /// Gives each of the sections a row. Where memory runs out, some have it.
    fn add_sections(&mut self, rows: &[SectionRow]) -> Result<(), Memory>
        ensures grown { Grown self.old self.new }
        ensures ok { OnOk result (have_sections self.new rows.now ≡ true) }
    {
        for row in rows {
            self.add_level(Level::Section(row.id))?;
        }
        Ok(())
    }

    /// Gives a course, offering, configuration or section a row, where it has none.
    fn add_level(&mut self, level: Level) -> Result<(), Memory>
        ensures grown { Grown self.old self.new }
        ensures ok { OnOk result (has_level self.new level ≡ true) }
    {
        match level {
            Level::Course(id) => self.courses.add_row(id.0),
            Level::Offering(id) => self.offerings.add_row(id.0),
            Level::Config(id) => self.configs.add_row(id.0),
            Level::Section(id) => self.sections.add_row(id.0),
        }
    }

    /// Gives the reservation a row. Where memory runs out, the numbers stay.
    fn add_reservation(&mut self, id: ReservationId) -> Result<(), Memory>
        ensures grown { Grown self.old self.new }
        ensures ok { OnOk result (has_row self.new.uses id.0 ≡ true) }
    {
        self.uses.add_row(id.0)
    }
}

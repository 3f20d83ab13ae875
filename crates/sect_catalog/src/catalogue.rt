// The catalogue: checked rows and cancelled sections.

ghost use Rattle.std.specs.Prelude.{◌≡◌, ℕ, ◌-◌, ◌<◌, false, IsTrue, [], ◌++◌, ◌∷◌, length, map, take, Some, None, IfOk, OnOk, OnErr, option_copied};
ghost use Rattle.std.specs.Option.{option_map, is_some};
ghost use Rattle.std.specs.Result.{result_err};
ghost use Rattle.sect_catalog.specs.Catalogue.{find_offering, find_course, find_config, find_section, offering_of_course, offering_of_config, offering_of_section, is_cancelled as cancelled_in};
ghost use Rattle.sect_catalog.specs.Fault.{known_id as first_known, fault_of};
ghost use Rattle.sect_catalog.specs.Place.{row_entries};
ghost use Rattle.sect_catalog.specs.Limits.{limit_in, with_limit};
ghost use Rattle.sect_catalog.specs.Rising.{rising_courses};
ghost use Rattle.sect_catalog.specs.Added.{with_row, row_fault};

use crate::count::{count_fault, sections};
use crate::fault::{bad_parent, missing_part};
use crate::find::{config_at, course_at, offering_at, section_at};
use crate::index::Index;
use crate::known::known_id;
use crate::limit::{cap_key, put_at};
use crate::place::{Key, Place, note_row};
use crate::rising::{drop_courses, put_courses};
use crate::row::{AddFault, CatalogFault, ConfigRow, CourseRow, OfferingRow, SectionRow};
use sect_base::{Cap, ConfigId, CourseId, Limit, Memory, OfferingId, SectionId, Table};
use std::alloc::Global;
use std::marker::Model;

/// Checked rows, and the sections that are cancelled, each in the order of its coming.
pub struct Catalogue {
    rows: Vec<OfferingRow>,
    cancelled: Vec<SectionId>,
    /// The ids of the cancelled sections.
    marks: Table<()>,
    /// The place of each id.
    places: Index,
    /// The ids of all courses, in rising order.
    courses: Vec<CourseId>,
    /// How many sections there are.
    sections: usize,
}

/// It is written out, so that a caller does not prove again how each part is dropped.
impl Drop for Catalogue {
    fn drop(self) {
        let Catalogue {
            rows: _,
            cancelled: _,
            marks: _,
            places: _,
            courses: _,
            sections: _,
        } = self;
    }
}

impl Model for Catalogue {
    ghost use Rattle.sect_catalog.specs.Catalogue.{Catalogue as Value_of};
    ghost use Rattle.sect_catalog.specs.Rising.{Keeps, Marks};

    ghost Value = { Value_of };

    ghost view = { λ c. record { rows = c.rows.items; cancelled = c.cancelled.items } };

    ghost invariant = { λ c. Keeps c.rows.items c.places c.courses.items c.sections × Marks c.cancelled.items c.marks };
}

impl Catalogue {
    /// A catalogue with no rows. It takes no memory.
    pub fn empty(alloc: Global) -> Catalogue
        ensures { result ≡ record { rows = []; cancelled = [] } }
    {
        Catalogue {
            rows: Vec::new(alloc),
            cancelled: Vec::new(alloc),
            marks: Table::empty(alloc),
            places: Index::empty(alloc),
            courses: Vec::new(alloc),
            sections: 0,
        }
    }

    /// The rows, in the order of their coming.
    pub fn rows(&self) -> &[OfferingRow]
        ensures { result.now ≡ self.now.rows }
    {
        &self.rows
    }

    /// The first fault of a row that is to be added. It takes no memory.
    pub fn check(&self, row: &OfferingRow) -> Result<(), CatalogFault>
        ensures { result_err result ≡ fault_of self.now row.now }
    {
        match self.fault(row) {
            Some(fault) => Err(fault),
            None => Ok(()),
        }
    }

    /// The first fault for which a row isn't added, if it has one.
    fn fault(&self, row: &OfferingRow) -> Option<CatalogFault>
        ensures { result ≡ fault_of self.now row.now }
    {
        if let Some(id) = self.known_id(row) {
            return Some(CatalogFault::Known(id));
        }
        if let Some(fault) = missing_part(row) {
            return Some(fault);
        }
        let configs = row.configs.as_slice();
        if let Some(id) = bad_parent(configs) {
            return Some(CatalogFault::BadParent(id));
        }
        count_fault(row, self.sections)
    }

    /// The first id of the row that the catalogue has, or that stands twice in the row.
    fn known_id(&self, row: &OfferingRow) -> Option<u32>
        ensures { result ≡ first_known self.now row.now }
    {
        known_id(&self.places, row)
    }

    /// The section of an id. It takes no memory.
    #[inline(always)]
    pub fn section(&self, id: SectionId) -> Option<&SectionRow>
        ensures { option_copied result ≡ find_section self.now.rows id }
    {
        section_at(&self.rows, self.places.section(id.0))
    }

    /// The configuration of an id. It takes no memory.
    pub fn config(&self, id: ConfigId) -> Option<&ConfigRow>
        ensures { option_copied result ≡ find_config self.now.rows id }
    {
        config_at(&self.rows, self.places.config(id.0))
    }

    /// The offering of an id. It takes no memory.
    pub fn offering(&self, id: OfferingId) -> Option<&OfferingRow>
        ensures { option_copied result ≡ find_offering self.now.rows id }
    {
        offering_at(&self.rows, self.places.offering(id.0))
    }

    /// The course of an id, with the offering that has it. It takes no memory.
    #[inline(always)]
    pub fn course(&self, id: CourseId) -> Option<(&OfferingRow, &CourseRow)>
        ensures course { option_map (λ found. found.1.now) result ≡ find_course self.now.rows id }
        ensures offering { option_map (λ found. found.0.now) result ≡ offering_of_course self.now.rows id }
    {
        course_at(&self.rows, self.places.course(id.0))
    }

    /// The offering that has a configuration. It takes no memory.
    pub fn offering_of_config(&self, id: ConfigId) -> Option<&OfferingRow>
        ensures { option_copied result ≡ offering_of_config self.now.rows id }
    {
        offering_at(&self.rows, self.places.config(id.0))
    }

    /// The offering in which a section stands. It takes no memory.
    pub fn offering_of_section(&self, id: SectionId) -> Option<&OfferingRow>
        ensures { option_copied result ≡ offering_of_section self.now.rows id }
    {
        offering_at(&self.rows, self.places.section(id.0))
    }

    /// The ids of all courses in rising order.
    pub fn course_ids(&self) -> &[CourseId]
        ensures { result.now ≡ rising_courses self.now.rows }
    {
        &self.courses
    }

    /// Whether the section is cancelled. Where none is, no index is asked.
    pub fn is_cancelled(&self, id: SectionId) -> bool
        ensures { result ≡ cancelled_in self.now id }
    {
        if self.cancelled.is_empty() {
            return false;
        }
        self.marks.get(id.0).is_some()
    }

    /// Cancels a section that stands in a row and isn't cancelled. Where memory runs out, the
    /// catalogue is as before.
    pub fn cancel(&mut self, id: SectionId) -> Result<(), Memory>
        requires known { IsTrue (is_some (find_section self.old.rows id)) }
        requires fresh { cancelled_in self.old id ≡ false }
        ensures ok { OnOk result (self.new ≡ record { rows = self.old.rows; cancelled = self.old.cancelled ++ id ∷ [] }) }
        ensures err { OnErr result (self.new ≡ self.old) }
    {
        self.cancelled.reserve(1)?;
        self.marks.put(id.0, ())?;
        self.cancelled.push_reserved(id);
        Ok(())
    }

    /// Takes back the last cancellation. There is one. It takes no memory.
    pub fn uncancel_last(&mut self)
        requires { 0 < length self.old.cancelled }
        ensures { self.new ≡ record { rows = self.old.rows; cancelled = take (length self.old.cancelled - 1) self.old.cancelled } }
    {
        if let Some(id) = self.cancelled.pop() {
            self.marks.remove(id.0);
        }
    }

    /// Appends the row where it passes its check. After a fault the catalogue is as before.
    pub fn add_offering(&mut self, row: OfferingRow) -> Result<(), AddFault>
        ensures fault { row_fault result ≡ fault_of self.old row }
        ensures ok { OnOk result (self.new ≡ with_row self.old row) }
        ensures err { OnErr result (self.new ≡ self.old) }
    {
        if let Some(fault) = self.fault(&row) {
            return Err(AddFault::Row(fault));
        }
        match self.append(row) {
            Ok(()) => Ok(()),
            Err(Memory) => Err(AddFault::Memory),
        }
    }

    /// Puts the limit in place of the old one, and hands the old one back. The id is known. It
    /// takes no memory.
    pub fn set_limit(&mut self, cap: Cap, limit: Limit) -> Limit
        requires { IsTrue (is_some (limit_in self.old.rows cap)) }
        ensures old { Some result ≡ limit_in self.old.rows cap }
        ensures new { self.new ≡ record { rows = map (with_limit cap limit) self.old.rows; cancelled = self.old.cancelled } }
    {
        let old = match self.limit(cap) {
            Some(old) => old,
            None => unreachable!(),
        };
        if let Some(at) = self.places.place(cap_key(cap)) {
            put_at(&mut self.rows, cap, limit, at);
        }
        old
    }

    /// The limit that stands now.
    fn limit(&self, cap: Cap) -> Option<Limit>
        ensures { result ≡ limit_in self.now.rows cap }
    {
        match cap {
            Cap::Course(id) => Some(self.course(id)?.1.limit),
            Cap::Config(id) => Some(self.config(id)?.limit),
            Cap::Section(id) => Some(self.section(id)?.limit),
        }
    }

    /// Takes the last row off. There is one. It takes no memory.
    pub fn remove_last(&mut self) -> OfferingRow
        requires { 0 < length self.old.rows }
        ensures { self.old ≡ with_row self.new result }
    {
        let row = match self.rows.pop() {
            Some(row) => row,
            None => unreachable!(),
        };
        self.places.keep_first(self.rows.len());
        drop_courses(&mut self.courses, row.courses.as_slice());
        self.sections -= sections(row.configs.as_slice());
        row
    }

    /// Appends a row that passes its check. Where memory runs out, the catalogue is as before.
    fn append(&mut self, row: OfferingRow) -> Result<(), Memory>
        requires { fault_of self.old row ≡ None }
        ensures ok { OnOk result (self.new ≡ with_row self.old row) }
        ensures err { OnErr result (self.new ≡ self.old) }
    {
        let at = self.rows.len();
        let count = sections(row.configs.as_slice());
        let entries = entries_of(*self.rows.allocator(), at, &row)?;
        self.rows.reserve(1)?;
        self.courses.reserve(row.courses.len())?;
        if self.places.note(&entries).is_err() {
            self.places.keep_first(at);
            return Err(Memory);
        }
        put_courses(&mut self.courses, row.courses.as_slice());
        self.sections += count;
        self.rows.push_reserved(row);
        Ok(())
    }
}

/// The entries of a row at a position.
fn entries_of(alloc: Global, at: usize, row: &OfferingRow) -> Result<Vec<(Key, Place)>, Memory>
    ensures { IfOk result (λ entries. entries.items ≡ row_entries at row.now) }
{
    let mut entries = Vec::new(alloc);
    note_row(&mut entries, at, row)?;
    Ok(entries)
}

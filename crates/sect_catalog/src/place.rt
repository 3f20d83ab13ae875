// Where each id of a row stands.

ghost use Rattle.std.specs.Prelude.{◌≡◌, ◌++◌, OnOk};
ghost use Rattle.sect_catalog.specs.Place.{
  kind_number,
  placed,
  section_entry,
  subpart_entries,
  config_entries,
  course_entry,
  at_row,
  row_entries as entries_of_row,
};

use crate::row::{ConfigRow, CourseRow, OfferingRow, SectionRow, SubpartRow};
use sect_base::Memory;

/// The kinds of ids.
#[derive(Clone, Copy, PartialEq, Eq)]
pub enum Kind {
    Offering,
    Course,
    Config,
    Subpart,
    Section,
}

/// Positions, each counted from 0 within what holds it. A course has its own where a
/// configuration has its.
#[derive(Clone, Copy, PartialEq, Eq)]
pub struct Place {
    pub row: usize,
    pub config: usize,
    pub subpart: usize,
    pub section: usize,
}

/// An id by the number of its kind and its own.
pub type Key = (u8, u32);

/// An id with the number of its kind.
pub fn key(kind: Kind, id: u32) -> Key
    ensures { result ≡ (kind_number kind, id) }
{
    match kind {
        Kind::Offering => (0, id),
        Kind::Course => (1, id),
        Kind::Config => (2, id),
        Kind::Subpart => (3, id),
        Kind::Section => (4, id),
    }
}

/// The entries of a row's ids, in its order, behind those that are there.
pub fn note_row(entries: &mut Vec<(Key, Place)>, at: usize, row: &OfferingRow) -> Result<(), Memory>
    ensures { OnOk result (entries.new.items ≡ entries.old.items ++ entries_of_row at row.now) }
{
    let at = Place {
        row: at,
        config: 0,
        subpart: 0,
        section: 0,
    };
    entries.push((key(Kind::Offering, row.id.0), at))?;
    note_courses(entries, at, row.courses.as_slice())?;
    note_configs(entries, at, row.configs.as_slice())
}

/// The entries of the courses' ids, behind those that are there.
fn note_courses(
    entries: &mut Vec<(Key, Place)>,
    at: Place,
    courses: &[CourseRow],
) -> Result<(), Memory>
    ensures { OnOk result (entries.new.items ≡ entries.old.items ++ placed (course_entry at) 0 courses.now) }
{
    for (config, course) in courses.iter().enumerate() {
        entries.push((key(Kind::Course, course.id.0), Place { config, ..at }))?;
    }
    Ok(())
}

/// The entries of the ids of the configurations and of what they hold, behind those that are there.
fn note_configs(
    entries: &mut Vec<(Key, Place)>,
    at: Place,
    configs: &[ConfigRow],
) -> Result<(), Memory>
    ensures { OnOk result (entries.new.items ≡ entries.old.items ++ placed (config_entries at) 0 configs.now) }
{
    for (number, config) in configs.iter().enumerate() {
        note_config(
            entries,
            Place {
                config: number,
                ..at
            },
            config,
        )?;
    }
    Ok(())
}

/// The entries of the ids of a configuration and of what it holds, behind those that are there.
fn note_config(entries: &mut Vec<(Key, Place)>, at: Place, config: &ConfigRow) -> Result<(), Memory>
    ensures { OnOk result (entries.new.items ≡ entries.old.items ++ config_entries at at.config config.now) }
{
    entries.push((key(Kind::Config, config.id.0), at))?;
    for (subpart, row) in config.subparts.as_slice().iter().enumerate() {
        note_subpart(entries, Place { subpart, ..at }, row)?;
    }
    Ok(())
}

/// The entries of the ids of a subpart and of its sections, behind those that are there.
fn note_subpart(
    entries: &mut Vec<(Key, Place)>,
    at: Place,
    subpart: &SubpartRow,
) -> Result<(), Memory>
    ensures { OnOk result (entries.new.items ≡ entries.old.items ++ subpart_entries at at.subpart subpart.now) }
{
    entries.push((key(Kind::Subpart, subpart.id.0), at))?;
    for (section, row) in subpart.sections.as_slice().iter().enumerate() {
        entries.push((key(Kind::Section, row.id.0), Place { section, ..at }))?;
    }
    Ok(())
}

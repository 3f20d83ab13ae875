// Copies of rows, which may fail for want of memory.

ghost use Rattle.std.specs.Prelude.{◌≡◌, IfOk};

use crate::row::{ConfigRow, CourseRow, OfferingRow, SectionRow, SubpartRow};
use sect_base::{Duplicate, Items, Meeting, Memory};
use std::alloc::Global;

impl Duplicate for OfferingRow {
    fn copy(&self, alloc: Global) -> Result<Self, Memory> {
        Ok(OfferingRow {
            id: self.id,
            courses: self.courses.copy(alloc)?,
            configs: self.configs.copy(alloc)?,
        })
    }
}

impl Duplicate for CourseRow {
    fn copy(&self, _alloc: Global) -> Result<Self, Memory> {
        Ok(*self)
    }
}

impl Duplicate for ConfigRow {
    fn copy(&self, alloc: Global) -> Result<Self, Memory> {
        Ok(ConfigRow {
            id: self.id,
            limit: self.limit,
            subparts: self.subparts.copy(alloc)?,
        })
    }
}

impl Duplicate for SubpartRow {
    fn copy(&self, alloc: Global) -> Result<Self, Memory> {
        Ok(SubpartRow {
            id: self.id,
            sections: self.sections.copy(alloc)?,
        })
    }
}

impl Duplicate for SectionRow {
    fn copy(&self, alloc: Global) -> Result<Self, Memory> {
        Ok(SectionRow {
            id: self.id,
            limit: self.limit,
            parent: self.parent,
            meetings: copy_meetings(&self.meetings, alloc)?,
        })
    }
}

/// A copy of a section's meetings.
fn copy_meetings(meetings: &Items<Meeting>, alloc: Global) -> Result<Items<Meeting>, Memory>
    ensures { IfOk result (λ copies. copies ≡ meetings.now) }
{
    let mut copies = Vec::new(alloc);
    for meeting in meetings.as_slice() {
        copies.push(*meeting)?;
    }
    Ok(Items::from_vec(copies))
}

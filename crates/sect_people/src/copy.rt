// Copies of rows and requests, which may fail for want of memory.

use crate::row::{Ask, CourseAsk, StudentRow};
use sect_base::{Duplicate, Memory};
use std::alloc::Global;

impl Duplicate for StudentRow {
    fn copy(&self, alloc: Global) -> Result<Self, Memory> {
        Ok(StudentRow {
            id: self.id,
            max_credits: self.max_credits,
            groups: self.groups.copy(alloc)?,
            curricula: self.curricula.copy(alloc)?,
        })
    }
}

impl Duplicate for CourseAsk {
    fn copy(&self, alloc: Global) -> Result<Self, Memory> {
        Ok(CourseAsk {
            courses: self.courses.copy(alloc)?,
            wait: self.wait,
            substitute: self.substitute,
        })
    }
}

impl Duplicate for Ask {
    fn copy(&self, alloc: Global) -> Result<Self, Memory> {
        match self {
            Ask::Course(ask) => Ok(Ask::Course(ask.copy(alloc)?)),
            Ask::Free(meeting) => Ok(Ask::Free(*meeting)),
        }
    }
}

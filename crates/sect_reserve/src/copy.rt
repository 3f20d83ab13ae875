// Copies of rows, which may fail for want of memory.

use crate::row::{Audience, Includes, Place, Reservation, Restriction};
use sect_base::{Duplicate, Memory};
use std::alloc::Global;

impl Duplicate for Audience {
    fn copy(&self, alloc: Global) -> Result<Self, Memory> {
        match self {
            Audience::Students(ids) => Ok(Audience::Students(ids.copy(alloc)?)),
            Audience::Group(id) => Ok(Audience::Group(*id)),
            Audience::Curriculum {
                area,
                classes,
                majors,
            } => Ok(Audience::Curriculum {
                area: *area,
                classes: classes.copy(alloc)?,
                majors: majors.copy(alloc)?,
            }),
            Audience::Course(id) => Ok(Audience::Course(*id)),
        }
    }
}

impl Duplicate for Place {
    fn copy(&self, _alloc: Global) -> Result<Self, Memory> {
        Ok(*self)
    }
}

impl Duplicate for Includes {
    fn copy(&self, alloc: Global) -> Result<Self, Memory> {
        Ok(Includes {
            configs: self.configs.copy(alloc)?,
            sections: self.sections.copy(alloc)?,
        })
    }
}

impl Duplicate for Reservation {
    fn copy(&self, alloc: Global) -> Result<Self, Memory> {
        Ok(Reservation {
            id: self.id,
            offering: self.offering,
            audience: self.audience.copy(alloc)?,
            limit: self.limit,
            first: self.first,
            expiry: self.expiry,
            includes: self.includes.copy(alloc)?,
            over: self.over,
            overlap: self.overlap,
            must: self.must,
        })
    }
}

impl Duplicate for Restriction {
    fn copy(&self, alloc: Global) -> Result<Self, Memory> {
        Ok(Restriction {
            id: self.id,
            offering: self.offering,
            audience: self.audience.copy(alloc)?,
            includes: self.includes.copy(alloc)?,
        })
    }
}

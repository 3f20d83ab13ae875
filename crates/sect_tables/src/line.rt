// What a row gives.

use sect_base::{ConfigId, Items, Limit, Memory, OfferingId, SubpartId};
use sect_catalog::{CourseRow, SectionRow};

/// Why a row has no values.
#[derive(Clone, Copy, PartialEq, Eq)]
pub enum LineFault {
    /// The first field, from 1, that isn't in its form; 0 where the row has another number of fields.
    Field(u32),
    /// Want of memory.
    Memory,
}

impl From<Memory> for LineFault {
    ghost use Rattle.std.specs.Prelude.{◌≡◌};
    ghost use Rattle.sect_tables.specs.declared.line.LineFault.TheVariants.{Memory};

    ghost from_gives = { λ memory fault. fault ≡ Memory };

    fn from(_: Memory) -> LineFault {
        LineFault::Memory
    }
}

/// What the next row of the same offering is compared with.
#[derive(Drop)]
pub struct Before {
    /// The text of the courses.
    pub courses: Items<u8>,
    pub config: ConfigId,
    /// The text of the configuration's limit.
    pub limit: Items<u8>,
}

/// A section, with all in which it stands.
#[derive(Drop)]
pub struct SectionLine {
    pub offering: OfferingId,
    pub courses: Items<CourseRow>,
    pub config: ConfigId,
    pub config_limit: Limit,
    pub subpart: SubpartId,
    pub section: SectionRow,
}

// Reading ids, which are numbers of 32 bits.

ghost use Rattle.std.specs.Prelude.{◌≡◌};
ghost use Rattle.sect_words.specs.ReadingWords.{
  course_of,
  config_of,
  subpart_of,
  offering_of,
  restriction_of,
  section_of,
  reservation_of,
  student_of,
  group_of,
  area_of,
  class_of,
  major_of,
};

use crate::fault::Fault;
use crate::parts::Parts;
use crate::readable::Readable;
use sect_base::{
    AreaId, ClassId, ConfigId, CourseId, GroupId, MajorId, OfferingId, ReservationId,
    RestrictionId, SectionId, StudentId, SubpartId,
};
use std::alloc::Global;

impl Readable for AreaId {
    ghost reads = { area_of };

    fn read(alloc: Global, word: &[u8]) -> Result<AreaId, Fault> {
        Ok(AreaId(u32::read(alloc, word)?))
    }

    fn read_next(_alloc: Global, parts: &mut Parts) -> Result<AreaId, Fault> {
        Ok(AreaId(parts.take_u32()?))
    }
}

impl Readable for ClassId {
    ghost reads = { class_of };

    fn read(alloc: Global, word: &[u8]) -> Result<ClassId, Fault> {
        Ok(ClassId(u32::read(alloc, word)?))
    }

    fn read_next(_alloc: Global, parts: &mut Parts) -> Result<ClassId, Fault> {
        Ok(ClassId(parts.take_u32()?))
    }
}

impl Readable for ConfigId {
    ghost reads = { config_of };

    fn read(alloc: Global, word: &[u8]) -> Result<ConfigId, Fault> {
        Ok(ConfigId(u32::read(alloc, word)?))
    }

    fn read_next(_alloc: Global, parts: &mut Parts) -> Result<ConfigId, Fault> {
        Ok(ConfigId(parts.take_u32()?))
    }
}

impl Readable for CourseId {
    ghost reads = { course_of };

    fn read(alloc: Global, word: &[u8]) -> Result<CourseId, Fault> {
        Ok(CourseId(u32::read(alloc, word)?))
    }

    #[inline(always)]
    fn read_next(_alloc: Global, parts: &mut Parts) -> Result<CourseId, Fault> {
        Ok(CourseId(parts.take_u32()?))
    }

    #[inline(always)]
    fn read_alone(parts: &mut Parts) -> Option<CourseId> {
        Some(CourseId(parts.take_digits(4_294_967_295)? as u32))
    }
}

impl Readable for GroupId {
    ghost reads = { group_of };

    fn read(alloc: Global, word: &[u8]) -> Result<GroupId, Fault> {
        Ok(GroupId(u32::read(alloc, word)?))
    }

    fn read_next(_alloc: Global, parts: &mut Parts) -> Result<GroupId, Fault> {
        Ok(GroupId(parts.take_u32()?))
    }
}

impl Readable for MajorId {
    ghost reads = { major_of };

    fn read(alloc: Global, word: &[u8]) -> Result<MajorId, Fault> {
        Ok(MajorId(u32::read(alloc, word)?))
    }

    fn read_next(_alloc: Global, parts: &mut Parts) -> Result<MajorId, Fault> {
        Ok(MajorId(parts.take_u32()?))
    }

    #[inline(always)]
    fn read_alone(parts: &mut Parts) -> Option<MajorId> {
        Some(MajorId(parts.take_digits(4_294_967_295)? as u32))
    }
}

impl Readable for OfferingId {
    ghost reads = { offering_of };

    fn read(alloc: Global, word: &[u8]) -> Result<OfferingId, Fault> {
        Ok(OfferingId(u32::read(alloc, word)?))
    }

    fn read_next(_alloc: Global, parts: &mut Parts) -> Result<OfferingId, Fault> {
        Ok(OfferingId(parts.take_u32()?))
    }
}

impl Readable for ReservationId {
    ghost reads = { reservation_of };

    fn read(alloc: Global, word: &[u8]) -> Result<ReservationId, Fault> {
        Ok(ReservationId(u32::read(alloc, word)?))
    }

    fn read_next(_alloc: Global, parts: &mut Parts) -> Result<ReservationId, Fault> {
        Ok(ReservationId(parts.take_u32()?))
    }
}

impl Readable for RestrictionId {
    ghost reads = { restriction_of };

    fn read(alloc: Global, word: &[u8]) -> Result<RestrictionId, Fault> {
        Ok(RestrictionId(u32::read(alloc, word)?))
    }

    fn read_next(_alloc: Global, parts: &mut Parts) -> Result<RestrictionId, Fault> {
        Ok(RestrictionId(parts.take_u32()?))
    }
}

impl Readable for SectionId {
    ghost reads = { section_of };

    fn read(alloc: Global, word: &[u8]) -> Result<SectionId, Fault> {
        Ok(SectionId(u32::read(alloc, word)?))
    }

    fn read_next(_alloc: Global, parts: &mut Parts) -> Result<SectionId, Fault> {
        Ok(SectionId(parts.take_u32()?))
    }
}

impl Readable for StudentId {
    ghost reads = { student_of };

    fn read(alloc: Global, word: &[u8]) -> Result<StudentId, Fault> {
        Ok(StudentId(u32::read(alloc, word)?))
    }

    fn read_next(_alloc: Global, parts: &mut Parts) -> Result<StudentId, Fault> {
        Ok(StudentId(parts.take_u32()?))
    }
}

impl Readable for SubpartId {
    ghost reads = { subpart_of };

    fn read(alloc: Global, word: &[u8]) -> Result<SubpartId, Fault> {
        Ok(SubpartId(u32::read(alloc, word)?))
    }

    fn read_next(_alloc: Global, parts: &mut Parts) -> Result<SubpartId, Fault> {
        Ok(SubpartId(parts.take_u32()?))
    }
}

// The offering that a change concerns.

ghost use Rattle.std.specs.Prelude.{◌≡◌};
ghost use Rattle.sect_space.specs.Back.{
  offering_id,
  cap_offering as offering_of_cap,
  section_offering as offering_of_section,
  config_offering as offering_of_config,
  reservation_offering as offering_of_reservation,
};
ghost use Rattle.sect_space.specs.Parts.{roomed_of};

use crate::parts::Parts;
use sect_base::{Cap, ConfigId, CourseId, OfferingId, ReservationId, SectionId};

impl Parts {
    /// The offering of a course.
    pub fn course_offering(&self, id: CourseId) -> Option<OfferingId>
        ensures { result ≡ offering_id (roomed_of self.now).world id }
    {
        match self.catalogue.course(id) {
            Some((row, _)) => Some(row.id),
            None => None,
        }
    }

    /// The offering of a reservation.
    pub fn reservation_offering(&self, id: ReservationId) -> Option<OfferingId>
        ensures { result ≡ offering_of_reservation (roomed_of self.now).world id }
    {
        match self.reservations.get(id) {
            Some(row) => Some(row.offering),
            None => None,
        }
    }

    /// The offering that has the limit.
    pub fn cap_offering(&self, cap: Cap) -> Option<OfferingId>
        ensures { result ≡ offering_of_cap (roomed_of self.now).world cap }
    {
        match cap {
            Cap::Course(id) => self.course_offering(id),
            Cap::Config(id) => self.config_offering(id),
            Cap::Section(id) => self.section_offering(id),
        }
    }

    /// The offering that has the configuration.
    pub fn config_offering(&self, id: ConfigId) -> Option<OfferingId>
        ensures { result ≡ offering_of_config (roomed_of self.now).world id }
    {
        match self.catalogue.offering_of_config(id) {
            Some(row) => Some(row.id),
            None => None,
        }
    }

    /// The offering in which the section stands.
    pub fn section_offering(&self, id: SectionId) -> Option<OfferingId>
        ensures { result ≡ offering_of_section (roomed_of self.now).world id }
    {
        match self.catalogue.offering_of_section(id) {
            Some(row) => Some(row.id),
            None => None,
        }
    }
}

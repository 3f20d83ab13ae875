// What is kept of a change so that it can be taken back, and what a change concerns.

use sect_base::{
    Cap, Day, Items, Limit, OfferingId, ReservationId, RestrictionId, SectionId, StudentId,
};
use sect_model::Enrolment;
use sect_people::{Ask, StudentRow};
use sect_reserve::{Reservation, Restriction};

/// A change that was made, with what stood there before it.
#[derive(Drop)]
pub enum Back {
    /// The offering is the last.
    OfferingAdded(OfferingId),
    /// The student is the last.
    StudentAdded(StudentId),
    /// The old row.
    StudentReplaced(StudentRow),
    /// The old requests.
    RequestsReplaced(StudentId, Items<Ask>),
    ReservationAdded(ReservationId, OfferingId),
    /// The place among those of the offering, and the row.
    ReservationRemoved(usize, Reservation),
    /// The offering, and the old expiry day.
    ExpiryReplaced(ReservationId, Option<OfferingId>, Option<Day>),
    RestrictionAdded(RestrictionId, OfferingId),
    /// The place among those of the offering, and the row.
    RestrictionRemoved(usize, Restriction),
    /// The offering, and the old limit.
    LimitReplaced(Cap, Option<OfferingId>, Limit),
    /// The section is the last that was cancelled, and stands in this offering.
    SectionCancelled(SectionId, Option<OfferingId>),
    /// The old day and the new one.
    DayReplaced(Day, Day),
    /// The enrolment is the last of this student, and in this offering.
    Enrolled(StudentId, Option<OfferingId>),
    /// The place among those of the student, the enrolment, and its offering.
    Left(usize, Enrolment, Option<OfferingId>),
}

/// What a change concerns: a student, an offering, both, or the old day and the new one.
#[derive(Clone, Copy, PartialEq, Eq)]
pub struct Mark {
    pub student: Option<StudentId>,
    pub offering: Option<OfferingId>,
    pub days: Option<(Day, Day)>,
}

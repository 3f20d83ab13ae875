// Whether two rows are equal.

use crate::row::{Audience, Includes, Place, Reservation, Restriction};
use sect_base::Same;

impl Same for Audience {
    fn same(&self, other: &Self) -> bool {
        match self {
            Audience::Students(ids) => {
                matches!(other, Audience::Students(others) if ids.same(others))
            }
            Audience::Group(id) => matches!(other, Audience::Group(others) if *id == *others),
            Audience::Curriculum {
                area,
                classes,
                majors,
            } => match other {
                Audience::Curriculum {
                    area: other_area,
                    classes: other_classes,
                    majors: other_majors,
                } => {
                    *area == *other_area && classes.same(other_classes) && majors.same(other_majors)
                }
                _ => false,
            },
            Audience::Course(id) => matches!(other, Audience::Course(others) if *id == *others),
        }
    }
}

impl Same for Place {
    fn same(&self, other: &Self) -> bool {
        *self == *other
    }
}

impl Same for Includes {
    fn same(&self, other: &Self) -> bool {
        self.configs.same(&other.configs) && self.sections.same(&other.sections)
    }
}

impl Same for Reservation {
    fn same(&self, other: &Self) -> bool {
        self.id == other.id
            && self.offering == other.offering
            && self.audience.same(&other.audience)
            && self.limit == other.limit
            && self.first == other.first
            && self.expiry == other.expiry
            && self.includes.same(&other.includes)
            && self.over == other.over
            && self.overlap == other.overlap
            && self.must == other.must
    }
}

impl Same for Restriction {
    fn same(&self, other: &Self) -> bool {
        self.id == other.id
            && self.offering == other.offering
            && self.audience.same(&other.audience)
            && self.includes.same(&other.includes)
    }
}

// The rules on a course.

ghost use Rattle.std.specs.Prelude.{◌≡◌, []};
ghost use Rattle.std.specs.Option.{option_map_or};
ghost use Rattle.sect_model.specs.World.{offering_of};
ghost use Rattle.sect_model.specs.Rules.{first_broken, course_rules};

use crate::moment::Moment;
use sect_base::{CourseId, Rule};

impl Moment<'_> {
    /// The first rule that the choice of a course breaks, with its number.
    pub fn course_rule(&self, course: CourseId) -> Option<(Rule, u32)>
        ensures { result ≡ first_broken (option_map_or (λ o. course_rules self.now.at self.now.student o course) (offering_of self.now.at course) []) }
    {
        let (offering, row) = self.course(course)?;
        if self.holds_offering(course, offering) {
            return Some((Rule::InOffering, offering.id.0));
        }
        let most = self.max_credits();
        let credits = self.credits_held(most) + u32::from(row.credits);
        if u32::from(most) < credits {
            return Some((Rule::Credits, credits));
        }
        None
    }
}

// The survey of unmet requests.

ghost use Rattle.std.specs.Prelude.{◌≡◌, IfOk};
ghost use Rattle.sect_survey.specs.Survey.{survey_of};

use crate::line::Survey;
use crate::searching::survey_lines;
use crate::sections::section_ids;
use crate::sums::{rule_sums, section_sums};
use crate::tally::tally_of;
use sect_base::{Items, Memory};
use sect_space::World;
use std::alloc::Global;
use std::thread::Threads;

/// A line for each course request of which no course is held, by student and position, with what a search within 2,000
/// visits says of it now, and the sums over the lines: for each rule from 1 to 20 the leaves of the blocked lines, and
/// for each section the blocked lines that lack a place in it. The answer is the same whatever threads searched. The one
/// error is want of memory, also where a sum has no room in 32 bits.
pub fn survey(rt: &(impl Threads + Sync), alloc: Global, world: &World) -> Result<Survey, Memory>
    ensures { IfOk result (λ survey. survey ≡ survey_of world.now.world) }
{
    let lines = survey_lines(rt, alloc, world)?;
    let tally = tally_of(alloc, lines.as_slice())?;
    let rules = rule_sums(alloc, &tally.leaves)?;
    let sections = section_ids(alloc, world.catalogue().rows())?;
    let wanted = section_sums(alloc, sections.as_slice(), &tally.lines)?;
    Ok(Survey {
        lines: Items::from_vec(lines),
        rules,
        wanted,
    })
}

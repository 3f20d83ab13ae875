// A configuration that was decided on, with some sections: the section of the next subpart is decided next.

ghost use Rattle.std.specs.Prelude.{◌≡◌, ◌<◌, ◌++◌, ◌∷◌, [], length, map, slice_get, Some, IfSome, Contains};
ghost use Rattle.std.specs.List.{All};
ghost use Rattle.std.specs.Option.{option_map};
ghost use Rattle.sect_people.specs.Order.{sorted_by};
ghost use Rattle.sect_model.specs.declared.pick.Pick.TheVariants.{Section as picks_section};
ghost use Rattle.sect_model.specs.Choice.{subparts_of};
ghost use Rattle.sect_model.specs.World.{World as ValueOfWorld};
ghost use Rattle.sect_model.specs.Path.{options_at};
ghost use Rattle.sect_model.specs.Rules.{leaf_of};
ghost use Rattle.sect_moment.specs.Completed.{completed_by};
ghost use Rattle.sect_moment.specs.Found.{IsConfig, IsSection};
ghost use Rattle.sect_rules.specs.Wanted.{config_path};

use crate::joined::Joined;
use crate::nth::Ordered;
use crate::rows::next_sections;
use sect_base::{Choice, ConfigId, Rule, SectionId, Sections};
use sect_catalog::{ConfigRow, SectionRow, SubpartRow};
use std::marker::Model;

/// A configuration decided on, with the sections so far, of which contracts see the three, with its subparts and the sections of
/// the next one.
#[derive(Drop)]
pub struct Configured<'a> {
    by: &'a Joined<'a>,
    config: ConfigId,
    subparts: &'a [SubpartRow],
    sections: Sections,
    rows: Ordered<'a, SectionRow>,
}

impl<'a> Model for Configured<'a> {
    ghost use Rattle.std.specs.Prelude.{◌≡◌};
    ghost use Rattle.std.specs.List.{All};
    ghost use Rattle.sect_model.specs.Choice.{subparts_of};
    ghost use Rattle.sect_moment.specs.Found.{IsSection};
    ghost use Rattle.sect_rules.specs.Wanted.{Configured as Value_of, sections_on};

    ghost Value = { Value_of };

    ghost view = { λ s. record { by = s.by.now; config = s.config; sections = s.sections } };

    ghost invariant = { λ s. (s.subparts.now ≡ subparts_of s.by.now.on.wanted.world s.by.now.on.course s.config)
        × (s.rows ≡ sections_on s.by.now.on.wanted.world s.by.now.on.course s.config s.sections)
        × All (IsSection s.by.now.on.wanted.world) s.rows };
}

impl<'a> Configured<'a> {
    /// What is behind the choice of the configuration.
    #[inline(always)]
    pub fn new(by: &'a Joined<'a>, row: &'a ConfigRow) -> Configured<'a>
        requires { IsConfig by.now.on.wanted.world (Some by.now.on.course) row.now }
        ensures { result ≡ record { by = by.now; config = row.now.id; sections = [] } }
    {
        Configured::of(by, row.id, row.subparts.as_slice(), Sections::empty())
    }

    /// What is behind these sections of the configuration with these subparts.
    #[inline(always)]
    fn of(
        by: &'a Joined<'a>,
        config: ConfigId,
        subparts: &'a [SubpartRow],
        sections: Sections,
    ) -> Configured<'a>
        requires { subparts.now ≡ subparts_of by.now.on.wanted.world by.now.on.course config }
        ensures { result ≡ record { by = by.now; config = config; sections = sections } }
    {
        let on = by.on();
        let rows = Ordered::new(next_sections(
            on.wanted().world(),
            on.course(),
            config,
            subparts,
            sections.as_slice(),
        ));
        Configured {
            by,
            config,
            subparts,
            sections,
            rows,
        }
    }

    /// What is behind one section more.
    #[inline(always)]
    pub fn behind(&self, section: SectionId) -> Configured<'a>
        requires { length self.now.sections < 6 }
        ensures { result ≡ record self.now { sections = self.now.sections ++ section ∷ [] } }
    {
        let mut sections = self.sections;
        sections.push(section);
        Configured::of(self.by, self.config, self.subparts, sections)
    }

    /// The reservation, or that there is to be none.
    #[inline(always)]
    pub fn by(&self) -> &'a Joined<'a>
        ensures { result.now ≡ self.now.by }
    {
        self.by
    }

    /// The section of the next subpart that `i` others precede by id. None exactly past the last.
    #[inline(always)]
    pub fn section(&self, i: usize) -> Option<&'a SectionRow>
        ensures value { option_map (λ row. picks_section row.now.id) result ≡ slice_get (options_at self.now.by.on.wanted.world self.now.by.on.wanted.mv (config_path self.now)) i }
        ensures row { IfSome result (λ row. IsSection self.now.by.on.wanted.world row.now) }
    {
        self.by.on().wanted().recall_want();
        section_at(&self.rows, i)
    }

    /// The first rule that the choice of the section breaks, with its number. The section is one of the options. It takes no
    /// memory.
    pub fn broken(&self, row: &SectionRow) -> Option<(Rule, u32)>
        requires option { Contains (options_at self.now.by.on.wanted.world self.now.by.on.wanted.mv (config_path self.now)) (picks_section row.now.id) }
        requires row { IsSection self.now.by.on.wanted.world row.now }
        ensures { result ≡ leaf_of self.now.by.on.wanted.world self.now.by.on.wanted.mv (config_path self.now) (picks_section row.now.id) }
    {
        let on = self.by.on();
        let wanted = on.wanted();
        wanted.recall_want();
        match on.ground() {
            Some(ground) => wanted.moment().section_rule(
                wanted.want(),
                ground,
                on.course(),
                self.by.row(),
                self.config,
                &self.sections,
                row,
            ),
            None => None,
        }
    }

    /// The choice that the section completes, if it is the last that is due. The section is one of the options.
    #[inline(always)]
    pub fn completed(&self, section: SectionId) -> Option<Choice>
        requires { length self.now.sections < 6 }
        ensures { result ≡ completed_by self.now.by.on.wanted.world (config_path self.now) section }
    {
        if self.subparts.len() > self.sections.len() + 1 {
            return None;
        }
        let mut sections = self.sections;
        sections.push(section);
        Some(Choice {
            course: self.by.on().course(),
            reservation: self.by.id(),
            config: self.config,
            sections,
        })
    }

    /// Does nothing: the contract tells that there is room for the section, which is one of the options.
    #[inline(always)]
    pub fn recall_room(&self, section: SectionId)
        requires { Contains (options_at self.now.by.on.wanted.world self.now.by.on.wanted.mv (config_path self.now)) (picks_section section) }
        ensures { length self.now.sections < 6 }
    {
        let _ = section;
        self.by.on().wanted().world().recall_kept();
    }
}

/// The section that `i` others precede by id. None exactly past the last.
#[inline(always)]
fn section_at<'a>(rows: &Ordered<'a, SectionRow>, i: usize) -> Option<&'a SectionRow>
    ensures value { option_map (λ row. picks_section row.now.id) result ≡ slice_get (map (λ s. picks_section s.id) (sorted_by (λ s. s.id.0) rows.now)) i }
    ensures row { (w : ValueOfWorld) → All (IsSection w) rows.now → IfSome result (λ row. IsSection w row.now) }
{
    let row = rows.get(i)?;
    Some(row)
}

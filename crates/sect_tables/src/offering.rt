// An offering whose rows may go on.

ghost use Rattle.std.specs.Prelude.{◌≡◌, ◌++◌, ◌∷◌, [], IfOk};
ghost use Rattle.csv.specs.Records.{fields_of};
ghost use Rattle.sect_tables.specs.Fields.{field_of};
ghost use Rattle.sect_tables.specs.Offerings.{at_last, config_with, offering_begun, offering_with};
ghost use Rattle.std.specs.Str.{bytes_eq};

use crate::config::OpenConfig;
use crate::subpart::OpenSubpart;
use crate::{Before, SectionLine, before_next, field};
use csv::ByteRecord;
use sect_base::{Items, Memory, OfferingId};
use sect_catalog::{ConfigRow, CourseRow, OfferingRow};
use sect_words::same_bytes;
use std::alloc::Global;
use std::marker::Model;

/// An offering as far as its rows were read: the configurations that are complete, and the one to which the next row may
/// add.
pub struct OpenOffering {
    name: Items<u8>,
    before: Before,
    id: OfferingId,
    courses: Items<CourseRow>,
    configs: Vec<ConfigRow>,
    last: OpenConfig,
}

/// It is written out, so that a caller does not prove again how each part is dropped.
impl Drop for OpenOffering {
    fn drop(self) {
        let OpenOffering {
            name: _,
            before: _,
            id: _,
            courses: _,
            configs: _,
            last: _,
        } = self;
    }
}

impl Model for OpenOffering {
    ghost use Rattle.std.specs.Prelude.{[], ◌∷◌, ◌++◌};
    ghost use Rattle.sect_tables.specs.Offerings.{OfferingSoFar};

    ghost Value = { OfferingSoFar };

    ghost view = { λ o. record {
      name = o.name;
      before = o.before;
      row = record
          { id = o.id; courses = o.courses; configs = o.configs.items ++ (o.last ∷ []) };
    } };
}

impl OpenOffering {
    /// The offering that a row begins.
    #[tactic(auto, unfolding(crate::specs::Offerings::offering_begun))]
    pub fn begin(alloc: Global, row: &ByteRecord, line: SectionLine) -> Result<OpenOffering, Memory>
        ensures { IfOk result (λ so_far. so_far ≡ offering_begun (fields_of row.now) line) }
    {
        let name = Vec::from_slice(alloc, field(row, 1))?;
        let before = before_next(alloc, line.config, row)?;
        let first = OpenSubpart::begin(alloc, line.subpart, line.section)?;
        Ok(OpenOffering {
            name: Items::from_vec(name),
            before,
            id: line.offering,
            courses: line.courses,
            configs: Vec::new(alloc),
            last: OpenConfig::begin(alloc, line.config, line.config_limit, first),
        })
    }

    /// Whether a row goes on with this offering, whose first field is the same text.
    pub fn has_row(&self, row: &ByteRecord) -> bool
        ensures { result ≡ bytes_eq self.now.name (field_of (fields_of row.now) 1) }
    {
        same_bytes(self.name.as_slice(), field(row, 1))
    }

    /// What its next row is compared with.
    pub fn before(&self) -> &Before
        ensures { result.now ≡ self.now.before }
    {
        &self.before
    }

    /// The offering with another row of its own.
    #[tactic(auto, unfolding(crate::specs::Offerings::offering_with))]
    pub fn with(
        self,
        alloc: Global,
        row: &ByteRecord,
        line: SectionLine,
    ) -> Result<OpenOffering, Memory>
        ensures { IfOk result (λ so_far. so_far ≡ offering_with self (fields_of row.now) line) }
    {
        let OpenOffering {
            name,
            before: _,
            id,
            courses,
            configs,
            last,
        } = self;
        let before = before_next(alloc, line.config, row)?;
        let (configs, last) = with_config(alloc, configs, last, line)?;
        Ok(OpenOffering {
            name,
            before,
            id,
            courses,
            configs,
            last,
        })
    }

    /// The row of the offering.
    pub fn into_row(self) -> Result<OfferingRow, Memory>
        ensures { IfOk result (λ row. row ≡ self.row) }
    {
        let OpenOffering {
            name: _,
            before: _,
            id,
            courses,
            mut configs,
            last,
        } = self;
        configs.push(last.into_row()?)?;
        Ok(OfferingRow {
            id,
            courses,
            configs: Items::from_vec(configs),
        })
    }
}

/// Configurations and the last of them, with another row of their offering.
#[tactic(auto, using(crate::proofs::Lists::at_last_end))]
fn with_config(
    alloc: Global,
    mut configs: Vec<ConfigRow>,
    last: OpenConfig,
    line: SectionLine,
) -> Result<(Vec<ConfigRow>, OpenConfig), Memory>
    ensures { IfOk result (λ r. r.0.items ++ (r.1 ∷ []) ≡ at_last (config_with line) (configs.items ++ (last ∷ []))) }
{
    if last.has_id(line.config) {
        return Ok((configs, last.with(alloc, line)?));
    }
    configs.push(last.into_row()?)?;
    let first = OpenSubpart::begin(alloc, line.subpart, line.section)?;
    let next = OpenConfig::begin(alloc, line.config, line.config_limit, first);
    Ok((configs, next))
}

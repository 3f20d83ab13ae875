// A configuration whose rows may go on.

ghost use Rattle.std.specs.Prelude.{◌≡◌, ◌==◌, ◌++◌, ◌∷◌, [], IfOk};
ghost use Rattle.sect_tables.specs.Offerings.{at_last, subpart_with};

use crate::SectionLine;
use crate::subpart::OpenSubpart;
use sect_base::{ConfigId, Items, Limit, Memory};
use sect_catalog::{ConfigRow, SubpartRow};
use std::alloc::Global;
use std::marker::Model;

/// A configuration as far as its rows were read: the subparts that are complete, and the one to which the next row may
/// add. Contracts see the row that they make.
pub struct OpenConfig {
    id: ConfigId,
    limit: Limit,
    subparts: Vec<SubpartRow>,
    last: OpenSubpart,
}

/// It is written out, so that a caller does not prove again how each part is dropped.
impl Drop for OpenConfig {
    fn drop(self) {
        let OpenConfig {
            id: _,
            limit: _,
            subparts: _,
            last: _,
        } = self;
    }
}

impl Model for OpenConfig {
    ghost use Rattle.std.specs.Prelude.{[], ◌∷◌, ◌++◌};
    ghost use Rattle.sect_catalog.specs.declared.row.ConfigRow.{ConfigRow};

    ghost Value = { ConfigRow };

    ghost view = { λ c. record { id = c.id; limit = c.limit; subparts = c.subparts.items ++ (c.last ∷ []) } };
}

impl OpenConfig {
    /// The configuration that a subpart begins. It takes no memory.
    pub fn begin(alloc: Global, id: ConfigId, limit: Limit, first: OpenSubpart) -> OpenConfig
        ensures { result ≡ record { id = id; limit = limit; subparts = first ∷ [] } }
    {
        OpenConfig {
            id,
            limit,
            subparts: Vec::new(alloc),
            last: first,
        }
    }

    /// Whether it has this id. It takes no memory.
    pub fn has_id(&self, id: ConfigId) -> bool
        ensures { result ≡ (self.now.id.0 == id.0) }
    {
        self.id == id
    }

    /// The configuration with another row of its own.
    pub fn with(self, alloc: Global, line: SectionLine) -> Result<OpenConfig, Memory>
        ensures { IfOk result (λ config. config ≡ record self { subparts = at_last (subpart_with line) self.subparts }) }
    {
        let OpenConfig {
            id,
            limit,
            subparts,
            last,
        } = self;
        let (subparts, last) = with_subpart(alloc, subparts, last, line)?;
        Ok(OpenConfig {
            id,
            limit,
            subparts,
            last,
        })
    }

    /// The row of the configuration.
    pub fn into_row(self) -> Result<ConfigRow, Memory>
        ensures { IfOk result (λ row. row ≡ self) }
    {
        let OpenConfig {
            id,
            limit,
            mut subparts,
            last,
        } = self;
        subparts.push(last.into_row())?;
        Ok(ConfigRow {
            id,
            limit,
            subparts: Items::from_vec(subparts),
        })
    }
}

/// Subparts and the last of them, with another row of their configuration.
#[tactic(auto, using(crate::proofs::Lists::at_last_end))]
fn with_subpart(
    alloc: Global,
    mut subparts: Vec<SubpartRow>,
    last: OpenSubpart,
    line: SectionLine,
) -> Result<(Vec<SubpartRow>, OpenSubpart), Memory>
    ensures { IfOk result (λ r. r.0.items ++ (r.1 ∷ []) ≡ at_last (subpart_with line) (subparts.items ++ (last ∷ []))) }
{
    if last.has_id(line.subpart) {
        return Ok((subparts, last.with(line.section)?));
    }
    subparts.push(last.into_row())?;
    let next = OpenSubpart::begin(alloc, line.subpart, line.section)?;
    Ok((subparts, next))
}

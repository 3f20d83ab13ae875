// A subpart whose rows may go on.

ghost use Rattle.std.specs.Prelude.{◌≡◌, ◌==◌, ◌++◌, ◌∷◌, [], IfOk};

use sect_base::{Items, Memory, SubpartId};
use sect_catalog::{SectionRow, SubpartRow};
use std::alloc::Global;
use std::marker::Model;

/// A subpart as far as its rows were read. Contracts see the row that they make.
pub struct OpenSubpart {
    id: SubpartId,
    sections: Vec<SectionRow>,
}

/// It is written out, so that a caller does not prove again how each part is dropped.
impl Drop for OpenSubpart {
    fn drop(self) {
        let OpenSubpart { id: _, sections: _ } = self;
    }
}

impl Model for OpenSubpart {
    ghost use Rattle.sect_catalog.specs.declared.row.SubpartRow.{SubpartRow};

    ghost Value = { SubpartRow };

    ghost view = { λ s. record { id = s.id; sections = s.sections.items } };
}

impl OpenSubpart {
    /// The subpart that a section begins.
    pub fn begin(alloc: Global, id: SubpartId, section: SectionRow) -> Result<OpenSubpart, Memory>
        ensures { IfOk result (λ subpart. subpart ≡ record { id = id; sections = section ∷ [] }) }
    {
        let mut sections = Vec::new(alloc);
        sections.push(section)?;
        Ok(OpenSubpart { id, sections })
    }

    /// Whether it has this id. It takes no memory.
    pub fn has_id(&self, id: SubpartId) -> bool
        ensures { result ≡ (self.now.id.0 == id.0) }
    {
        self.id == id
    }

    /// The subpart with another section.
    pub fn with(self, section: SectionRow) -> Result<OpenSubpart, Memory>
        ensures { IfOk result (λ subpart. subpart ≡ record self { sections = self.sections ++ (section ∷ []) }) }
    {
        let OpenSubpart { id, mut sections } = self;
        sections.push(section)?;
        Ok(OpenSubpart { id, sections })
    }

    /// The row of the subpart. It takes no memory.
    pub fn into_row(self) -> SubpartRow
        ensures { result ≡ self }
    {
        let OpenSubpart { id, sections } = self;
        SubpartRow {
            id,
            sections: Items::from_vec(sections),
        }
    }
}

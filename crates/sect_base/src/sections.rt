// The sections of a choice, in the value itself.

ghost use Rattle.std.specs.Prelude.{◌≡◌, ◌↔◌, ◌<◌, ◌≤◌, ◌++◌, [], ◌∷◌, length, IsTrue};
ghost use Rattle.std.specs.Option.{SomeIff};

use crate::ids::SectionId;
use std::marker::Model;

/// Sections, one of each subpart of a configuration in their order: at most six. Contracts see a list.
#[derive(Clone, Copy, PartialEq, Eq)]
pub struct Sections {
    // Those behind the first `len` are 0.
    cells: [SectionId; 6],
    len: u8,
}

impl Model for Sections {
    ghost use Rattle.std.specs.Prelude.{List, take, length};
    ghost use Rattle.sect_base.specs.declared.ids.SectionId.{SectionId};

    ghost Value = { List SectionId };

    ghost use Rattle.sect_base.specs.Padded.{padded, IsPadded};

    ghost view = { λ s. take s.len s.cells };

    ghost invariant = { λ s. IsPadded s.cells s.len };

    ghost inverse = { λ xs. record { cells = padded xs; len = length xs } };

    ghost inverse_ok = { λ s h. λ i. record { cells = h.rest i; len = h.first i } };
}

impl Sections {
    /// No sections.
    pub fn empty() -> Sections
        ensures { result ≡ [] }
    {
        Sections {
            cells: [SectionId(0); 6],
            len: 0,
        }
    }

    /// How many there are, at most six.
    pub fn len(&self) -> usize
        ensures count { result ≡ length self.now }
        ensures bound { result ≤ 6 }
    {
        usize::from(self.len)
    }

    pub fn is_empty(&self) -> bool
        ensures { IsTrue result ↔ (self.now ≡ []) }
    {
        self.len == 0
    }

    /// The sections in their order.
    pub fn as_slice(&self) -> &[SectionId]
        ensures { result.now ≡ self.now }
    {
        &self.cells[..usize::from(self.len)]
    }

    /// Puts a section behind the others.
    pub fn push(&mut self, section: SectionId)
        requires { length self.old < 6 }
        ensures { self.new ≡ self.old ++ section ∷ [] }
    {
        self.cells[self.len as usize] = section;
        self.len += 1;
    }

    /// Takes the last section off.
    pub fn pop(&mut self) -> SectionId
        requires { 0 < length self.old }
        ensures { self.old ≡ self.new ++ result ∷ [] }
    {
        self.len -= 1;
        let at = usize::from(self.len);
        let last = self.cells[at];
        self.cells[at] = SectionId(0);
        last
    }

    /// The sections of a slice. None exactly where they are more than six.
    pub fn from_slice(sections: &[SectionId]) -> Option<Sections>
        ensures { SomeIff result (length sections.now ≤ 6) sections.now }
    {
        if sections.len() > 6 {
            return None;
        }
        let mut all = Sections::empty();
        for section in sections {
            all.push(*section);
        }
        Some(all)
    }
}

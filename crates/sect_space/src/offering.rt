// Changes of the catalogue's rows and cancelled sections.

ghost use Rattle.std.specs.Prelude.{◌≡◌, IfOk, OnErr};
ghost use Rattle.sect_model.specs.Fits.{Fits};
ghost use Rattle.sect_model.specs.Kept.{KeptWorld};
ghost use Rattle.sect_space.specs.Back.{taken_back};
ghost use Rattle.sect_space.specs.Made.{Made, Unchanged, Taken, Ready};
ghost use Rattle.sect_space.specs.Parts.{roomed_of};

use crate::back::Back;
use crate::parts::Parts;
use sect_base::{Cap, Limit, Memory, OfferingId, SectionId};
use sect_catalog::{AddFault, OfferingRow};
use sect_model::Change;

impl Parts {
    /// Adds an offering that passes its check. Where memory runs out, the world is as before. Its reservations and restrictions get
    /// slots, so that those of offerings that come in order of id stand behind one another.
    pub fn put_offering(&mut self, row: OfferingRow) -> Result<Back, Memory>
        requires { Fits (roomed_of self.old).world (Change.Offering row) }
        ensures ok { IfOk result (λ back. Made (roomed_of self.old) (roomed_of self.new) (Change.Offering row) back) }
        ensures err { OnErr result (Unchanged (roomed_of self.old) (roomed_of self.new)) }
    {
        self.make_slots(row.id)?;
        self.add_offering(row)
    }

    /// Makes slots for the reservations and the restrictions of an offering. Where memory runs out, there may be one more.
    fn make_slots(&mut self, id: OfferingId) -> Result<(), Memory>
        ensures { Unchanged (roomed_of self.old) (roomed_of self.new) }
    {
        self.reservations.add_slot(id)?;
        self.restrictions.add_slot(id)
    }

    /// Adds an offering that passes its check, with no slots made. Where memory runs out, nothing is changed.
    fn add_offering(&mut self, row: OfferingRow) -> Result<Back, Memory>
        requires { Fits (roomed_of self.old).world (Change.Offering row) }
        ensures ok { IfOk result (λ back. Made (roomed_of self.old) (roomed_of self.new) (Change.Offering row) back) }
        ensures err { OnErr result (self.new ≡ self.old) }
    {
        let id = row.id;
        match self.catalogue.add_offering(row) {
            Ok(()) => Ok(Back::OfferingAdded(id)),
            Err(AddFault::Memory) => Err(Memory),
            Err(AddFault::Row(_)) => unreachable!(),
        }
    }

    /// Takes the last offering off. There is one.
    pub fn remove_offering(&mut self, id: OfferingId)
        requires { Ready (roomed_of self.old) (Back.OfferingAdded id) }
        ensures { Taken (roomed_of self.old) (roomed_of self.new) (Back.OfferingAdded id) }
    {
        let _ = id;
        let _ = self.catalogue.remove_last();
    }

    /// Cancels a section that is known and isn't cancelled. Where memory runs out, nothing is changed.
    pub fn cancel(&mut self, id: SectionId) -> Result<Back, Memory>
        requires { Fits (roomed_of self.old).world (Change.Cancelled id) }
        ensures ok { IfOk result (λ back. Made (roomed_of self.old) (roomed_of self.new) (Change.Cancelled id) back) }
        ensures err { OnErr result (self.new ≡ self.old) }
    {
        let offering = self.section_offering(id);
        self.catalogue.cancel(id)?;
        Ok(Back::SectionCancelled(id, offering))
    }

    /// Takes the last cancellation back. There is one.
    pub fn uncancel(&mut self, id: SectionId, offering: Option<OfferingId>)
        requires { Ready (roomed_of self.old) (Back.SectionCancelled id offering) }
        ensures { Taken (roomed_of self.old) (roomed_of self.new) (Back.SectionCancelled id offering) }
    {
        let _ = (id, offering);
        self.catalogue.uncancel_last();
    }

    /// Puts a limit in place of the old one. It takes no memory.
    pub fn put_limit(&mut self, cap: Cap, limit: Limit) -> Back
        requires { Fits (roomed_of self.old).world (Change.Cap cap limit) }
        ensures { Made (roomed_of self.old) (roomed_of self.new) (Change.Cap cap limit) result }
    {
        let offering = self.cap_offering(cap);
        let old = self.catalogue.set_limit(cap, limit);
        Back::LimitReplaced(cap, offering, old)
    }

    /// Puts the old limit back.
    pub fn restore_limit(&mut self, cap: Cap, offering: Option<OfferingId>, limit: Limit)
        requires { Ready (roomed_of self.old) (Back.LimitReplaced cap offering limit) }
        ensures { Taken (roomed_of self.old) (roomed_of self.new) (Back.LimitReplaced cap offering limit) }
    {
        let _ = offering;
        let _ = self.catalogue.set_limit(cap, limit);
    }
}

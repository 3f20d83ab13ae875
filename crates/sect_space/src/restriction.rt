// Changes of restrictions.

ghost use Rattle.std.specs.Prelude.{◌≡◌, IfOk, OnErr};
ghost use Rattle.sect_model.specs.Fits.{Fits};
ghost use Rattle.sect_space.specs.Made.{Made, Unchanged, Taken, Ready};
ghost use Rattle.sect_space.specs.Parts.{roomed_of};

use crate::back::Back;
use crate::parts::Parts;
use sect_base::{Memory, OfferingId, RestrictionId};
use sect_model::Change;
use sect_reserve::Restriction;

impl Parts {
    /// Adds a restriction of a new id. Where memory runs out, nothing is changed.
    pub fn add_restriction(&mut self, row: Restriction) -> Result<Back, Memory>
        requires { Fits (roomed_of self.old).world (Change.Restrict row) }
        ensures ok { IfOk result (λ back. Made (roomed_of self.old) (roomed_of self.new) (Change.Restrict row) back) }
        ensures err { OnErr result (Unchanged (roomed_of self.old) (roomed_of self.new)) }
    {
        let back = Back::RestrictionAdded(row.id, row.offering);
        self.restrictions.insert(row)?;
        Ok(back)
    }

    /// Takes the restriction off again. It is there.
    pub fn take_restriction(&mut self, id: RestrictionId, offering: OfferingId)
        requires { Ready (roomed_of self.old) (Back.RestrictionAdded id offering) }
        ensures { Taken (roomed_of self.old) (roomed_of self.new) (Back.RestrictionAdded id offering) }
    {
        let _ = offering;
        let _ = self.restrictions.remove(id);
    }

    /// Removes a restriction that is there. It takes no memory.
    pub fn remove_restriction(&mut self, id: RestrictionId) -> Back
        requires { Fits (roomed_of self.old).world (Change.Unrestrict id) }
        ensures { Made (roomed_of self.old) (roomed_of self.new) (Change.Unrestrict id) result }
    {
        let (place, row) = self.restrictions.remove(id);
        Back::RestrictionRemoved(place, row)
    }

    /// Puts a restriction back where it stood. There is room.
    pub fn put_restriction_back(&mut self, place: usize, row: Restriction)
        requires { Ready (roomed_of self.old) (Back.RestrictionRemoved place row) }
        ensures { Taken (roomed_of self.old) (roomed_of self.new) (Back.RestrictionRemoved place row) }
    {
        self.restrictions.put_back(place, row);
    }
}

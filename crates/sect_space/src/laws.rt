// The laws of changes and of taking them back. The functions do nothing: the contract of each is a law.

ghost use Rattle.std.specs.Prelude.{◌≡◌, List, ◌++◌, ◌∷◌, [], length, take, drop, ◌≤◌};
ghost use Rattle.sect_model.specs.World.{World};
ghost use Rattle.sect_model.specs.Kept.{KeptWorld};
ghost use Rattle.sect_model.specs.Fits.{Fits, changed};
ghost use Rattle.sect_model.specs.declared.change.Change.{Change};
ghost use Rattle.sect_space.specs.declared.back.Back.{Back};
ghost use Rattle.sect_space.specs.Back.{back_of, taken_back, concerned, mark_of};
ghost use Rattle.sect_space.specs.Roomed.{Roomed};
ghost use Rattle.sect_space.specs.Undo.{undone, Undoable, Since};

/// A change that fits, taken back, leaves the world as it was.
pub fn a_change_is_taken_back()
    ensures { (w : World) (change : Change) → KeptWorld w → Fits w change → taken_back (changed w change) (back_of w change) ≡ w }
{}

/// What is kept of a change tells the student, the offering or the days that it concerns.
pub fn a_change_is_marked()
    ensures { (w : World) (change : Change) → Fits w change → mark_of (back_of w change) ≡ concerned w change }
{}

/// With nothing recorded, a world may be undone: to itself.
pub fn nothing_is_undoable()
    ensures { (r : Roomed) → KeptWorld r.world → Undoable r [] }
{}

/// Whoever made changes that fit, one after the other, knows what undoing them leaves: the world from which they led, and
/// what was recorded before.
pub fn changes_are_undone()
    ensures none { (w : World) (backs : List Back) → Since w backs w backs }
    ensures more { (w v : World) (backs now : List Back) (change : Change) → Since w backs v now → Fits v change
        → Since w backs (changed v change) (now ++ back_of v change ∷ []) }
    ensures joined { (u v w : World) (backs cs ds : List Back) → Since u backs v cs → Since v cs w ds → Since u backs w ds }
    ensures longer { (w v : World) (backs now : List Back) → Since w backs v now → length backs ≤ length now }
    ensures world { (w v : World) (backs now : List Back) → KeptWorld w → Since w backs v now → undone v (drop (length backs) now) ≡ w }
    ensures recorded { (w v : World) (backs now : List Back) → KeptWorld w → Since w backs v now → take (length backs) now ≡ backs }
{}

// The laws of equal outcomes. The functions do nothing: the contract of each is a law.

ghost use Rattle.sect_frame.specs.Frame.{
  ReadsSameOutcome,
  OpensTouched,
  UntouchedSameOutcome,
  SpentNeedsNone,
  NeedlessIsNotPlaced,
  NeedlessStays,
};

/// Where two worlds read the same for a waiting entry once its course is given up, its search has the same outcome in
/// both, whatever its budget.
pub fn worlds_that_read_the_same_have_one_outcome()
    ensures { ReadsSameOutcome }
{}

/// A change that touches neither the student nor a wanted offering of a waiting entry leaves the outcome of its search as
/// it is; and each change that may give an entry a move touches it.
pub fn untouched_outcomes_stay()
    ensures opens { OpensTouched }
    ensures stays { UntouchedSameOutcome }
{}

/// An entry without a move needs no search until a change may give it one, and one whose search was spent none until a
/// change touches it. An entry that needs no search can't be placed.
pub fn needless_searches_are_spared()
    ensures spent { SpentNeedsNone }
    ensures unplaced { NeedlessIsNotPlaced }
    ensures stays { NeedlessStays }
{}

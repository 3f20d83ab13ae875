// The law of trying. The function does nothing: its contract is the law.

ghost use Rattle.sect_clerk.specs.Answered.{TriedIsAnswered};

use sect_edge::Keeper;
use sect_once::Object;

/// What a request would be answered is what it is answered where the same is asked, unless one of the two tells of a fault
/// of the keeper or of want of memory.
pub fn what_is_tried_is_answered<O: Object, K: Keeper>()
    ensures { TriedIsAnswered O.start O.stepped O.is_row K.rows K.faults }
{}

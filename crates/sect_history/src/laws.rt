// The laws of histories. The functions do nothing: the contract of each is a law.

ghost use Rattle.sect_history.specs.Laws.{LinesAreGood, ReplaysAreGood, StepsLead};

/// From a good state each step leads by changes that fit: the day, the command's own change, move or batch, and what
/// settling places; and each world between is good.
pub fn steps_lead()
    ensures { StepsLead }
{}

/// The lines that a step answers a batch by lead on one after another, and the tree of a blocked one refutes every choice
/// of its request in the world in which the line acted.
pub fn lines_are_good()
    ensures { LinesAreGood }
{}

/// A history from the empty state, each reply of which is the machine's at its place, is good throughout.
pub fn replays_are_good()
    ensures { ReplaysAreGood }
{}

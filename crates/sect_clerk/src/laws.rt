// The laws of logs. The functions do nothing: the contract of each is a law.

ghost use Rattle.sect_clerk.specs.Laws.{LogAsks, LogIsTaken};

use sect_edge::Keeper;

/// Of the lines of the whole log of a history a run passes over all but one of each entry, in their order, and that line asks
/// the entry's request on its day.
pub fn a_log_asks_its_entries()
    ensures { LogAsks }
{}

/// A run over the whole log of a history on a keeper with no rows that ends Done, with as many rows as the history has, leaves
/// the rows of the history.
pub fn a_log_that_is_taken_is_the_history<K: Keeper>()
    ensures { LogIsTaken K.rows K.faults }
{}

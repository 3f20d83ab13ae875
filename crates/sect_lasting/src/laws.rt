// The laws of a desk that is opened again. The functions do nothing: the contract of each is a law.

ghost use Rattle.sect_lasting.specs.Laws.{AnswersFollow, GoesOn, LastsBetween, LastsWithin, LastsWithout, OpensToAtMostOneMore};

use sect_edge::Keeper;
use sect_journal::{Disk, Journal, no_acknowledged_row_is_lost};
use sect_once::Object;

/// Where a request may be asked of a desk whose keeper tells its rows, its id is new and the log has room: the entry with what
/// the object answers at the next place has one row, and can stand behind the history.
pub fn what_is_answered_follows<O: Object, K: Keeper>()
    ensures { AnswersFollow O.start O.stepped O.is_row K.rows K.faults O.may_ask }
{}

/// Over a keeper with the rows of a legal log that was never full, or with these and the row of one entry more that can stand
/// behind its history, an opening never answers `BadEntry`: it gives a desk with that history, or with it and this entry, or
/// tells a fault of the keeper or want of memory.
pub fn one_entry_more_is_taken<O: Object, K: Keeper>()
    ensures { OpensToAtMostOneMore O.start O.stepped O.is_row K.rows K.faults }
{}

/// What stands on the disk of a desk's journal opens, after a crash between two calls, after one at any moment of a call, and
/// without one: to the rows of the desk's history, or to these and the row of one entry more that can stand behind it. And a
/// desk opens over that, to these entries. Each append must have been of the row of an entry that could stand behind the history
/// when it was begun; from call to call that is kept.
pub fn a_desk_comes_back<O: Object, D: Disk>()
    ensures onward { GoesOn O.start O.stepped O.is_row D.told ⟦<Journal<D> as Keeper>⟧.rows ⟦<Journal<D> as Keeper>⟧.faults }
    ensures between { LastsBetween O.start O.stepped O.is_row D.told ⟦<Journal<D> as Keeper>⟧.rows ⟦<Journal<D> as Keeper>⟧.faults }
    ensures within { LastsWithin O.start O.stepped O.is_row D.told ⟦<Journal<D> as Keeper>⟧.rows ⟦<Journal<D> as Keeper>⟧.faults }
    ensures without { LastsWithout O.start O.stepped O.is_row D.told ⟦<Journal<D> as Keeper>⟧.rows ⟦<Journal<D> as Keeper>⟧.faults }
{
    no_acknowledged_row_is_lost::<D>();
}

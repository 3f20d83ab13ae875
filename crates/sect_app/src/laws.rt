// The laws of valid input, and of what is answered where the keeper fails. The functions do nothing: the contract of each is a law.

ghost use Rattle.sect_app.specs.Faulted.{FewOfConnections, FewOfLines, FewOfTables};
ghost use Rattle.sect_app.specs.Valid.{RowsOfALogOpen};

use sect_edge::{Keeper, Link};
use sect_wire::a_row_is_of_one_entry;

/// Of the answers of a run, of an import, and on all connections, no more tell a fault of the keeper than the keeper's
/// count of faults rose; where it didn't rise, none does.
pub fn faults_told_are_few<K: Keeper, L: Link>()
    ensures lines { FewOfLines K.rows K.faults }
    ensures tables { FewOfTables K.rows K.faults }
    ensures connections { FewOfConnections K.rows K.faults L.In.left L.Out.taken L.In.faults L.Out.faults L.connections L.faults }
{}

/// A keeper with the rows of a legal log of the machine that was never full has only rows that are taken.
pub fn the_rows_of_a_log_are_taken()
    ensures { RowsOfALogOpen }
{
    a_row_is_of_one_entry();
}

// The law of the places that are printed.
ghost use Rattle.sect_serve.specs.Printed.{PlacesAreRows};

use sect_command::{Query, View};
use sect_edge::{Keeper, Link};
use sect_wire::TextObject;

/// Where connections were served and the keeper that comes back tells its rows, each answer of 200 to a command names the
/// place of the row of an entry with the command, the id under which it was asked, and the reply that was told. The
/// function does nothing: its contract is the law.
pub fn a_printed_place_is_its_row<O: TextObject<Query = Query, View = View>, K: Keeper, L: Link>()
    ensures { PlacesAreRows O.start O.stepped O.is_row O.looked K.rows K.faults L.In.left L.Out.taken L.In.faults L.Out.faults L.connections L.faults }
{}

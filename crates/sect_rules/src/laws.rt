// What the rules decide. The functions do nothing: the contract of each is a law, for every world and move.

ghost use Rattle.sect_model.specs.Laws.{PathsTellMoves, MovesHavePaths};
ghost use Rattle.sect_model.specs.Stands.{MoveStands};

use sect_base::Move;
use sect_space::World;

/// A complete path breaks no rule exactly where its choices are an allowed move: the twenty rules,
/// tested decision by decision, are the conditions of a move, said of its choices alone.
pub fn a_complete_path_is_unbroken_exactly_where_its_choices_are_allowed(world: &World, mv: &Move)
    requires { MoveStands world.now.world mv.now }
    ensures { PathsTellMoves world.now.world mv.now }
{
    let _ = mv;
    world.recall_kept();
}

/// Each allowed move stands at the end of a path of options.
pub fn each_allowed_move_has_a_path(world: &World, mv: &Move)
    ensures { MovesHavePaths world.now.world mv.now }
{
    let _ = mv;
    world.recall_kept();
}

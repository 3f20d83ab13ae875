// The laws of the definitions. The functions do nothing: the contract of each is a law, for every world, move and state.

ghost use Rattle.std.specs.Prelude.{IsTrue};
ghost use Rattle.sect_model.specs.Data.{Move};
ghost use Rattle.sect_model.specs.World.{World};
ghost use Rattle.sect_model.specs.Premises.{WorldKeeps};
ghost use Rattle.sect_model.specs.Stands.{MoveStands};
ghost use Rattle.sect_model.specs.Rest.{RestIsPath, RestHasOptions, RestExtends};
ghost use Rattle.sect_model.specs.Freer.{
  NoFreerNoMove,
  PlainNoFreer,
  EnrolOpensNothing,
  EnrolElsewhere,
  LeaveElsewhere,
  ChangesOpenWhatTheyMay,
  NoMoveIsNotPlaced,
  BlockedHasNoMove,
  TouchedDecide,
  SpaciousLeaveOpensNothing,
  TouchesAreListed,
  WantsAreListed,
};
ghost use Rattle.sect_model.specs.Laws.{
  PathsTellMoves,
  MovesHavePaths,
  CoverHasNoPath,
  CoverRefutes,
  CoverIsOne,
  RefutationCovers,
  FirstIsVisited,
  VisitsAreSteps,
  FoundIsAllowed,
  WalksAnswer,
  SearchAnswers,
  FullIsNotSpent,
  FullIsFixed,
  BlockedRefutes,
  StepRefutes,
  BatchRefutes,
  UnreservedAlone,
  Settles,
  SettledStays,
  SettleUnfolds,
  NextIsFirst,
  TicketsDecide,
  ExpiriesDecide,
  EmptyKeeps,
  ChangesKeep,
  RosterIsSmall,
  AcceptedFits,
  SettlingKeeps,
  StepKeeps,
  HistoryKeeps,
  HistoryIsGood,
  StepSettles,
  IdsActOnce,
};

/// A complete path of decisions breaks no rule exactly where its choices are an allowed move.
pub fn paths_tell_moves()
    ensures { (w : World) (mv : Move) → WorldKeeps w → MoveStands w mv → PathsTellMoves w mv }
{}

/// The decisions for the next want are a path of a move that takes this want alone, in the world that has the choices done:
/// a decision breaks the same rule there, the options are the same, and one decision more leads on to the same path.
pub fn the_rest_is_a_path()
    ensures rules { RestIsPath }
    ensures options { RestHasOptions }
    ensures extends { RestExtends }
{}

/// Each allowed move stands at the end of a path.
pub fn moves_have_paths()
    ensures { (w : World) (mv : Move) → WorldKeeps w → MovesHavePaths w mv }
{}

/// Where a tree covers the path without decisions, each complete path breaks a rule, and no choices are an
/// allowed move.
pub fn cover_refutes()
    ensures paths { (w : World) (mv : Move) → CoverHasNoPath w mv }
    ensures moves { (w : World) (mv : Move) → WorldKeeps w → MoveStands w mv → CoverRefutes w mv }
{}

/// At most one tree covers the path without decisions.
pub fn cover_is_one()
    ensures { (w : World) (mv : Move) → CoverIsOne w mv }
{}

/// Where there is no allowed move, the tree of the search covers the path without decisions.
pub fn refutation_covers()
    ensures { (w : World) (mv : Move) → WorldKeeps w → MoveStands w mv → RefutationCovers w mv }
{}

/// The first allowed move is where the first visit ends that reaches one.
pub fn first_is_visited()
    ensures { (w : World) (mv : Move) → WorldKeeps w → MoveStands w mv → FirstIsVisited w mv }
{}

/// There are at most as many visits as paths, so a budget of all paths is never spent; and how many paths there are
/// depends on the rows, the reservations and the wants alone.
pub fn full_budget_is_not_spent()
    ensures visits { (w : World) (mv : Move) → VisitsAreSteps w mv }
    ensures budget { FullIsNotSpent }
    ensures fixed { FullIsFixed }
{}

/// The outcome of a search is what a walk answers that takes the options in turn, and goes on below a decision only
/// where no rule is broken; and what one answers that takes each option from its budget, and stops where it is spent.
pub fn walks_answer()
    ensures walk { WalksAnswer }
    ensures budget { SearchAnswers }
{}

/// What a search finds is an allowed move, within the budget.
pub fn found_is_allowed()
    ensures { FoundIsAllowed }
{}

/// Settling leaves no entry that can be placed, and changes nothing where there is none.
pub fn settling_settles()
    ensures settles { Settles }
    ensures stays { SettledStays }
{}

/// Settling places the first entry by class and ticket among those that can be placed, and settles what is left.
pub fn settling_takes_the_first()
    ensures unfolds { SettleUnfolds }
    ensures first { NextIsFirst }
{}

/// Where all entries are of one class, settling is by ticket alone.
pub fn tickets_decide_in_one_class()
    ensures { TicketsDecide }
{}

/// Where no reservation has a first day, the unreserved space is by the expiry days alone.
pub fn expiries_decide_without_first_days()
    ensures { ExpiriesDecide }
{}

/// The empty world is good, and so is a good world after each change that fits it.
pub fn changes_keep_the_world()
    ensures empty { EmptyKeeps }
    ensures changes { ChangesKeep }
{}

/// A good world has at most 1,000,000,000 enrolments: 20,000 offerings of each of 50,000 students.
pub fn the_roster_is_small()
    ensures { RosterIsSmall }
{}

/// A command that isn't refused fits the world.
pub fn accepted_commands_fit()
    ensures { AcceptedFits }
{}

/// Settling keeps a good world good, and the entries that are left fit it.
pub fn settling_keeps_the_world()
    ensures { SettlingKeeps }
{}

/// Each step keeps a good world good, whatever is asked, and so does each history from the empty state.
pub fn steps_keep_the_world()
    ensures step { StepKeeps }
    ensures history { HistoryKeeps }
    ensures good { HistoryIsGood }
{}

/// After each step no waiting entry can be placed.
pub fn steps_settle()
    ensures { StepSettles }
{}

/// A request whose id is known makes no entry, so no id stands in two.
pub fn ids_act_once()
    ensures { IdsActOnce }
{}

/// Where a search, a step or a line of a batch is blocked, its tree covers the path without decisions, and no
/// choices are an allowed move.
pub fn blocked_is_refuted()
    ensures search { BlockedRefutes }
    ensures step { StepRefutes }
    ensures batch { BatchRefutes }
{}

/// Without a reservation a choice is allowed only where each limited level of it has unreserved space above 0.
pub fn unreserved_space_alone_counts()
    ensures { UnreservedAlone }
{}

/// Where a world is no freer for a waiting entry than another, an entry without a move there has none here.
pub fn no_freer_world_opens_nothing()
    ensures given_up { NoFreerNoMove }
    ensures plain { PlainNoFreer }
{}

/// An enrolment of another student opens nothing, unless its reservation held back a place where it doesn't count.
pub fn enrolment_of_another_opens_nothing()
    ensures { EnrolOpensNothing }
{}

/// An enrolment or a leaving of another student in an offering that isn't wanted changes nothing for an entry.
pub fn what_is_elsewhere_changes_nothing()
    ensures enrol { EnrolElsewhere }
    ensures leave { LeaveElsewhere }
{}

/// A change that may not give a waiting entry a move gives it none.
pub fn changes_open_what_they_may()
    ensures { ChangesOpenWhatTheyMay }
{}

/// A waiting entry whose search is blocked has no move, one without a move isn't placed, and where no entry can be
/// placed that isn't touched, the first that can be placed is the first of the touched ones.
pub fn touched_entries_decide()
    ensures blocked { BlockedHasNoMove }
    ensures unplaced { NoMoveIsNotPlaced }
    ensures first { TouchedDecide }
{}

/// Where another student leaves what was open already, an entry that gives up nothing of its wanted offerings gets no
/// move.
pub fn leaving_what_was_open_opens_nothing()
    ensures { SpaciousLeaveOpensNothing }
{}

/// A want touches an offering exactly where it lists one of its courses.
pub fn touched_offerings_are_listed()
    ensures course { TouchesAreListed }
    ensures offering { WantsAreListed }
{}

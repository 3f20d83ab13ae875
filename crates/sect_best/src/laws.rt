// The laws of the best whole schedule. The functions do nothing: the contract of each is a law.

ghost use Rattle.sect_best.specs.Laws.{
  LeavesAll,
  EachHasALine,
  PlanIsAllowed,
  LinesAreOfThePlan,
  UnmetIsRefuted,
  FullIsEnough,
  NoPlanIsGreater,
};

/// A plan is one in the world without the student's enrolments.
pub fn plans_give_all_up()
    ensures { LeavesAll }
{}

/// Each course request has its line, by position.
pub fn each_request_has_a_line()
    ensures { EachHasALine }
{}

/// The plan is an allowed move that gives up all that the student holds and takes the requests kept: each choice is
/// allowed beside the ones before it.
pub fn the_plan_is_allowed()
    ensures { PlanIsAllowed }
{}

/// The choices of the lines that are met, in order, are those of the plan.
pub fn lines_are_of_the_plan()
    ensures { LinesAreOfThePlan }
{}

/// The tree of an unmet request covers the path without decisions, and the requests kept before it and it have no plan.
pub fn unmet_requests_are_refuted()
    ensures { UnmetIsRefuted }
{}

/// A budget of all paths of each list that is tried is never spent.
pub fn a_full_budget_is_not_spent()
    ensures { FullIsEnough }
{}

/// Where no request has passed the budget, no list of course requests that has a plan is lexicographically greater, as
/// truth values by position, than the list of those kept.
pub fn no_plan_is_greater()
    ensures { NoPlanIsGreater }
{}

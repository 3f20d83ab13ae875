// The lines of a plan, and their text.

ghost use Rattle.std.specs.Prelude.{◌≡◌, ◌++◌, OnOk, OnErr};
ghost use Rattle.sect_best.specs.Text.{plan_line_text, plan_text};

use sect_base::{Block, Choice, Memory};
use sect_report::{Printed, Word, print_line, print_list};

/// What becomes of a course request in the best whole schedule.
#[derive(Drop)]
pub enum PlanResult {
    /// It is kept, and the schedule has this choice for it.
    Met(Choice),
    /// It can't be had beside the requests kept before it: a tree that refutes each choice for them and
    /// it, and how many decisions were visited.
    Unmet(Block, u32),
    /// The search would visit more decisions than the budget.
    Spent,
}

/// The line of a course request.
#[derive(Drop)]
pub struct PlanLine {
    /// The request's position, from 1 to 20.
    pub rank: u8,
    pub result: PlanResult,
}

impl Printed for PlanLine {
    ghost lines = { plan_line_text };

    fn print(&self, into: &mut Vec<u8>) -> Result<(), Memory> {
        let name = Word::Name("rank");
        let rank = Word::Number(u64::from(self.rank));
        match &self.result {
            PlanResult::Met(choice) => {
                print_line(&[name, rank, Word::Name("met"), Word::Choice(choice)], into)
            }
            PlanResult::Unmet(tree, visits) => {
                let visits = Word::Number(u64::from(*visits));
                print_line(
                    &[name, rank, Word::Name("unmet"), visits, Word::Tree(tree)],
                    into,
                )
            }
            PlanResult::Spent => print_line(&[name, rank, Word::Name("spent")], into),
        }
    }
}

/// Appends a line for each request, or one that says that there are none. It takes the memory of the text. After
/// `Memory` the bytes are as before.
pub fn print_plan(lines: &[PlanLine], into: &mut Vec<u8>) -> Result<(), Memory>
    ensures text { OnOk result (into.new.items ≡ into.old.items ++ plan_text lines.now) }
    ensures memory { OnErr result (into.new.items ≡ into.old.items) }
{
    print_list(lines, into)
}

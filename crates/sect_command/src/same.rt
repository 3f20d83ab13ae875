// Whether two commands, two replies or two views are equal.

use crate::command::{Command, ReserveRow, RestrictRow};
use crate::reply::{Line, LineResult, Reply};
use sect_base::Same;

impl Same for ReserveRow {
    fn same(&self, other: &Self) -> bool {
        self.id == other.id
            && self.offering == other.offering
            && self.audience.same(&other.audience)
            && self.limit == other.limit
            && self.first == other.first
            && self.expiry == other.expiry
            && self.configs.same(&other.configs)
            && self.sections.same(&other.sections)
            && self.over == other.over
            && self.overlap == other.overlap
            && self.must == other.must
    }
}

impl Same for RestrictRow {
    fn same(&self, other: &Self) -> bool {
        self.id == other.id
            && self.offering == other.offering
            && self.audience.same(&other.audience)
            && self.configs.same(&other.configs)
            && self.sections.same(&other.sections)
    }
}

impl Same for Reply {
    fn same(&self, other: &Self) -> bool {
        match self {
            Reply::Amended => matches!(other, Reply::Amended),
            Reply::Enrolled(choice) => {
                matches!(other, Reply::Enrolled(others) if choice.same(others))
            }
            Reply::Dropped(course) => matches!(other, Reply::Dropped(others) if course == others),
            Reply::Swapped(choices) => {
                matches!(other, Reply::Swapped(others) if choices.same(others))
            }
            Reply::Waiting(ticket) => matches!(other, Reply::Waiting(others) if ticket == others),
            Reply::Placed(ticket, choice) => {
                matches!(other, Reply::Placed(number, others) if ticket == number && choice.same(others))
            }
            Reply::Batched(lines) => matches!(other, Reply::Batched(others) if lines.same(others)),
            Reply::Blocked(visits, block) => {
                matches!(other, Reply::Blocked(number, others) if visits == number && block.same(others))
            }
            Reply::Spent(budget) => matches!(other, Reply::Spent(others) if budget == others),
            Reply::Refused(refusal) => {
                matches!(other, Reply::Refused(others) if refusal == others)
            }
        }
    }
}

impl Same for Line {
    fn same(&self, other: &Self) -> bool {
        self.student == other.student && self.rank == other.rank && self.result.same(&other.result)
    }
}

impl Same for LineResult {
    fn same(&self, other: &Self) -> bool {
        match self {
            LineResult::Met(choice) =>
                matches!(other, LineResult::Met(others) if choice.same(others)),
            LineResult::Held(course) =>
                matches!(other, LineResult::Held(others) if course == others),
            LineResult::Blocked(visits, block) => {
                matches!(other, LineResult::Blocked(number, others) if visits == number && block.same(others))
            }
            LineResult::Spent => matches!(other, LineResult::Spent),
            LineResult::Waiting(ticket) => {
                matches!(other, LineResult::Waiting(others) if ticket == others)
            }
            LineResult::Skipped => matches!(other, LineResult::Skipped),
        }
    }
}

impl Same for Command {
    fn same(&self, other: &Self) -> bool {
        match self {
            Command::Offering(row) =>
                matches!(other, Command::Offering(others) if row.same(others)),
            Command::Student(row) => matches!(other, Command::Student(others) if row.same(others)),
            Command::Requests { student, asks } => {
                matches!(other, Command::Requests { student: id, asks: others } if student == id && asks.same(others))
            }
            Command::Reserve(row) => matches!(other, Command::Reserve(others) if row.same(others)),
            Command::Unreserve(id) => matches!(other, Command::Unreserve(others) if id == others),
            Command::Expire {
                reservation,
                expiry,
            } => {
                matches!(other, Command::Expire { reservation: id, expiry: day } if reservation == id && expiry == day)
            }
            Command::Restrict(row) =>
                matches!(other, Command::Restrict(others) if row.same(others)),
            Command::Unrestrict(id) => matches!(other, Command::Unrestrict(others) if id == others),
            Command::SetLimit { cap, limit } => {
                matches!(other, Command::SetLimit { cap: level, limit: most } if cap == level && limit == most)
            }
            Command::Cancel(id) => matches!(other, Command::Cancel(others) if id == others),
            Command::Enrol {
                student,
                want,
                budget,
            } => {
                matches!(other, Command::Enrol { student: id, want: others, budget: most } if student == id && want.same(others) && budget == most)
            }
            Command::Drop { student, course } => {
                matches!(other, Command::Drop { student: id, course: others } if student == id && course == others)
            }
            Command::Swap {
                student,
                give,
                take,
                budget,
            } => {
                matches!(other, Command::Swap { student: id, give: given, take: taken, budget: most }
                    if student == id && give.same(given) && take.same(taken) && budget == most)
            }
            Command::Wait {
                student,
                want,
                give,
                class,
            } => {
                matches!(other, Command::Wait { student: id, want: others, give: given, class: number }
                    if student == id && want.same(others) && give == given && class == number)
            }
            Command::Unwait { student, ticket } => {
                matches!(other, Command::Unwait { student: id, ticket: number } if student == id && ticket == number)
            }
            Command::Batch { students } =>
                matches!(other, Command::Batch { students: others } if students.same(others)),
        }
    }
}

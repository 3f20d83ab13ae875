// Copies of commands, replies and views, which may fail for want of memory.

use crate::command::{Command, ReserveRow, RestrictRow};
use crate::reply::{Line, LineResult, Reply};
use crate::view::{
    AsksView, HeldView, OpenConfig, OpenCourse, OpenSection, OpenView, RollView, ScheduleView,
    UnmetView, View, WaitView,
};
use sect_base::{Duplicate, Memory};
use std::alloc::Global;

impl Duplicate for ReserveRow {
    fn copy(&self, alloc: Global) -> Result<Self, Memory> {
        Ok(ReserveRow {
            id: self.id,
            offering: self.offering,
            audience: self.audience.copy(alloc)?,
            limit: self.limit,
            first: self.first,
            expiry: self.expiry,
            configs: self.configs.copy(alloc)?,
            sections: self.sections.copy(alloc)?,
            over: self.over,
            overlap: self.overlap,
            must: self.must,
        })
    }
}

impl Duplicate for RestrictRow {
    fn copy(&self, alloc: Global) -> Result<Self, Memory> {
        Ok(RestrictRow {
            id: self.id,
            offering: self.offering,
            audience: self.audience.copy(alloc)?,
            configs: self.configs.copy(alloc)?,
            sections: self.sections.copy(alloc)?,
        })
    }
}

impl Duplicate for Command {
    fn copy(&self, alloc: Global) -> Result<Self, Memory> {
        Ok(match self {
            Command::Offering(row) => Command::Offering(row.copy(alloc)?),
            Command::Student(row) => Command::Student(row.copy(alloc)?),
            Command::Requests { student, asks } => Command::Requests {
                student: *student,
                asks: asks.copy(alloc)?,
            },
            Command::Reserve(row) => Command::Reserve(row.copy(alloc)?),
            Command::Unreserve(id) => Command::Unreserve(*id),
            Command::Expire {
                reservation,
                expiry,
            } => Command::Expire {
                reservation: *reservation,
                expiry: *expiry,
            },
            Command::Restrict(row) => Command::Restrict(row.copy(alloc)?),
            Command::Unrestrict(id) => Command::Unrestrict(*id),
            Command::SetLimit { cap, limit } => Command::SetLimit {
                cap: *cap,
                limit: *limit,
            },
            Command::Cancel(id) => Command::Cancel(*id),
            Command::Enrol {
                student,
                want,
                budget,
            } => Command::Enrol {
                student: *student,
                want: want.copy(alloc)?,
                budget: *budget,
            },
            Command::Drop { student, course } => Command::Drop {
                student: *student,
                course: *course,
            },
            Command::Swap {
                student,
                give,
                take,
                budget,
            } => Command::Swap {
                student: *student,
                give: give.copy(alloc)?,
                take: take.copy(alloc)?,
                budget: *budget,
            },
            Command::Wait {
                student,
                want,
                give,
                class,
            } => Command::Wait {
                student: *student,
                want: want.copy(alloc)?,
                give: *give,
                class: *class,
            },
            Command::Unwait { student, ticket } => Command::Unwait {
                student: *student,
                ticket: *ticket,
            },
            Command::Batch { students } => Command::Batch {
                students: students.copy(alloc)?,
            },
        })
    }
}

impl Duplicate for Reply {
    fn copy(&self, alloc: Global) -> Result<Self, Memory> {
        Ok(match self {
            Reply::Amended => Reply::Amended,
            Reply::Enrolled(choice) => Reply::Enrolled(*choice),
            Reply::Dropped(course) => Reply::Dropped(*course),
            Reply::Swapped(choices) => Reply::Swapped(choices.copy(alloc)?),
            Reply::Waiting(ticket) => Reply::Waiting(*ticket),
            Reply::Placed(ticket, choice) => Reply::Placed(*ticket, *choice),
            Reply::Batched(lines) => Reply::Batched(lines.copy(alloc)?),
            Reply::Blocked(visits, block) => Reply::Blocked(*visits, block.copy(alloc)?),
            Reply::Spent(budget) => Reply::Spent(*budget),
            Reply::Refused(refusal) => Reply::Refused(*refusal),
        })
    }
}

impl Duplicate for Line {
    fn copy(&self, alloc: Global) -> Result<Self, Memory> {
        Ok(Line {
            student: self.student,
            rank: self.rank,
            result: self.result.copy(alloc)?,
        })
    }
}

impl Duplicate for LineResult {
    fn copy(&self, alloc: Global) -> Result<Self, Memory> {
        Ok(match self {
            LineResult::Met(choice) => LineResult::Met(*choice),
            LineResult::Held(course) => LineResult::Held(*course),
            LineResult::Blocked(visits, block) => LineResult::Blocked(*visits, block.copy(alloc)?),
            LineResult::Spent => LineResult::Spent,
            LineResult::Waiting(ticket) => LineResult::Waiting(*ticket),
            LineResult::Skipped => LineResult::Skipped,
        })
    }
}

impl Duplicate for HeldView {
    fn copy(&self, _alloc: Global) -> Result<Self, Memory> {
        Ok(*self)
    }
}

impl Duplicate for OpenCourse {
    fn copy(&self, _alloc: Global) -> Result<Self, Memory> {
        Ok(*self)
    }
}

impl Duplicate for OpenSection {
    fn copy(&self, _alloc: Global) -> Result<Self, Memory> {
        Ok(*self)
    }
}

impl Duplicate for RollView {
    fn copy(&self, alloc: Global) -> Result<Self, Memory> {
        Ok(RollView {
            section: self.section,
            limit: self.limit,
            held: self.held.copy(alloc)?,
        })
    }
}

impl Duplicate for OpenConfig {
    fn copy(&self, alloc: Global) -> Result<Self, Memory> {
        Ok(OpenConfig {
            config: self.config,
            limit: self.limit,
            held: self.held,
            free: self.free,
            sections: self.sections.copy(alloc)?,
        })
    }
}

impl Duplicate for OpenView {
    fn copy(&self, alloc: Global) -> Result<Self, Memory> {
        Ok(OpenView {
            offering: self.offering,
            limit: self.limit,
            held: self.held,
            free: self.free,
            courses: self.courses.copy(alloc)?,
            configs: self.configs.copy(alloc)?,
        })
    }
}

impl Duplicate for ScheduleView {
    fn copy(&self, alloc: Global) -> Result<Self, Memory> {
        Ok(ScheduleView {
            student: self.student,
            credits: self.credits,
            max: self.max,
            held: self.held.copy(alloc)?,
        })
    }
}

impl Duplicate for WaitView {
    fn copy(&self, alloc: Global) -> Result<Self, Memory> {
        Ok(WaitView {
            ticket: self.ticket,
            student: self.student,
            courses: self.courses.copy(alloc)?,
            give: self.give,
        })
    }
}

impl Duplicate for UnmetView {
    fn copy(&self, alloc: Global) -> Result<Self, Memory> {
        Ok(UnmetView {
            student: self.student,
            rank: self.rank,
            courses: self.courses.copy(alloc)?,
        })
    }
}

impl Duplicate for AsksView {
    fn copy(&self, alloc: Global) -> Result<Self, Memory> {
        Ok(AsksView {
            student: self.student,
            asks: self.asks.copy(alloc)?,
        })
    }
}

impl Duplicate for View {
    fn copy(&self, alloc: Global) -> Result<Self, Memory> {
        Ok(match self {
            View::Roll(view) => View::Roll(view.copy(alloc)?),
            View::Open(view) => View::Open(view.copy(alloc)?),
            View::Schedule(view) => View::Schedule(view.copy(alloc)?),
            View::Waiting(entries) => View::Waiting(entries.copy(alloc)?),
            View::Unmet(lines) => View::Unmet(lines.copy(alloc)?),
            View::Offerings(rows) => View::Offerings(rows.copy(alloc)?),
            View::Students(rows) => View::Students(rows.copy(alloc)?),
            View::Requests(rows) => View::Requests(rows.copy(alloc)?),
            View::Reservations(rows) => View::Reservations(rows.copy(alloc)?),
            View::Unknown(id) => View::Unknown(*id),
        })
    }
}

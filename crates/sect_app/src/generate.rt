// The commands that `make` generates.
ghost use Rattle.std.specs.Prelude.{◌≡◌, ◌+◌, ◌*◌, ◌^◌, ◌<◌, ◌≤◌, [], ◌∷◌, IfOk};
ghost use Rattle.sect_base.specs.declared.limit.Limit.TheVariants.{Unlimited};
ghost use Rattle.sect_app.specs.Generated.{
  ask_of,
  batch_command,
  first_section,
  made_of,
  meeting_on,
  offering_command,
  requests_command,
  second_section,
  student_command,
  subparts_of,
};

use sect_base::{
    Alternatives, ConfigId, CourseId, Items, Limit, Meeting, Memory, OfferingId, SectionId,
    StudentId, SubpartId,
};
use sect_catalog::{ConfigRow, CourseRow, OfferingRow, SectionRow, SubpartRow};
use sect_command::Command;
use sect_people::{Ask, CourseAsk, StudentRow};
use std::alloc::Global;

/// Offering `i`, from 1, with its four sections.
pub(crate) fn offering(alloc: Global, i: u32) -> Result<Command, Memory>
    requires first { 1 ≤ i }
    requires bound { i ≤ 100 }
    ensures { IfOk result (λ command. command ≡ offering_command i) }
{
    let config = ConfigRow {
        id: ConfigId(i),
        limit: Limit::Unlimited,
        subparts: subparts(alloc, i)?,
    };
    Ok(Command::Offering(OfferingRow {
        id: OfferingId(i),
        courses: one_course(alloc, i)?,
        configs: one_config(alloc, config)?,
    }))
}

/// The course of offering `i`, alone.
fn one_course(alloc: Global, i: u32) -> Result<Items<CourseRow>, Memory>
    ensures { IfOk result (λ courses. courses ≡ record { id = record { 0 = i }; limit = Unlimited; credits = 3 } ∷ []) }
{
    let mut courses = Vec::new(alloc);
    courses.push(CourseRow {
        id: CourseId(i),
        limit: Limit::Unlimited,
        credits: 3,
    })?;
    Ok(Items::from_vec(courses))
}

/// The configuration, alone.
fn one_config(alloc: Global, config: ConfigRow) -> Result<Items<ConfigRow>, Memory>
    ensures { IfOk result (λ configs. configs ≡ config ∷ []) }
{
    let mut configs = Vec::new(alloc);
    configs.push(config)?;
    Ok(Items::from_vec(configs))
}

/// The subparts of offering `i`.
fn subparts(alloc: Global, i: u32) -> Result<Items<SubpartRow>, Memory>
    requires first { 1 ≤ i }
    requires bound { i ≤ 100 }
    ensures { IfOk result (λ subparts. subparts ≡ subparts_of i) }
{
    let mut subparts = Vec::new(alloc);
    subparts.push(SubpartRow {
        id: SubpartId(2 * i - 1),
        sections: pair(alloc, parent(alloc, i, 0)?, parent(alloc, i, 1)?)?,
    })?;
    subparts.push(SubpartRow {
        id: SubpartId(2 * i),
        sections: pair(alloc, child(alloc, i, 0)?, child(alloc, i, 1)?)?,
    })?;
    Ok(Items::from_vec(subparts))
}

/// A list of both sections.
fn pair(alloc: Global, first: SectionRow, second: SectionRow) -> Result<Items<SectionRow>, Memory>
    ensures { IfOk result (λ sections. sections ≡ first ∷ second ∷ []) }
{
    let mut sections = Vec::new(alloc);
    sections.push(first)?;
    sections.push(second)?;
    Ok(Items::from_vec(sections))
}

/// A section of the first subpart.
fn parent(alloc: Global, i: u32, k: u32) -> Result<SectionRow, Memory>
    requires first { 1 ≤ i }
    requires bound { i ≤ 100 }
    requires two { k ≤ 1 }
    ensures { IfOk result (λ section. section ≡ first_section i k) }
{
    Ok(SectionRow {
        id: SectionId(4 * i - 3 + k),
        limit: Limit::Places(9),
        parent: None,
        meetings: meetings(alloc, i, (i + k) % 5)?,
    })
}

/// A section of the second subpart, whose parent is that of the first with its number.
fn child(alloc: Global, i: u32, k: u32) -> Result<SectionRow, Memory>
    requires first { 1 ≤ i }
    requires bound { i ≤ 100 }
    requires two { k ≤ 1 }
    ensures { IfOk result (λ section. section ≡ second_section i k) }
{
    Ok(SectionRow {
        id: SectionId(4 * i - 1 + k),
        limit: Limit::Places(9),
        parent: Some(SectionId(4 * i - 3 + k)),
        meetings: meetings(alloc, i, (i + k + 2) % 5)?,
    })
}

/// The one meeting of a section of offering `i`.
fn meetings(alloc: Global, i: u32, weekday: u32) -> Result<Items<Meeting>, Memory>
    requires week { weekday < 5 }
    ensures { IfOk result (λ meetings. meetings ≡ meeting_on i weekday ∷ []) }
{
    let mut meetings = Vec::new(alloc);
    meetings.push(meeting(i, weekday))?;
    Ok(Items::from_vec(meetings))
}

/// The meeting of offering `i` on a weekday.
fn meeting(i: u32, weekday: u32) -> Meeting
    requires week { weekday < 5 }
    ensures { result ≡ meeting_on i weekday }
{
    let start = (96 + 12 * (i % 10)) as u16;
    match Meeting::new(day_bit(weekday), start, 10, (1 << 15) - 1) {
        Some(meeting) => meeting,
        None => unreachable!(),
    }
}

/// The bit of a weekday.
fn day_bit(weekday: u32) -> u8
    requires week { weekday < 5 }
    ensures bit { result ≡ 2 ^ weekday }
    ensures some { 0 < result }
    ensures small { result < 128 }
{
    match weekday {
        0 => 1,
        1 => 2,
        2 => 4,
        3 => 8,
        _ => 16,
    }
}

/// Student `s`, with at most 18 credits. It takes no memory.
pub(crate) fn student(alloc: Global, s: u32) -> Command
    ensures { result ≡ student_command s }
{
    Command::Student(StudentRow {
        id: StudentId(s),
        max_credits: 18,
        groups: Items::from_vec(Vec::new(alloc)),
        curricula: Items::from_vec(Vec::new(alloc)),
    })
}

/// The requests of student `s`, where there are `n` courses: three, or as many as there are courses.
pub(crate) fn requests(alloc: Global, n: u32, s: u32) -> Result<Command, Memory>
    requires first { 1 ≤ n }
    requires bound { s ≤ 2000 }
    ensures { IfOk result (λ command. command ≡ requests_command n s) }
{
    Ok(Command::Requests {
        student: StudentId(s),
        asks: asks(alloc, n, s, n.min(3))?,
    })
}

/// The first requests of student `s`.
fn asks(alloc: Global, n: u32, s: u32, count: u32) -> Result<Items<Ask>, Memory>
    requires first { 1 ≤ n }
    requires bound { s ≤ 2000 }
    requires three { count ≤ 3 }
    ensures { IfOk result (λ asks. asks ≡ made_of (ask_of n s) count) }
{
    let mut asks = Vec::new(alloc);
    for j in 0..count {
        asks.push(ask(alloc, n, s, j))?;
    }
    Ok(Items::from_vec(asks))
}

/// The request of student `s` for the `j`-th course behind that of their number.
fn ask(alloc: Global, n: u32, s: u32, j: u32) -> Ask
    requires first { 1 ≤ n }
    requires bound { s ≤ 2000 }
    requires three { j < 3 }
    ensures { result ≡ ask_of n s j }
{
    let course = CourseId((s + j) % n + 1);
    Ask::Course(CourseAsk {
        courses: Alternatives::one(alloc, course),
        wait: false,
        substitute: false,
    })
}

/// The batch with this number, from 0, where there are `n` courses.
pub(crate) fn batch(alloc: Global, n: u32, number: u32) -> Result<Command, Memory>
    requires bound { n ≤ 100 }
    requires within { 100 * number < 20 * n }
    ensures { IfOk result (λ command. command ≡ batch_command n number) }
{
    let before = 100 * number;
    let students = students(alloc, before, (20 * n - before).min(100))?;
    Ok(Command::Batch { students })
}

/// The students behind those before, so many.
fn students(alloc: Global, before: u32, count: u32) -> Result<Items<StudentId>, Memory>
    requires before { before ≤ 2000 }
    requires hundred { count ≤ 100 }
    ensures { IfOk result (λ students. students ≡ made_of (λ place. record { 0 = before + place + 1 }) count) }
{
    let mut students = Vec::new(alloc);
    for place in 0..count {
        students.push(StudentId(before + place + 1))?;
    }
    Ok(Items::from_vec(students))
}

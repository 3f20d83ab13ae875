// One walk, depth first: each option that is looked at takes one from the budget, and below a
// decision that breaks a rule nothing is looked at. The tree is made on the way back: the trees of
// the options refuted so far lie on one stack, and those of a node that is refuted are put into one there.
// Each kind of node has a loop of its own. Those of a want, of a course and of a reservation become one function.

ghost use Rattle.std.specs.Prelude.{◌≡◌, ◌≤◌, ◌<◌, ◌++◌, ◌∷◌, [], Some, length, slice_get, Contains, IfSome, IfOk};
ghost use Rattle.std.specs.Option.{option_map};
ghost use Rattle.sect_model.specs.declared.pick.Pick.TheVariants.{Course as picks_course, Reservation as picks_reservation, Config as picks_config, Section as picks_section};
ghost use Rattle.sect_model.specs.Path.{options_at};
ghost use Rattle.sect_model.specs.Search.{search_from};
ghost use Rattle.sect_model.specs.Stands.{MoveStands};
ghost use Rattle.sect_moment.specs.Completed.{opened};
ghost use Rattle.sect_moment.specs.Found.{IsChosen, IsConfig, IsSection, id_of};
ghost use Rattle.sect_rules.specs.Due.{wanted_place, course_place, joined_place, config_place};
ghost use Rattle.sect_rules.specs.Wanted.{course_path, joined_path, config_path};
ghost use Rattle.sect_search.specs.Told.{told, own, visited, behind, go_from, ToldNumbers, LeavesTrees, Tells};

use crate::looks::{closed, height, looked};
use crate::searched::{Complete, Searched, Walk};
use sect_base::{Choice, CourseId, Items, Memory};
use sect_catalog::{ConfigRow, SectionRow};
use sect_reserve::Reservation;
use sect_rules::{Configured, Joined, OnCourse, PathOf, Wanted};
use std::alloc::Global;

/// The search below a want, of at most so many decisions, with what is left of the budget. The trees of its options, where all
/// are refuted, lie on the stack over those that it had.
#[cycle(walking)]
pub fn below_want<const N: usize>(
    alloc: Global,
    wanted: &Wanted,
    decisions: u32,
    walk: &mut Walk,
) -> Result<Searched, Memory>
    requires stands { MoveStands wanted.now.world wanted.now.mv }
    requires room { length wanted.now.mv.take ≤ N }
    requires limit { N ≤ 20 }
    ensures found { IfOk result (λ r. told r walk.new.choices (own walk.old.trees.items walk.new.trees.items) walk.new.left
        ≡ search_from wanted.now.world wanted.now.mv decisions (opened wanted.now.done) walk.old.left) }
    ensures numbers { IfOk result (ToldNumbers (own walk.old.trees.items walk.new.trees.items)) }
    ensures less { walk.new.left ≤ walk.old.left }
    ensures kept { IfOk result (LeavesTrees walk.old.trees.items walk.new.trees.items) }
{
    if decisions == 0 {
        return Ok(Searched::Refuted);
    }
    let budget = walk.left;
    let mut at = 0;
    'courses: while let Some(course) = wanted.course(at) {
        match visit_course::<N>(alloc, wanted, course, decisions - 1, walk)? {
            Searched::Found => return Ok(Searched::Found),
            Searched::Refuted => {}
            Searched::Spent => return Ok(Searched::Spent),
        }
        at += 1;
    }
    Ok(Searched::Refuted)
}

/// The same below a course.
#[cycle(walking)]
#[inline(always)]
fn below_course<const N: usize>(
    alloc: Global,
    on: &OnCourse,
    decisions: u32,
    walk: &mut Walk,
) -> Result<Searched, Memory>
    requires stands { MoveStands on.now.wanted.world on.now.wanted.mv }
    requires room { length on.now.wanted.mv.take ≤ N }
    requires limit { N ≤ 20 }
    ensures found { IfOk result (λ r. told r walk.new.choices (own walk.old.trees.items walk.new.trees.items) walk.new.left
        ≡ search_from on.now.wanted.world on.now.wanted.mv decisions (course_path on.now) walk.old.left) }
    ensures numbers { IfOk result (ToldNumbers (own walk.old.trees.items walk.new.trees.items)) }
    ensures less { walk.new.left ≤ walk.old.left }
    ensures kept { IfOk result (LeavesTrees walk.old.trees.items walk.new.trees.items) }
{
    if decisions == 0 {
        return Ok(Searched::Refuted);
    }
    let budget = walk.left;
    let mut at = 0;
    'reservations: while let Some(row) = on.reservation(at) {
        match visit_reservation::<N>(alloc, on, row, decisions - 1, walk)? {
            Searched::Found => return Ok(Searched::Found),
            Searched::Refuted => {}
            Searched::Spent => return Ok(Searched::Spent),
        }
        at += 1;
    }
    Ok(Searched::Refuted)
}

/// The same below a reservation, or none.
#[cycle(walking)]
#[inline(always)]
fn below_reservation<const N: usize>(
    alloc: Global,
    by: &Joined,
    decisions: u32,
    walk: &mut Walk,
) -> Result<Searched, Memory>
    requires stands { MoveStands by.now.on.wanted.world by.now.on.wanted.mv }
    requires room { length by.now.on.wanted.mv.take ≤ N }
    requires limit { N ≤ 20 }
    ensures found { IfOk result (λ r. told r walk.new.choices (own walk.old.trees.items walk.new.trees.items) walk.new.left
        ≡ search_from by.now.on.wanted.world by.now.on.wanted.mv decisions (joined_path by.now) walk.old.left) }
    ensures numbers { IfOk result (ToldNumbers (own walk.old.trees.items walk.new.trees.items)) }
    ensures less { walk.new.left ≤ walk.old.left }
    ensures kept { IfOk result (LeavesTrees walk.old.trees.items walk.new.trees.items) }
{
    if decisions == 0 {
        return Ok(Searched::Refuted);
    }
    let budget = walk.left;
    let mut at = 0;
    'configs: while let Some(row) = by.config(at) {
        match visit_config::<N>(alloc, by, row, decisions - 1, walk)? {
            Searched::Found => return Ok(Searched::Found),
            Searched::Refuted => {}
            Searched::Spent => return Ok(Searched::Spent),
        }
        at += 1;
    }
    Ok(Searched::Refuted)
}

/// The same below a configuration with some sections.
#[cycle(walking)]
fn below_config<const N: usize>(
    alloc: Global,
    inside: &Configured,
    decisions: u32,
    walk: &mut Walk,
) -> Result<Searched, Memory>
    requires stands { MoveStands inside.now.by.on.wanted.world inside.now.by.on.wanted.mv }
    requires room { length inside.now.by.on.wanted.mv.take ≤ N }
    requires limit { N ≤ 20 }
    ensures found { IfOk result (λ r. told r walk.new.choices (own walk.old.trees.items walk.new.trees.items) walk.new.left
        ≡ search_from inside.now.by.on.wanted.world inside.now.by.on.wanted.mv decisions (config_path inside.now) walk.old.left) }
    ensures numbers { IfOk result (ToldNumbers (own walk.old.trees.items walk.new.trees.items)) }
    ensures less { walk.new.left ≤ walk.old.left }
    ensures kept { IfOk result (LeavesTrees walk.old.trees.items walk.new.trees.items) }
{
    if decisions == 0 {
        return Ok(Searched::Refuted);
    }
    let budget = walk.left;
    let mut at = 0;
    'sections: while let Some(row) = section_at(inside, at) {
        match visit_section::<N>(alloc, inside, row, decisions - 1, walk)? {
            Searched::Found => return Ok(Searched::Found),
            Searched::Refuted => {}
            Searched::Spent => return Ok(Searched::Spent),
        }
        at += 1;
    }
    Ok(Searched::Refuted)
}

/// A look at a course of a want, with at most so many decisions behind it. Where it is refuted, its tree lies on the stack.
#[cycle(walking)]
#[inline(always)]
fn visit_course<const N: usize>(
    alloc: Global,
    wanted: &Wanted,
    course: CourseId,
    decisions: u32,
    walk: &mut Walk,
) -> Result<Searched, Memory>
    requires stands { MoveStands wanted.now.world wanted.now.mv }
    requires room { length wanted.now.mv.take ≤ N }
    requires limit { N ≤ 20 }
    ensures tells { IfOk result (Tells (visited (wanted_place wanted.now) (picks_course course) decisions) walk.old.trees.items walk.old.left walk.new.choices walk.new.trees.items walk.new.left) }
    ensures less { walk.new.left ≤ walk.old.left }
{
    if let Some(searched) = looked(walk, wanted.broken(course))? {
        return Ok(searched);
    }
    let base = height(&walk.trees);
    wanted.recall_left();
    let on = OnCourse::new(&*wanted, course);
    let found = below_course::<N>(alloc, &on, decisions, walk)?;
    closed(&mut walk.trees, base, found)?;
    Ok(found)
}

/// The same of a course's reservation, or of none.
#[cycle(walking)]
#[inline(always)]
fn visit_reservation<const N: usize>(
    alloc: Global,
    on: &OnCourse,
    row: Option<&Reservation>,
    decisions: u32,
    walk: &mut Walk,
) -> Result<Searched, Memory>
    requires stands { MoveStands on.now.wanted.world on.now.wanted.mv }
    requires room { length on.now.wanted.mv.take ≤ N }
    requires limit { N ≤ 20 }
    requires row { IsChosen on.now.wanted.world row }
    ensures tells { IfOk result (Tells (visited (course_place on.now) (picks_reservation (id_of row.entry)) decisions) walk.old.trees.items walk.old.left walk.new.choices walk.new.trees.items walk.new.left) }
    ensures less { walk.new.left ≤ walk.old.left }
{
    if let Some(searched) = looked(walk, on.broken(row))? {
        return Ok(searched);
    }
    let base = height(&walk.trees);
    on.wanted().recall_left();
    let by = Joined::new(&*on, row);
    let found = below_reservation::<N>(alloc, &by, decisions, walk)?;
    closed(&mut walk.trees, base, found)?;
    Ok(found)
}

/// The same of a configuration.
#[cycle(walking)]
#[inline(always)]
fn visit_config<const N: usize>(
    alloc: Global,
    by: &Joined,
    row: &ConfigRow,
    decisions: u32,
    walk: &mut Walk,
) -> Result<Searched, Memory>
    requires stands { MoveStands by.now.on.wanted.world by.now.on.wanted.mv }
    requires room { length by.now.on.wanted.mv.take ≤ N }
    requires limit { N ≤ 20 }
    requires row { IsConfig by.now.on.wanted.world (Some by.now.on.course) row.now }
    ensures tells { IfOk result (Tells (visited (joined_place by.now) (picks_config row.now.id) decisions) walk.old.trees.items walk.old.left walk.new.choices walk.new.trees.items walk.new.left) }
    ensures less { walk.new.left ≤ walk.old.left }
{
    if let Some(searched) = looked(walk, by.broken(row))? {
        return Ok(searched);
    }
    let base = height(&walk.trees);
    by.on().wanted().recall_left();
    let inside = Configured::new(&*by, &*row);
    let found = below_config::<N>(alloc, &inside, decisions, walk)?;
    closed(&mut walk.trees, base, found)?;
    Ok(found)
}

/// The same of a section.
#[cycle(walking)]
#[inline(always)]
fn visit_section<const N: usize>(
    alloc: Global,
    inside: &Configured,
    row: &SectionRow,
    decisions: u32,
    walk: &mut Walk,
) -> Result<Searched, Memory>
    requires stands { MoveStands inside.now.by.on.wanted.world inside.now.by.on.wanted.mv }
    requires room { length inside.now.by.on.wanted.mv.take ≤ N }
    requires limit { N ≤ 20 }
    requires option { Contains (options_at inside.now.by.on.wanted.world inside.now.by.on.wanted.mv (config_path inside.now)) (picks_section row.now.id) }
    requires row { IsSection inside.now.by.on.wanted.world row.now }
    ensures tells { IfOk result (Tells (visited (config_place inside.now) (picks_section row.now.id) decisions) walk.old.trees.items walk.old.left walk.new.choices walk.new.trees.items walk.new.left) }
    ensures less { walk.new.left ≤ walk.old.left }
{
    if let Some(searched) = looked(walk, inside.broken(row))? {
        return Ok(searched);
    }
    let base = height(&walk.trees);
    let found = behind_section::<N>(alloc, inside, row, decisions, walk)?;
    closed(&mut walk.trees, base, found)?;
    Ok(found)
}

/// The section that `i` others precede by id, which is one of the options. None exactly past the last.
#[inline(always)]
fn section_at<'a>(inside: &Configured<'a>, i: usize) -> Option<&'a SectionRow>
    ensures value { option_map (λ row. picks_section row.now.id) result ≡ slice_get (options_at inside.now.by.on.wanted.world inside.now.by.on.wanted.mv (config_path inside.now)) i }
    ensures option { IfSome result (λ row. Contains (options_at inside.now.by.on.wanted.world inside.now.by.on.wanted.mv (config_path inside.now)) (picks_section row.now.id)) }
    ensures row { IfSome result (λ row. IsSection inside.now.by.on.wanted.world row.now) }
{
    inside.section(i)
}

/// What follows a section that breaks no rule: the choice is complete, or another section is due.
#[cycle(walking)]
#[inline(always)]
fn behind_section<const N: usize>(
    alloc: Global,
    inside: &Configured,
    row: &SectionRow,
    decisions: u32,
    walk: &mut Walk,
) -> Result<Searched, Memory>
    requires stands { MoveStands inside.now.by.on.wanted.world inside.now.by.on.wanted.mv }
    requires room { length inside.now.by.on.wanted.mv.take ≤ N }
    requires limit { N ≤ 20 }
    requires option { Contains (options_at inside.now.by.on.wanted.world inside.now.by.on.wanted.mv (config_path inside.now)) (picks_section row.now.id) }
    ensures found { IfOk result (λ r. told r walk.new.choices (own walk.old.trees.items walk.new.trees.items) walk.new.left
        ≡ behind (config_place inside.now) (picks_section row.now.id) decisions walk.old.left) }
    ensures numbers { IfOk result (ToldNumbers (own walk.old.trees.items walk.new.trees.items)) }
    ensures less { walk.new.left ≤ walk.old.left }
    ensures kept { IfOk result (LeavesTrees walk.old.trees.items walk.new.trees.items) }
{
    inside.recall_room(row.id);
    match inside.completed(row.id) {
        Some(choice) => ended::<N>(alloc, inside.by().on().wanted(), choice, decisions, walk),
        None => {
            let next = inside.behind(row.id);
            below_config::<N>(alloc, &next, decisions, walk)
        }
    }
}

/// What follows a choice that is complete: it completes the path, or the search for the next want begins behind it.
#[cycle(walking)]
fn ended<const N: usize>(
    alloc: Global,
    wanted: &Wanted,
    choice: Choice,
    decisions: u32,
    walk: &mut Walk,
) -> Result<Searched, Memory>
    requires stands { MoveStands wanted.now.world wanted.now.mv }
    requires room { length wanted.now.mv.take ≤ N }
    requires limit { N ≤ 20 }
    ensures found { IfOk result (λ r. told r walk.new.choices (own walk.old.trees.items walk.new.trees.items) walk.new.left
        ≡ go_from wanted.now.world wanted.now.mv (opened (wanted.now.done ++ choice ∷ [])) decisions walk.old.left) }
    ensures numbers { IfOk result (ToldNumbers (own walk.old.trees.items walk.new.trees.items)) }
    ensures less { walk.new.left ≤ walk.old.left }
    ensures kept { IfOk result (LeavesTrees walk.old.trees.items walk.new.trees.items) }
{
    wanted.recall_left();
    let mv = wanted.mv();
    let done = wanted.done();
    match mv.want(done.len() + 1) {
        None => {
            let before = copied(alloc, done)?;
            walk.choices = Complete::new(before, choice);
            Ok(Searched::Found)
        }
        Some(want) => {
            let path = PathOf::<N>::made(done, choice);
            let next = Wanted::new(wanted.world(), mv, path.done(), want);
            below_want::<N>(alloc, &next, decisions, walk)
        }
    }
}

/// The choices as a list of their own, with room for one more. Mostly there are none, which takes no memory.
#[inline(always)]
fn copied(alloc: Global, done: &[Choice]) -> Result<Items<Choice>, Memory>
    requires { length done.now < 20 }
    ensures { IfOk result (λ choices. choices ≡ done.now) }
{
    if done.is_empty() {
        return Ok(Items::from_vec(Vec::new(alloc)));
    }
    let mut choices = Vec::with_capacity(alloc, done.len() + 1)?;
    choices.extend_from_slice(done)?;
    Ok(Items::from_vec(choices))
}

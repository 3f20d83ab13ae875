// The lines of a survey, and the sums over them.

use sect_base::{Block, Choice, Items, SectionId, StudentId};

/// Why a request is unmet, as a search within 2,000 visits says.
#[derive(Drop)]
pub enum Why {
    /// It can be met now: the first choice that is allowed.
    Open(Choice),
    /// No choice is allowed: a tree that refutes each, and how many decisions were visited.
    Blocked(Block, u32),
    /// The search would visit more than 2,000 decisions.
    Spent,
}

/// The line of an unmet request.
#[derive(Drop)]
pub struct SurveyLine {
    pub student: StudentId,
    /// The request's position, from 1 to 20.
    pub rank: u8,
    pub why: Why,
}

/// The lines of all unmet requests, and the sums over them.
#[derive(Drop)]
pub struct Survey {
    /// By student and position.
    pub lines: Items<SurveyLine>,
    /// Each rule that stands in a leaf of a blocked line, from 1 to 20 in rising order, with the number of such leaves.
    pub rules: Items<(u8, u32)>,
    /// Each section that a blocked line lacks a place in, by id, with the number of such lines.
    pub wanted: Items<(SectionId, u32)>,
}

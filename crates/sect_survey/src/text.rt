// The text of a survey.

ghost use Rattle.std.specs.Prelude.{◌≡◌, ◌++◌, OnOk, OnErr, length, take};
ghost use Rattle.std.specs.List.{flat_map};
ghost use Rattle.sect_survey.specs.Text.{survey_line_text, rule_text, wanted_text, survey_text};

use crate::line::{Survey, SurveyLine, Why};
use sect_base::{Memory, SectionId};
use sect_report::{Printed, Word, print_line, print_list};

impl Printed for SurveyLine {
    ghost lines = { survey_line_text };

    fn print(&self, into: &mut Vec<u8>) -> Result<(), Memory> {
        let student = Word::Name("student");
        let id = Word::Number(u64::from(self.student.0));
        let name = Word::Name("rank");
        let rank = Word::Number(u64::from(self.rank));
        match &self.why {
            Why::Open(choice) => {
                let words = [
                    student,
                    id,
                    name,
                    rank,
                    Word::Name("open"),
                    Word::Choice(choice),
                ];
                print_line(&words, into)
            }
            Why::Blocked(tree, visits) => {
                let visits = Word::Number(u64::from(*visits));
                let blocked = Word::Name("blocked");
                let words = [student, id, name, rank, blocked, visits, Word::Tree(tree)];
                print_line(&words, into)
            }
            Why::Spent => print_line(&[student, id, name, rank, Word::Name("spent")], into),
        }
    }
}

/// Appends a line for each request, or one that says that there are none, and then a line for each rule and each section.
/// It takes the memory of the text. After `Memory` the bytes are as before.
pub fn print_survey(survey: &Survey, into: &mut Vec<u8>) -> Result<(), Memory>
    ensures text { OnOk result (into.new.items ≡ into.old.items ++ survey_text survey.now) }
    ensures memory { OnErr result (into.new.items ≡ into.old.items) }
{
    let before = into.len();
    let printed = print_parts(survey, into);
    if printed.is_err() {
        into.truncate(before);
    }
    printed
}

/// Appends the lines and the sums. After `Memory` a part of them may stand at the end.
fn print_parts(survey: &Survey, into: &mut Vec<u8>) -> Result<(), Memory>
    ensures text { OnOk result (into.new.items ≡ into.old.items ++ survey_text survey.now) }
    ensures front { take (length into.old.items) into.new.items ≡ into.old.items }
{
    print_list(survey.lines.as_slice(), into)?;
    print_rules(survey.rules.as_slice(), into)?;
    print_sections(survey.wanted.as_slice(), into)
}

/// Appends a line for each rule. After `Memory` a part of them may stand at the end.
fn print_rules(rules: &[(u8, u32)], into: &mut Vec<u8>) -> Result<(), Memory>
    ensures text { OnOk result (into.new.items ≡ into.old.items ++ flat_map rule_text rules.now) }
    ensures front { take (length into.old.items) into.new.items ≡ into.old.items }
{
    for sum in rules {
        print_rule(*sum, into)?;
    }
    Ok(())
}

/// Appends the line of a rule. After `Memory` the bytes are as before.
fn print_rule(sum: (u8, u32), into: &mut Vec<u8>) -> Result<(), Memory>
    ensures text { OnOk result (into.new.items ≡ into.old.items ++ rule_text sum) }
    ensures memory { OnErr result (into.new.items ≡ into.old.items) }
{
    let (rule, leaves) = sum;
    let words = [
        Word::Name("rule"),
        Word::Number(u64::from(rule)),
        Word::Name("leaves"),
        Word::Number(u64::from(leaves)),
    ];
    print_line(&words, into)
}

/// Appends a line for each section. After `Memory` a part of them may stand at the end.
fn print_sections(sections: &[(SectionId, u32)], into: &mut Vec<u8>) -> Result<(), Memory>
    ensures text { OnOk result (into.new.items ≡ into.old.items ++ flat_map wanted_text sections.now) }
    ensures front { take (length into.old.items) into.new.items ≡ into.old.items }
{
    for sum in sections {
        print_section(*sum, into)?;
    }
    Ok(())
}

/// Appends the line of a section. After `Memory` the bytes are as before.
fn print_section(sum: (SectionId, u32), into: &mut Vec<u8>) -> Result<(), Memory>
    ensures text { OnOk result (into.new.items ≡ into.old.items ++ wanted_text sum) }
    ensures memory { OnErr result (into.new.items ≡ into.old.items) }
{
    let (section, lines) = sum;
    let words = [
        Word::Name("section"),
        Word::Number(u64::from(section.0)),
        Word::Name("wanted"),
        Word::Number(u64::from(lines)),
    ];
    print_line(&words, into)
}

// Wants without a course, and counts in wants.

ghost use Rattle.std.specs.Prelude.{◌≡◌, length};
ghost use Rattle.std.specs.List.{list_any};
ghost use Rattle.sect_model.specs.Refusals.{
  is_empty_want as is_bare_want,
  empty_want as bare_fault,
  many_in_want as want_counts,
  many_in_wants as wants_counts,
};

use crate::told::too_many;
use sect_base::Want;
use sect_command::Refusal;

/// The most courses of a want.
const MOST_COURSES: usize = 6;

/// The most sections to which a want is bound.
const MOST_SECTIONS: usize = 1_200;

/// Whether the want has no course.
pub fn is_empty_want(want: &Want) -> bool
    ensures { result ≡ is_bare_want want.now }
{
    want.courses.len() == 0
}

/// Whether one of the wants has no course.
pub fn any_empty_want(wants: &[Want]) -> bool
    ensures { result ≡ list_any is_bare_want wants.now }
{
    wants.iter().any(is_empty_want)
}

/// The want has no course.
pub fn empty_want(want: &Want) -> Option<Refusal>
    ensures { result ≡ bare_fault want.now }
{
    if is_empty_want(want) {
        Some(Refusal::EmptyWant)
    } else {
        None
    }
}

/// More than 6 courses, else more than 1,200 sections.
pub fn many_in_want(want: &Want) -> Option<Refusal>
    ensures { result ≡ want_counts want.now }
{
    too_many(MOST_COURSES, want.courses.len()).or_else(|| too_many(MOST_SECTIONS, want.only.len()))
}

/// The first want with too many.
pub fn many_in_wants(wants: &[Want]) -> Option<Refusal>
    ensures { result ≡ wants_counts wants.now }
{
    for want in wants {
        if let Some(refusal) = many_in_want(want) {
            return Some(refusal);
        }
    }
    None
}

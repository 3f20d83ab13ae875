// Searches in lists of ids in rising order.

ghost use Rattle.std.specs.Prelude.{◌≡◌, ◌==◌, ◌≤◌, length, slice_get, IsTrue, Some};
ghost use Rattle.std.specs.List.{list_any};
ghost use Rattle.std.specs.List.Sorted.{IsNonDecreasingBy};
ghost use Rattle.sect_people.specs.Index.{rank as rank_of};

use sect_base::{CourseId, StudentId};

/// The number of ids below this one, which is where it stands or would stand. It takes no search where each id between the
/// first and this one is there, or where this one is above the last.
pub fn rank(ids: &[StudentId], id: StudentId) -> usize
    requires { IsNonDecreasingBy (λ d. d.0) ids.now }
    ensures { result ≡ rank_of (λ d. d.0) id.0 ids.now }
{
    let place = guess(ids, id);
    if reaches(ids, id, place) && passes(ids, id, place) {
        place
    } else {
        searched(ids, id)
    }
}

/// Where the id stands if each between the first and this one is there, but no farther than the end.
pub fn guess(ids: &[StudentId], id: StudentId) -> usize
    ensures { result ≤ length ids.now }
{
    match ids {
        [] => 0,
        [first, ..] => (id.0.saturating_sub(first.0) as usize).min(ids.len()),
    }
}

/// Whether the id at the place isn't below this one.
fn reaches(ids: &[StudentId], id: StudentId, place: usize) -> bool
    requires { place ≤ length ids.now }
    ensures { IsTrue result → rank_of (λ d. d.0) id.0 ids.now ≤ place }
{
    place == ids.len() || id.0 <= ids[place].0
}

/// Whether the id before the place is below this one.
fn passes(ids: &[StudentId], id: StudentId, place: usize) -> bool
    requires rising { IsNonDecreasingBy (λ d. d.0) ids.now }
    requires within { place ≤ length ids.now }
    ensures { IsTrue result → place ≤ rank_of (λ d. d.0) id.0 ids.now }
{
    place == 0 || ids[place - 1].0 < id.0
}

/// Whether the id stands at the place, and those before it are below.
pub fn stands_at(ids: &[StudentId], id: StudentId, place: usize) -> bool
    requires rising { IsNonDecreasingBy (λ d. d.0) ids.now }
    requires within { place ≤ length ids.now }
    ensures there { IsTrue result → Some id ≡ slice_get ids.now place }
    ensures rank { IsTrue result → place ≡ rank_of (λ d. d.0) id.0 ids.now }
{
    match ids.get(place) {
        Some(own) => *own == id && passes(ids, id, place),
        None => false,
    }
}

/// The number of ids below this one, found by halves.
fn searched(ids: &[StudentId], id: StudentId) -> usize
    requires { IsNonDecreasingBy (λ d. d.0) ids.now }
    ensures { result ≡ rank_of (λ d. d.0) id.0 ids.now }
{
    let mut low = 0;
    let mut high = ids.len();
    while low < high {
        let middle = low + (high - low) / 2;
        if ids[middle] < id {
            low = middle + 1;
        } else {
            high = middle;
        }
    }
    low
}

/// Whether the course is among those known. It takes no search where each course between the first and this one is known.
pub fn is_known(known: &[CourseId], id: CourseId) -> bool
    requires { IsNonDecreasingBy (λ c. c.0) known.now }
    ensures { result ≡ list_any (λ c. c.0 == id.0) known.now }
{
    is_guessed(known, id) || is_found(known, id)
}

/// Whether the course stands where it does if each between the first and this one is known.
fn is_guessed(known: &[CourseId], id: CourseId) -> bool
    ensures { IsTrue result → IsTrue (list_any (λ c. c.0 == id.0) known.now) }
{
    let [first, ..] = known else {
        return false;
    };
    match known.get(id.0.saturating_sub(first.0) as usize) {
        Some(own) => *own == id,
        None => false,
    }
}

/// Whether the course is found by halves.
fn is_found(known: &[CourseId], id: CourseId) -> bool
    requires { IsNonDecreasingBy (λ c. c.0) known.now }
    ensures { result ≡ list_any (λ c. c.0 == id.0) known.now }
{
    known.binary_search(&id).is_ok()
}

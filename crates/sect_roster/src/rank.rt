// Searches in lists in order of a number.

ghost use Rattle.std.specs.Prelude.{◌≡◌, ◌≤◌, true, IsTrue};
ghost use Rattle.sect_people.specs.Index.{rank as rank_of};
ghost use Rattle.sect_model.specs.Kept.{is_ordered_by};

use crate::filed::Keyed;

/// How many elements have a number below the bound, which is where one of it would stand first.
fn rank<T: Keyed>(items: &[T], bound: u64) -> usize
    requires { IsTrue (is_ordered_by T.key_of items.now) }
    ensures { result ≡ rank_of T.key_of bound items.now }
{
    let mut low = 0;
    let mut high = items.len();
    while low < high {
        let middle = low + (high - low) / 2;
        if (items[middle].key() as u64) < bound {
            low = middle + 1;
        } else {
            high = middle;
        }
    }
    low
}

/// Whether the elements before the place have a number below the bound, each of them.
fn is_reached<T: Keyed>(items: &[T], bound: u64, place: usize) -> bool
    requires { IsTrue (is_ordered_by T.key_of items.now) }
    ensures { result ≡ true → place ≤ rank_of T.key_of bound items.now }
{
    if place == 0 {
        return true;
    }
    let last = place - 1;
    if last >= items.len() {
        return false;
    }
    if (items[last].key() as u64) < bound {
        return true;
    }
    false
}

/// Whether the elements from the place on have no number below the bound, none of them.
fn is_passed<T: Keyed>(items: &[T], bound: u64, place: usize) -> bool
    requires { IsTrue (is_ordered_by T.key_of items.now) }
    ensures { result ≡ true → rank_of T.key_of bound items.now ≤ place }
{
    if place >= items.len() {
        return true;
    }
    if (items[place].key() as u64) < bound {
        return false;
    }
    true
}

/// How many elements have a number below the bound. A right guess is told at once.
pub fn rank_near<T: Keyed>(items: &[T], bound: u64, guess: usize) -> usize
    requires { IsTrue (is_ordered_by T.key_of items.now) }
    ensures { result ≡ rank_of T.key_of bound items.now }
{
    if is_reached(items, bound, guess) && is_passed(items, bound, guess) {
        guess
    } else {
        rank(items, bound)
    }
}

/// Where the element of a number stands if each number between the first and this one has one, as it mostly is; the length
/// where it would stand behind all.
pub fn first_guess<T: Keyed>(items: &[T], number: u32) -> usize {
    match items.first() {
        Some(first) => items.len().min(number.saturating_sub(first.key()) as usize),
        None => 0,
    }
}

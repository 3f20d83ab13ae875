// The marks of rows, in order of id.

ghost use Rattle.std.specs.Prelude.{◌≡◌, ◌<◌, ◌+◌, ◌==◌, not, filter, find, map, IsTrue, IsSome};
ghost use Rattle.std.specs.Option.{option_map};
ghost use Rattle.std.specs.Vec.{vec_len, vec_capacity};
ghost use Rattle.sect_people.specs.Order.{all_differ};
ghost use Rattle.sect_model.specs.Kept.{is_ordered_by};
ghost use Rattle.sect_model.specs.World.{put_behind};

use crate::mark::Mark;
use crate::rank::{first_guess, rank_near};
use crate::room::put_at;

/// The offering of an id, None exactly where no mark has the id.
pub fn offering_of(marks: &[Mark], id: u32) -> Option<u32>
    requires { IsTrue (is_ordered_by (λ m. m.id) marks.now) }
    ensures { result ≡ option_map (λ m. m.offering) (find (λ m. m.id == id) marks.now) }
{
    let rank = rank_near(marks, id as u64, first_guess(marks, id));
    let mark = marks.get(rank)?;
    if mark.id == id {
        Some(mark.offering)
    } else {
        None
    }
}

/// Puts a mark behind those of lower ids, where there is room. It takes no memory.
pub fn put_mark(marks: &mut Vec<Mark>, mark: Mark)
    requires room { vec_len marks.old < vec_capacity marks.old }
    requires in_order { IsTrue (is_ordered_by (λ m. m.id) marks.old.items) }
    ensures items { marks.new.items ≡ put_behind (λ m. m.id) mark marks.old.items }
    ensures len { vec_len marks.new ≡ vec_len marks.old + 1 }
    ensures capacity { vec_capacity marks.new ≡ vec_capacity marks.old }
{
    let rank = rank_near(
        marks.as_slice(),
        mark.id as u64 + 1,
        first_guess(marks.as_slice(), mark.id),
    );
    put_at(marks, rank, mark);
}

/// Takes the mark of an id out. It takes no memory.
pub fn take_mark(marks: &mut Vec<Mark>, id: u32)
    requires in_order { IsTrue (is_ordered_by (λ m. m.id) marks.old.items) }
    requires differ { IsTrue (all_differ (map (λ m. m.id) marks.old.items)) }
    requires some { IsSome (find (λ m. m.id == id) marks.old.items) }
    ensures items { marks.new.items ≡ filter (λ m. not (m.id == id)) marks.old.items }
    ensures len { vec_len marks.old ≡ vec_len marks.new + 1 }
    ensures capacity { vec_capacity marks.new ≡ vec_capacity marks.old }
{
    let rank = rank_near(
        marks.as_slice(),
        id as u64,
        first_guess(marks.as_slice(), id),
    );
    let _ = marks.remove(rank);
}

// A vector that has room for one element more.

ghost use Rattle.std.specs.Prelude.{◌≡◌, ◌<◌, ◌≤◌, ◌+◌, length, insert};
ghost use Rattle.std.specs.Vec.{vec_len, vec_capacity};

/// Puts the element at the place, where there is room. It takes no memory.
pub fn put_at<T: Drop>(items: &mut Vec<T>, place: usize, item: T)
    requires room { vec_len items.old < vec_capacity items.old }
    requires within { place ≤ length items.old.items }
    ensures items { items.new.items ≡ insert items.old.items place item }
    ensures len { vec_len items.new ≡ vec_len items.old + 1 }
    ensures capacity { vec_capacity items.new ≡ vec_capacity items.old }
{
    if items.insert(place, item).is_err() {
        unreachable!();
    }
}

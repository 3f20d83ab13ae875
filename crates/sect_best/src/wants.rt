// The wants of a student's course requests.

ghost use Rattle.std.specs.Prelude.{◌≡◌, ◌≤◌, length, IfOk};
ghost use Rattle.sect_best.specs.Plan.{course_asks};

use sect_base::{Memory, Want};
use sect_people::Ask;
use sect_search::want_of;
use std::alloc::Global;

/// The want of each course request, at its position.
pub fn wants_of(alloc: Global, asks: &[Ask]) -> Result<Vec<Want>, Memory>
    requires { length asks.now ≤ 20 }
    ensures { IfOk result (λ wants. wants.items ≡ course_asks asks.now) }
{
    let mut wants = Vec::new(alloc);
    let mut rank = 1;
    for ask in asks {
        if let Ask::Course(ask) = ask {
            wants.push(want_of(alloc, ask, rank)?)?;
        }
        rank += 1;
    }
    Ok(wants)
}

// Counts, as refusals tell them.

ghost use Rattle.std.specs.Prelude.{◌≡◌};
ghost use Rattle.sect_model.specs.Refusals.{too_many as many_of, in_use as use_of};

use sect_base::capped;
use sect_command::Refusal;

/// A count above its limit.
pub fn too_many(limit: usize, count: usize) -> Option<Refusal>
    ensures { result ≡ many_of limit count }
{
    if count > limit {
        Some(Refusal::TooMany(capped(count)))
    } else {
        None
    }
}

/// A count above 0.
pub fn in_use(count: u32) -> Option<Refusal>
    ensures { result ≡ use_of count }
{
    if count > 0 {
        Some(Refusal::InUse(capped(count as usize)))
    } else {
        None
    }
}

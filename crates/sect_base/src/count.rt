// A count as faults and refusals tell it.

ghost use Rattle.std.specs.Prelude.{◌≡◌};
ghost use Rattle.sect_base.specs.Capped.{capped as capped_of};

/// A count as faults and refusals tell it: the count, or 2^32 - 1 where that is smaller. It takes no memory.
pub fn capped(count: usize) -> u32
    ensures { result ≡ capped_of count }
{
    count.min(u32::MAX as usize) as u32
}

// Bits of a word.

ghost use Rattle.std.specs.Prelude.{◌≡◌, ◌↔◌, ◌<◌, ℕ, IsTrue, nat_lt};
ghost use Rattle.sect_base.specs.Pattern.{has_bit};

/// Whether the bit is set.
pub(crate) fn is_bit_set(word: u64, bit: u8) -> bool
    requires { bit < 64 }
    ensures { result ≡ has_bit word bit }
{
    (word >> bit) & 1 == 1
}

/// Whether some bit is set in both.
pub(crate) fn share_bit(a: u64, b: u64) -> bool
    ensures { IsTrue result ↔ ((bit : ℕ) × (bit < 64) × IsTrue (has_bit a bit) × IsTrue (has_bit b bit)) }
{
    a & b != 0
}

/// The lowest bits, so many or all.
pub(crate) fn bits_below(count: u16) -> u64
    ensures { (bit : ℕ) → bit < 64 → has_bit result bit ≡ nat_lt bit count }
{
    if count < 64 {
        (1 << count) - 1
    } else {
        u64::MAX
    }
}

// Numbers in digits.

ghost use Rattle.std.specs.Prelude.{◌≡◌, ◌<◌, ◌+◌, ◌/◌, ◌%◌, ℕ, length, slice_index, IfSome, IfNone};
ghost use Rattle.sect_base.specs.Digits.{two_digits};

/// The number's tens and ones.
pub(crate) fn two_digits(n: u8) -> [u8; 2]
    requires { n < 100 }
    ensures { result ≡ two_digits n }
{
    [b'0' + n / 10, b'0' + n % 10]
}

/// The number that two digits say at this place.
pub(crate) fn number_at(text: &[u8], at: usize) -> Option<u8>
    requires { at + 1 < length text.now }
    ensures within { IfSome result (λ n. n < 100) }
    ensures tens { IfSome result (λ n. slice_index text.now at ≡ 48 + n / 10) }
    ensures ones { IfSome result (λ n. slice_index text.now (at + 1) ≡ 48 + n % 10) }
    ensures none { IfNone result ((n : ℕ) → n < 100 → slice_index text.now at ≡ 48 + n / 10 → slice_index text.now (at + 1) ≡ 48 + n % 10 → ⊥) }
{
    let tens = text[at];
    let ones = text[at + 1];
    if tens.is_ascii_digit() && ones.is_ascii_digit() {
        Some((tens - b'0') * 10 + (ones - b'0'))
    } else {
        None
    }
}

// Texts compared.

ghost use Rattle.std.specs.Prelude.{◌≡◌};
ghost use Rattle.std.specs.Str.{bytes_eq};

/// Whether the bytes are the same. It takes no memory.
#[inline(always)]
pub fn same_bytes(left: &[u8], right: &[u8]) -> bool
    ensures { result ≡ bytes_eq left.now right.now }
{
    if left.len() != right.len() {
        return false;
    }
    let mut rest = left;
    let mut other = right;
    while let [first, more @ ..] = rest {
        if *first != other[0] {
            return false;
        }
        rest = more;
        other = &other[1..];
    }
    true
}

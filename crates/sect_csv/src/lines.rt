// The lines of a piece.

ghost use Rattle.std.specs.Prelude.{◌≡◌, ◌≤◌, length, take};
ghost use Rattle.sect_csv.specs.Rows.{through_last_feed};

/// How many bytes stand through the last line feed.
pub(crate) fn lines_len(bytes: &[u8]) -> usize
    ensures within { result ≤ length bytes.now }
    ensures lines { through_last_feed bytes.now ≡ take result bytes.now }
{
    let mut end = bytes.len();
    while end > 0 && bytes[end - 1] != b'\n' {
        end -= 1;
    }
    end
}

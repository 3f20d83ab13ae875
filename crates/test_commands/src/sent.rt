// What students send over connections of a link in memory.

use crate::keepers::number_alone;
use crate::streams::{sink_of, source_of};
use sect_base::Memory;
use sect_edge::MemLink;
use std::alloc::Global;

/// A section of one place, and the students 11 and 12.
pub const THREE_ROWS: &str =
    "2025-09-01 r1 1 offering 1 course 1 - 3 config 1 - subpart 1 section 7 1 - - = amended
2025-09-01 r1 2 student 11 max 18 = amended
2025-09-01 r1 3 student 12 max 18 = amended";

/// Student 11 asks for the one place.
pub const FIRST: &str =
    "POST /students/11/asks/1 HTTP/1.1\r\nContent-Length: 43\r\n\r\n{\"verb\":\"enrol\",\"student\":11,\"courses\":[1]}";

/// So does student 12.
pub const SECOND: &str =
    "POST /students/12/asks/1 HTTP/1.1\r\nContent-Length: 43\r\n\r\n{\"verb\":\"enrol\",\"student\":12,\"courses\":[1]}";

/// A link to which these connections come, one after another, each of which sends its text. The call of `accept` with this
/// number fails; 0 is none.
pub fn link_of(alloc: Global, sent: &[&str], failing_accept: u64) -> Result<MemLink, Memory> {
    let mut talks = Vec::new(alloc);
    for text in sent {
        let source = source_of(alloc, text.as_bytes(), 8_192, 0)?;
        let sink = sink_of(alloc, 4_000, 4_000, 0)?;
        talks.push((source, sink))?;
    }
    Ok(MemLink::new(talks, number_alone(alloc, failing_accept)?))
}

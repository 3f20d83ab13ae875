// A sink over a writer of the system.
ghost use Rattle.std.specs.Prelude.{None};

use sect_edge::{Failed, Sink};
use std::io::Write;

/// What the process writes. It doesn't tell its bytes.
#[derive(Drop)]
pub struct StdSink<W> {
    writer: W,
    faults: u64,
}

impl<W: Write> StdSink<W> {
    /// A sink that hasn't failed.
    pub fn new(writer: W) -> StdSink<W> {
        StdSink { writer, faults: 0 }
    }

    /// Whether each write went well.
    pub fn is_whole(&self) -> bool {
        self.faults == 0
    }
}

impl<W: Write> Sink for StdSink<W> {
    ghost taken = { λ s. None };

    ghost faults = { λ s. s.faults };

    fn write(&mut self, piece: &[u8]) -> Result<usize, Failed> {
        match self.writer.write(piece) {
            Ok(count) if count > 0 || piece.is_empty() => Ok(count),
            _ => {
                self.faults = self.faults.saturating_add(1);
                Err(Failed)
            }
        }
    }
}

// What comes in by a connection.
ghost use Rattle.std.specs.Prelude.{None};

use sect_edge::{Failed, Source};
use std::io::Read;
use std::net::TcpStream;

/// The bytes that a client sends. It doesn't tell them. A read that waits longer than the stream's timeout fails.
#[derive(Drop)]
pub struct TcpSource {
    stream: TcpStream,
    faults: u64,
    // Whether the client has ended its bytes.
    ended: bool,
}

impl TcpSource {
    /// Of a stream from which nothing was read.
    pub fn new(stream: TcpStream) -> TcpSource {
        TcpSource {
            stream,
            faults: 0,
            ended: false,
        }
    }

    /// Whether more bytes may come: no end and no failure has come yet.
    pub(crate) fn is_open(&self) -> bool {
        !self.ended && self.faults == 0
    }

    /// The stream itself.
    pub(crate) fn into_stream(self) -> TcpStream {
        let TcpSource {
            stream,
            faults: _,
            ended: _,
        } = self;
        stream
    }
}

impl Source for TcpSource {
    ghost left = { λ s. None };

    ghost faults = { λ s. s.faults };

    fn read(&mut self, into: &mut [u8]) -> Result<usize, Failed> {
        match self.stream.read(into) {
            Ok(count) => {
                self.ended |= count == 0 && !into.is_empty();
                Ok(count)
            }
            Err(_) => {
                self.faults = self.faults.saturating_add(1);
                Err(Failed)
            }
        }
    }
}

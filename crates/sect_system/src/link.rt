// Connections that come in at one listener.
ghost use Rattle.std.specs.Prelude.{None, ◌≡◌, length, IfOk};

use crate::{TcpSink, TcpSource};
use sect_edge::{Link, LinkFault};
use std::alloc::AllocError;
use std::io::{self, ErrorKind, Read};
use std::net::{Shutdown, TcpListener, TcpStream};
use std::time::{Duration, Instant};

/// How many seconds a read or a write of a connection may wait.
const PATIENCE: u64 = 5;

/// For how many milliseconds the bytes that a client still sends are taken once it has been answered for the last time.
const DRAIN: u64 = 200;

/// How many milliseconds one read of them may wait.
const PAUSE: u64 = 100;

/// How many reads of them there are at most.
const MOST_READS: u32 = 256;

/// How many connections in a row may be gone before they are accepted.
const MOST_GONE: u32 = 1024;

/// The connections of a listener, which several links may share. They have no end. It doesn't tell them.
#[derive(Drop)]
pub struct TcpLink<'a> {
    rt: HostRuntime,
    listener: &'a TcpListener,
    faults: u64,
}

impl<'a> TcpLink<'a> {
    /// A link that hasn't failed.
    pub fn new(rt: HostRuntime, listener: &'a TcpListener) -> TcpLink<'a> {
        TcpLink {
            rt,
            listener,
            faults: 0,
        }
    }
}

/// So many links over one listener, which share its connections.
pub fn links(
    rt: HostRuntime,
    listener: &TcpListener,
    count: u32,
) -> Result<Vec<TcpLink<'_>>, AllocError>
    ensures { IfOk result (λ links. length links.items ≡ count) }
{
    let mut links = Vec::new(rt.alloc());
    for _ in 0..count {
        links.push(TcpLink::new(rt, listener))?;
    }
    Ok(links)
}

/// The two ends of the next connection. What the client sends is answered at once, and no call waits for ever.
fn accepted(listener: &TcpListener) -> io::Result<(TcpSource, TcpSink)> {
    let stream = next_stream(listener)?;
    let sink = TcpSink::new(other_end(&stream)?);
    Ok((TcpSource::new(stream), sink))
}

/// The end of a stream by which its client is answered. Neither end waits for ever.
fn other_end(stream: &TcpStream) -> io::Result<TcpStream> {
    let patience = Some(Duration::from_secs(PATIENCE));
    stream.set_nodelay(true)?;
    stream.set_read_timeout(patience)?;
    stream.set_write_timeout(patience)?;
    stream.try_clone()
}

/// The next connection that stands. A call that a signal interrupts is tried again by `accept`.
fn next_stream(listener: &TcpListener) -> io::Result<TcpStream> {
    for _ in 0..MOST_GONE {
        match listener.accept() {
            Ok((stream, _)) => return Ok(stream),
            Err(error) if error.kind() == ErrorKind::ConnectionAborted => {}
            Err(error) => return Err(error),
        }
    }
    Err(io::Error::from(ErrorKind::ConnectionAborted))
}

/// Tells the client that no more is written, and takes for a while what it still sends. A stream that is dropped with bytes
/// unread is reset, and the client may lose its last answer by that.
fn drain(rt: HostRuntime, stream: &mut TcpStream) -> io::Result<()> {
    stream.shutdown(Shutdown::Write)?;
    stream.set_read_timeout(Some(Duration::from_millis(PAUSE)))?;
    let most = Duration::from_millis(DRAIN);
    let start = Instant::now(&rt)?;
    let mut piece = [0; 8192];
    for _ in 0..MOST_READS {
        if stream.read(&mut piece)? == 0 || start.elapsed(&rt)? >= most {
            break;
        }
    }
    Ok(())
}

impl<'a> Link for TcpLink<'a> {
    type In = TcpSource;

    type Out = TcpSink;

    ghost connections = { λ l. None };

    ghost faults = { λ l. l.faults };

    fn accept(&mut self) -> Result<Option<(TcpSource, TcpSink)>, LinkFault> {
        match accepted(self.listener) {
            Ok(connection) => Ok(Some(connection)),
            Err(_) => {
                self.faults = self.faults.saturating_add(1);
                Err(LinkFault::Failed)
            }
        }
    }

    /// Where neither end has failed and the client hasn't ended its bytes, it waits up to 0.3 s for that end, so that the
    /// last answer arrives.
    fn finish(&mut self, source: TcpSource, sink: TcpSink) {
        if source.is_open() && sink.is_whole() {
            let mut stream = source.into_stream();
            let _ = drain(self.rt, &mut stream);
        }
    }
}

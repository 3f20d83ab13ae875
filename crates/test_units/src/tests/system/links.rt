// Links over sockets of this machine.

use sect_edge::{Failed, Link, Sink};
use sect_system::{TcpLink, TcpSink, TcpSource};
use std::io::{self, Write};
use std::net::{TcpListener, TcpStream};
use std::process::Abort;
use std::thread;
use std::time::Duration;

/// A listener at a port that the system chose.
fn listener(rt: HostRuntime) -> io::Result<TcpListener> {
    TcpListener::bind(&rt, "127.0.0.1:0")
}

/// A client of the listener, which has sent this.
fn client(rt: HostRuntime, listener: &TcpListener, sent: &[u8]) -> io::Result<TcpStream> {
    let mut client = TcpStream::connect(&rt, listener.local_addr()?)?;
    client.write_all(sent)?;
    Ok(client)
}

/// The next connection of the link, which waits.
fn accept(rt: &impl Abort, link: &mut TcpLink<'_>) -> (TcpSource, TcpSink) {
    match link.accept() {
        Ok(Some(connection)) => connection,
        _ => panic!(rt; "a connection waits"),
    }
}

#[test]
fn a_client_that_is_gone_fails_the_writes(rt: HostRuntime) -> io::Result<()> {
    let listener = listener(rt)?;
    let mut link = TcpLink::new(rt, &listener);
    drop(client(rt, &listener, b"")?);
    let (source, mut sink) = accept(&rt, &mut link);
    // The first is taken by the system, and answered by a reset.
    let _ = sink.write(b"a");
    thread::sleep(&rt, Duration::from_millis(50));
    assert!(rt; sink.write(b"b") == Err(Failed));
    link.finish(source, sink);
    Ok(())
}

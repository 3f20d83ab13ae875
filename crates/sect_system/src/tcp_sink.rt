// What goes out by a connection.

use crate::StdSink;
use std::net::TcpStream;

/// The bytes that a client is sent. A write that waits longer than the stream's timeout fails. Where the client is gone a write
/// fails too, and raises no signal.
pub type TcpSink = StdSink<TcpStream>;

// How a connection ends.

/// How the talk over one connection ended.
#[derive(Clone, Copy, Debug, PartialEq, Eq)]
pub enum End {
    /// The input ended between requests, or the last answer says that the connection closes.
    Closed,
    /// The input ended inside a request.
    Cut,
    /// The source failed.
    ReadFault,
    /// The sink failed.
    WriteFault,
}

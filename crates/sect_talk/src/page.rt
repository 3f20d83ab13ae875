// What stands before the body of an answer.

use http::StatusCode;

/// What a body is.
#[derive(Clone, Copy, PartialEq, Eq)]
pub enum Kind {
    Json,
    Text,
}

/// A method by which something is asked for.
#[derive(Clone, Copy, PartialEq, Eq)]
pub enum Method {
    Get,
    Post,
}

/// What an answer says beside its body.
#[derive(Clone, Copy, PartialEq, Eq)]
pub struct Page {
    pub status: StatusCode,
    pub kind: Kind,
    /// The method that is allowed where another one was asked.
    pub allow: Option<Method>,
    /// Whether the connection closes behind it.
    pub closing: bool,
}

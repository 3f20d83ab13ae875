// Entries, and the notes of a log.

use sect_base::{Day, Id};

/// A request that acted, with its reply. The day is the one that was handed in with it.
#[derive(Drop)]
pub struct Entry<C, R> {
    pub id: Id,
    pub day: Day,
    pub command: C,
    pub reply: R,
}

/// A request that a row tells: what its entry has in front of the reply.
#[derive(Drop)]
pub struct Request<C> {
    pub id: Id,
    pub day: Day,
    pub command: C,
}

/// The text of a request in two parts: its day with what stands before the rest, and the rest.
#[derive(Clone, Copy)]
pub struct AskedText<'a> {
    pub day: &'a [u8],
    pub rest: &'a [u8],
}

/// What stands in the log: a request that acted, or the id of one that the keeper failed to keep.
#[derive(Drop)]
pub enum Note<C, R> {
    Acted(Entry<C, R>),
    Faulted(Id),
}

/// A request that the keeper failed to keep, behind so many that acted.
#[derive(Clone, Copy)]
pub(crate) struct Unkept {
    pub(crate) behind: u32,
    pub(crate) id: Id,
}

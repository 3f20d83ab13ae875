// What is heard of a request.

use sect_answer::Errand;
use sect_head::Refusal;

/// What a request wishes.
#[derive(Drop)]
pub(crate) enum Wish {
    /// It is refused for this, and its connection closes.
    Refused(Refusal),
    /// Memory was wanted, and its connection closes.
    Wanting,
    /// It is for this errand; whether it asks that its connection closes.
    Asks(Errand, bool),
}

/// What was heard of a request.
#[derive(Drop)]
pub(crate) struct Heard {
    pub(crate) wish: Wish,
    /// How many of the bytes that stand ready are its.
    pub(crate) len: usize,
    /// Its answer leaves out the body.
    pub(crate) headless: bool,
}

/// What a head says of its answer.
#[derive(Clone, Copy)]
pub(crate) struct Marks {
    /// It asks that its connection closes.
    pub(crate) closing: bool,
    /// Its answer leaves out the body.
    pub(crate) headless: bool,
}

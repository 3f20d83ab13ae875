// A keeper between two commands, and what the last one left.

use sect_app::Status;
use sect_edge::{MemKeeper, MemSink};

/// A keeper, where there is one, and what the last command over it left: its status, and the sink to which it wrote.
pub struct Stand<K = MemKeeper> {
    pub keeper: Option<K>,
    pub status: Status,
    sink: Option<MemSink>,
}

/// It is written out, so that a caller does not prove again how each part is dropped.
impl<K: Drop> Drop for Stand<K> {
    fn drop(self) {
        let Stand {
            keeper: _,
            status: _,
            sink: _,
        } = self;
    }
}

impl<K> Stand<K> {
    /// A keeper over which no command was done yet.
    pub fn new(keeper: Option<K>) -> Stand<K> {
        Stand {
            keeper,
            status: Status::Done,
            sink: None,
        }
    }

    /// What a command leaves that ended so and wrote to this sink: the keeper, where it came back.
    pub fn left(keeper: Option<K>, status: Status, sink: MemSink) -> Stand<K> {
        Stand {
            keeper,
            status,
            sink: Some(sink),
        }
    }

    /// What the last command wrote.
    pub fn written(&self) -> &[u8] {
        match &self.sink {
            Some(sink) => sink.bytes(),
            None => b"",
        }
    }
}

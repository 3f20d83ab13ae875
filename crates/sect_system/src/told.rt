// A source and a keeper that tell how far long work is. They read, keep and count what those behind them do.
ghost use Rattle.std.specs.Prelude.{◌≡◌};

use crate::progress::Progress;
use sect_edge::{Failed, KeepFault, Keeper, Source};

/// A source that tells on standard error how many bytes of an import were read, where it takes more than a second.
#[derive(Drop)]
pub struct ToldSource<S> {
    source: S,
    bytes: u64,
    progress: Progress,
}

impl<S: Source> ToldSource<S> {
    /// A source of which nothing was read. It is told where this is asked.
    pub fn new(rt: HostRuntime, source: S, is_told: bool) -> ToldSource<S> {
        ToldSource {
            source,
            bytes: 0,
            progress: Progress::new(rt, is_told),
        }
    }

    /// Tells no more.
    pub fn end(&mut self) {
        self.progress.end();
    }
}

impl<S: Source> Source for ToldSource<S> {
    ghost left = { λ s. S.left s.source };

    ghost faults = { λ s. S.faults s.source };

    fn read(&mut self, into: &mut [u8]) -> Result<usize, Failed> {
        let read = self.source.read(into);
        match read {
            Ok(count) if count > 0 => {
                self.bytes = self.bytes.saturating_add(count as u64);
                self.progress.tell_bytes(self.bytes);
            }
            _ => self.progress.end(),
        }
        read
    }
}

/// A keeper that tells on standard error how many of its rows were read, where an opening takes more than a second.
pub struct ToldKeeper<K> {
    keeper: K,
    rows: u64,
    progress: Progress,
}

impl<K: Keeper> ToldKeeper<K> {
    /// A keeper of which no row was read.
    pub fn new(rt: HostRuntime, keeper: K) -> ToldKeeper<K> {
        ToldKeeper {
            keeper,
            rows: 0,
            progress: Progress::new(rt, true),
        }
    }

    /// The keeper itself. No more is told.
    pub fn into_keeper(self) -> K
        ensures { result ≡ self.keeper }
    {
        let ToldKeeper {
            keeper,
            rows: _,
            progress,
        } = self;
        let mut progress = progress;
        progress.end();
        keeper
    }
}

impl<K: Keeper> Keeper for ToldKeeper<K> {
    ghost rows = { λ k. K.rows k.keeper };

    ghost faults = { λ k. K.faults k.keeper };

    fn append(&mut self, row: &[u8]) -> Result<(), KeepFault> {
        self.keeper.append(row)
    }

    fn row(&mut self, at: u64, into: &mut Vec<u8>) -> Result<bool, KeepFault> {
        let found = self.keeper.row(at, into);
        let read = at.saturating_add(1);
        if read < self.rows {
            self.progress.tell_rows(read, self.rows);
        } else {
            self.progress.end();
        }
        found
    }

    fn len(&mut self) -> Result<u64, KeepFault> {
        let rows = self.keeper.len()?;
        self.rows = rows;
        Ok(rows)
    }
}

// How far long work is, told on standard error.

use std::io::IsTerminal;
use std::time::{Duration, Instant};

/// A line on standard error that tells how far work is. It is written once a second from the second one on, and only where
/// standard error is a terminal; each line stands in place of the one before.
#[derive(Drop)]
pub(crate) struct Progress {
    rt: HostRuntime,
    // When the line is next written. None where it never is.
    next: Option<Instant>,
    stands: bool,
}

impl Progress {
    /// Of work that begins now, and is told where this is asked.
    pub(crate) fn new(rt: HostRuntime, is_told: bool) -> Progress {
        let next = if is_told && rt.stderr().is_terminal() {
            second_after(rt)
        } else {
            None
        };
        Progress {
            rt,
            next,
            stands: false,
        }
    }

    /// Tells how many bytes of a table were read.
    pub(crate) fn tell_bytes(&mut self, bytes: u64) {
        if self.is_due() {
            let _ = eprint!(self.rt; "\r\x1b[Kimport: {bytes} bytes read");
        }
    }

    /// Tells how many rows of a history were read, and of how many.
    pub(crate) fn tell_rows(&mut self, rows: u64, all: u64) {
        if self.is_due() {
            let _ = eprint!(self.rt; "\r\x1b[Kopening: {rows} of {all} rows read");
        }
    }

    /// Takes the line away, where it stands.
    pub(crate) fn end(&mut self) {
        if self.stands {
            let _ = eprint!(self.rt; "\r\x1b[K");
            self.stands = false;
        }
    }

    /// Whether the line is to be written now, which is so once a second.
    fn is_due(&mut self) -> bool {
        let Some(next) = self.next else {
            return false;
        };
        match Instant::now(&self.rt) {
            Ok(now) if next <= now => {
                self.next = now.checked_add(Duration::from_secs(1));
                self.stands = true;
                true
            }
            _ => false,
        }
    }
}

/// A second from now. None where the clock tells none.
fn second_after(rt: HostRuntime) -> Option<Instant> {
    Instant::now(&rt).ok()?.checked_add(Duration::from_secs(1))
}

// The room for the bytes of one connection.
ghost use Rattle.std.specs.Prelude.{◌≡◌, ◌<◌, ◌≤◌, ◌+◌, [], length, take, drop, IfOk, OnErr};
ghost use Rattle.std.specs.Io.KnownBytes.{IsAtEnd, Keeps, ReadConsumes};
ghost use Rattle.sect_edge.specs.Causes.{HasCause};
ghost use Rattle.sect_talk.specs.Coming.{ROOM, Takes};

use sect_edge::{Failed, Source};
use std::alloc::{AllocError, Global};
use std::marker::Model;

const SIZE: usize = 81_920;

/// The bytes of a connection that were taken and not yet handed out: at most 81,920, those of a head and of a body.
pub struct Room {
    bytes: Vec<u8>,
    start: usize,
    end: usize,
}

/// It is written out, so that a caller does not prove again how each part is dropped.
impl Drop for Room {
    fn drop(self) {
        let Room {
            bytes: _,
            start: _,
            end: _,
        } = self;
    }
}

impl Model for Room {
    ghost use Rattle.std.specs.Prelude.{◌≡◌, ◌-◌, ◌≤◌, List, ℕ, drop, take, length};
    ghost use Rattle.sect_talk.specs.Coming.{ROOM};

    ghost Value = { List ℕ };

    ghost view = { λ r. take (r.end - r.start) (drop r.start r.bytes.items) };

    ghost invariant = { λ r. (r.start ≤ r.end) × (r.end ≤ length r.bytes.items) × (length r.bytes.items ≡ ROOM) };
}

impl Room {
    /// A room with no bytes. It takes its whole memory here.
    pub fn new(alloc: Global) -> Result<Self, AllocError>
        ensures { IfOk result (λ room. room ≡ []) }
    {
        Ok(Room {
            bytes: vec![in alloc; 0; SIZE]?,
            start: 0,
            end: 0,
        })
    }

    /// The bytes that stand ready.
    pub fn bytes(&self) -> &[u8]
        ensures bytes { result.now ≡ self.now }
        ensures fits { length self.now ≤ ROOM }
    {
        &self.bytes[self.start..self.end]
    }

    /// How many bytes stand ready.
    pub fn len(&self) -> usize
        ensures len { result ≡ length self.now }
        ensures fits { length self.now ≤ ROOM }
    {
        self.end - self.start
    }

    /// Hands out the first bytes. Where none are left, the next ones come to the same place, which the processor has at hand.
    pub fn consume(&mut self, count: usize)
        requires { count ≤ length self.old }
        ensures { self.new ≡ drop count self.old }
    {
        self.hand_out(count);
        self.begin_again();
    }

    /// Hands out the first bytes.
    fn hand_out(&mut self, count: usize)
        requires { count ≤ length self.old }
        ensures { self.new ≡ drop count self.old }
    {
        self.start += count;
    }

    /// Goes back to the front where no bytes stand ready.
    fn begin_again(&mut self)
        ensures { self.new ≡ self.old }
    {
        if self.start == self.end {
            self.start = 0;
            self.end = 0;
        }
    }

    /// Forgets all bytes.
    pub fn clear(&mut self)
        ensures { self.new ≡ [] }
    {
        self.start = 0;
        self.end = 0;
    }

    /// Takes the next bytes from the source, behind those that are there, and gives their number: 0 at the end alone.
    /// At `Failed` the source failed and counted it, and the bytes are as before.
    pub fn fill<S: Source>(&mut self, source: &mut S) -> Result<usize, Failed>
        requires { length self.old < ROOM }
        ensures ok { IfOk result (λ n. Takes (S.left source.old) (S.left source.new) self.old self.new) }
        ensures count { IfOk result (λ n. length self.new ≡ length self.old + n) }
        ensures end { IfOk result (λ n. n ≡ 0 → IsAtEnd (S.left source.new)) }
        ensures err { OnErr result (Keeps (S.left source.old) (S.left source.new) × (self.new ≡ self.old)) }
        ensures cause { HasCause (S.faults source.old) (S.faults source.new) result }
    {
        if self.end == SIZE {
            self.bytes.copy_within(self.start..self.end, 0);
            self.end -= self.start;
            self.start = 0;
        }
        let count = read_behind(source, &mut self.bytes, self.end)?;
        self.end += count;
        Ok(count)
    }
}

/// Reads into the part from `at` on, by one call of the source.
fn read_behind<S: Source>(source: &mut S, bytes: &mut Vec<u8>, at: usize) -> Result<usize, Failed>
    requires { at < length bytes.old.items }
    ensures len { length bytes.new.items ≡ length bytes.old.items }
    ensures front { take at bytes.new.items ≡ take at bytes.old.items }
    ensures fits { IfOk result (λ n. at + n ≤ length bytes.new.items) }
    ensures bytes { ReadConsumes (S.left source.old) (S.left source.new) result (drop at bytes.new.items) }
    ensures cause { HasCause (S.faults source.old) (S.faults source.new) result }
{
    source.read(&mut bytes[at..])
}

// Reads lines from a source in pieces.
ghost use Rattle.std.specs.Prelude.{
  ◌≡◌,
  ◌≢◌,
  ◌<◌,
  ◌≤◌,
  ◌+◌,
  ◌++◌,
  ◌∷◌,
  [],
  List,
  ℕ,
  Ok,
  All,
  length,
  take,
  slice_index,
  IfSome,
  IfNone,
  IfOk,
  OnOk,
  OnErr,
  IsTrue,
  ◌↔◌,
};
ghost use Rattle.std.specs.Io.KnownBytes.{Consumes, Keeps, IsAtEnd};
ghost use Rattle.sect_edge.specs.Causes.{HasCause, HasCauseFor};
ghost use Rattle.sect_script.specs.declared.reader.LineEnd.TheVariants as ends;
ghost use Rattle.sect_script.specs.declared.reader.LineError.TheVariants as errors;
ghost use Rattle.sect_script.specs.Gathering.{WritesBefore};
ghost use Rattle.sect_script.specs.Lines.{IsOneLine, without_return};
ghost use Rattle.sect_script.specs.Reading.{LINE_LIMIT, Moves, ReadsLine};

use crate::write::{Unwritten, write_out};
use memchr::memchr;
use sect_edge::{Failed, Sink, Source};
use std::alloc::{AllocError, AllocFailed, Global};
use std::marker::Model;

const MAX_LINE: usize = 65_536;

const PIECE: usize = 65_536;

/// What stands behind a line.
#[derive(Clone, Copy, PartialEq, Eq)]
pub enum LineEnd {
    LineFeed,
    EndOfInput,
}

#[derive(Clone, Copy, PartialEq, Eq)]
pub enum LineError {
    TooLong,
    /// The source failed.
    Failed,
    /// The sink failed.
    Unwritten,
    Memory,
}

impl From<Failed> for LineError {
    ghost from_gives = { λ _ e. e ≡ errors.Failed };

    fn from(_: Failed) -> Self {
        LineError::Failed
    }
}

impl From<Unwritten> for LineError {
    ghost from_gives = { λ _ e. e ≡ errors.Unwritten };

    fn from(_: Unwritten) -> Self {
        LineError::Unwritten
    }
}

impl From<AllocError> for LineError {
    ghost from_gives = { λ _ e. e ≡ errors.Memory };

    fn from(_: AllocError) -> Self {
        LineError::Memory
    }
}

/// The bytes that were read and not yet handed out.
pub struct LineReader {
    piece: Vec<u8>,
    start: usize,
    end: usize,
}

/// It is written out, so that a caller does not prove again how each part is dropped.
impl Drop for LineReader {
    fn drop(self) {
        let LineReader {
            piece: _,
            start: _,
            end: _,
        } = self;
    }
}

impl Model for LineReader {
    ghost use Rattle.std.specs.Prelude.{◌-◌, ◌<◌, ◌≤◌, List, ℕ, drop, take, length};

    ghost Value = { List ℕ };

    ghost view = { λ r. take (r.end - r.start) (drop r.start r.piece.items) };

    ghost invariant = { λ r. (r.start ≤ r.end) × (r.end ≤ length r.piece.items) × (0 < length r.piece.items) };
}

impl LineReader {
    pub fn new(alloc: Global) -> Result<Self, AllocError>
        ensures { IfOk result (λ reader. reader ≡ []) }
    {
        Ok(LineReader {
            piece: vec![in alloc; 0; PIECE]?,
            start: 0,
            end: 0,
        })
    }

    /// Whether every byte that was read is handed out.
    fn is_empty(&self) -> bool
        ensures { IsTrue result ↔ (self.now ≡ []) }
    {
        self.start == self.end
    }

    /// Reads the next line into `line`, without its line feed and a carriage return before that. What was gathered is
    /// written to the sink before bytes are taken from the source.
    pub fn read_line<S: Source, K: Sink>(
        &mut self,
        source: &mut S,
        sink: &mut K,
        gathered: &mut Vec<u8>,
        line: &mut Vec<u8>,
    ) -> Result<LineEnd, LineError>
        ensures read { (taken : List ℕ) × Consumes (S.left source.old) (S.left source.new) taken
            × ReadsLine result (self.old ++ taken) self.new line.new.items }
        ensures written { WritesBefore result (K.taken sink.old) (K.taken sink.new) gathered.old.items gathered.new.items }
        ensures end { result ≡ Ok ends.EndOfInput → IsAtEnd (S.left source.new) }
        ensures cause { HasCauseFor errors.Failed (S.faults source.old) (S.faults source.new) result }
        ensures write_cause { HasCauseFor errors.Unwritten (K.faults sink.old) (K.faults sink.new) result }
    {
        line.clear();
        loop {
            let found = self.move_line(line)?;
            if line.len() > MAX_LINE {
                return Err(LineError::TooLong);
            }
            if found {
                drop_return(line);
                return Ok(LineEnd::LineFeed);
            }
            write_out(sink, gathered)?;
            self.refill(source)?;
            if self.is_empty() {
                return Ok(LineEnd::EndOfInput);
            }
        }
    }

    /// Takes the next piece from the source. Nothing stands ready then only at the end.
    fn refill<S: Source>(&mut self, source: &mut S) -> Result<(), Failed>
        requires { self.old ≡ [] }
        ensures ok { OnOk result (Consumes (S.left source.old) (S.left source.new) self.new) }
        ensures end { OnOk result (self.new ≡ [] → IsAtEnd (S.left source.new)) }
        ensures err { OnErr result (Keeps (S.left source.old) (S.left source.new) × (self.new ≡ [])) }
        ensures cause { HasCause (S.faults source.old) (S.faults source.new) result }
    {
        let count = source.read(&mut self.piece)?;
        self.start = 0;
        self.end = count;
        Ok(())
    }

    /// Moves the bytes before the next line feed behind the line, or all that there are. True where it came to
    /// a line feed.
    fn move_line(&mut self, line: &mut Vec<u8>) -> Result<bool, AllocError>
        ensures { IfOk result (λ found. Moves found self.old self.new line.old.items line.new.items) }
    {
        let ready = &self.piece[self.start..self.end];
        match line_feed_at(ready) {
            Some(at) => {
                line.extend_from_slice(&ready[..at])?;
                self.start += at + 1;
                Ok(true)
            }
            None => {
                line.extend_from_slice(ready)?;
                self.start = self.end;
                Ok(false)
            }
        }
    }
}

/// The place of the first line feed.
fn line_feed_at(bytes: &[u8]) -> Option<usize>
    ensures within { IfSome result (λ at. at < length bytes.now) }
    ensures found { IfSome result (λ at. slice_index bytes.now at ≡ 10) }
    ensures before { IfSome result (λ at. IsOneLine (take at bytes.now)) }
    ensures none { IfNone result (IsOneLine bytes.now) }
{
    memchr(b'\n', bytes)
}

/// Takes a carriage return off the end, where one is there.
fn drop_return(line: &mut Vec<u8>)
    ensures { line.new.items ≡ without_return line.old.items }
{
    if line.last() == Some(&b'\r') {
        line.pop();
    }
}

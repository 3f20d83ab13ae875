// A disk in memory, with a record of its calls.
ghost use Rattle.std.specs.Prelude.{
  ◌≡◌,
  ◌↔◌,
  ◌⊎◌,
  ◌<◌,
  ◌≤◌,
  ◌+◌,
  ◌^◌,
  ◌++◌,
  ◌∷◌,
  [],
  Some,
  false,
  IsTrue,
  map,
  min,
  ◌-◌,
  take,
  drop,
  length,
  vec_capacity,
  IfOk,
  OnOk,
  OnErr,
  IsErrOf,
};
ghost use Rattle.sect_edge.specs.Causes.{HasCauseFor};
ghost use Rattle.sect_edge.specs.Memory.{IsNextToFail, no_calls, after_success, after_fault};
ghost use Rattle.sect_journal.specs.declared.disk.DiskFault.TheVariants as fault;
ghost use Rattle.sect_journal.specs.Disk.{IsImage, Reads, Tears, is_touched, put, after_write, after_sync};
ghost use Rattle.sect_journal.specs.Memory.{Looked, Wrote, Tore, Synced, step_of, told_by, marked, image_of};

use crate::window::copy_out;
use crate::{Disk, DiskFault};
use sect_base::Memory;
use sect_edge::{Calls, Failed};
use std::alloc::{AllocError, Global};
use std::marker::Model;

const BOUND: u64 = 1 << 62;

/// A call of a disk in memory.
#[derive(Drop)]
pub enum DiskCall {
    /// A call that changed nothing.
    Looked,
    /// A write at a place of a piece.
    Wrote(u64, Vec<u8>),
    /// A write at a place of so many bytes, which failed.
    Tore(u64, u64),
    /// A sync.
    Synced,
}

/// Bytes in memory, with a record of the calls. The calls whose numbers are listed fail.
pub struct MemDisk {
    first: Vec<u8>,
    steps: Vec<DiskCall>,
    calls: Calls,
    // none where they are the bytes at first
    durable: Option<Vec<u8>>,
    seen: Option<Vec<u8>>,
    pending: Vec<(u64, u64)>,
}

/// It is written out, so that a caller does not prove again how each part is dropped.
impl Drop for MemDisk {
    fn drop(self) {
        let MemDisk {
            first: _,
            steps: _,
            calls: _,
            durable: _,
            seen: _,
            pending: _,
        } = self;
    }
}

impl Model for MemDisk {
    ghost use Rattle.std.specs.Prelude.{map};
    ghost use Rattle.sect_journal.specs.Memory.{DiskState, IsCached, step_of, fresh, replay};

    ghost Value = { DiskState };

    ghost view = { λ d. record { first = d.first.items; steps = map step_of d.steps.items; calls = d.calls } };

    ghost invariant = { λ d. IsCached (replay (fresh d.first.items) (map step_of d.steps.items)).now d.first.items d.durable d.seen d.pending.items };
}

impl From<Failed> for DiskFault {
    ghost from_gives = { λ _ e. e ≡ fault.Failed };

    fn from(_: Failed) -> Self {
        DiskFault::Failed
    }
}

/// The bytes after a piece is written at a place.
fn written(alloc: Global, bytes: &[u8], at: usize, piece: &[u8]) -> Result<Vec<u8>, AllocError>
    requires { at ≤ length bytes.now }
    ensures { IfOk result (λ next. next.items ≡ put bytes.now at piece.now) }
{
    let mut next = Vec::from_slice(alloc, &bytes[..at])?;
    next.extend_from_slice(piece)?;
    let rest = &bytes[at..];
    if piece.len() < rest.len() {
        next.extend_from_slice(&rest[piece.len()..])?;
    }
    Ok(next)
}

impl MemDisk {
    /// These bytes, all of them durable. The calls with these numbers, from 1, fail; a call that answers `Memory` has none.
    pub fn new(bytes: Vec<u8>, fail: Vec<u64>) -> MemDisk
        ensures { result ≡ record { first = bytes.items; steps = []; calls = no_calls fail.items } }
    {
        let alloc = *bytes.allocator();
        MemDisk {
            first: bytes,
            steps: Vec::new(alloc),
            calls: Calls::new(fail),
            durable: None,
            seen: None,
            pending: Vec::new(alloc),
        }
    }

    /// The calls, the first one first.
    pub fn calls(&self) -> &[DiskCall]
        ensures { map step_of result.now ≡ self.now.steps }
    {
        &self.steps
    }

    /// What is durable.
    fn durable(&self) -> &[u8]
        ensures { result.now ≡ (told_by self.now).now.durable }
    {
        match &self.durable {
            Some(bytes) => bytes,
            None => &self.first,
        }
    }

    /// What a read gives.
    pub fn seen(&self) -> &[u8]
        ensures { result.now ≡ (told_by self.now).now.seen }
    {
        match &self.seen {
            Some(bytes) => bytes,
            None => &self.first,
        }
    }

    /// A call that changes nothing.
    fn look(&mut self, refused: bool) -> Result<(), DiskFault>
        ensures fails { IsErrOf result DiskFault.Failed → IsTrue refused ⊎ IsNextToFail self.old.calls }
        ensures allowed { OnOk result (refused ≡ false) }
        ensures ok { OnOk result (self.new ≡ record self.old { steps = self.old.steps ++ Looked ∷ []; calls = after_success self.old.calls }) }
        ensures failed { IsErrOf result DiskFault.Failed
            → self.new ≡ record self.old { steps = self.old.steps ++ Looked ∷ []; calls = after_fault self.old.calls } }
        ensures memory { IsErrOf result DiskFault.Memory → self.new ≡ self.old }
    {
        self.steps.reserve(1)?;
        let result = self.calls.count(refused);
        match self.steps.push(DiskCall::Looked) {
            Ok(()) => {}
            Err(_) => unreachable!(),
        }
        Ok(result?)
    }
    /// Writes a piece, or fails with its range written as it was.
    fn put_piece(&mut self, at: u64, piece: &[u8]) -> Result<(), DiskFault>
        requires { at ≤ length (told_by self.old).now.seen }
        ensures fails { IsErrOf result DiskFault.Failed → (2 ^ 62 ≤ at + length piece.now) ⊎ IsNextToFail self.old.calls }
        ensures bound { OnOk result (at + length piece.now < 2 ^ 62) }
        ensures ok { OnOk result (self.new ≡ record self.old { steps = self.old.steps ++ Wrote at piece.now ∷ []; calls = after_success self.old.calls }) }
        ensures failed { IsErrOf result DiskFault.Failed
            → self.new ≡ record self.old {
              steps = self.old.steps
                  ++ Tore at (length piece.now) ∷ [];
              calls = after_fault self.old.calls;
            } }
        ensures memory { IsErrOf result DiskFault.Memory → self.new ≡ self.old }
    {
        let alloc = *self.first.allocator();
        let next = written(alloc, self.seen(), at as usize, piece)?;
        let copy = Vec::from_slice(alloc, piece)?;
        self.steps.reserve(1)?;
        self.pending.reserve(1)?;
        let size = piece.len() as u64;
        let result = self.calls.count(passes_bound(at, size));
        push_room(&mut self.pending, (at, size));
        match result {
            Ok(()) => {
                push_room(&mut self.steps, DiskCall::Wrote(at, copy));
                self.seen = Some(next);
                Ok(())
            }
            Err(failed) => {
                push_room(&mut self.steps, DiskCall::Tore(at, size));
                Err(DiskFault::from(failed))
            }
        }
    }

    /// Makes durable what a read gives.
    fn make_durable(&mut self) -> Result<(), DiskFault>
        ensures fails { IsErrOf result DiskFault.Failed → IsNextToFail self.old.calls }
        ensures ok { OnOk result (self.new ≡ record self.old { steps = self.old.steps ++ Synced ∷ []; calls = after_success self.old.calls }) }
        ensures failed { IsErrOf result DiskFault.Failed
            → self.new ≡ record self.old { steps = self.old.steps ++ Looked ∷ []; calls = after_fault self.old.calls } }
        ensures memory { IsErrOf result DiskFault.Memory → self.new ≡ self.old }
    {
        let alloc = *self.first.allocator();
        let copy = Vec::from_slice(alloc, self.seen())?;
        self.steps.reserve(1)?;
        match self.calls.count(false) {
            Ok(()) => {
                push_room(&mut self.steps, DiskCall::Synced);
                self.durable = Some(copy);
                self.pending.clear();
                Ok(())
            }
            Err(failed) => {
                push_room(&mut self.steps, DiskCall::Looked);
                Err(DiskFault::from(failed))
            }
        }
    }

    /// An image that a crash now may leave: for 0 what is durable, for 1 what a read gives, else that with each byte
    /// that was written since the last sync replaced by `pick` mod 256.
    pub fn image(&self, pick: u64) -> Result<Vec<u8>, Memory>
        ensures bytes { IfOk result (λ image. image.items ≡ image_of (told_by self.now).now pick) }
        ensures image { IfOk result (λ image. IsImage (told_by self.now).now image.items) }
    {
        let alloc = *self.first.allocator();
        match pick {
            0 => Ok(Vec::from_slice(alloc, self.durable())?),
            1 => Ok(Vec::from_slice(alloc, self.seen())?),
            _ => Ok(mark(alloc, self.pending(), (pick % 256) as u8, self.seen())?),
        }
    }

    /// The ranges written since the last sync.
    fn pending(&self) -> &[(u64, u64)]
        ensures { result.now ≡ (told_by self.now).now.pending }
    {
        &self.pending
    }
}

/// Bytes at a place would end past the bound.
fn passes_bound(at: u64, size: u64) -> bool
    ensures { IsTrue result ↔ 2 ^ 62 ≤ at + size }
{
    size >= BOUND || at >= BOUND - size
}

/// Adds to a list that has room.
fn push_room<T: Drop>(list: &mut Vec<T>, item: T)
    requires { length list.old.items < vec_capacity list.old }
    ensures { list.new.items ≡ list.old.items ++ item ∷ [] }
{
    match list.push(item) {
        Ok(()) => {}
        Err(_) => unreachable!(),
    }
}

/// A place is in one of the ranges.
fn is_in(ranges: &[(u64, u64)], place: u64) -> bool
    ensures { result ≡ is_touched ranges.now place }
{
    let mut rest = ranges;
    while let [(start, size), after @ ..] = rest {
        if *start <= place && place - *start < *size {
            return true;
        }
        rest = after;
    }
    false
}

/// The bytes, with a mark in place of each in one of the ranges.
fn mark(alloc: Global, ranges: &[(u64, u64)], with: u8, bytes: &[u8]) -> Result<Vec<u8>, AllocError>
    ensures { IfOk result (λ image. image.items ≡ marked ranges.now with 0 bytes.now) }
{
    let mut image = Vec::new(alloc);
    let mut place = 0;
    let mut rest = bytes;
    while let [byte, after @ ..] = rest {
        image.push(if is_in(ranges, place) { with } else { *byte })?;
        place += 1;
        rest = after;
    }
    Ok(image)
}

impl Disk for MemDisk {
    ghost use Rattle.sect_journal.specs.Law.{reads_image};

    ghost told = { λ d. Some (told_by d) };

    ghost faults = { λ d. d.calls.faults };

    ghost reads_an_image = { λ d t is. reads_image d t is };

    fn size(&mut self) -> Result<u64, DiskFault>
        ensures size { IfOk result (λ n. n ≡ length (told_by self.old).now.seen) }
        ensures bound { IfOk result (λ n. n < 2 ^ 62) }
        ensures same { Some (told_by self.new) ≡ Some (told_by self.old) }
        ensures cause { HasCauseFor DiskFault.Failed self.old.calls.faults self.new.calls.faults result }
    {
        let size = self.seen().len() as u64;
        self.look(size >= BOUND)?;
        Ok(size)
    }

    fn read_at(&mut self, at: u64, into: &mut [u8]) -> Result<usize, DiskFault>
        ensures bound { IfOk result (λ n. n ≤ length into.new) }
        ensures bytes { IfOk result (λ n. Reads (Some (told_by self.old)) at (length into.new) n into.new) }
        ensures same { Some (told_by self.new) ≡ Some (told_by self.old) }
        ensures cause { HasCauseFor DiskFault.Failed self.old.calls.faults self.new.calls.faults result }
    {
        self.look(false)?;
        Ok(copy_out(self.seen(), at, into))
    }

    fn write_at(&mut self, at: u64, piece: &[u8]) -> Result<(), DiskFault>
        requires { at ≤ length (told_by self.old).now.seen }
        ensures ok { OnOk result (Some (told_by self.new) ≡ after_write (Some (told_by self.old)) at piece.now) }
        ensures bound { OnOk result (at + length piece.now < 2 ^ 62) }
        ensures failed { IsErrOf result DiskFault.Failed → Tears (Some (told_by self.old)) at (length piece.now) (Some (told_by self.new)) }
        ensures memory { IsErrOf result DiskFault.Memory → Some (told_by self.new) ≡ Some (told_by self.old) }
        ensures cause { HasCauseFor DiskFault.Failed self.old.calls.faults self.new.calls.faults result }
    {
        self.put_piece(at, piece)
    }

    fn sync(&mut self) -> Result<(), DiskFault>
        ensures ok { OnOk result (Some (told_by self.new) ≡ after_sync (Some (told_by self.old))) }
        ensures err { OnErr result (Some (told_by self.new) ≡ Some (told_by self.old)) }
        ensures cause { HasCauseFor DiskFault.Failed self.old.calls.faults self.new.calls.faults result }
    {
        self.make_durable()
    }
}

// The top call: what the program does.

ghost use Rattle.std.specs.Prelude.{◌≡◌, ◌≢◌, ◌↔◌, ℕ, true, false, None, Some, map};
ghost use Rattle.std.specs.String.{string_bytes};
ghost use Rattle.std.specs.Io.KnownBytes.{IsAtEnd};
ghost use Rattle.sect_edge.specs.Causes.{Rose};
ghost use Rattle.sect_edge.specs.Keeper.{KeepsRows};
ghost use Rattle.sect_script.specs.declared.status.Status.{Status};
ghost use Rattle.sect_clerk_words.specs.declared.words.Words.{Words};
ghost use Rattle.sect_clerk_words.specs.Grammar.{words_of};
ghost use Rattle.sect_clerk.specs.Clerk.{ClerkDoes, reads_for};

use crate::over::do_asked;
use sect_clerk_words::{Verb, read_program};
use sect_edge::{Clock, Keeper, Sink, Source};
use sect_script::Status;
use std::alloc::AllocGlobal;
use std::thread::Threads;

/// Does what the words ask for, and tells how it ended. The words are the command line without the program's name. The
/// keeper comes back, with the rows that it had.
#[tactic(auto, using(crate::proofs::Kept::keeps_same))]
pub fn clerk<R: AllocGlobal + Threads + Sync, S: Source, T: Sink, K: Keeper, C: Clock + Drop>(
    rt: &R,
    words: &[String],
    source: &mut S,
    sink: &mut T,
    keeper: K,
    clock: C,
) -> (Status, K)
    // The words.
    ensures bad_words { (result.0 ≡ Status.BadWords) ↔ (words_of (map string_bytes words.now) ≡ None) }
    ensures untouched { result.0 ≡ Status.BadWords → (source.new ≡ source.old) × (sink.new ≡ sink.old) × (result.1 ≡ keeper) }
    ensures does { (asked : Words) → words_of (map string_bytes words.now) ≡ Some asked
        → ClerkDoes K.rows K.faults asked keeper result.1
        (S.left source.old) (S.left source.new) (T.taken sink.old) (T.taken sink.new) (C.days clock) result.0 }
    ensures unread { reads_for (words_of (map string_bytes words.now)) ≡ false → source.new ≡ source.old }
    ensures end { reads_for (words_of (map string_bytes words.now)) ≡ true → result.0 ≡ Status.Done → IsAtEnd (S.left source.new) }

    // Whatever the command and the end, the keeper has the rows that it had.
    ensures rows_stay { KeepsRows (K.rows keeper) (K.rows result.1) }

    // Where the keeper doesn't open, nothing is read or written.
    ensures shut { result.0 ≡ Status.KeeperFault → (source.new ≡ source.old) × (sink.new ≡ sink.old) }
    ensures bad_entry { (row : ℕ) → result.0 ≡ Status.BadEntry row → (source.new ≡ source.old) × (sink.new ≡ sink.old) }

    // A fault is told only where that very object counted one in this call.
    ensures read_fault { result.0 ≡ Status.ReadFault → Rose (S.faults source.old) (S.faults source.new) }
    ensures write_fault { result.0 ≡ Status.WriteFault → Rose (T.faults sink.old) (T.faults sink.new) }
    ensures keeper_fault { result.0 ≡ Status.KeeperFault → Rose (K.faults keeper) (K.faults result.1) }
    ensures others { result.0 ≢ Status.LinkFault }
{
    match read_program::<Verb>(words) {
        None => (Status::BadWords, keeper),
        Some(asked) => do_asked(rt, rt.alloc(), asked, source, sink, keeper, clock),
    }
}

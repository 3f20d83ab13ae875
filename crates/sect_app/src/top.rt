// The top call: what the program does.
ghost use Rattle.std.specs.Prelude.{◌≡◌, ◌↔◌, ◌<◌, ◌≤◌, ℕ, true, false, List, None, Some, IfSome, IsSome, length, map, take};
ghost use Rattle.std.specs.String.{string_bytes};
ghost use Rattle.std.specs.Io.KnownBytes.{IsAtEnd};
ghost use Rattle.sect_edge.specs.Causes.{Rose};
ghost use Rattle.sect_script.specs.declared.status.Status.{Status};
ghost use Rattle.sect_serve.specs.Serving.{SomeRose};
ghost use Rattle.sect_usage.specs.declared.words.Words.{Words};
ghost use Rattle.sect_usage.specs.Grammar.{words_of};
ghost use Rattle.sect_app.specs.Machine.{DeskDoes};
ghost use Rattle.sect_app.specs.Serving.{ServesOver};
ghost use Rattle.sect_app.specs.Top.{IsUnfaulted, first_days, reads_for, sessions_for, sessions_in as sessions_of};
ghost use Rattle.sect_app.specs.Valid.{IsDoneOrMemory, IsValid, NoneRose};

use crate::over::{do_asked, first_of};
use crate::serving::serve_desk;
use sect_edge::{Clock, Gate, Keeper, Link, Sink, Source};
use sect_script::Status;
use sect_usage::laws::what_is_asked_is_in_range;
use sect_usage::{Words, read_words};
use std::alloc::AllocGlobal;
use std::sync::Wait;
use std::thread::Threads;

/// Does what the words ask for, and tells how it ended. The words are the command line without the
/// program's name. There is a clock at least, and one for each link; for `serve` there is a link at least, and there are
/// at most 64. The keeper and the links come back.
pub fn desk<
    R: AllocGlobal + Threads + Wait + Sync,
    S: Source,
    T: Sink,
    L: Link + Send + Drop,
    K: Keeper + Send,
    C: Clock + Send + Drop,
    G: Gate + Sync,
>(
    rt: &R,
    words: &[String],
    source: &mut S,
    sink: &mut T,
    links: Vec<L>,
    keeper: K,
    clocks: Vec<C>,
    gate: &G,
) -> (Status, Option<K>, Vec<L>)
where
    L::In: Send,
    L::Out: Send,
    requires clocks { (0 < length clocks.items) × (length links.items ≤ length clocks.items) }
    requires links { (length links.items ≤ 64)
        × ((port workers sessions : ℕ) → words_of (map string_bytes words.now) ≡ Some (Words.Serve port workers sessions)
        → 0 < length links.items) }

    // The words.
    ensures bad_words { (result.0 ≡ Status.BadWords) ↔ (words_of (map string_bytes words.now) ≡ None) }
    ensures untouched { result.0 ≡ Status.BadWords → (source.new ≡ source.old) × (sink.new ≡ sink.old) × (result.1 ≡ Some keeper) }
    ensures does { (asked : Words) → words_of (map string_bytes words.now) ≡ Some asked
        → IfSome result.1 (λ back. DeskDoes K.rows K.faults asked keeper back
        (S.left source.old) (S.left source.new) (T.taken sink.old) (T.taken sink.new) (first_days C.days clocks.items) result.0) }
    ensures unread { reads_for (words_of (map string_bytes words.now)) ≡ false → source.new ≡ source.old }
    ensures end { reads_for (words_of (map string_bytes words.now)) ≡ true → result.0 ≡ Status.Done → IsAtEnd (S.left source.new) }

    // Connections.
    ensures serves { (sessions : ℕ) → sessions_for (words_of (map string_bytes words.now)) ≡ Some sessions
        → IfSome result.1 (λ back. ServesOver K.rows K.faults L.In.left L.Out.taken L.In.faults L.Out.faults L.connections L.faults
        keeper back links.items result.2.items (take (length links.items) (map C.days clocks.items)) sessions (S.left source.old) (T.taken sink.old) result.0) }
    ensures unwritten { (sessions : ℕ) → sessions_for (words_of (map string_bytes words.now)) ≡ Some sessions → sink.new ≡ sink.old }
    ensures alone { sessions_for (words_of (map string_bytes words.now)) ≡ None → IsSome result.1 × (result.2 ≡ links) }

    // Where the keeper doesn't open, nothing is read or written.
    ensures shut { result.0 ≡ Status.KeeperFault → (source.new ≡ source.old) × (sink.new ≡ sink.old) }
    ensures bad_entry { (row : ℕ) → result.0 ≡ Status.BadEntry row → (source.new ≡ source.old) × (sink.new ≡ sink.old) }

    // A fault is told only where that very object counted one in this call.
    ensures read_fault { result.0 ≡ Status.ReadFault → Rose (S.faults source.old) (S.faults source.new) }
    ensures write_fault { result.0 ≡ Status.WriteFault → Rose (T.faults sink.old) (T.faults sink.new) }
    ensures keeper_fault { result.0 ≡ Status.KeeperFault → IfSome result.1 (λ back. Rose (K.faults keeper) (K.faults back)) }
    ensures link_fault { result.0 ≡ Status.LinkFault → SomeRose L.faults links.items result.2.items }
    ensures complete { NoneRose S.faults T.faults L.faults K.faults source.old source.new sink.old sink.new links.items result.2.items keeper result.1
        → IsUnfaulted result.0 }

    // Valid input ends Done, or for want of memory.
    ensures valid { (asked : Words) → words_of (map string_bytes words.now) ≡ Some asked → IsValid asked (K.rows keeper) (S.left source.old)
        → NoneRose S.faults T.faults L.faults K.faults source.old source.new sink.old sink.new links.items result.2.items keeper result.1
        → IsDoneOrMemory result.0 }

    ensures back { IsSome result.1 }
{
    what_is_asked_is_in_range();
    match read_words(words) {
        None => (Status::BadWords, Some(keeper), links),
        Some(asked) => match sessions_in(&asked) {
            Some(sessions) => serve_desk(rt, rt.alloc(), keeper, links, clocks, sessions, gate),
            None => {
                let clock = first_of(clocks);
                let (status, keeper) = do_asked(rt, rt.alloc(), asked, source, sink, keeper, clock);
                (status, Some(keeper), links)
            }
        },
    }
}

/// How many connections each worker serves at most, where connections are served.
fn sessions_in(asked: &Words) -> Option<u32>
    ensures { result ≡ sessions_of asked.now }
{
    match asked {
        Words::Serve { sessions, .. } => Some(*sessions),
        _ => None,
    }
}

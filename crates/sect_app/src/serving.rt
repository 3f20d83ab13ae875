// Connections are served.
ghost use Rattle.std.specs.Prelude.{◌≡◌, ◌≢◌, ◌<◌, ◌≤◌, ℕ, List, Option, IfSome, IsSome, length, map, take};
ghost use Rattle.sect_edge.specs.Causes.{Rose};
ghost use Rattle.sect_script.specs.declared.status.Status.{Status};
ghost use Rattle.sect_serve.specs.Serving.{SomeRose};
ghost use Rattle.sect_app.specs.Serving.{serve_status as status_of_end, ServesOver};

use sect_asking::shut_status;
use sect_edge::{Clock, Gate, Keeper, Link};
use sect_history::laws::replays_are_good;
use sect_machine::Machine;
use sect_once::Desk;
use sect_script::Status;
use sect_serve::{ServeEnd, serve};
use std::alloc::Global;
use std::sync::Wait;
use std::thread::Threads;

/// Opens the keeper, and serves the links over its history. The keeper and the links come back.
pub(crate) fn serve_desk<
    K: Keeper + Send,
    L: Link + Send + Drop,
    C: Clock + Send + Drop,
    G: Gate + Sync,
    R: Threads + Wait + Sync,
>(
    rt: &R,
    alloc: Global,
    keeper: K,
    links: Vec<L>,
    clocks: Vec<C>,
    sessions: u32,
    gate: &G,
) -> (Status, Option<K>, Vec<L>)
where
    L::In: Send,
    L::Out: Send,
    requires links { (0 < length links.items) × (length links.items ≤ 64) }
    requires clocks { length links.items ≤ length clocks.items }
    ensures serves { (read wrote : Option (List ℕ)) → IfSome result.1 (λ back. ServesOver K.rows K.faults
        L.In.left L.Out.taken L.In.faults L.Out.faults L.connections L.faults
        keeper back links.items result.2.items (take (length links.items) (map C.days clocks.items)) sessions read wrote result.0) }
    ensures keeper_fault { result.0 ≡ Status.KeeperFault → IfSome result.1 (λ back. Rose (K.faults keeper) (K.faults back)) }
    ensures link_fault { result.0 ≡ Status.LinkFault → SomeRose L.faults links.items result.2.items }
    ensures back { IsSome result.1 }
    ensures others { (result.0 ≢ Status.BadWords) × (result.0 ≢ Status.ReadFault) × (result.0 ≢ Status.WriteFault) }
{
    replays_are_good();
    match Desk::<Machine, K>::open(alloc, keeper) {
        Ok(desk) => {
            let (end, keeper, links) = serve(rt, alloc, desk, links, clocks, sessions, gate);
            (serve_status(end), keeper, links)
        }
        Err((fault, keeper)) => (shut_status(fault), Some(keeper), links),
    }
}

/// The status with which serving ends.
fn serve_status(end: ServeEnd) -> Status
    ensures status { result ≡ status_of_end end }
    ensures kept { result ≢ Status.KeeperFault }
    ensures others { (result ≢ Status.BadWords) × (result ≢ Status.ReadFault) × (result ≢ Status.WriteFault) }
{
    match end {
        ServeEnd::Done => Status::Done,
        ServeEnd::LinkFault => Status::LinkFault,
        ServeEnd::Memory => Status::Memory,
    }
}

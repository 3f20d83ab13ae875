// The workers of links, and the links of workers.
ghost use Rattle.std.specs.Prelude.{◌≡◌, ◌≤◌, [], All, IfOk, length, map, take, vec_capacity, vec_len};
ghost use Rattle.sect_serve.specs.Serving.{worse, worst};

use crate::server::{Back, Server, WorkerEnd};
use crate::serving::ServeEnd;
use sect_base::Memory;
use sect_edge::Clock;
use std::alloc::Global;

/// Room for so many workers, and for their links.
pub(crate) fn rooms<W, L>(alloc: Global, count: usize) -> Result<(Vec<W>, Vec<L>), Memory>
where
    W: Drop,
    L: Drop,
    ensures works { IfOk result (λ r. (r.0.items ≡ []) × (vec_capacity r.0 ≡ count)) }
    ensures links { IfOk result (λ r. (r.1.items ≡ []) × (vec_capacity r.1 ≡ count)) }
{
    let works = Vec::with_capacity(alloc, count)?;
    let links = Vec::with_capacity(alloc, count)?;
    Ok((works, links))
}

/// A worker for each link, with the clock at its place, one after another into `works`.
pub(crate) fn servers<'a, L: Drop, C: Clock + Drop, G>(
    alloc: Global,
    links: Vec<L>,
    clocks: Vec<C>,
    sessions: u32,
    gate: &'a G,
    mut works: Vec<Server<'a, L, C, G>>,
) -> Vec<Server<'a, L, C, G>>
    requires bound { vec_len links ≤ 64 }
    requires clocks { vec_len links ≤ vec_len clocks }
    requires room { (works.items ≡ []) × (vec_len links ≤ vec_capacity works) }
    ensures links { map (λ s. s.link) result.items ≡ links.items }
    ensures days { map (λ s. C.days s.clock) result.items ≡ take (length links.items) (map C.days clocks.items) }
    ensures sessions { All (λ s. s.sessions ≡ sessions) result.items }
{
    let mut clocks = clocks.into_iter();
    let mut worker = 0;
    for link in links {
        let Some(clock) = clocks.next() else {
            unreachable!()
        };
        works.push_reserved(Server {
            alloc,
            link,
            clock,
            gate,
            worker,
            sessions,
        });
        worker += 1;
    }
    works
}

/// How the workers ended as one, and their links behind one another in `links`.
pub(crate) fn collect<L: Drop>(given: Vec<Back<L>>, mut links: Vec<L>) -> (ServeEnd, Vec<L>)
    requires room { (links.items ≡ []) × (vec_len given ≤ vec_capacity links) }
    ensures links { result.1.items ≡ map (λ b. b.link) given.items }
    ensures end { result.0 ≡ worst ServeEnd.Done (map (λ b. b.end) given.items) }
{
    let mut end = ServeEnd::Done;
    for back in given {
        links.push_reserved(back.link);
        end = worse(end, back.end);
    }
    (end, links)
}

/// The links of workers that didn't begin, behind one another in `links`.
pub(crate) fn links_of<'a, L: Drop, C: Drop, G>(
    works: Vec<Server<'a, L, C, G>>,
    mut links: Vec<L>,
) -> Vec<L>
    requires room { (links.items ≡ []) × (vec_len works ≤ vec_capacity links) }
    ensures { result.items ≡ map (λ s. s.link) works.entry.items }
{
    for work in works {
        links.push_reserved(work.link);
    }
    links
}

/// How serving ends where one more worker ended so.
fn worse(end: ServeEnd, worker: WorkerEnd) -> ServeEnd
    ensures { result ≡ worse end worker }
{
    match (worker, end) {
        (WorkerEnd::Done, _) => end,
        (WorkerEnd::Memory, _) => ServeEnd::Memory,
        (WorkerEnd::Failed, ServeEnd::Memory) => ServeEnd::Memory,
        (WorkerEnd::Failed, _) => ServeEnd::LinkFault,
    }
}

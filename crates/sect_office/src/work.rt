// Work that threads do at one office, each with a pass of its own.
ghost use Rattle.std.specs.Prelude.{◌≡◌, ◌+◌, ◌<◌, ◌≤◌, [], ◌++◌, List, ℕ, length, vec_len, IfOk, IfErr};
ghost use denote.Param.Send.{IsSend, IsSync};
ghost use mathlib.Core.List.{IsPrefix};
ghost use Rattle.std.specs.Vec.{vec_capacity};
ghost use Rattle.sect_turn.specs.Passes.{front, own_calls, share, opening, IsIdle, IsPassOf, KeepsCalls};
ghost use Rattle.sect_office.specs.Works.{AddsRuns};

use crate::office::OfficeOf;
use sect_base::{Chronicle, Memory};
use sect_turn::Pass;
use std::alloc::Global;
use std::sync::Wait;
use std::thread::{Threads, join};

/// What a thread does at an office over a value.
pub trait Work<V: Chronicle>: Sized {
    /// What it gives back.
    type Given: Send + Drop;

    /// What it did, between the notes seen before and after, with its own calls.
    ghost did: { Self → List V.Note → List V.Note → List ℕ → Self.Given → Type 0 };

    fn run<R: Wait>(self, rt: &R, office: &OfficeOf<V>, pass: &mut Pass<V>) -> Self::Given
        requires turn { IsPassOf V.notes V.base office.now.turn pass.old }
        requires between_turns { IsIdle pass.old }
        requires fresh { own_calls pass.old ≡ [] }
        ensures turn { IsPassOf V.notes V.base office.now.turn pass.new × IsIdle pass.new }
        ensures same { (share pass.new ≡ share pass.old) × (opening pass.new ≡ opening pass.old) }
        ensures grown { IsPrefix (front pass.old) (front pass.new) }
        ensures did { did self (front pass.old) (front pass.new) (own_calls pass.new) result };
}

/// Runs the last work in a thread of its own and the others from this one, and puts what they give into `given`, in order.
fn run_rest<V: Chronicle + Send, W: Work<V> + Send + Drop, R: Threads + Wait + Sync>(
    rt: &R,
    office: &OfficeOf<V>,
    mut pass: Pass<V>,
    mut works: Vec<W>,
    given: Vec<W::Given>,
) -> (Pass<V>, Vec<W::Given>)
    requires turn { IsPassOf V.notes V.base office.now.turn pass × IsIdle pass }
    requires share { vec_len works < share pass }
    requires room { (given.items ≡ []) × (vec_len works ≤ vec_capacity given) }
    ensures turn { IsPassOf V.notes V.base office.now.turn result.0 × IsIdle result.0 }
    ensures same { (share result.0 ≡ share pass) × (opening result.0 ≡ opening pass) }
    ensures grown { IsPrefix (front pass) (front result.0) }
    ensures runs { AddsRuns W.did (front pass) (front result.0) works.items result.1.items (own_calls pass) (own_calls result.0) }
    ensures room { vec_capacity result.1 ≡ vec_capacity given }
{
    let Some(work) = works.pop() else {
        works.destroy_empty();
        return (pass, given);
    };
    let mut own = office.another(&mut pass);
    let one = move || -> (Pass<V>, W::Given)
        requires { IsSync R.row × (IsPassOf V.notes V.base office.now.turn own × IsIdle own) × (own_calls own ≡ []) }
        ensures turn { IsPassOf V.notes V.base office.entry.now.turn result.0 × IsIdle result.0 }
        ensures same { (share result.0 ≡ share own) × (opening result.0 ≡ opening own) }
        ensures did { W.did work (front own) (front result.0) (own_calls result.0) result.1 }
    {
        let given = work.run(rt, office, &mut own);
        (own, given)
    };
    let rest = move || -> (Pass<V>, Vec<W::Given>)
        requires { IsSync R.row × IsSend V.row × IsSend W.row × IsSend W.Given.row
            × (IsPassOf V.notes V.base office.now.turn pass × IsIdle pass) × (vec_len works < share pass)
            × ((given.items ≡ []) × (vec_len works ≤ vec_capacity given)) }
        ensures turn { IsPassOf V.notes V.base office.entry.now.turn result.0 × IsIdle result.0 }
        ensures same { (share result.0 ≡ share pass) × (opening result.0 ≡ opening pass) }
        ensures grown { IsPrefix (front pass) (front result.0) }
        ensures runs { AddsRuns W.did (front pass) (front result.0) works.items result.1.items (own_calls pass) (own_calls result.0) }
        ensures room { vec_capacity result.1 ≡ vec_capacity given }
    { run_rest(rt, office, pass, works, given) };
    let ((own, last), (mut pass, mut given)) = join(rt, one, rest);
    office.join(&mut pass, own);
    given.push_reserved(last);
    (pass, given)
}

/// Runs each work in a thread of its own where one can be made, with a pass of its own. At Err none was run, and they come back.
pub fn run_all<V: Chronicle + Send, W: Work<V> + Send + Drop, R: Threads + Wait + Sync>(
    rt: &R,
    alloc: Global,
    office: &OfficeOf<V>,
    pass: Pass<V>,
    works: Vec<W>,
) -> (Pass<V>, Result<Vec<W::Given>, (Memory, Vec<W>)>)
    requires turn { IsPassOf V.notes V.base office.now.turn pass × IsIdle pass }
    requires share { vec_len works < share pass }
    ensures turn { IsPassOf V.notes V.base office.now.turn result.0 × IsIdle result.0 }
    ensures same { (share result.0 ≡ share pass) × (opening result.0 ≡ opening pass) }
    ensures grown { IsPrefix (front pass) (front result.0) }
    ensures runs { IfOk result.1 (λ given. AddsRuns W.did (front pass) (front result.0) works.items given.items (own_calls pass) (own_calls result.0)) }
    ensures err { IfErr result.1 (λ back. (result.0 ≡ pass) × (back.1 ≡ works)) }
{
    match Vec::with_capacity(alloc, works.len()) {
        Ok(given) => {
            let (pass, given) = run_rest(rt, office, pass, works, given);
            (pass, Ok(given))
        }
        Err(_) => (pass, Err((Memory, works))),
    }
}

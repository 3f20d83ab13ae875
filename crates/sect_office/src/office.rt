// An office: a desk, or another value, that the bearers of passes use in turn.
ghost use Rattle.std.specs.Prelude.{◌≡◌, ◌+◌, ◌-◌, ◌<◌, ◌++◌, ◌⊎◌, [], length, IfOk, IfErr, IsOk, OnOk, OnErr};
ghost use mathlib.Core.List.{IsPrefix};
ghost use Rattle.sect_turn.specs.Passes.{front, own_calls, share, opening, IsIdle, IsPassOf, HasEachOnce};
ghost use Rattle.sect_turn.specs.Rule.{whole_share};
ghost use Rattle.sect_once.specs.History.{IsLegal, NeverFull, state_after, history};
ghost use Rattle.sect_office.specs.Offices.{Shows};

use sect_base::{Chronicle, Day, Id, Memory};
use sect_edge::Keeper;
use sect_once::{Answer, Desk, Object};
use sect_turn::{Pass, Turn};
use std::alloc::Global;
use std::sync::Wait;

/// A value that the bearers of passes use in turn.
#[derive(Drop)]
pub struct OfficeOf<V: Chronicle> {
    pub turn: Turn<V>,
}

/// A desk that the bearers of passes ask in turn.
pub type Office<O, K> = OfficeOf<Desk<O, K>>;

impl<V: Chronicle> OfficeOf<V> {
    /// An office for the desk, and the pass with the whole share.
    pub fn open(alloc: Global, desk: V) -> Result<(OfficeOf<V>, Pass<V>), (Memory, V)>
        ensures turn { IfOk result (λ t. IsPassOf V.notes V.base t.0.turn t.1 × IsIdle t.1) }
        ensures pass { IfOk result (λ t. (front t.1 ≡ (V.notes desk)) × (own_calls t.1 ≡ []) × (share t.1 ≡ whole_share)
            × (opening t.1 ≡ (length (V.notes desk), V.base desk))) }
        ensures err { IfErr result (λ e. e.1 ≡ desk) }
    {
        let (turn, pass) = Turn::open(alloc, desk)?;
        Ok((OfficeOf { turn }, pass))
    }

    /// A pass that has seen the same, for another thread.
    pub fn another(&self, pass: &mut Pass<V>) -> Pass<V>
        requires turn { IsPassOf V.notes V.base self.now.turn pass.old }
        requires between_turns { IsIdle pass.old }
        requires share { 1 < share pass.old }
        ensures turn { IsPassOf V.notes V.base self.now.turn pass.new × IsIdle pass.new }
        ensures old { (front pass.new ≡ front pass.old) × (own_calls pass.new ≡ own_calls pass.old)
            × (share pass.new ≡ share pass.old - 1) × (opening pass.new ≡ opening pass.old) }
        ensures new_turn { IsPassOf V.notes V.base self.now.turn result × IsIdle result }
        ensures new { (front result ≡ front pass.old) × (own_calls result ≡ []) × (share result ≡ 1) × (opening result ≡ opening pass.old) }
    {
        self.turn.another(pass)
    }

    /// A pass that has seen the same, for another thread. Where memory runs out, the pass is as before.
    pub fn split(&self, pass: &mut Pass<V>) -> Result<Pass<V>, Memory>
        requires turn { IsPassOf V.notes V.base self.now.turn pass.old }
        requires between_turns { IsIdle pass.old }
        requires share { 1 < share pass.old }
        ensures turn { IsPassOf V.notes V.base self.now.turn pass.new × IsIdle pass.new }
        ensures old { (front pass.new ≡ front pass.old) × (own_calls pass.new ≡ own_calls pass.old) × (opening pass.new ≡ opening pass.old) }
        ensures share_given { OnOk result (share pass.new ≡ share pass.old - 1) }
        ensures as_before { OnErr result (pass.new ≡ pass.old) }
        ensures new_turn { IfOk result (λ p. IsPassOf V.notes V.base self.now.turn p × IsIdle p) }
        ensures new { IfOk result (λ p. (front p ≡ front pass.old) × (own_calls p ≡ []) × (share p ≡ 1) × (opening p ≡ opening pass.old)) }
    {
        self.turn.split(pass)
    }

    /// Takes a pass in. The longer front begins with the other.
    pub fn join(&self, pass: &mut Pass<V>, other: Pass<V>)
        requires turn { IsPassOf V.notes V.base self.now.turn pass.old }
        requires between_turns { IsIdle pass.old }
        requires other_turn { IsPassOf V.notes V.base self.now.turn other }
        requires other_idle { IsIdle other }
        ensures turn { IsPassOf V.notes V.base self.now.turn pass.new × IsIdle pass.new }
        ensures longer { (front pass.new ≡ front pass.old) ⊎ (front pass.new ≡ front other) }
        ensures grown { IsPrefix (front pass.old) (front pass.new) × IsPrefix (front other) (front pass.new) }
        ensures own { own_calls pass.new ≡ own_calls pass.old ++ own_calls other }
        ensures share { share pass.new ≡ share pass.old + share other }
        ensures opening { opening pass.new ≡ opening pass.old }
    {
        self.turn.join(pass, other);
    }

    /// Ends the office. The calls of the pass are all notes since the opening. It takes no memory, so the desk always comes
    /// back.
    pub fn close(self, pass: Pass<V>) -> Result<V, Memory>
        requires turn { IsPassOf V.notes V.base self.turn pass }
        requires between_turns { IsIdle pass }
        requires whole { share pass ≡ whole_share }
        ensures always { IsOk result }
        ensures front { IfOk result (λ desk. IsPrefix (front pass) (V.notes desk)) }
        ensures base { IfOk result (λ desk. V.base desk ≡ (opening pass).1) }
        ensures calls { IfOk result (λ desk. HasEachOnce (own_calls pass) (opening pass).0 (length (V.notes desk))) }
    {
        let OfficeOf { turn } = self;
        turn.close(pass)
    }
}

impl<O: Object, K: Keeper> OfficeOf<Desk<O, K>> {
    /// Asks a request that may be asked. The reply is the object's at the returned place of the pass's new front. A
    /// new own call stands behind the old front, where its id was new.
    pub fn ask<R: Wait>(
        &self,
        rt: &R,
        pass: &mut Pass<Desk<O, K>>,
        id: Id,
        day: Day,
        command: O::Command,
    ) -> Answer<O::Reply>
        requires turn { IsPassOf (λ d. d.log) (λ d. d.base) self.now.turn pass.old }
        requires between_turns { IsIdle pass.old }
        requires askable { O.may_ask id day command }
        ensures turn { IsPassOf (λ d. d.log) (λ d. d.base) self.now.turn pass.new × IsIdle pass.new }
        ensures grown { IsPrefix (front pass.old) (front pass.new) }
        ensures legal { IsLegal O.stepped O.start (front pass.new) }
        ensures roomy { NeverFull O.is_row (front pass.new) }
        ensures shows { Shows O.is_row id day command (front pass.old) (front pass.new) (own_calls pass.old) (own_calls pass.new) result }
        ensures same { (share pass.new ≡ share pass.old) × (opening pass.new ≡ opening pass.old) }
    {
        let mut desk = self.turn.take(rt, pass);
        let answer = desk.ask(id, day, command);
        self.turn.give(pass, desk);
        answer
    }

    /// Looks at the object at the pass's new front.
    pub fn look<R: Wait>(
        &self,
        rt: &R,
        pass: &mut Pass<Desk<O, K>>,
        query: &O::Query,
    ) -> Result<O::View, Memory>
        requires turn { IsPassOf (λ d. d.log) (λ d. d.base) self.now.turn pass.old }
        requires between_turns { IsIdle pass.old }
        ensures turn { IsPassOf (λ d. d.log) (λ d. d.base) self.now.turn pass.new × IsIdle pass.new }
        ensures grown { IsPrefix (front pass.old) (front pass.new) }
        ensures legal { IsLegal O.stepped O.start (front pass.new) }
        ensures view { IfOk result (λ v. v ≡ O.looked (state_after O.stepped O.start (history (front pass.new))) query.now) }
        ensures same { (own_calls pass.new ≡ own_calls pass.old) × (share pass.new ≡ share pass.old) × (opening pass.new ≡ opening pass.old) }
    {
        let desk = self.turn.take(rt, pass);
        let view = desk.look(query);
        self.turn.give(pass, desk);
        view
    }
}

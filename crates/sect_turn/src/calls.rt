// The calls of a turn.
ghost use Rattle.std.specs.Prelude.{◌≡◌, ◌+◌, ◌-◌, ◌^◌, ◌<◌, ◌++◌, ◌⊎◌, [], ◌∷◌, length, IfOk, IfErr, IsOk, OnOk, OnErr};
ghost use mathlib.Core.List.{IsPrefix};
ghost use Rattle.sect_turn.specs.Passes.{front, own_calls, share, opening, opened, IsIdle, HoldsTurn, KeepsCalls, IsPassOf, calls_after, HasEachOnce};
ghost use Rattle.sect_turn.specs.Rule.{whole_share};
ghost use Rattle.sect_turn.specs.Steps.{Follows};

use crate::plays::{CutOne, PutTogether};
use crate::steps::{draw, give_back, learn, take_served};
use crate::turn::{Pass, Turn};
use atomic_table::{Refused, Table};
use sect_base::{Chronicle, Memory};
use std::alloc::{AllocFailed, Global};
use std::snapshot::Snapshot;
use std::sync::Wait;

/// A row with the value alone.
fn row_of<V>(alloc: Global, value: V) -> Result<Vec<Option<V>>, V>
    ensures ok { IfOk result (λ row. row.items ≡ Some value ∷ []) }
    ensures err { IfErr result (λ back. back ≡ value) }
{
    let mut row = Vec::new(alloc);
    match row.push(Some(value)) {
        Ok(()) => Ok(row),
        Err(AllocFailed { value }) => {
            row.destroy_empty();
            Err(value.unwrap())
        }
    }
}

/// The value of such a row.
fn value_of<V>(mut row: Vec<Option<V>>) -> V
    requires { (value : V) × (row.items ≡ Some value ∷ []) }
    ensures { row.items ≡ Some result ∷ [] }
{
    let value = row.pop().unwrap().unwrap();
    row.destroy_empty();
    value
}

impl<V: Chronicle> Turn<V> {
    /// A turn for the value, and the pass with the whole share, which has seen its notes.
    pub fn open(alloc: Global, value: V) -> Result<(Turn<V>, Pass<V>), (Memory, V)>
        ensures turn { IfOk result (λ t. IsPassOf V.notes V.base t.0 t.1 × IsIdle t.1) }
        ensures pass { IfOk result (λ t. (front t.1 ≡ V.notes value) × (own_calls t.1 ≡ []) × (share t.1 ≡ whole_share)
            × (opening t.1 ≡ (length (V.notes value), V.base value))) }
        ensures err { IfErr result (λ e. e.1 ≡ value) }
    {
        let about = Snapshot::of(&value);
        let words = [0, 0, value.len()];
        let row = match row_of(alloc, value) {
            Ok(row) => row,
            Err(value) => return Err((Memory, value)),
        };
        match Table::new(alloc, &words, row, &about) {
            Ok((home, place)) => Ok((Turn { home }, Pass { place })),
            Err(Refused { slots }) => Err((Memory, value_of(slots))),
        }
    }

    /// Ends the turn. With the whole share no other pass has a call of its own or the value. It takes no memory, so the value
    /// always comes back.
    pub fn close(self, pass: Pass<V>) -> Result<V, Memory>
        requires turn { IsPassOf V.notes V.base self pass }
        requires between_turns { IsIdle pass }
        requires whole { share pass ≡ whole_share }
        ensures always { IsOk result }
        ensures front { IfOk result (λ value. IsPrefix (front pass) (V.notes value)) }
        ensures base { IfOk result (λ value. V.base value ≡ (opening pass).1) }
        ensures calls { IfOk result (λ value. HasEachOnce (own_calls pass) (opening pass).0 (length (V.notes value))) }
    {
        let Turn { home } = self;
        let Pass { place } = pass;
        let mut closed = home.close_with(place);
        let value = closed.take(0).unwrap();
        closed.free();
        Ok(value)
    }

    /// Waits for the turn. The pass has then seen the value's notes.
    pub fn take<R: Wait>(&self, rt: &R, pass: &mut Pass<V>) -> V
        requires turn { IsPassOf V.notes V.base self.now pass.old }
        requires between_turns { IsIdle pass.old }
        ensures turn { IsPassOf V.notes V.base self.now pass.new × HoldsTurn pass.new }
        ensures front { front pass.new ≡ V.notes result }
        ensures grown { IsPrefix (front pass.old) (V.notes result) }
        ensures base { V.base result ≡ (opening pass.old).1 }
        ensures same { KeepsCalls pass.old pass.new }
    {
        let board = &self.home.shared;
        let ticket = draw(rt, board, &mut pass.place);
        take_served(rt, board, &mut pass.place, ticket)
    }

    /// Gives the value back, with the notes that it had or with one more, which is then the pass's own.
    pub fn give(&self, pass: &mut Pass<V>, value: V)
        requires turn { IsPassOf V.notes V.base self.now pass.old }
        requires holds { HoldsTurn pass.old }
        requires follows { Follows (front pass.old) (V.notes value) }
        requires base { V.base value ≡ (opening pass.old).1 }
        ensures turn { IsPassOf V.notes V.base self.now pass.new × IsIdle pass.new }
        ensures front { front pass.new ≡ V.notes value }
        ensures own { own_calls pass.new ≡ calls_after (own_calls pass.old) (front pass.old) (V.notes value) }
        ensures same { (share pass.new ≡ share pass.old) × (opening pass.new ≡ opening pass.old) }
    {
        give_back(&self.home.shared, &mut pass.place, value);
    }

    /// A pass that has seen the same, for another thread.
    pub fn another(&self, pass: &mut Pass<V>) -> Pass<V>
        requires turn { IsPassOf V.notes V.base self.now pass.old }
        requires between_turns { IsIdle pass.old }
        requires share { 1 < share pass.old }
        ensures turn { IsPassOf V.notes V.base self.now pass.new × IsIdle pass.new }
        ensures old { (front pass.new ≡ front pass.old) × (own_calls pass.new ≡ own_calls pass.old)
            × (share pass.new ≡ share pass.old - 1) × (opening pass.new ≡ opening pass.old) }
        ensures new_turn { IsPassOf V.notes V.base self.now result × IsIdle result }
        ensures new { (front result ≡ front pass.old) × (own_calls result ≡ []) × (share result ≡ 1) × (opening result ≡ opening pass.old) }
    {
        let place = self.home.shared.split_seat::<CutOne>(&mut pass.place);
        Pass { place }
    }

    /// A pass that has seen the same, for another thread. Where memory runs out, the pass is as before.
    pub fn split(&self, pass: &mut Pass<V>) -> Result<Pass<V>, Memory>
        requires turn { IsPassOf V.notes V.base self.now pass.old }
        requires between_turns { IsIdle pass.old }
        requires share { 1 < share pass.old }
        ensures turn { IsPassOf V.notes V.base self.now pass.new × IsIdle pass.new }
        ensures old { (front pass.new ≡ front pass.old) × (own_calls pass.new ≡ own_calls pass.old) × (opening pass.new ≡ opening pass.old) }
        ensures share_given { OnOk result (share pass.new ≡ share pass.old - 1) }
        ensures as_before { OnErr result (pass.new ≡ pass.old) }
        ensures new_turn { IfOk result (λ p. IsPassOf V.notes V.base self.now p × IsIdle p) }
        ensures new { IfOk result (λ p. (front p ≡ front pass.old) × (own_calls p ≡ []) × (share p ≡ 1) × (opening p ≡ opening pass.old)) }
    {
        Ok(self.another(pass))
    }

    /// Takes a pass in. The longer front begins with the other.
    pub fn join(&self, pass: &mut Pass<V>, other: Pass<V>)
        requires turn { IsPassOf V.notes V.base self.now pass.old }
        requires between_turns { IsIdle pass.old }
        requires other_turn { IsPassOf V.notes V.base self.now other }
        requires other_idle { IsIdle other }
        ensures turn { IsPassOf V.notes V.base self.now pass.new × IsIdle pass.new }
        ensures longer { (front pass.new ≡ front pass.old) ⊎ (front pass.new ≡ front other) }
        ensures grown { IsPrefix (front pass.old) (front pass.new) × IsPrefix (front other) (front pass.new) }
        ensures own { own_calls pass.new ≡ own_calls pass.old ++ own_calls other }
        ensures share { share pass.new ≡ share pass.old + share other }
        ensures opening { opening pass.new ≡ opening pass.old }
    {
        let board = &self.home.shared;
        let Pass { place } = other;
        board.join_seat::<PutTogether>(&mut pass.place, place);
        learn(board, &mut pass.place);
    }
}

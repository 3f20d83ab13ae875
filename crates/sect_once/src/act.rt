// How a request acts: it is printed, it steps, its reply is printed behind it, and the row is taken behind the others and appended
// to the keeper's.
ghost use Rattle.std.specs.Prelude.{◌≡◌, ◌+◌, ◌<◌, ◌≤◌, ◌^◌, ◌++◌, [], ◌∷◌, length, None, IfOk, IfSome, OnOk, OnErr, IfErr};
ghost use Rattle.sect_base.specs.declared.limit.Id.{Id};
ghost use Rattle.sect_edge.specs.declared.edge.KeepFault.{KeepFault};
ghost use Rattle.sect_edge.specs.Causes.{HasCauseFor};
ghost use Rattle.sect_edge.specs.Keeper.{AddsRow, KeepsRows};
ghost use Rattle.sect_once.specs.Desks.{Adds};
ghost use Rattle.sect_once.specs.History.{IsNew};
ghost use Rattle.sect_once.specs.Places.{placed};
ghost use Rattle.sect_once.specs.Told.{TellsFrom};

use crate::entry::AskedText;
use crate::key::key_of;
use crate::object::Object;
use crate::past::Past;
use crate::places::Places;
use crate::texts::Texts;
use sect_base::{Caller, Day, Id, Memory};
use sect_edge::{KeepFault, Keeper};

/// Acts a command on the object in its place, which may take over what it keeps of it. After want of memory the state is as
/// before.
pub(crate) fn step_in<O: Object>(
    object: &mut Box<O>,
    day: Day,
    caller: Caller,
    command: &mut O::Command,
) -> Result<O::Reply, Memory>
    ensures state { OnOk result (O.state object.new.value ≡ (O.stepped (O.state object.old.value) day caller command.old).0) }
    ensures reply { IfOk result (λ reply. reply ≡ (O.stepped (O.state object.old.value) day caller command.old).1) }
    ensures undo { OnOk result (O.restores object.new.value (O.state object.old.value)) }
    ensures err { OnErr result (O.state object.new.value ≡ O.state object.old.value) }
{
    object.as_mut().step(day, caller, command)
}

/// Takes back the last step of the object in its place.
pub(crate) fn take_back<O: Object>(object: &mut Box<O>)
    requires { (before : O.State) × O.restores object.old.value before }
    ensures { (before : O.State) → O.restores object.old.value before → O.state object.new.value ≡ before }
{
    object.as_mut().undo();
}

/// Takes the row behind the others, and appends it to the keeper's. On a fault all is as before.
fn keep<K: Keeper>(
    rows: &mut Texts,
    places: &mut Places,
    keeper: &mut K,
    key: u128,
    row: &[u8],
) -> Result<(), KeepFault>
    requires { placed places.old.keys key ≡ None }
    ensures added { OnOk result (rows.new.texts ≡ rows.old.texts ++ row.now ∷ []) }
    ensures keys { OnOk result (places.new.keys ≡ places.old.keys ++ key ∷ []) }
    ensures rows { OnOk result (AddsRow (K.rows keeper.old) (K.rows keeper.new) row.now) }
    ensures added_stay { OnErr result (rows.new.texts ≡ rows.old.texts) }
    ensures keys_stay { OnErr result (places.new.keys ≡ places.old.keys) }
    ensures rows_stay { OnErr result (KeepsRows (K.rows keeper.old) (K.rows keeper.new)) }
    ensures cause { HasCauseFor KeepFault.Failed (K.faults keeper.old) (K.faults keeper.new) result }
{
    if places.reserve().is_err() {
        return Err(KeepFault::Memory);
    }
    if rows.reserve(row.len()).is_err() {
        return Err(KeepFault::Memory);
    }
    keeper.append(row)?;
    rows.push(row);
    places.put(key);
    Ok(())
}

/// Writes the request, as it stands in a row, in place of what is there. Where its text is known, that is copied.
fn write_request<O: Object>(
    id: Id,
    day: Day,
    command: &O::Command,
    asked: Option<AskedText>,
    row: &mut Vec<u8>,
) -> Result<(), Memory>
    requires { IfSome asked (λ text. O.is_asked id day command.now text.day.now text.rest.now) }
    ensures { OnOk result (O.is_request id day command.now row.new.items) }
{
    match asked {
        Some(text) => O::copy_request(command, text, row),
        None => O::print_request(id, day, command, row),
    }
}

impl<O: Object> Past<O> {
    /// A new request acts, and its row, which is written into the buffer, is appended. The request is written before it acts, since
    /// the object may take over what it keeps of the command; where its text is known, that is copied. The place of the reply's text comes with the reply. On a fault the
    /// past and the keeper's rows are as before.
    pub(crate) fn act<K: Keeper>(
        &mut self,
        keeper: &mut K,
        row: &mut Vec<u8>,
        id: Id,
        day: Day,
        command: &mut O::Command,
        asked: Option<AskedText>,
    ) -> Result<(O::Reply, usize), KeepFault>
        requires askable { O.may_ask id day command.old }
        requires asked { IfSome asked (λ text. O.is_asked id day command.old text.day.now text.rest.now) }
        requires new { IsNew id self.old.entries }
        requires notes { length self.old.entries < 2 ^ 20 }
        ensures ok { IfOk result (λ r. Adds O.stepped O.is_row
            (record { id = id; day = day; command = command.old; reply = r.0 }) self.old self.new (K.rows keeper.old)
            (K.rows keeper.new)) }
        ensures told { IfOk result (λ r. TellsFrom O.is_told r.1 row.new.items r.0) }
        ensures same { OnErr result (self.new ≡ self.old) }
        ensures rows { OnErr result (KeepsRows (K.rows keeper.old) (K.rows keeper.new)) }
        ensures cause { HasCauseFor KeepFault.Failed (K.faults keeper.old) (K.faults keeper.new) result }
    {
        let Ok(()) = write_request::<O>(id, day, command, asked, row) else {
            return Err(KeepFault::Memory);
        };
        let Ok(reply) = step_in(&mut self.object, day, id.caller, command) else {
            return Err(KeepFault::Memory);
        };
        let Ok(at) = O::print_reply(&reply, row) else {
            take_back(&mut self.object);
            return Err(KeepFault::Memory);
        };
        let key = key_of(&id);
        let text = row.as_slice();
        match keep(&mut self.rows, &mut self.places, keeper, key, text) {
            Ok(()) => Ok((reply, at)),
            Err(fault) => {
                take_back(&mut self.object);
                Err(fault)
            }
        }
    }
}

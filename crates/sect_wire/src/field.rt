// The members of an object.

ghost use Rattle.std.specs.Prelude.{◌≡◌, ◌≤◌, ◌<◌, IfOk, map, List, ℕ};
ghost use Rattle.std.specs.List.{list_any};
ghost use Rattle.std.specs.Str.{bytes_eq};
ghost use Rattle.serde_json.specs.View.{view};
ghost use Rattle.sect_words.specs.Reading.{Means};
ghost use Rattle.sect_wire.specs.Values.{has_only, optional, ranged, required};

use crate::from_json::{FromJson, ranged};
use sect_words::Fault;
use serde_json::Value;
use std::alloc::Global;

/// The value of a member that has to be there.
pub(crate) fn required<T: FromJson>(alloc: Global, value: &Value, name: &str) -> Result<T, Fault>
    ensures { Means result (required T.reads name.now (view value.now)) }
{
    match value.get(name) {
        Some(found) => T::read(alloc, found),
        None => Err(Fault::Bad),
    }
}

/// The value of a member, or the default where it isn't there.
pub(crate) fn optional<T: FromJson>(
    alloc: Global,
    value: &Value,
    name: &str,
    default: T,
) -> Result<T, Fault>
    ensures { Means result (optional default T.reads name.now (view value.now)) }
{
    match value.get(name) {
        Some(found) => T::read(alloc, found),
        None => Ok(default),
    }
}

/// The number from 1 to `most` of a member, or the default where it isn't there.
pub(crate) fn stated(value: &Value, name: &str, most: u32, default: u32) -> Result<u32, Fault>
    requires low { 0 < default }
    requires high { default ≤ most }
    ensures range { IfOk result (λ n. (0 < n) × (n ≤ most)) }
    ensures reads { Means result (optional default (ranged most) name.now (view value.now)) }
{
    let Some(found) = value.get(name) else {
        return Ok(default);
    };
    match ranged(found, most) {
        Some(number) => Ok(number),
        None => Err(Fault::Bad),
    }
}

/// Whether a name is among these.
fn is_among(name: &str, names: &[&str]) -> bool
    ensures { result ≡ list_any (bytes_eq name.now) (map (λ n. n.now) names.now) }
{
    for other in names {
        if name == *other {
            return true;
        }
    }
    false
}

/// Whether the value is an object whose members all have one of these names.
pub(crate) fn has_only(value: &Value, names: &[&str]) -> bool
    ensures { result ≡ has_only (map (λ n. n.now) names.now) (view value.now) }
{
    let Some(members) = value.as_object() else {
        return false;
    };
    for name in members.keys() {
        if !is_among(name, names) {
            return false;
        }
    }
    true
}

// An id as one number, by which the entries are indexed.
ghost use Rattle.std.specs.Prelude.{◌≡◌, ◌+◌, ◌*◌, ◌<◌, ◌^◌};
ghost use Rattle.sect_once.specs.History.{caller_key, key_of};

use sect_base::{Caller, Id};

/// A caller as one number.
fn caller_key(caller: Caller) -> u64
    ensures key { result ≡ caller_key caller }
    ensures small { result < 2 ^ 33 }
{
    match caller {
        Caller::Registrar(number) => 2 * u64::from(number),
        Caller::Student(student) => 2 * u64::from(student.0) + 1,
    }
}

/// A caller's key and a number of a request, as one number.
fn joined(caller: u64, number: u64) -> u128
    requires { caller < 2 ^ 33 }
    ensures whole { result ≡ caller * 2 ^ 64 + number }
    ensures small { number < 2 ^ 64 }
{
    u128::from(caller) * (1 << 64) + u128::from(number)
}

/// An id as one number, its own.
pub(crate) fn key_of(id: &Id) -> u128
    ensures key { result ≡ key_of id.now }
    ensures small { id.now.number < 2 ^ 64 }
{
    joined(caller_key(id.caller), id.number)
}

// A path is read part by part.

ghost use Rattle.std.specs.Prelude.{◌≡◌, ◌≤◌, IfSome};
ghost use Rattle.sect_words.specs.Parts.{pieces};
ghost use Rattle.sect_words.specs.Reading.{key_at, word_at};
ghost use Rattle.sect_words.specs.ReadingWords.{number_of};
ghost use Rattle.sect_answer.specs.Reading.{Passes, Takes, ask_at, ended, id_at, only_path, report_at, target_in};

use crate::target::{Route, Target};
use sect_base::{Caller, Id, OfferingId, SectionId, StudentId};
use sect_command::Query;
use sect_words::{Parts, number_up_to, same_bytes};

/// The number in the next part, which is taken.
fn number_at(parts: &mut Parts, most: u64) -> Option<u64>
    ensures range { IfSome result (λ n. n ≤ most) }
    ensures takes { Takes result parts.new (word_at (number_of most) parts.old) }
{
    number_up_to(parts.next()?, most)
}

/// Takes the next part, which has to be this word.
fn pass(parts: &mut Parts, word: &[u8]) -> Option<()>
    ensures { Passes result parts.new (key_at word.now parts.old) }
{
    if parts.takes(word) { Some(()) } else { None }
}

/// The id behind this word, in the next parts, which are taken.
#[tactic(auto, unfolding(crate::specs::Reading::id_at))]
fn id_at(parts: &mut Parts, name: &[u8]) -> Option<u32>
    ensures { Takes result parts.new (id_at name.now parts.old) }
{
    pass(parts, b"")?;
    pass(parts, name)?;
    Some(number_at(parts, 4_294_967_295)? as u32)
}

/// The id behind this word, and the number of its ask, in the next parts, which are taken.
#[tactic(auto, unfolding(crate::specs::Reading::ask_at))]
fn ask_at(parts: &mut Parts, name: &[u8]) -> Option<(u32, u64)>
    ensures { Takes result parts.new (ask_at name.now parts.old) }
{
    let id = id_at(parts, name)?;
    pass(parts, b"asks")?;
    let number = number_at(parts, u64::MAX)?;
    Some((id, number))
}

/// The id behind this word, with this report behind it, in the next parts, which are taken.
#[tactic(auto, unfolding(crate::specs::Reading::report_at))]
fn report_at(parts: &mut Parts, name: &[u8], report: &[u8]) -> Option<u32>
    ensures { Takes result parts.new (report_at name.now report.now parts.old) }
{
    let id = id_at(parts, name)?;
    pass(parts, report)?;
    Some(id)
}

/// The value, where nothing is left behind it.
fn ended<T: Copy>(parts: &Parts, value: T) -> Option<T>
    ensures { result ≡ ended (Some (value, parts.now)) }
{
    if parts.is_empty() { Some(value) } else { None }
}

/// The id and the number of an ask, where the path is of this form and no more.
fn read_ask(path: &[u8], name: &[u8]) -> Option<(u32, u64)>
    ensures { result ≡ ended (ask_at name.now (pieces 47 path.now)) }
{
    let mut parts = Parts::new(path, b'/');
    let ask = ask_at(&mut parts, name)?;
    ended(&parts, ask)
}

/// The id, where the path is of this form and no more.
fn read_id(path: &[u8], name: &[u8]) -> Option<u32>
    ensures { result ≡ ended (id_at name.now (pieces 47 path.now)) }
{
    let mut parts = Parts::new(path, b'/');
    let id = id_at(&mut parts, name)?;
    ended(&parts, id)
}

/// The id, where the path is that of a report of this name and no more.
fn read_report(path: &[u8], name: &[u8], report: &[u8]) -> Option<u32>
    ensures { result ≡ ended (report_at name.now report.now (pieces 47 path.now)) }
{
    let mut parts = Parts::new(path, b'/');
    let id = report_at(&mut parts, name, report)?;
    ended(&parts, id)
}

/// The query, where the path is this text.
fn only_path(path: &[u8], text: &[u8], query: Query) -> Option<Target>
    ensures { result ≡ only_path path.now text.now query }
{
    if same_bytes(path, text) {
        Some(Target::Look(query))
    } else {
        None
    }
}

/// The ask of a caller with this number.
fn asked(caller: Caller, number: u64) -> Target
    ensures { result ≡ Target.Ask (record { caller = caller; number = number }) }
{
    Target::Ask(Id { caller, number })
}

/// The target of a path that the route matches.
pub(crate) fn target_in(route: Route, path: &[u8]) -> Option<Target>
    ensures { result ≡ target_in route path.now }
{
    match route {
        Route::StudentAsk => {
            let (id, number) = read_ask(path, b"students")?;
            Some(asked(Caller::Student(StudentId(id)), number))
        }
        Route::RegistrarAsk => {
            let (id, number) = read_ask(path, b"registrars")?;
            Some(asked(Caller::Registrar(id), number))
        }
        Route::Schedule => {
            let id = read_id(path, b"students")?;
            Some(Target::Look(Query::Schedule(StudentId(id))))
        }
        Route::Roll => {
            let id = read_report(path, b"sections", b"roll")?;
            Some(Target::Look(Query::Roll(SectionId(id))))
        }
        Route::Open => {
            let id = read_report(path, b"offerings", b"open")?;
            Some(Target::Look(Query::Open(OfferingId(id))))
        }
        Route::Waiting => only_path(path, b"/waiting", Query::Waiting),
        Route::Unmet => only_path(path, b"/unmet", Query::Unmet),
    }
}

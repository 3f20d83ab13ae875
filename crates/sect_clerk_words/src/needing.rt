// What the program needs before it begins.

ghost use Rattle.std.specs.Prelude.{◌≡◌, ◌↔◌, Err, IfOk, None, Some, map};
ghost use Rattle.std.specs.String.{string_bytes};
ghost use Rattle.sect_usage.specs.declared.needed.WordFault.{WordFault};
ghost use Rattle.sect_usage.specs.Needs.{named};
ghost use Rattle.sect_clerk_words.specs.Grammar.{files_of, words_of};

use crate::verb::Verb;
use sect_base::Memory;
use sect_usage::{Paths, WordFault, paths, read_program};
use std::alloc::Global;

/// The files of the keepers that the words name. `BadWords` comes exactly where the words aren't in the grammar.
pub fn needs(alloc: Global, words: &[String]) -> Result<Paths, WordFault>
    ensures bad { (result ≡ Err WordFault.BadWords) ↔ (words_of (map string_bytes words.now) ≡ None) }
    ensures found { IfOk result (λ p. Some (named p) ≡ files_of (map string_bytes words.now)) }
{
    if read_program::<Verb>(words).is_none() {
        return Err(WordFault::BadWords);
    }
    match paths(alloc, words) {
        Ok(paths) => Ok(paths),
        Err(Memory) => Err(WordFault::Memory),
    }
}

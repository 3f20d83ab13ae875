//! Words of the command line read by the desk's own reader and by `clap`: tests alone. Each line of the input is a list of
//! words with bars between them, and `(none)` is the list without words. The output has what each list asks for, the keeper
//! that it names, and whether `clap` finds the same in it.
#![tactic(auto)]

use sect_clap::read_again;
use sect_usage::{WordFault, needs, read_words};
use std::alloc::{AllocError, Global};
use std::io;

fn main(rt: HostRuntime) -> io::Result<()> {
    let alloc = rt.alloc();
    for line in rt.lines(alloc) {
        let line = line?;
        match told(alloc, line.as_str()) {
            Ok(text) => println!(rt; "{text}")?,
            Err(_) => println!(rt; "out of memory")?,
        }
    }
    Ok(())
}

/// The words of a line.
fn words_of(alloc: Global, line: &str) -> Result<Vec<String>, AllocError> {
    let mut words = Vec::new(alloc);
    if line != "(none)" {
        for word in line.split('|') {
            words.push(word.to_string(alloc)?)?;
        }
    }
    Ok(words)
}

/// What the reader and `clap` make of the words of a line.
fn told(alloc: Global, line: &str) -> Result<String, AllocError> {
    let words = words_of(alloc, line)?;
    let asked = asked_for(alloc, &words)?;
    let found = match read_again(alloc, &words) {
        Ok(()) => "the same",
        Err(_) => "another",
    };
    format!(in alloc; "{asked}, {found}")
}

/// What words ask for, and the keeper that they name.
fn asked_for(alloc: Global, words: &[String]) -> Result<String, AllocError> {
    let asked = read_words(words);
    match needs(alloc, words) {
        Ok(needs) => match (needs.paths.db, needs.paths.journal) {
            (Some(path), _) => format!(in alloc; "{asked:?} db {path}"),
            (None, Some(path)) => format!(in alloc; "{asked:?} journal {path}"),
            (None, None) => format!(in alloc; "{asked:?}"),
        },
        Err(WordFault::BadWords) => format!(in alloc; "{asked:?} bad words"),
        Err(WordFault::Memory) => Err(AllocError),
    }
}

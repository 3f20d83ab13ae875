// The commands with their words and options, as `clap` is told of them. Each value is taken as a text.

use clap::{Arg, ArgAction, Command};
use std::alloc::{AllocError, Global};

/// The first word that stands alone behind a command.
pub(crate) const FIRST_WORD: &str = "what";

/// The second one.
pub(crate) const SECOND_WORD: &str = "which";

/// The options of all commands.
pub(crate) const OPTIONS: [&str; 8] = [
    "db", "journal", "first", "term", "port", "workers", "sessions", "budget",
];

/// The desk. Its words begin with a command.
pub(crate) fn desk_command<'a>(alloc: Global) -> Result<Command<'a>, AllocError> {
    let make = Command::new(alloc, "make").arg(word(alloc, FIRST_WORD).required(true))?;
    Command::new(alloc, "desk")
        .version("0.1.0")
        .no_binary_name(true)
        .disable_help_subcommand(true)
        .subcommand(kept(alloc, "run")?)?
        .subcommand(serve_command(alloc)?)?
        .subcommand(make)?
        .subcommand(kept(alloc, "audit")?)?
        .subcommand(named(alloc, "report")?.arg(word(alloc, SECOND_WORD))?)?
        .subcommand(import_command(alloc)?)?
        .subcommand(named(alloc, "export")?)?
        .subcommand(plan_command(alloc)?)?
        .subcommand(kept(alloc, "survey")?)
}

/// The command `import`, with the options that it takes.
fn import_command<'a>(alloc: Global) -> Result<Command<'a>, AllocError> {
    named(alloc, "import")?
        .arg(setting(alloc, "first").required(true))?
        .arg(setting(alloc, "term"))
}

/// The command `serve`, with the options that it takes.
fn serve_command<'a>(alloc: Global) -> Result<Command<'a>, AllocError> {
    kept(alloc, "serve")?
        .arg(setting(alloc, "port").required(true))?
        .arg(setting(alloc, "workers"))?
        .arg(setting(alloc, "sessions"))
}

/// The command `plan`, with the option that it takes.
fn plan_command<'a>(alloc: Global) -> Result<Command<'a>, AllocError> {
    named(alloc, "plan")?.arg(setting(alloc, "budget"))
}

/// A command over a keeper, with a word behind it.
fn named<'a>(alloc: Global, name: &'a str) -> Result<Command<'a>, AllocError> {
    kept(alloc, name)?.arg(word(alloc, FIRST_WORD).required(true))
}

/// A command over a keeper.
fn kept<'a>(alloc: Global, name: &'a str) -> Result<Command<'a>, AllocError> {
    let db = setting(alloc, "db").conflicts_with("journal")?;
    Command::new(alloc, name)
        .arg(db)?
        .arg(setting(alloc, "journal"))
}

/// An option with a value.
fn setting<'a>(alloc: Global, name: &'a str) -> Arg<'a> {
    word(alloc, name).long(name)
}

/// A word that stands alone.
fn word<'a>(alloc: Global, name: &'a str) -> Arg<'a> {
    Arg::new(alloc, name).action(ArgAction::Set)
}

// What a path asks for.

use sect_base::Id;
use sect_command::Query;

/// What a path asks for.
#[derive(Clone, Copy, PartialEq, Eq)]
pub enum Target {
    /// A command is asked under this id.
    Ask(Id),
    /// A report is asked for. It is never a table.
    Look(Query),
}

/// The forms that paths have.
#[derive(Clone, Copy, PartialEq, Eq)]
pub(crate) enum Route {
    StudentAsk,
    RegistrarAsk,
    Schedule,
    Roll,
    Open,
    Waiting,
    Unmet,
}

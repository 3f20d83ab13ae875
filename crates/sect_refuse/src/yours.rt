// Whose a command is.

ghost use Rattle.std.specs.Prelude.{◌≡◌};
ghost use Rattle.sect_model.specs.Refusals.{student_of as named_student, is_yours as is_callers};

use sect_base::{Caller, StudentId};
use sect_command::Command;

/// Whether the caller may give the command: a registrar any, a student what students may give that names the student.
pub fn is_yours(caller: Caller, command: &Command) -> bool
    ensures { result ≡ is_callers caller command.now }
{
    match caller {
        Caller::Registrar(_) => true,
        Caller::Student(id) => student_of(command) == Some(id),
    }
}

/// The student of a command that students may give.
fn student_of(command: &Command) -> Option<StudentId>
    ensures { result ≡ named_student command.now }
{
    match command {
        Command::Enrol { student, .. }
        | Command::Drop { student, .. }
        | Command::Swap { student, .. }
        | Command::Unwait { student, .. } => Some(*student),
        Command::Wait { student, class, .. } => (*class == 5).then_some(*student),
        _ => None,
    }
}

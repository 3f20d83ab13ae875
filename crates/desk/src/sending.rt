// A keeper may go from thread to thread, with the turn of the desk. The functions do nothing.

ghost use denote.Param.Send.{IsSend};
ghost use Rattle.sect_real.specs.contracts.any.AnyKeeper.{the_row as keeper_row};
ghost use Rattle.sect_real.specs.contracts.database.SqliteKeeper.{the_row as database_row};

use sqlite::{Connection, File, FileStore};
use sqlite_exec::stream::Stream;
use sqlite_exec::work::Workspace;
use sqlite_resolve::Compiled;
use sqlite_schema::schema::Schema;

/// A value of the type may be sent to another thread.
fn may_be_sent<T: Send>()
    ensures { IsSend T.row }
{}

/// A database may be sent to another thread, since its parts may.
fn database_may_be_sent()
    ensures { IsSend database_row }
{
    may_be_sent::<FileStore<File>>();
    may_be_sent::<Schema>();
    may_be_sent::<Compiled>();
    may_be_sent::<Stream>();
    may_be_sent::<Workspace>();
    may_be_sent::<Connection<FileStore<File>>>();
}

/// Each of the keepers may be sent to another thread.
pub(crate) fn keeper_may_be_sent()
    ensures { IsSend keeper_row }
{
    database_may_be_sent();
}

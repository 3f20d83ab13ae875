// The report of a query and the export of a table, of a history.
ghost use Rattle.std.specs.Prelude.{◌≡◌, ◌++◌, OnOk};
ghost use Rattle.sect_command.specs.declared.view.Query.TheVariants.{Rows};
ghost use Rattle.sect_history.specs.Step.{state_of};
ghost use Rattle.sect_model.specs.Look.{look};
ghost use Rattle.sect_once.specs.History.{history};
ghost use Rattle.sect_report.specs.Answer.{report_text};
ghost use Rattle.sect_csv.specs.Tables.{table_text};
ghost use Rattle.sect_tell.specs.Views.{IsExport, IsReport};

use crate::teller::Teller;
use sect_base::Memory;
use sect_command::{Query, Table};
use sect_csv::export;
use sect_edge::Keeper;
use sect_machine::Machine;
use sect_once::Desk;
use sect_report::report;
use std::alloc::Global;
use std::thread::Threads;

/// The report of a query.
#[derive(Clone, Copy, PartialEq, Eq)]
pub struct Report(pub Query);

/// The rows of a table.
#[derive(Clone, Copy, PartialEq, Eq)]
pub struct Export(pub Table);

impl Teller for Report {
    ghost tells = { λ r. IsReport r.0 };

    fn text<R: Threads + Sync, K: Keeper>(
        &self,
        _rt: &R,
        _alloc: Global,
        desk: &Desk<Machine, K>,
        into: &mut Vec<u8>,
    ) -> Result<(), Memory> {
        print_report(&self.0, desk, into)
    }
}

impl Teller for Export {
    ghost tells = { λ e. IsExport e.0 };

    fn text<R: Threads + Sync, K: Keeper>(
        &self,
        _rt: &R,
        _alloc: Global,
        desk: &Desk<Machine, K>,
        into: &mut Vec<u8>,
    ) -> Result<(), Memory> {
        print_export(self.0, desk, into)
    }
}

/// Appends the report of a query. After `Memory` the bytes are as before.
fn print_report<K: Keeper>(
    query: &Query,
    desk: &Desk<Machine, K>,
    into: &mut Vec<u8>,
) -> Result<(), Memory>
    ensures { OnOk result (into.new.items ≡ into.old.items ++ report_text query.now (look (state_of (history desk.now.log)) query.now)) }
{
    let view = desk.look(query)?;
    report(query, &view, into)
}

/// Appends the rows of a table. After `Memory` the bytes are as before.
fn print_export<K: Keeper>(
    table: Table,
    desk: &Desk<Machine, K>,
    into: &mut Vec<u8>,
) -> Result<(), Memory>
    ensures { OnOk result (into.new.items ≡ into.old.items ++ table_text table (look (state_of (history desk.now.log)) (Rows table))) }
{
    let view = desk.look(&Query::Rows(table))?;
    export(table, &view, into)
}

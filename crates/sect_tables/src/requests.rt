// A student's requests whose rows may go on.

ghost use Rattle.std.specs.Prelude.{◌≡◌, IfOk};
ghost use Rattle.csv.specs.Records.{fields_of};
ghost use Rattle.sect_command.specs.declared.command.Command.TheVariants.{Requests};
ghost use Rattle.sect_tables.specs.Fields.{field_of};
ghost use Rattle.sect_tables.specs.Requests.{next_rank, requests_begun, requests_with};
ghost use Rattle.std.specs.Str.{bytes_eq};

use crate::field;
use csv::ByteRecord;
use sect_base::{Items, Memory, StudentId};
use sect_command::Command;
use sect_people::Ask;
use sect_words::same_bytes;
use std::alloc::Global;
use std::marker::Model;

/// A student's requests as far as their rows were read.
pub struct OpenRequests {
    name: Items<u8>,
    student: StudentId,
    asks: Vec<Ask>,
}

/// It is written out, so that a caller does not prove again how each part is dropped.
impl Drop for OpenRequests {
    fn drop(self) {
        let OpenRequests {
            name: _,
            student: _,
            asks: _,
        } = self;
    }
}

impl Model for OpenRequests {
    ghost use Rattle.sect_tables.specs.Requests.{RequestsSoFar};

    ghost Value = { RequestsSoFar };

    ghost view = { λ r. record { name = r.name; student = r.student; asks = r.asks.items } };
}

impl OpenRequests {
    /// The requests that a row begins.
    #[tactic(auto, unfolding(crate::specs::Requests::requests_begun))]
    pub fn begin(
        alloc: Global,
        row: &ByteRecord,
        line: (StudentId, Ask),
    ) -> Result<OpenRequests, Memory>
        ensures { IfOk result (λ so_far. so_far ≡ requests_begun (fields_of row.now) line) }
    {
        let (student, ask) = line;
        let name = Vec::from_slice(alloc, field(row, 1))?;
        let mut asks = Vec::new(alloc);
        asks.push(ask)?;
        Ok(OpenRequests {
            name: Items::from_vec(name),
            student,
            asks,
        })
    }

    /// Whether a row goes on with these requests, whose first field is the same text.
    pub fn has_row(&self, row: &ByteRecord) -> bool
        ensures { result ≡ bytes_eq self.now.name (field_of (fields_of row.now) 1) }
    {
        same_bytes(self.name.as_slice(), field(row, 1))
    }

    /// The rank that the next row has to have.
    pub fn next_rank(&self) -> Result<u64, Memory>
        ensures { IfOk result (λ rank. rank ≡ next_rank self.now) }
    {
        let count = self.asks.len() as u64;
        count.checked_add(1).ok_or(Memory)
    }

    /// The requests with another row of their own.
    #[tactic(auto, unfolding(crate::specs::Requests::requests_with))]
    pub fn with(self, line: (StudentId, Ask)) -> Result<OpenRequests, Memory>
        ensures { IfOk result (λ so_far. so_far ≡ requests_with self line) }
    {
        let OpenRequests {
            name,
            student,
            mut asks,
        } = self;
        asks.push(line.1)?;
        Ok(OpenRequests {
            name,
            student,
            asks,
        })
    }

    /// The command of the requests. It takes no memory.
    pub fn into_command(self) -> Command
        ensures { result ≡ Requests self.student self.asks }
    {
        let OpenRequests {
            name: _,
            student,
            asks,
        } = self;
        Command::Requests {
            student,
            asks: Items::from_vec(asks),
        }
    }
}

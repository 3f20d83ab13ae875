// The command at hand: what it gives, and whether a row goes on with it.

ghost use Rattle.std.specs.Prelude.{◌≡◌, ◌++◌, IfOk, MatchResult, None, OnErr, OnOk, Some};
ghost use Rattle.csv.specs.Records.{fields_of};
ghost use Rattle.sect_tables.specs.Fields.{field_of};
ghost use Rattle.sect_tables.specs.Rows.{command_of, given_of, same_offering, same_student};

use crate::given::Given;
use crate::hand::{AtHand, Group};
use crate::offering::OpenOffering;
use crate::requests::OpenRequests;
use csv::ByteRecord;
use sect_base::Memory;
use sect_command::Command;

/// Gives the command at hand, where there is one. For want of memory nothing is given.
#[tactic(auto, unfolding(crate::specs::Rows::given_of))]
pub fn give(hand: Option<AtHand>, out: &mut Vec<Given>) -> Result<(), Memory>
    ensures given { OnOk result (out.new.items ≡ out.old.items ++ given_of hand) }
    ensures memory { OnErr result (out.new.items ≡ out.old.items) }
{
    let Some(AtHand { first, group }) = hand else {
        return Ok(());
    };
    let command = into_command(group)?;
    out.push(Given {
        row: first,
        command,
    })?;
    Ok(())
}

/// The command of rows.
fn into_command(group: Group) -> Result<Command, Memory>
    ensures { IfOk result (λ command. command ≡ command_of group) }
{
    match group {
        Group::Row(command) => Ok(command),
        Group::Offering(so_far) => Ok(Command::Offering(so_far.into_row()?)),
        Group::Requests(so_far) => Ok(so_far.into_command()),
    }
}

/// The offering at hand with its first row, where a row goes on with it; else what is at hand is given back. It takes no
/// memory.
#[tactic(auto, unfolding(crate::specs::Rows::same_offering))]
pub fn offering_of_row(
    hand: Option<AtHand>,
    row: &ByteRecord,
) -> Result<(u64, OpenOffering), Option<AtHand>>
    ensures { MatchResult result (λ same. same_offering hand (field_of (fields_of row.now) 1) ≡ Some same)
        (λ kept. (same_offering hand (field_of (fields_of row.now) 1) ≡ None) × (kept ≡ hand)) }
{
    match hand {
        Some(
            AtHand {
                first,
                group: Group::Offering(so_far),
            },
        ) => {
            if so_far.has_row(row) {
                Ok((first, so_far))
            } else {
                Err(Some(AtHand {
                    first,
                    group: Group::Offering(so_far),
                }))
            }
        }
        hand => Err(hand),
    }
}

/// The requests at hand with their first row, where a row goes on with them; else what is at hand is given back. It takes
/// no memory.
#[tactic(auto, unfolding(crate::specs::Rows::same_student))]
pub fn requests_of_row(
    hand: Option<AtHand>,
    row: &ByteRecord,
) -> Result<(u64, OpenRequests), Option<AtHand>>
    ensures { MatchResult result (λ same. same_student hand (field_of (fields_of row.now) 1) ≡ Some same)
        (λ kept. (same_student hand (field_of (fields_of row.now) 1) ≡ None) × (kept ≡ hand)) }
{
    match hand {
        Some(
            AtHand {
                first,
                group: Group::Requests(so_far),
            },
        ) => {
            if so_far.has_row(row) {
                Ok((first, so_far))
            } else {
                Err(Some(AtHand {
                    first,
                    group: Group::Requests(so_far),
                }))
            }
        }
        hand => Err(hand),
    }
}

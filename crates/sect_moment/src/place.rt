// Where decisions stand in the catalogue.

ghost use Rattle.std.specs.Prelude.{◌≡◌, [], option_copied};
ghost use Rattle.std.specs.Option.{option_map_or};
ghost use Rattle.sect_model.specs.Choice.{config_in};

use sect_base::ConfigId;
use sect_catalog::{ConfigRow, OfferingRow, SubpartRow};

/// The configuration of an id in the offering.
pub fn config_of_offering(offering: &OfferingRow, config: ConfigId) -> Option<&ConfigRow>
    ensures { option_copied result ≡ config_in offering.now config }
{
    offering
        .configs
        .as_slice()
        .iter()
        .find(|row| row.id == config)
}

/// The subparts of a configuration of the offering.
pub fn subparts_in(offering: &OfferingRow, config: ConfigId) -> &[SubpartRow]
    ensures { result.now ≡ option_map_or (λ g. g.subparts) (config_in offering.now config) [] }
{
    match config_of_offering(offering, config) {
        Some(row) => row.subparts.as_slice(),
        None => &[],
    }
}

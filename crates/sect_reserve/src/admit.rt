// What a reservation or a restriction admits.

ghost use Rattle.std.specs.Prelude.{◌≡◌};
ghost use Rattle.sect_reserve.specs.Audience.{
  admits_config as has_config,
  admits_section as has_section,
  section_named,
  subpart_named,
};

use crate::row::{Includes, Place};
use sect_base::{ConfigId, SectionId, SubpartId};

/// No configuration is listed, or this one is. It takes no memory.
pub fn admits_config(i: &Includes, config: ConfigId) -> bool
    ensures { result ≡ has_config i.now config }
{
    let configs = i.configs.as_slice();
    configs.is_empty() || configs.contains(&config)
}

/// No listed place is in the subpart, or this section of it is listed. It takes no memory.
pub fn admits_section(i: &Includes, subpart: SubpartId, section: SectionId) -> bool
    ensures { result ≡ has_section i.now subpart section }
{
    let places = i.sections.as_slice();
    !names_subpart(places, subpart) || names_section(places, subpart, section)
}

/// Whether a place is in the subpart.
fn names_subpart(places: &[Place], subpart: SubpartId) -> bool
    ensures { result ≡ subpart_named places.now subpart }
{
    places.iter().any(|place| place.subpart == subpart)
}

/// Whether a place is this section in this subpart.
fn names_section(places: &[Place], subpart: SubpartId, section: SectionId) -> bool
    ensures { result ≡ section_named places.now subpart section }
{
    places.iter().any(|place| place.subpart == subpart && place.section == section)
}

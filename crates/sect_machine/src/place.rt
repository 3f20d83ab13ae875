// The listed sections of a row as places, each in its subpart.

ghost use Rattle.std.specs.Prelude.{◌≡◌, ◌++◌, flat_map, find, IfOk, IsTrue, OnOk};
ghost use Rattle.std.specs.Option.{option_map, option_to_list};
ghost use Rattle.sect_model.specs.Change.{place_of};
ghost use Rattle.sect_machine.specs.Placed.{has_section, own_places, place_in, subpart_in as subpart_of_offering};

use sect_base::{Items, Memory, OfferingId, SectionId, SubpartId};
use sect_catalog::{OfferingRow, SubpartRow};
use sect_reserve::Place;
use sect_space::World;
use std::alloc::Global;

/// The sections, which are the offering's own, as places.
pub fn places(
    alloc: Global,
    world: &World,
    offering: OfferingId,
    sections: &[SectionId],
) -> Result<Items<Place>, Memory>
    requires { IsTrue (own_places world.now.world offering (flat_map (place_of world.now.world) sections.now)) }
    ensures { IfOk result (λ places. places ≡ flat_map (place_of world.now.world) sections.now) }
{
    world.recall_kept();
    let mut places = Vec::new(alloc);
    for section in sections {
        add_place(world, offering, *section, &mut places)?;
    }
    Ok(Items::from_vec(places))
}

/// Puts the section as a place of the offering behind the others, where it is one.
fn add_place(
    world: &World,
    offering: OfferingId,
    section: SectionId,
    places: &mut Vec<Place>,
) -> Result<(), Memory>
    ensures { OnOk result (places.new.items ≡ places.old.items ++ option_to_list (place_in world.now.world offering section)) }
{
    if let Some(place) = place(world, offering, section) {
        places.push(place)?;
    }
    Ok(())
}

/// The section as a place of the offering.
fn place(world: &World, offering: OfferingId, section: SectionId) -> Option<Place>
    ensures { result ≡ place_in world.now.world offering section }
{
    let row = world.catalogue().offering(offering)?;
    let subpart = subpart_in(row, section)?;
    Some(Place { subpart, section })
}

/// The offering's subpart that has the section.
fn subpart_in(row: &OfferingRow, section: SectionId) -> Option<SubpartId>
    ensures { result ≡ option_map (λ p. p.id) (subpart_of_offering row.now section) }
{
    for config in row.configs.as_slice() {
        match subpart_of(config.subparts.as_slice(), section) {
            Some(id) => return Some(id),
            None => {}
        }
    }
    None
}

/// The first of the subparts that has the section.
fn subpart_of(subparts: &[SubpartRow], section: SectionId) -> Option<SubpartId>
    ensures { result ≡ option_map (λ p. p.id) (find (has_section section) subparts.now) }
{
    let subpart = subparts.iter().find(|subpart| has(subpart, section))?;
    Some(subpart.id)
}

/// Whether the subpart has the section.
fn has(subpart: &SubpartRow, section: SectionId) -> bool
    ensures { result ≡ has_section section subpart.now }
{
    subpart
        .sections
        .as_slice()
        .iter()
        .any(|row| row.id == section)
}

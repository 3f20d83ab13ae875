// Limits, reserved and unreserved space.

ghost use Rattle.std.specs.Prelude.{◌≡◌, ℕ, ℤ, pos, ◌-ℤ◌, ◌&&◌, ◌+◌, ◌*◌, ◌≤◌, ◌==◌, cond, filter, length, sum_by, IfSome};
ghost use Rattle.std.specs.List.{list_any};
ghost use Rattle.std.specs.Option.{is_none};
ghost use Rattle.sect_catalog.specs.Catalogue.{places as places_in, places_of_all};
ghost use Rattle.sect_reserve.specs.Audience.{active as is_active};
ghost use Rattle.sect_model.specs.Counts.{count_of};
ghost use Rattle.sect_model.specs.Space.{
  places_at,
  names as is_named,
  active_at,
  remaining as remaining_of,
  has_unlimited as are_unlimited,
  space_of,
  unreserved_of,
};
ghost use Rattle.sect_numbers.specs.Own.{level_offering as offering_of_level};

use crate::world::World;
use sect_base::{ConfigId, Level, Limit, OfferingId, SectionId};
use sect_catalog::{ConfigRow, OfferingRow};
use sect_numbers::laws::a_level_is_named_by_its_offering;
use sect_reserve::{Place, Reservation, active};

impl World {
    /// The unreserved space of a level, which may be below 0: its limit, less its enrolments, less what the active
    /// reservations that name it still hold back; and 0 where an active reservation without a limit names it. None
    /// exactly where the level has no limit or isn't known. It takes no memory.
    pub fn unreserved(&self, level: Level) -> Option<i64>
        ensures { result ≡ unreserved_of self.now.world level }
    {
        match self.places(level) {
            Some(places) => Some(self.space(level, places)),
            None => None,
        }
    }

    /// The places at a level, for an offering the sum over its configurations. None exactly where the level has no limit
    /// or isn't known. It takes no memory.
    #[inline(always)]
    pub fn places(&self, level: Level) -> Option<u64>
        ensures value { result ≡ places_at self.now.world level }
        ensures bound { IfSome result (λ n. n ≤ 42949672950) }
    {
        match level {
            Level::Course(id) => places(self.catalogue().course(id)?.1.limit),
            Level::Offering(id) => self.places_of(id),
            Level::Config(id) => places(self.catalogue().config(id)?.limit),
            Level::Section(id) => places(self.catalogue().section(id)?.limit),
        }
    }

    /// The places of an offering. None where one of its configurations has no limit, or it isn't known.
    fn places_of(&self, id: OfferingId) -> Option<u64>
        ensures value { result ≡ places_at self.now.world (Level.Offering id) }
        ensures bound { IfSome result (λ n. n ≤ 42949672950) }
    {
        self.recall_kept();
        match self.catalogue().offering(id) {
            Some(row) => offering_places(row),
            None => None,
        }
    }

    /// The unreserved space of a level with so many places.
    fn space(&self, level: Level, places: u64) -> i64
        requires { places ≤ 42949672950 }
        ensures { result ≡ space_of self.now.world level places }
    {
        if self.has_unlimited(level) {
            0
        } else {
            difference(places, self.taken(level))
        }
    }

    /// The reservations of the level's offering, among which are all that name the level. It takes no memory.
    fn reservations_near(&self, level: Level) -> &[Reservation]
        ensures near { active_at self.now.world level ≡ filter (λ r. is_active r self.now.world.day && is_named r level) result.now }
        ensures bound { length result.now ≤ 1000000 }
    {
        self.recall_kept();
        a_level_is_named_by_its_offering();
        match self.level_offering(level) {
            Some(offering) => self.reservations(offering),
            None => &[],
        }
    }

    /// The offering of a level.
    fn level_offering(&self, level: Level) -> Option<OfferingId>
        ensures { result ≡ offering_of_level self.now.world level }
    {
        match level {
            Level::Course(id) => Some(self.catalogue().course(id)?.0.id),
            Level::Offering(id) => Some(id),
            Level::Config(id) => self.parts.config_offering(id),
            Level::Section(id) => self.parts.section_offering(id),
        }
    }

    /// Whether an active reservation that names the level has no limit.
    fn has_unlimited(&self, level: Level) -> bool
        ensures { result ≡ are_unlimited (active_at self.now.world level) }
    {
        self.any_unlimited(level, self.reservations_near(level))
    }

    /// Whether one of the rows that are active and name the level has no limit.
    fn any_unlimited(&self, level: Level, rows: &[Reservation]) -> bool
        ensures { result ≡ list_any (λ r. (is_active r self.now.world.day && is_named r level) && is_none (places_in r.limit)) rows.now }
    {
        rows.iter().any(|row| self.is_active_at(level, row) && is_boundless(row.limit))
    }

    /// The enrolments at the level, and what the active reservations that name it still hold back.
    fn taken(&self, level: Level) -> u64
        ensures value { result ≡ count_of self.now.world level + sum_by (remaining_of self.now.world) (active_at self.now.world level) }
        ensures bound { result ≤ 4300000000000000 }
    {
        self.recall_kept();
        u64::from(self.count(level)) + self.held_back(level, self.reservations_near(level))
    }

    /// What those of the rows that are active and name the level still hold back.
    fn held_back(&self, level: Level, rows: &[Reservation]) -> u64
        requires { length rows.now ≤ 1000000 }
        ensures value { result ≡ sum_by (λ r. cond (is_active r self.now.world.day && is_named r level) (remaining_of self.now.world r) 0) rows.now }
        ensures bound { result ≤ 1000000 * 4294967295 }
    {
        let mut sum = 0u64;
        for row in rows {
            sum += u64::from(self.held_by(level, row));
        }
        sum
    }

    /// What the reservation still holds back at the level: nothing where it isn't active or doesn't name the level.
    fn held_by(&self, level: Level, row: &Reservation) -> u32
        ensures { result ≡ cond (is_active row.now self.now.world.day && is_named row.now level) (remaining_of self.now.world row.now) 0 }
    {
        if self.is_active_at(level, row) {
            self.remaining(row)
        } else {
            0
        }
    }

    /// Whether the reservation is active on the world's day and names the level. It takes no memory.
    pub fn is_active_at(&self, level: Level, row: &Reservation) -> bool
        ensures { result ≡ is_active row.now self.now.world.day && is_named row.now level }
    {
        active(row, self.day()) && names(row, level)
    }

    /// How many may still enrol by the reservation, and 0 where it has no limit. It takes no memory.
    pub fn remaining(&self, row: &Reservation) -> u32
        ensures { result ≡ remaining_of self.now.world row.now }
    {
        match row.limit {
            Limit::Places(limit) => limit.saturating_sub(self.used(row.id)),
            Limit::Unlimited => 0,
        }
    }
}

/// Whether the reservation names the level: its offering, and a configuration or section that it lists. It takes no memory.
pub fn names(row: &Reservation, level: Level) -> bool
    ensures { result ≡ is_named row.now level }
{
    match level {
        Level::Course(_) => false,
        Level::Offering(id) => row.offering == id,
        Level::Config(id) => lists_config(row.includes.configs.as_slice(), id),
        Level::Section(id) => lists_place(row.includes.sections.as_slice(), id),
    }
}

/// Whether the configuration is among those listed.
fn lists_config(configs: &[ConfigId], id: ConfigId) -> bool
    ensures { result ≡ list_any (λ c. c.0 == id.0) configs.now }
{
    configs.iter().any(|config| *config == id)
}

/// Whether the section is among the places listed.
fn lists_place(places: &[Place], id: SectionId) -> bool
    ensures { result ≡ list_any (λ p. p.section.0 == id.0) places.now }
{
    places.iter().any(|place| place.section == id)
}

/// Whether the limit is unlimited.
fn is_boundless(limit: Limit) -> bool
    ensures { result ≡ is_none (places_in limit) }
{
    matches!(limit, Limit::Unlimited)
}

/// The number of places of a limit. None where it is unlimited.
fn places(limit: Limit) -> Option<u64>
    ensures value { result ≡ places_in limit }
    ensures bound { IfSome result (λ n. n ≤ 4294967295) }
{
    match limit {
        Limit::Places(places) => Some(u64::from(places)),
        Limit::Unlimited => None,
    }
}

/// The places of an offering of at most ten configurations: the sum over them. None where one of them has no limit. It takes no
/// memory.
#[inline(always)]
pub fn offering_places(row: &OfferingRow) -> Option<u64>
    requires { length row.now.configs ≤ 10 }
    ensures value { result ≡ places_of_all row.now.configs }
    ensures bound { IfSome result (λ n. n ≤ 42949672950) }
{
    total(row.configs.as_slice())
}

/// The sum of the limits, at most ten, and None where one of them is none.
fn total(configs: &[ConfigRow]) -> Option<u64>
    requires { length configs.now ≤ 10 }
    ensures value { result ≡ places_of_all configs.now }
    ensures bound { IfSome result (λ n. n ≤ 42949672950) }
{
    let mut sum = 0u64;
    for config in configs {
        match config.limit {
            Limit::Places(places) => sum += u64::from(places),
            Limit::Unlimited => return None,
        }
    }
    Some(sum)
}

/// The places less those taken, which may be below zero.
fn difference(places: u64, taken: u64) -> i64
    requires places { places ≤ 42949672950 }
    requires taken { taken ≤ 4300000000000000 }
    ensures { result ≡ pos places -ℤ pos taken }
{
    places as i64 - taken as i64
}

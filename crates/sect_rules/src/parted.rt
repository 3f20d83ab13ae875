// The reservations of an offering as options, one at a time, with nothing sorted.

ghost use Rattle.std.specs.Prelude.{◌≡◌, ◌&&◌, ◌==◌, nat_lt, map, filter, find, count_by, slice_get, true, Some, IfSome, Contains, option_copied, IsTrue};
ghost use Rattle.std.specs.Option.{option_map};
ghost use Rattle.sect_people.specs.Order.{all_differ, sorted_by};
ghost use Rattle.sect_model.specs.declared.pick.Pick.TheVariants.{Reservation as by_reservation};
ghost use Rattle.sect_model.specs.Path.{reservation_options};
ghost use Rattle.sect_moment.specs.Found.{id_of as its_id};
ghost use Rattle.sect_rules.specs.Part.{is_of_part as of_part, are_plain};

use crate::nth::rises_from;
use sect_base::ReservationId;
use sect_reserve::Reservation;
use std::marker::Model;

/// Reservations of different ids, to be taken as options: the obligatory ones first and each part by id, and behind them
/// none. Contracts see them as they stand.
#[derive(Drop)]
pub struct Parted<'a> {
    rows: &'a [Reservation],
    // How many are obligatory.
    musts: usize,
    // Whether none is, and they stand in rising order, as they usually do. It is found out once.
    plain: bool,
}

impl<'a> Model for Parted<'a> {
    ghost use Rattle.std.specs.Prelude.{◌≡◌, List, map, count_by, true, IsTrue};
    ghost use Rattle.sect_people.specs.Order.{all_differ};
    ghost use Rattle.sect_reserve.specs.declared.row.Reservation.{Reservation};
    ghost use Rattle.sect_moment.specs.Found.{id_of as its_id};
    ghost use Rattle.sect_rules.specs.Part.{is_of_part, are_plain};

    ghost Value = { List Reservation };

    ghost view = { λ p. p.rows.now };

    ghost invariant = { λ p. IsTrue (all_differ (map (λ r. r.id.0) p.rows.now)) × (p.musts ≡ count_by (is_of_part true) p.rows.now)
        × (p.plain ≡ are_plain p.rows.now) };
}

impl<'a> Parted<'a> {
    /// The reservations, whose ids differ.
    pub fn new(rows: &'a [Reservation]) -> Parted<'a>
        requires { IsTrue (all_differ (map (λ r. r.id.0) rows.now)) }
        ensures { result ≡ rows.now }
    {
        let musts = part_len(rows, true);
        let plain = rises_from(0, rows) && musts == 0;
        Parted { rows, musts, plain }
    }

    /// The reservation at a place, or none.
    #[inline(always)]
    pub fn get(&self, i: usize) -> Option<Option<&'a Reservation>>
        ensures value { option_map (λ row. by_reservation (its_id row)) result ≡ slice_get (reservation_options self.now) i }
        ensures among { IfSome result (λ row. IfSome row (λ r. Contains self.now r.now)) }
    {
        if self.plain {
            plain_option(self.rows, i)
        } else {
            mixed_option(self.rows, self.musts, i)
        }
    }
}

/// The id of a reservation, None where there is to be none.
#[inline(always)]
pub fn id_of(row: Option<&Reservation>) -> Option<ReservationId>
    ensures { result ≡ its_id row.entry }
{
    let row = row?;
    Some(row.id)
}

/// The reservation at a place, where the reservations are options as they stand, or none.
#[inline(always)]
fn plain_option(rows: &[Reservation], i: usize) -> Option<Option<&Reservation>>
    requires { IsTrue (are_plain rows.now) }
    ensures value { option_map (λ row. by_reservation (its_id row)) result ≡ slice_get (reservation_options rows.now) i }
    ensures among { IfSome result (λ row. IfSome row (λ r. Contains rows.now r.now)) }
{
    if i < rows.len() {
        row_option(rows, i)
    } else if i == rows.len() {
        Some(None)
    } else {
        None
    }
}

/// The reservation at a place, where so many are obligatory, or none.
fn mixed_option(rows: &[Reservation], musts: usize, i: usize) -> Option<Option<&Reservation>>
    requires differ { IsTrue (all_differ (map (λ r. r.id.0) rows.now)) }
    requires musts { musts ≡ count_by (of_part true) rows.now }
    ensures value { option_map (λ row. by_reservation (its_id row)) result ≡ slice_get (reservation_options rows.now) i }
    ensures among { IfSome result (λ row. IfSome row (λ r. Contains rows.now r.now)) }
{
    if i < musts {
        part_option(rows, true, i)
    } else if i < rows.len() {
        part_option(rows, false, i - musts)
    } else if i == rows.len() {
        Some(None)
    } else {
        None
    }
}

/// The reservation at a place, as an option.
#[inline(always)]
fn row_option(rows: &[Reservation], i: usize) -> Option<Option<&Reservation>>
    ensures value { option_map (λ row. by_reservation (its_id row)) result ≡ slice_get (map (λ r. by_reservation (Some r.id)) rows.now) i }
    ensures among { IfSome result (λ row. IfSome row (λ r. Contains rows.now r.now)) }
{
    let row = rows.get(i)?;
    Some(Some(row))
}

/// The reservation at a place among the obligatory ones, or among the others, as an option.
fn part_option(rows: &[Reservation], must: bool, i: usize) -> Option<Option<&Reservation>>
    requires { IsTrue (all_differ (map (λ r. r.id.0) rows.now)) }
    ensures value { option_map (λ row. by_reservation (its_id row)) result ≡ slice_get (map (λ r. by_reservation (Some r.id)) (sorted_by (λ r. r.id.0) (filter (of_part must) rows.now))) i }
    ensures among { IfSome result (λ row. IfSome row (λ r. Contains rows.now r.now)) }
{
    let row = nth_reservation(rows, must, i)?;
    Some(Some(row))
}

/// The reservation that `i` others precede by id, among the obligatory ones or among the others.
fn nth_reservation(rows: &[Reservation], must: bool, i: usize) -> Option<&Reservation>
    requires { IsTrue (all_differ (map (λ r. r.id.0) rows.now)) }
    ensures value { option_copied result ≡ slice_get (sorted_by (λ r. r.id.0) (filter (of_part must) rows.now)) i }
    ensures among { IfSome result (λ row. Contains rows.now row.now) }
{
    scan_part(rows, must, i)
}

/// The first of the obligatory ones, or of the others, that `i` of them precede by id.
fn scan_part(rows: &[Reservation], must: bool, i: usize) -> Option<&Reservation>
    ensures { option_copied result ≡ find (λ row. of_part must row && count_by (λ r. of_part must r && nat_lt r.id.0 row.id.0) rows.now == i) rows.now }
{
    rows.iter().find(|row| is_of_part(row, must) && reservations_below(rows, must, row.id.0) == i)
}

/// How many of the obligatory ones, or of the others, have a smaller id.
fn reservations_below(rows: &[Reservation], must: bool, number: u32) -> usize
    ensures { result ≡ count_by (λ r. of_part must r && nat_lt r.id.0 number) rows.now }
{
    rows.iter()
        .filter(|row| is_of_part(row, must) && row.id.0 < number)
        .count()
}

/// How many are obligatory, or how many are not.
fn part_len(rows: &[Reservation], must: bool) -> usize
    ensures { result ≡ count_by (of_part must) rows.now }
{
    rows.iter().filter(|row| is_of_part(row, must)).count()
}

/// Whether the reservation is obligatory, or whether it is not.
fn is_of_part(row: &Reservation, must: bool) -> bool
    ensures { result ≡ of_part must row.now }
{
    if must { row.must } else { !row.must }
}

// What the numbers rest on. The functions do nothing: the contract of each is a law.

ghost use Rattle.sect_numbers.specs.Laws.{
  CountMore,
  CountedMore,
  UsedMore,
  CreditsMore,
  InsertedIsMore,
  PutBackIsMore,
  LeftIsMore,
  SectionsDiffer,
  EnrolIsMore,
  LeaveIsMore,
  CountedIds,
};
ghost use Rattle.sect_numbers.specs.Held.{HeldMore, SpaceByNumbers, ReservationMore, ReserveIsMore, UnreserveIsMore, ReservationPutBack, ExpiryTurns, DayTurns};
ghost use Rattle.sect_numbers.specs.Quiet.{QuietKeepsCounts, ToldOfOthers, ToldBefore};
ghost use Rattle.sect_numbers.specs.Own.{ActiveOfOffering, NoneActive};

/// One enrolment more counts once at each of its levels, and uses its reservation once.
pub fn one_more_counts_once()
    ensures count { CountMore }
    ensures counted { CountedMore }
    ensures used { UsedMore }
    ensures credits { CreditsMore }
{}

/// Enrolling puts one enrolment more into the list, leaving takes it out, and so it is put back.
pub fn lists_have_one_more()
    ensures inserted { InsertedIsMore }
    ensures put_back { PutBackIsMore }
    ensures left { LeftIsMore }
{}

/// The sections of an enrolment differ.
pub fn sections_differ()
    ensures { SectionsDiffer }
{}

/// The ids of which a count of uses is kept, as a list.
pub fn counted_ids_are_listed()
    ensures { CountedIds }
{}

/// Enrolling makes a world with one enrolment more, and leaving one with one less.
pub fn changes_are_one_more_or_less()
    ensures enrol { EnrolIsMore }
    ensures leave { LeaveIsMore }
{}

/// One enrolment more takes a place that its reservation held back, at each level that this names.
pub fn one_more_is_held_no_longer()
    ensures held { HeldMore }
    ensures space { SpaceByNumbers }
{}

/// A change that enrols nobody, and by which nobody leaves, leaves the counts as they are.
pub fn other_changes_count_nothing()
    ensures counts { QuietKeepsCounts }
    ensures told { ToldOfOthers }
    ensures before { ToldBefore }
{}

/// A reservation more or less, another expiry day and another day change what is held back by what these hold back.
pub fn reservations_hold_places()
    ensures more { ReservationMore }
    ensures reserve { ReserveIsMore }
    ensures unreserve { UnreserveIsMore }
    ensures put_back { ReservationPutBack }
    ensures expiry { ExpiryTurns }
    ensures day { DayTurns }
{}

/// The active reservations that name a level are among those of its offering.
pub fn a_level_is_named_by_its_offering()
    ensures own { ActiveOfOffering }
    ensures none { NoneActive }
{}

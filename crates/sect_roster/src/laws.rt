// What undoing a change of a list gives back. The functions do nothing: the contract of each is a law.

ghost use Rattle.sect_roster.specs.Undone.{
  EnrolmentComesBack,
  ReservationComesBack,
  RestrictionComesBack,
  EnrolmentGoes,
  ReservationGoes,
  RestrictionGoes,
};

/// What was taken out and is put back at its place leaves the list that was.
pub fn what_was_removed_comes_back()
    ensures enrolment { EnrolmentComesBack }
    ensures reservation { ReservationComesBack }
    ensures restriction { RestrictionComesBack }
{}

/// What was put in and is taken out leaves the list that was.
pub fn what_was_inserted_goes()
    ensures enrolment { EnrolmentGoes }
    ensures reservation { ReservationGoes }
    ensures restriction { RestrictionGoes }
{}

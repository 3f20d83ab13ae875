// The laws of tables that are written and read back. The functions do nothing: the contract of each is a law.

ghost use Rattle.sect_return.specs.Back.{OfferingsReadBack, RequestsReadBack, ReservationsReadBack, StudentsReadBack};

/// The text that a table has for rows with texts is read, to its end and without a fault, as the commands of the rows.
pub fn a_table_reads_back()
    ensures offerings { OfferingsReadBack }
    ensures students { StudentsReadBack }
    ensures requests { RequestsReadBack }
    ensures reservations { ReservationsReadBack }
{}

// Laws of the words of a line.

ghost use Rattle.sect_check.specs.Complaints.{NamesOthers};
ghost use Rattle.sect_check.specs.Walks.{PassesRequests};

/// The words of a line are passed to its end exactly where it is a request.
pub fn a_walk_ends_where_a_line_is_a_request()
    ensures { PassesRequests }
{}

/// Nothing is said of a line exactly where it is a request.
pub fn nothing_is_said_of_requests_alone()
    ensures { NamesOthers }
{}

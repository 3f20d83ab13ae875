// The laws of a survey. The functions do nothing: the contract of each is a law.

ghost use Rattle.sect_survey.specs.Laws.{FoundHasAChoice};

/// What the search for a request finds has a choice.
pub fn a_found_request_has_a_choice()
    ensures { FoundHasAChoice }
{}

// The phrases of the statuses that are answered.

ghost use Rattle.std.specs.Prelude.{◌≡◌, codes};
ghost use Rattle.sect_talk.specs.Pages.{phrase};

/// The phrase of each status that is answered.
#[tactic(auto, unfolding(crate::specs::Pages::phrase))]
pub fn each_status_has_its_phrase()
    ensures done { phrase 200 ≡ codes "OK" }
    ensures refused { (phrase 400 ≡ codes "Bad Request") × (phrase 404 ≡ codes "Not Found")
        × (phrase 405 ≡ codes "Method Not Allowed") × (phrase 409 ≡ codes "Conflict") }
    ensures unread { (phrase 411 ≡ codes "Length Required") × (phrase 413 ≡ codes "Payload Too Large") × (phrase 501 ≡ codes "Not Implemented") }
    ensures unable { (phrase 503 ≡ codes "Service Unavailable") × (phrase 507 ≡ codes "Insufficient Storage") }
{}

// Laws of the bytes of a connection.

ghost use Rattle.std.specs.Prelude.{◌++◌, ℕ, List};
ghost use Rattle.httparse.specs.Grammar.{RequestHead};
ghost use Rattle.httparse.specs.Spans.{IsRequestAt, IsRequestWithin};
ghost use Rattle.httparse.specs.declared.spans.HeaderSpan.{HeaderSpan};
ghost use Rattle.httparse.specs.declared.spans.RequestSpans.{RequestSpans};
ghost use Rattle.sect_talk.specs.Rest.{IsBlank, IsCut};

/// A head stays where it is when more bytes come behind it.
pub fn a_head_stays()
    ensures within { (bytes more : List ℕ) (spans : List HeaderSpan) (r : RequestSpans) → IsRequestWithin bytes spans r
        → IsRequestWithin (bytes ++ more) spans r }
    ensures at { (bytes more : List ℕ) (spans : List HeaderSpan) (r : RequestSpans) (h : RequestHead) → IsRequestWithin bytes spans r
        → IsRequestAt bytes spans r h → IsRequestAt (bytes ++ more) spans r h }
{}

/// Bytes that end between requests don't end inside one.
pub fn a_blank_rest_is_not_cut()
    ensures { (rest : List ℕ) → IsBlank rest → IsCut rest → ⊥ }
{}

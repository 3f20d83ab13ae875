// Laws of the grammar.

ghost use Rattle.sect_clerk_words.specs.Laws.{PlainWords, Worked};

/// Some lists of words, with what they ask for.
pub fn words_are_read_as_written()
    ensures { Worked }
{}

/// Whatever may be asked for is asked for by its plain words.
pub fn plain_words_are_read()
    ensures { PlainWords }
{}

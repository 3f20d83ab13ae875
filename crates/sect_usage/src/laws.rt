// Laws of the grammar.

ghost use Rattle.sect_usage.specs.Laws.{AnyOrder, AskedInRange, OneItem, Worked};
ghost use Rattle.sect_usage.specs.Spelling.{PlainWords};

/// Some lists of words, with what they ask for.
pub fn words_are_read_as_written()
    ensures { Worked }
{}

/// `--name=value` and `--name value` are one item.
pub fn both_spellings_of_an_option_are_one_item()
    ensures { OneItem }
{}

/// Options may stand in any order, and between the words that stand alone.
pub fn options_may_stand_in_any_order()
    ensures { AnyOrder }
{}

/// Whatever may be asked for is asked for by its plain words.
pub fn plain_words_are_read()
    ensures { PlainWords }
{}

/// What words ask for is in its range.
pub fn what_is_asked_is_in_range()
    ensures { AskedInRange }
{}

// The words behind a command, cut into items. It takes no memory.

ghost use Rattle.std.specs.Prelude.{◌≡◌, ◌<◌, ◌==◌, ◌∷◌, [], IfSome, length, map, option_map, position};
ghost use Rattle.std.specs.Str.{IsUtf8};
ghost use Rattle.std.specs.String.{string_bytes};
ghost use Rattle.sect_usage.specs.Items.{
  positionals_with,
  cut_of,
  dashed_cut,
  equals_at,
  items_of,
  items_with,
  option_by,
  option_cut,
  option_with,
  positionals as positionals_of,
  value_of,
};
ghost use Rattle.sect_usage.specs.Seen.{IsWorded, IsWordedCut, cut_seen, item_seen};

use sect_words::same_bytes;

/// A word that stands alone, an option with its value, or a word that is neither.
#[derive(Clone, Copy)]
pub(crate) enum Item<'a> {
    Positional(&'a [u8]),
    Setting(&'a [u8], &'a [u8]),
    Bad,
}

/// A word by itself: an item, or the name of an option whose value is the next word.
#[derive(Clone, Copy)]
pub(crate) enum Cut<'a> {
    Whole(Item<'a>),
    Named(&'a [u8]),
}

/// The first item of the words, and the words behind it.
pub(crate) fn next_item(words: &[String]) -> Option<(Item, &[String])>
    ensures item { items_with (option_map (λ r. (item_seen r.0, items_of (map string_bytes r.1.now))) result) ≡ items_of (map string_bytes words.now) }
    ensures shorter { IfSome result (λ r. length r.1.now < length words.now) }
    ensures worded { IfSome result (λ r. IsWorded r.0) }
{
    match words {
        [] => None,
        [word, behind @ ..] => match cut_word(word.as_str().as_bytes()) {
            Cut::Whole(item) => Some((item, behind)),
            Cut::Named(name) => match behind {
                [] => Some((Item::Bad, behind)),
                [value, others @ ..] => Some((setting(name, value.as_str().as_bytes()), others)),
            },
        },
    }
}

/// A word by itself.
fn cut_word(word: &[u8]) -> Cut
    requires { IsUtf8 word.now }
    ensures cut { cut_seen result ≡ cut_of word.now }
    ensures worded { IsWordedCut result }
{
    match word {
        [] => Cut::Whole(Item::Bad),
        [b'-', text @ ..] => cut_dashed(text),
        _ => Cut::Whole(Item::Positional(word)),
    }
}

/// A word behind its first dash.
fn cut_dashed(word: &[u8]) -> Cut
    requires { IsUtf8 word.now }
    ensures cut { cut_seen result ≡ dashed_cut word.now }
    ensures worded { IsWordedCut result }
{
    match word {
        [b'-', text @ ..] => cut_option(text),
        _ => Cut::Whole(Item::Bad),
    }
}

/// The place of the first `=`.
fn equals_in(text: &[u8]) -> Option<usize>
    ensures { result ≡ equals_at text.now }
{
    text.iter().position(|byte| *byte == b'=')
}

/// What stands behind two dashes.
fn cut_option(text: &[u8]) -> Cut
    requires { IsUtf8 text.now }
    ensures cut { cut_seen result ≡ option_cut text.now (equals_at text.now) }
    ensures worded { IsWordedCut result }
{
    match equals_in(text) {
        Some(at) => Cut::Whole(with_value(&text[..at], &text[at + 1..])),
        None if text.is_empty() => Cut::Whole(Item::Bad),
        None => Cut::Named(text),
    }
}

/// An option whose name and value stand in one word.
fn with_value<'a>(name: &'a [u8], value: &'a [u8]) -> Item<'a>
    requires { IsUtf8 value.now }
    ensures item { item_seen result ≡ option_with name.now value.now }
    ensures worded { IsWorded result }
{
    if name.is_empty() || value.is_empty() {
        Item::Bad
    } else {
        Item::Setting(name, value)
    }
}

/// An option whose value is a word of its own.
fn setting<'a>(name: &'a [u8], value: &'a [u8]) -> Item<'a>
    requires { IsUtf8 value.now }
    ensures item { item_seen result ≡ option_by name.now value.now }
    ensures worded { IsWorded result }
{
    match value {
        [] => Item::Bad,
        [b'-', ..] => Item::Bad,
        _ => Item::Setting(name, value),
    }
}

/// The first value of an option of this name.
pub fn value<'a>(name: &[u8], words: &'a [String]) -> Option<&'a [u8]>
    ensures worded { IfSome result (λ v. IsUtf8 v.now) }
    ensures value { option_map (λ v. v.now) result ≡ value_of name.now (items_of (map string_bytes words.now)) }
{
    let mut rest = words;
    while let Some((item, behind)) = next_item(rest) {
        if let Item::Setting(other, value) = item {
            if same_bytes(other, name) {
                return Some(value);
            }
        }
        rest = behind;
    }
    None
}

/// The first word that stands alone, and the words behind it.
pub fn next_positional(words: &[String]) -> Option<(&[u8], &[String])>
    ensures { positionals_with (option_map (λ r. (r.0.now, positionals_of (items_of (map string_bytes r.1.now)))) result)
        ≡ positionals_of (items_of (map string_bytes words.now)) }
{
    let mut rest = words;
    while let Some((item, behind)) = next_item(rest) {
        if let Item::Positional(word) = item {
            return Some((word, behind));
        }
        rest = behind;
    }
    None
}

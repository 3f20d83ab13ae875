// Lines of the input as texts.

use sect_base::Memory;
use sect_words::print_text;

/// Puts the line as it is, and a line feed, behind the text.
pub fn put_as_it_is(line: &str, text: &mut Vec<u8>) -> Result<(), Memory> {
    print_text(line, text)?;
    print_text("\n", text)
}

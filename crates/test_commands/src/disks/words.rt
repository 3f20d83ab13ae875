// Numbers in a line.

use sect_base::Memory;
use std::alloc::Global;

/// The bytes of a list of numbers with commas between them.
pub fn bytes_of(alloc: Global, text: &str) -> Result<Vec<u8>, Memory> {
    let mut bytes = Vec::new(alloc);
    for number in numbers_of(alloc, text)?.as_slice() {
        if let Ok(byte) = u8::try_from(*number) {
            bytes.push(byte)?;
        }
    }
    Ok(bytes)
}

/// The numbers of such a list.
pub fn numbers_of(alloc: Global, text: &str) -> Result<Vec<u64>, Memory> {
    let mut numbers = Vec::new(alloc);
    for word in text.split(',') {
        if let Ok(number) = word.parse::<u64>() {
            numbers.push(number)?;
        }
    }
    Ok(numbers)
}

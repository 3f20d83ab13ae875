// The words of the command line.

use sect_script::Status;
use std::{env, io};

/// The words behind the program's name. One that is no text is a bad word.
pub fn words_of(rt: HostRuntime) -> Result<Vec<String>, Status> {
    let args = match env::args(&rt) {
        Ok(args) => args,
        Err(error) if error.kind() == io::ErrorKind::OutOfMemory => return Err(Status::Memory),
        Err(_) => return Err(Status::BadWords),
    };
    let mut words = Vec::new(rt.alloc());
    for word in args.skip(1) {
        if words.push(word).is_err() {
            return Err(Status::Memory);
        }
    }
    Ok(words)
}

// The numbers of standard input, output and error.

use std::fs::File;
use std::os::fd::{AsRawFd, IntoRawFd};

/// The number of standard error. Those of standard input and output are 0 and 1.
const STANDARD_ERROR: i32 = 2;

/// Gives each of the three numbers under which no file is open, where the process was begun without one, to the root folder,
/// which gives no bytes and takes none. So no file that is opened later is read or written in their place.
pub fn hold_standard_files(rt: HostRuntime) {
    for _ in 0..3 {
        match File::open(&rt, "/") {
            Ok(folder) if folder.as_raw_fd() <= STANDARD_ERROR => {
                let _ = folder.into_raw_fd();
            }
            _ => return,
        }
    }
}

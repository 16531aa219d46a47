//! The first three numbers of open files, which are those of standard input, output and error.

use std::fs::File;
use std::io;
use std::os::unix::io::{AsRawFd, RawFd};

// The number of standard error, the last one of the three.
const LAST: RawFd = 2;

/// Opens an empty file, which can't be written, for each of the three that isn't open. As long as these are held, no file that a run
/// opens gets such a number, and with it what is meant for standard output or error.
pub fn hold_standard_files(rt: &HostRuntime) -> io::Result<Vec<File>> {
    let mut held = Vec::new(rt.alloc());
    for _ in 0..3 {
        let file = File::open(rt, "/dev/null")?;
        if file.as_raw_fd() > LAST {
            break;
        }
        held.push(file)?;
    }
    Ok(held)
}

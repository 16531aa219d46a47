//! A watched device is asked by each call, and whether it failed is remembered.

ghost use Rattle.std.specs.Prelude.{◌≤◌, IfOk};

use crate::inputs::{Text, field, unreadable};
use device_tally::Tally;
use std::alloc::Global;
use std::io;
use std::io::{Read, Write};

/// Counts its calls, and answers each of them alike: by so many bytes, or by an error.
#[derive(Drop)]
struct Counted {
    calls: u32,
    bytes: Option<usize>,
}

impl Counted {
    fn answer(&mut self, most: usize) -> io::Result<usize>
        ensures { IfOk result (λ n. n ≤ most) }
    {
        self.calls = self.calls.wrapping_add(1);
        match self.bytes {
            Some(bytes) => Ok(bytes.min(most)),
            None => Err(io::ErrorKind::Other.into()),
        }
    }
}

impl Read for Counted {
    fn read(&mut self, buf: &mut [u8]) -> io::Result<usize> {
        self.answer(buf.len())
    }
}

impl Write for Counted {
    fn write(&mut self, buf: &[u8]) -> io::Result<usize> {
        self.answer(buf.len())
    }

    fn flush(&mut self) -> io::Result<()> {
        self.answer(0).map(|_| ())
    }
}

/// Makes a call with two bytes, or room for them, on a device that answers so many bytes, or fails where that is no number. How often
/// the device is asked, and whether it had failed before and after the call.
pub fn answer(alloc: Global, fields: &[&str]) -> Text {
    let bytes = field(fields, 1).parse::<usize>().ok();
    let mut tally = Tally::new(Counted { calls: 0, bytes });
    let before = tally.failed();
    let mut buf = [0u8; 2];
    let _ = match field(fields, 0) {
        "read" => tally.read(&mut buf).is_ok(),
        "read_exact" => tally.read_exact(&mut buf).is_ok(),
        "write" => tally.write(&buf).is_ok(),
        "write_all" => tally.write_all(&buf).is_ok(),
        "flush" => tally.flush().is_ok(),
        _ => return unreadable(alloc),
    };
    let after = tally.failed();
    let device = tally.into_inner();
    format!(in alloc; "{} {before} {after}", device.calls)
}

//! An output that remembers why it couldn't be written.

use std::io;
use std::io::Write;

/// Passes what is written on to its device, and remembers the last error that this answered.
#[derive(Drop)]
pub struct WatchedOutput<W> {
    device: W,
    error: Option<io::Error>,
}

impl<W: Write + Drop> WatchedOutput<W> {
    /// An output that goes to the device.
    pub fn new(device: W) -> WatchedOutput<W> {
        WatchedOutput {
            device,
            error: None,
        }
    }

    /// The last error of the device; none where it had none.
    pub fn error(&self) -> Option<io::Error> {
        self.error
    }
}

impl<W: Write> Write for WatchedOutput<W> {
    fn write(&mut self, buf: &[u8]) -> io::Result<usize> {
        let result = self.device.write(buf);
        if let Err(error) = result {
            self.error = Some(error);
        }
        result
    }

    fn flush(&mut self) -> io::Result<()> {
        let result = self.device.flush();
        if let Err(error) = result {
            self.error = Some(error);
        }
        result
    }
}

//! A device that is watched: whether one of the calls failed.

ghost use Rattle.std.specs.Prelude.{◌≡◌, length, true, false, ◌||◌, is_err, OnOk};
ghost use Rattle.std.specs.Io.{ReadsAtMost, WritesAtMost};
ghost use Rattle.std.specs.Io.KnownBytes.{Keeps, Appends, Consumes, ReadConsumes, WriteAppends};
ghost use Rattle.device_tally.specs.Tally.{write_failed};

use std::io;
use std::io::{Read, Write};
use std::marker::Model;

/// Passes reads and writes on to its device, and remembers whether one failed. A contract sees the device and whether a
/// call has failed: of an `Ok` it says what the device gave or took, of an error that it is remembered, and not that it is
/// the device's own.
#[derive(Drop)]
pub struct Tally<D> {
    device: D,
    failed: bool,
}

impl<D> Model for Tally<D> {
    ghost use Rattle.device_tally.specs.Tally.{Watched};

    ghost Value = { Watched D };

    ghost view = { λ t. record { device = t.device; failed = t.failed } };
}

impl<D> Tally<D> {
    /// A tally of no call yet.
    pub fn new(device: D) -> Self
        ensures { result ≡ record { device = device; failed = false } }
    {
        Tally {
            device,
            failed: false,
        }
    }

    /// Whether a call has answered an error, or a write that it took none of some bytes.
    pub fn failed(&self) -> bool
        ensures { result ≡ self.now.failed }
    {
        self.failed
    }

    /// The device.
    pub fn into_inner(self) -> D
        ensures { result ≡ self.device }
    {
        let Tally { device, failed: _ } = self;
        device
    }
}

impl<R: Read> Read for Tally<R> {
    ghost remaining = { λ t. R.remaining t.device };

    fn read(&mut self, buf: &mut [u8]) -> io::Result<usize>
        ensures bound { ReadsAtMost result buf.new }
        ensures bytes { ReadConsumes (R.remaining self.old.device)
            (R.remaining self.new.device) result buf.new }
        ensures failed { self.new.failed ≡ (self.old.failed || is_err result) }
    {
        let result = self.device.read(buf);
        if result.is_err() {
            self.failed = true;
        }
        result
    }

    fn read_exact(&mut self, buf: &mut [u8]) -> io::Result<()>
        ensures bytes { OnOk result
            (Consumes (R.remaining self.old.device) (R.remaining self.new.device) buf.new) }
        ensures failed { self.new.failed ≡ (self.old.failed || is_err result) }
    {
        let result = self.device.read_exact(buf);
        if result.is_err() {
            self.failed = true;
        }
        result
    }
}

impl<W: Write> Write for Tally<W> {
    ghost contents = { λ t. W.contents t.device };

    fn write(&mut self, buf: &[u8]) -> io::Result<usize>
        ensures bound { WritesAtMost result buf.now }
        ensures bytes { WriteAppends (W.contents self.old.device)
            (W.contents self.new.device) result buf.now }
        ensures failed { self.new.failed ≡
            (self.old.failed || write_failed result (length buf.now)) }
    {
        let result = self.device.write(buf);
        let took_some = match &result {
            Ok(n) => *n > 0 || buf.is_empty(),
            Err(_) => false,
        };
        if !took_some {
            self.failed = true;
        }
        result
    }

    fn write_all(&mut self, buf: &[u8]) -> io::Result<()>
        ensures bytes { OnOk result
            (Appends (W.contents self.old.device) (W.contents self.new.device) buf.now) }
        ensures failed { self.new.failed ≡ (self.old.failed || is_err result) }
    {
        let result = self.device.write_all(buf);
        if result.is_err() {
            self.failed = true;
        }
        result
    }

    fn flush(&mut self) -> io::Result<()>
        ensures bytes { Keeps (W.contents self.old.device) (W.contents self.new.device) }
        ensures failed { self.new.failed ≡ (self.old.failed || is_err result) }
    {
        let result = self.device.flush();
        if result.is_err() {
            self.failed = true;
        }
        result
    }
}

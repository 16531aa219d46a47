//! What the front of bytes is.
ghost use Rattle.std.specs.Prelude.{◌≡◌};
ghost use Rattle.module_options.specs.Front.{begins_with};

/// Whether the bytes begin with these.
pub fn begins_with(bytes: &[u8], front: &[u8]) -> bool
    ensures { result ≡ begins_with bytes.now front.now }
{
    bytes.starts_with(front)
}

//! Why an item of a list wasn't read.
ghost use Rattle.std.specs.Prelude.{◌≡◌};
ghost use Rattle.wasm_lists.specs.List.{fault_of};

use wasm_code::Cause;
use wasm_sections::ModuleFault;

/// Why an item wasn't read.
#[derive(Clone, Copy, Debug, PartialEq, Eq)]
pub enum Refusal {
    /// None begins the bytes.
    Bytes(Cause),
    /// No memory was left.
    Memory,
}

impl From<Cause> for Refusal {
    ghost use Rattle.wasm_lists.specs.declared.refusal.Refusal.TheVariants.{Bytes};

    ghost from_gives = { λ cause refusal. refusal ≡ Bytes cause };

    fn from(cause: Cause) -> Refusal {
        Refusal::Bytes(cause)
    }
}

/// The fault of a section in which an item is refused for that cause.
pub fn fault(cause: Cause) -> ModuleFault
    ensures { result ≡ fault_of cause }
{
    match cause {
        Cause::Truncated => ModuleFault::Truncated,
        Cause::UnknownOpcode => ModuleFault::UnknownOpcode,
        Cause::BadInteger => ModuleFault::BadInteger,
        Cause::BadImmediate => ModuleFault::UnknownForm,
    }
}

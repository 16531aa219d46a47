//! Sizes of what is written.
ghost use Rattle.std.specs.Prelude.{◌≡◌, ◌≤◌, ◌<◌, ◌+◌, ◌^◌, length, IfOk, IfErr, OnOk};
ghost use Rattle.wasm_code.specs.Code.{shortest};
ghost use Rattle.wasm_sections.specs.declared.writing.WriteError.TheVariants.{TooLarge};

use wasm_code::laws::{shortest_is_a_spelling, shortest_is_least};
use wasm_sections::WriteError as SectionError;

/// The sum; `TooLarge` where 32 bits don't hold it.
pub fn sum(a: usize, b: usize) -> Result<u32, SectionError>
    ensures ok { IfOk result (λ n. n ≡ a + b) }
    ensures small { OnOk result (a + b < 2 ^ 32) }
    ensures too_large { IfErr result (λ _. 2 ^ 32 ≤ a + b) }
    ensures error { IfErr result (λ e. e ≡ TooLarge) }
{
    match a.checked_add(b) {
        Some(n) if n <= u32::MAX as usize => Ok(n as u32),
        _ => Err(SectionError::TooLarge),
    }
}

/// How many bytes the number has, written in as few as will do.
pub fn number_size(n: u32) -> usize
    ensures size { result ≡ length (shortest n) }
    ensures few { result ≤ 5 }
{
    shortest_is_a_spelling();
    shortest_is_least();
    let mut size = 1;
    let mut rest = n;
    while rest >= 128 {
        rest /= 128;
        size += 1;
    }
    size
}

/// How many bytes a section has whose contents have so many.
pub fn section_size(size: u32) -> usize
    ensures size { result ≡ 1 + length (shortest size) + size }
    ensures small { result ≤ size + 6 }
{
    1 + number_size(size) + size as usize
}

//! Globals that are written: what a global section contains with more of them.
ghost use Rattle.std.specs.Prelude.{◌≡◌, ◌↔◌, ◌≤◌, ◌^◌, ◌++◌, length, Contains, IfOk, IfErr, IsTrue, OnOk};
ghost use Rattle.wasm_types.specs.declared.types.PrimitiveTypeInfo.TheVariants.{Empty};
ghost use Rattle.wasm_module.specs.Rewritten.{global_code, globals_code};
ghost use Rattle.wasm_module.specs.Room.{globals_with};
ghost use Rattle.wasm_sections.specs.declared.writing.WriteError.TheVariants.{TooLarge};

use crate::sizes::{number_size, sum};
use std::alloc::AllocError;
use wasm_code::put_unsigned;
use wasm_sections::WriteError as SectionError;
use wasm_types::PrimitiveTypeInfo;

/// The global of the type: it may be written, and starts as zero, or null. Nothing for `Empty`, which no global has.
fn global_of(tpe: PrimitiveTypeInfo) -> &'static [u8]
    ensures { result.now ≡ global_code tpe }
{
    match tpe {
        PrimitiveTypeInfo::I32 => b"\x7f\x01\x41\x00\x0b",
        PrimitiveTypeInfo::I64 => b"\x7e\x01\x42\x00\x0b",
        PrimitiveTypeInfo::F32 => b"\x7d\x01\x43\0\0\0\0\x0b",
        PrimitiveTypeInfo::F64 => b"\x7c\x01\x44\0\0\0\0\0\0\0\0\x0b",
        PrimitiveTypeInfo::V128 => b"\x7b\x01\xfd\x0c\0\0\0\0\0\0\0\0\0\0\0\0\0\0\0\0\x0b",
        PrimitiveTypeInfo::FuncRef => b"\x70\x01\xd0\x70\x0b",
        PrimitiveTypeInfo::ExternRef => b"\x6f\x01\xd0\x6f\x0b",
        PrimitiveTypeInfo::Empty => b"",
    }
}

/// Whether `Empty` is among the types, which no global has.
pub fn has_empty(types: &[PrimitiveTypeInfo]) -> bool
    ensures { IsTrue result ↔ Contains types.now Empty }
{
    types.contains(&PrimitiveTypeInfo::Empty)
}

/// Appends globals of the types.
fn put_new_globals(out: &mut Vec<u8>, types: &[PrimitiveTypeInfo]) -> Result<(), AllocError>
    ensures { OnOk result (out.new.items ≡ out.old.items ++ globals_code types.now) }
{
    for tpe in types {
        out.extend_from_slice(global_of(*tpe))?;
    }
    Ok(())
}

/// How many bytes a global section contains that has so many globals: those with these bytes, and globals of the types behind them.
pub fn globals_size(
    count: u32,
    items: &[u8],
    types: &[PrimitiveTypeInfo],
) -> Result<u32, SectionError>
    ensures ok { IfOk result (λ n. n ≡ length (globals_with count items.now types.now)) }
    ensures too_large { IfErr result (λ _.
        2 ^ 32 ≤ length (globals_with count items.now types.now)) }
    ensures error { IfErr result (λ e. e ≡ TooLarge) }
{
    let mut size = sum(number_size(count), items.len())?;
    for tpe in types {
        size = sum(size as usize, global_of(*tpe).len())?;
    }
    Ok(size)
}

/// Appends what such a global section contains.
pub fn put_globals(
    out: &mut Vec<u8>,
    count: u32,
    items: &[u8],
    types: &[PrimitiveTypeInfo],
) -> Result<(), AllocError>
    ensures { OnOk result (
        out.new.items ≡ out.old.items ++ globals_with count items.now types.now) }
{
    put_unsigned(out, count as u64)?;
    out.extend_from_slice(items)?;
    put_new_globals(out, types)
}

//! Payloads: their texts, read and written, and their orders.

use crate::inputs::{Text, compared, field, unreadable};
use peephole_payloads::number::{read_i32, read_u8};
use peephole_payloads::{
    F32, F64, MemArg, MemArgLane, MemoryCopy, MemoryInit, RefType, Shuffle, TableCopy, TableInit,
    TermError, read_val_type,
};
use std::alloc::Global;
use std::fmt::Debug;
use std::str::FromStr;

/// Answers what the text of a payload of a kind reads as, how two of them compare, and how payloads are displayed.
pub fn answer(alloc: Global, fields: &[&str]) -> Text {
    let (first, second) = (field(fields, 1), field(fields, 2));
    match field(fields, 0) {
        "u8" => format!(in alloc; "{:?}", read_u8(first)),
        "i32" => format!(in alloc; "{:?}", read_i32(first)),
        "F32" => told::<F32>(alloc, first, second),
        "F64" => told::<F64>(alloc, first, second),
        "RefType" => told::<RefType>(alloc, first, second),
        "MemArg" => told::<MemArg>(alloc, first, second),
        "MemArgLane" => told::<MemArgLane>(alloc, first, second),
        "Shuffle" => told::<Shuffle>(alloc, first, second),
        "TableCopy" => told::<TableCopy>(alloc, first, second),
        "MemoryCopy" => told::<MemoryCopy>(alloc, first, second),
        "TableInit" => told::<TableInit>(alloc, first, second),
        "MemoryInit" => told::<MemoryInit>(alloc, first, second),
        "ValType" => both(alloc, read_val_type(first), read_val_type(second)),
        "F32::from_bits" => format!(in alloc; "{}", F32::from_bits(first.parse().unwrap_or(0))),
        "F64::from_bits" => format!(in alloc; "{}", F64::from_bits(first.parse().unwrap_or(0))),
        "displayed" => match first.parse::<Shuffle>() {
            Ok(shuffle) => format!(in alloc; "{shuffle}"),
            Err(_) => unreadable(alloc),
        },
        _ => unreadable(alloc),
    }
}

/// What the text reads as, or, where there are two, how what they read as compares.
fn told<T: Ord + Debug + Drop + FromStr<Err = TermError>>(
    alloc: Global,
    first: &str,
    second: &str,
) -> Text {
    match second {
        "" => format!(in alloc; "{:?}", first.parse::<T>()),
        _ => both(alloc, first.parse::<T>(), second.parse::<T>()),
    }
}

/// How two values compare, and the first with itself.
fn both<T: Ord + Drop>(
    alloc: Global,
    low: Result<T, TermError>,
    high: Result<T, TermError>,
) -> Text {
    let (Ok(low), Ok(high)) = (low, high) else {
        return unreadable(alloc);
    };
    let (other, itself) = (compared(alloc, &low, &high)?, compared(alloc, &low, &low)?);
    format!(in alloc; "{other}, {itself}")
}

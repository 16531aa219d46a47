//! The rows behind all others: new rules go to the end of these, so that those before keep their numbers.

use crate::table::{Step, TableLine, Widths};
use wasm_execution::Binary;

/// Rules of further rows.
pub const FURTHER: [TableLine; 5] = [
    row!("exchange_in_group": [x y z add add] => [y x z add add]),
    row!([x y z mul mul] => [y x z mul mul]),
    row!([x y z and and] => [y x z and and]),
    row!([x y z or or] => [y x z or or]),
    row!([x y z xor xor] => [y x z xor xor]),
];

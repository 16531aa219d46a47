//! What a caller asks for of a call that changes a module.
ghost use Rattle.std.specs.Prelude.{◌≡◌, ◌↔◌, ◌<◌, IfOk, IsTrue};
ghost use Rattle.std.specs.List.{filter};
ghost use Rattle.teddertempo_c.specs.ChangeOptions.{AreBad, allows, change_number, changes_of, count_of};

use crate::options::{NO_GROWTH, has_bit, is_misused};
use body_changes::{CHANGES, Change};
use std::alloc::{AllocError, Global};
use std::mem::size_of;

/// What a call does. C passes a pointer to one: it is `struct teddertempo_change_options` of the header. All zero is the default.
#[repr(C)]
#[derive(Clone, Copy)]
pub struct ChangeOptions {
    /// The seed of the generator: equal modules, options and sizes of the buffer give equal bytes.
    pub seed: u64,
    /// Bit i says whether the change with the number i may be made. If it is 0, every change may.
    pub changes: u64,
    /// 0: any function is changed; n + 1: only the function with the index n among all functions of the module, imported ones first.
    pub only: u64,
    /// How many changes are made, one after another; 0 counts as 1.
    pub count: u64,
    /// How many bytes larger than the old module the new one may be; 0: as large as the buffer.
    pub growth: u64,
    /// `NO_GROWTH` or 0. Other bits are of later versions.
    pub flags: u64,
    /// Fields of later versions: 0.
    pub reserved: [u64; 8],
}

const _: () = prove!(size_of::<ChangeOptions>() == 112);

/// A bit for each change.
pub const ALL_CHANGES: u64 = (1 << CHANGES.len()) - 1;

/// The header's constant.
pub fn change_number(change: Change) -> u32
    ensures { result ≡ change_number change }
{
    match change {
        Change::Constant => 0,
        Change::Operator => 1,
        Change::Local => 2,
        Change::Draw => 3,
        Change::Copy => 4,
        Change::FirstOperand => 5,
        Change::LastOperand => 6,
        Change::ExchangeOperands => 7,
        Change::Delete => 8,
        Change::Double => 9,
        Change::ExchangeStatements => 10,
        Change::Global => 11,
        Change::Call => 12,
        Change::MemoryArgument => 13,
    }
}

// Whether the change may be made.
fn allows(options: &ChangeOptions, change: &Change) -> bool
    ensures { result ≡ allows options.now change.now }
{
    options.changes == 0 || has_bit(options.changes, change_number(*change) as usize)
}

// Those of the changes that may.
fn allowed(
    alloc: Global,
    options: &ChangeOptions,
    changes: &[Change],
) -> Result<Vec<Change>, AllocError>
    ensures { IfOk result (λ c. c.items ≡ filter (allows options.now) changes.now) }
{
    let mut those = Vec::new(alloc);
    for change in changes {
        if allows(options, change) {
            those.push(*change)?;
        }
    }
    Ok(those)
}

/// The changes that may be made. The only error is that memory was refused.
pub fn changes_of(alloc: Global, options: &ChangeOptions) -> Result<Vec<Change>, AllocError>
    ensures { IfOk result (λ c. c.items ≡ changes_of options.now) }
{
    allowed(alloc, options, &CHANGES)
}

/// Whether the options are refused: for a reason of `is_misused`, or since a bit is set that is no change's.
pub fn are_bad(options: &ChangeOptions) -> bool
    ensures { IsTrue result ↔ AreBad options.now }
{
    is_misused(options.growth, options.flags, NO_GROWTH, &options.reserved)
        || options.changes > ALL_CHANGES
}

/// How many changes are made.
pub fn count_of(options: &ChangeOptions) -> usize
    ensures is { result ≡ count_of options.now }
    ensures some { 0 < result }
{
    if options.count == 0 {
        1
    } else {
        options.count as usize
    }
}

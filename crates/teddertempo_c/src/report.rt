//! What a caller is told, and how it is written beside a new module.
ghost use Rattle.std.specs.Prelude.{◌≡◌, ◌≤◌, IfOk, MatchResult, length};
ghost use Rattle.teddertempo_c.specs.Reported.{IsLeft, IsWritten, report_of};
ghost use Rattle.teddertempo_c.specs.Writes.{IsPutInBuffer};

use crate::outcome::{Outcome, Refusal};
use std::mem::size_of;

/// What a call has done, or why it has done nothing. C passes a pointer to one, `struct teddertempo_report` of the header.
#[repr(C)]
#[derive(Clone, Copy)]
pub struct Report {
    /// The number of the outcome.
    pub outcome: u32,
    /// The number of the rule or change of the last edit; 0 if none was made.
    pub kind: u32,
    /// Its function, by its index among all functions of the module, imported ones first; 0 if none was made.
    pub function: u64,
    /// How many edits were made, or sites listed.
    pub made: u64,
    /// Where the module is at fault, if it isn't a module or is a linkable object; else 0.
    pub offset: u64,
    /// Fields of later versions: 0.
    pub reserved: [u64; 8],
}

const _: () = prove!(size_of::<Report>() == 96);

/// A new module, and the report on it.
#[derive(Drop)]
pub struct Made {
    pub bytes: Vec<u8>,
    pub report: Report,
}

/// The report with these fields.
pub fn report_of(outcome: Outcome, kind: u32, function: usize, made: usize, offset: usize) -> Report
    ensures { result ≡ report_of outcome kind function made offset }
{
    Report {
        outcome: outcome.number(),
        kind,
        function: function as u64,
        made: made as u64,
        offset: offset as u64,
        reserved: [0; 8],
    }
}

/// The report that nothing was made.
pub fn report_on(refusal: Refusal) -> Report
    ensures { result ≡ report_of refusal.outcome 0 0 0 refusal.offset }
{
    report_of(refusal.outcome, 0, 0, 0, refusal.offset)
}

/// Writes the bytes over the front of the buffer, and returns how many they are.
pub fn put(buffer: &mut [u8], bytes: &[u8]) -> usize
    requires fits { length bytes.now ≤ length buffer.old }
    ensures { IsPutInBuffer bytes.now buffer.old result buffer.new }
{
    buffer[..bytes.len()].copy_from_slice(bytes);
    bytes.len()
}

/// Writes a new module over the front of the buffer, and reports it; or reports why there is none. Returns the new module's size, or 0.
pub fn report_in(buffer: &mut [u8], made: Result<Made, Refusal>, report: &mut Report) -> usize
    requires fits { IfOk made (λ m. length m.bytes.items ≤ length buffer.old) }
    ensures { MatchResult made (λ m. IsWritten m buffer.old result buffer.new report.new)
        (λ e. IsLeft e buffer.old result buffer.new report.new) }
{
    match made {
        Ok(made) => {
            *report = made.report;
            put(buffer, &made.bytes)
        }
        Err(refusal) => {
            *report = report_on(refusal);
            0
        }
    }
}

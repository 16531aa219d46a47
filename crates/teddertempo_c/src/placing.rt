//! A buffer's module changed at operators that are named, and the new one written over its front.
ghost use Rattle.std.specs.Prelude.{IfErr, IfOk, length};
ghost use Rattle.teddertempo_c.specs.Places.{ChangesPlace, IsBad, IsChangedSo, IsOutcomeFor};
ghost use Rattle.teddertempo_c.specs.Reported.{IsBadCall, IsMade, IsNone};

use crate::changing::report_of_changes;
use crate::options::most_of;
use crate::outcome::{Outcome, Refusal, refusal_by_change, without_place};
use crate::place::{Place, at_of, is_bad};
use crate::report::{Made, Report, report_in};
use module_changes::change_at;
use std::alloc::Global;

// The module that the first `size` bytes of the buffer are, changed there, and the report on it, or why it isn't.
#[tactic(auto, using(crate::proofs::ReportedLemmas::none_bad))]
fn attempt(alloc: Global, buffer: &[u8], size: usize, place: &Place) -> Result<Made, Refusal>
    ensures made { IfOk result (IsMade (IsChangedSo place.now size buffer.now)
        (IsBadCall (IsBad place.now) size buffer.now) (length buffer.now)) }
    ensures refused { IfErr result (IsNone (IsOutcomeFor place.now size buffer.now)
        (IsBadCall (IsBad place.now) size buffer.now)) }
{
    if size > buffer.len() || is_bad(place) {
        return Err(without_place(Outcome::BadOptions));
    }
    let most = most_of(place.growth, place.flags, size, buffer.len());
    match change_at(alloc, &buffer[..size], at_of(place), most) {
        Ok(module) => Ok(Made {
            report: report_of_changes(&module.made),
            bytes: module.bytes,
        }),
        Err(refusal) => Err(refusal_by_change(refusal)),
    }
}

/// Changes the operators that are named of the module that the first `size` bytes of the buffer are, and reports it.
#[tactic(auto, using(crate::proofs::ReportedLemmas::reported))]
pub fn change_at_in(
    alloc: Global,
    buffer: &mut [u8],
    size: usize,
    place: &Place,
    report: &mut Report,
) -> usize
    ensures { ChangesPlace place.now size buffer.old result buffer.new report.new }
{
    let made = attempt(alloc, buffer, size, place);
    report_in(buffer, made, report)
}

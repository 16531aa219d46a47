//! A buffer's module rewritten, and the new one written over its front.
ghost use Rattle.teddertempo_c.specs.Reports.{RewritesWith};
ghost use Rattle.teddertempo_c.specs.Writes.{RewritesOnce};

use crate::attempt::{attempt, rewritten_once};
use crate::options::Options;
use crate::report::{Report, put, report_in};
use crate::rules::every_rule;
use std::alloc::Global;

/// Rewrites the module that the first `size` bytes of the buffer are, once, by any rule in any function.
#[tactic(auto, using(crate::proofs::WritesLemmas::once_made, crate::proofs::WritesLemmas::once_outside, crate::proofs::WritesLemmas::once_refused))]
pub fn rewrite_in(alloc: Global, buffer: &mut [u8], size: usize, seed: u64) -> usize
    ensures { RewritesOnce seed size buffer.old result buffer.new }
{
    if size > buffer.len() {
        return 0;
    }
    let rules = match every_rule(alloc) {
        Ok(rules) => rules,
        Err(_) => return 0,
    };
    let room = buffer.len();
    match rewritten_once(alloc, &buffer[..size], seed, &rules, room) {
        Ok(module) => put(buffer, &module.bytes),
        Err(_) => 0,
    }
}

/// Rewrites the module that the first `size` bytes of the buffer are as the options say, and reports it.
#[tactic(auto, using(crate::proofs::ReportedLemmas::reported))]
pub fn rewrite_with_in(
    alloc: Global,
    buffer: &mut [u8],
    size: usize,
    options: &Options,
    report: &mut Report,
) -> usize
    ensures { RewritesWith options.now size buffer.old result buffer.new report.new }
{
    let made = attempt(alloc, buffer, size, options);
    report_in(buffer, made, report)
}

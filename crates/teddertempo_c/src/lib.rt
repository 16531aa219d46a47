//! The calls by which fuzzers and other programs in C rewrite instructions of a module, in place, so that it does what it did, or change
//! it, so that it stays valid and computes something else. They are those of the header `teddertempo.h`.
//!
//! Tests: `examples/run.sh` and `tools/package_test.sh`, which call it from C and Rust.
#![tactic(auto)]

ghost use Rattle.std.specs.Prelude.{◌≡◌, ◌≢◌, ℕ, ◌^◌, ◌<◌, List, IfNone, IfSome, Some, length, slice_get};
ghost use Rattle.std.specs.Borrow.{sem};
ghost use Rattle.rewrite_rules.specs.Names.{names};
ghost use Rattle.rewrite_rules.specs.Rule.{rule_name};
ghost use Rattle.rewrite_rules.specs.declared.rule.Rule.{Rule};
ghost use Rattle.teddertempo_c.specs.Buffer.{buffer_bytes_at};
ghost use Rattle.teddertempo_c.specs.ChangeReports.{ChangesWith};
ghost use Rattle.teddertempo_c.specs.Changes.{ChangesOnce};
ghost use Rattle.teddertempo_c.specs.Either.{EitherOnce};
ghost use Rattle.teddertempo_c.specs.Naming.{HoldsName, WritesChangeName, WritesRuleName};
ghost use Rattle.teddertempo_c.specs.Places.{ChangesPlace};
ghost use Rattle.teddertempo_c.specs.Reports.{RewritesWith};
ghost use Rattle.teddertempo_c.specs.Sites.{ListsSites};
ghost use Rattle.teddertempo_c.specs.Splices.{SplicesOnce};
ghost use Rattle.teddertempo_c.specs.Strips.{Strips};
ghost use Rattle.teddertempo_c.specs.Writes.{RewritesOnce};

mod attempt;
mod change_options;
mod changing;
mod either;
mod options;
mod outcome;
mod place;
mod placing;
mod report;
mod rewriting;
mod rules;
mod sites;
mod splicing;
mod stripping;

use body_changes::CHANGES;
pub use change_options::ChangeOptions;
use changing::{change_in, change_with_in};
use either::either_in;
pub use options::Options;
pub use place::Place;
use placing::change_at_in;
pub use report::Report;
use rewrite_rules::laws::rows_are_few;
use rewrite_rules::{Rule, rule_count};
use rewriting::{rewrite_in, rewrite_with_in};
pub use sites::SiteRow;
use sites::list_sites;
use splicing::splice_in;
use std::alloc::Global;
use stripping::strip_in;

/// Rewrites the module that the first `size` of the `max_size` bytes at `data` are, once and by any rule in any function, under a
/// seed, and writes the new module over them. Answers the new module's size, which is `max_size` at most.
///
/// Answers 0, and leaves the bytes as they were, where `size` is above `max_size`, or for one of the reasons for which
/// `rewrite_module` refuses. One of these is that no memory is left, which may be so at any time: so no contract can tell this
/// call from one that always answers 0.
///
/// The new module is valid where the old one was, and its functions do what they did. Equal modules, seeds and `max_size` give
/// equal bytes. C passes `data`, `size`, `max_size` and `seed`; the bytes may be read and written, and `data` isn't null.
#[unsafe(no_mangle)]
pub unsafe extern "C" fn teddertempo_rewrite(
    alloc: Global,
    data: *mut u8,
    size: usize,
    max_size: usize,
    seed: u64,
) -> usize
    ghost old: { List ℕ }
    requires* { sem 𝓛 (buffer_bytes_at «data» max_size old) ∗ ⌜ max_size < 2 ^ 63 ⌝ }
    ensures* { ∃ₛ (λ new. sem 𝓛 (buffer_bytes_at «data» max_size new) ∗
        ⌜ RewritesOnce seed size old result new ⌝) }
{
    rewrite_in(
        alloc,
        std::slice::from_raw_parts_mut(data, max_size),
        size,
        seed,
    )
}

/// Rewrites that module as the options say, and reports what was done, or why nothing was. Each reason but `NO_MEMORY` is reported only if
/// it is so, and `BAD_OPTIONS` whenever it is so. No contract says when memory is refused, which may be at any time. The report is
/// written, and never read.
///
/// C passes `data`, `size`, `max_size`, and pointers to the options and the report, which aren't null and don't overlap the bytes.
#[unsafe(no_mangle)]
pub unsafe extern "C" fn teddertempo_rewrite_with(
    alloc: Global,
    data: *mut u8,
    size: usize,
    max_size: usize,
    options: &Options,
    report: &mut Report,
) -> usize
    ghost old: { List ℕ }
    requires* { sem 𝓛 (buffer_bytes_at «data» max_size old) ∗ ⌜ max_size < 2 ^ 63 ⌝ }
    ensures* { ∃ₛ (λ new. sem 𝓛 (buffer_bytes_at «data» max_size new) ∗
        ⌜ RewritesWith options.now size old result new report.new ⌝) }
{
    rewrite_with_in(
        alloc,
        std::slice::from_raw_parts_mut(data, max_size),
        size,
        options,
        report,
    )
}

/// Changes the module that the first `size` of the `max_size` bytes at `data` are, once and by any change in any function, under a
/// seed, and writes the new module over them. Answers the new module's size, which is `max_size` at most.
///
/// Answers 0, and leaves the bytes as they were, where `size` is above `max_size`, or for one of the reasons for which
/// `change_module` refuses. One of these is that no memory is left, which may be so at any time: so no contract can tell this
/// call from one that always answers 0.
///
/// The new module is valid where the old one was, and computes something else, of which nothing is promised. Equal modules, seeds and
/// `max_size` give equal bytes. C passes `data`, `size`, `max_size` and `seed`; the bytes may be read and written, and `data` isn't null.
#[unsafe(no_mangle)]
pub unsafe extern "C" fn teddertempo_change(
    alloc: Global,
    data: *mut u8,
    size: usize,
    max_size: usize,
    seed: u64,
) -> usize
    ghost old: { List ℕ }
    requires* { sem 𝓛 (buffer_bytes_at «data» max_size old) ∗ ⌜ max_size < 2 ^ 63 ⌝ }
    ensures* { ∃ₛ (λ new. sem 𝓛 (buffer_bytes_at «data» max_size new) ∗
        ⌜ ChangesOnce seed size old result new ⌝) }
{
    change_in(
        alloc,
        std::slice::from_raw_parts_mut(data, max_size),
        size,
        seed,
    )
}

/// Puts code of another module into the module that the first `size` of the `max_size` bytes at `data` are, under a seed, and writes the
/// new module over them. Answers the new module's size, which is `max_size` at most.
///
/// The code is that of an operator of one of the other module's functions and of its operands, which comes in the place of such code
/// that gives the same type; of it the standard asks nothing beyond types, and its locals and globals are there in the new place too.
///
/// Answers 0, and leaves the bytes as they were, where `size` is above `max_size`, or for one of the reasons for which
/// `splice_module` refuses. One of these is that no memory is left, which may be so at any time: so no contract can tell this
/// call from one that always answers 0.
///
/// The new module is valid where the old one was, and computes something else, of which nothing is promised. Equal modules, seeds and
/// `max_size` give equal bytes. C passes `data`, `size` and `max_size`, then a pointer to the other module, which isn't null and doesn't
/// overlap these bytes, and how many bytes that has, and `seed`; the bytes at `data` may be read and written, and `data` isn't null.
#[unsafe(no_mangle)]
pub unsafe extern "C" fn teddertempo_splice(
    alloc: Global,
    data: *mut u8,
    size: usize,
    max_size: usize,
    other: &[u8],
    seed: u64,
) -> usize
    ghost old: { List ℕ }
    requires* { sem 𝓛 (buffer_bytes_at «data» max_size old) ∗ ⌜ max_size < 2 ^ 63 ⌝ }
    ensures* { ∃ₛ (λ new. sem 𝓛 (buffer_bytes_at «data» max_size new) ∗
        ⌜ SplicesOnce seed size other.now old result new ⌝) }
{
    splice_in(
        alloc,
        std::slice::from_raw_parts_mut(data, max_size),
        size,
        other,
        seed,
    )
}

/// Rewrites the module that the first `size` of the `max_size` bytes at `data` are, or changes it, once: of a hundred seeds some `keep`
/// rewrite it as `teddertempo_rewrite` does, all where `keep` is 100 or more, and the others change it as `teddertempo_change` does.
/// Answers what these do.
///
/// C passes `data`, `size`, `max_size`, `seed` and `keep`; the bytes may be read and written, and `data` isn't null.
#[unsafe(no_mangle)]
pub unsafe extern "C" fn teddertempo_either(
    alloc: Global,
    data: *mut u8,
    size: usize,
    max_size: usize,
    seed: u64,
    keep: u32,
) -> usize
    ghost old: { List ℕ }
    requires* { sem 𝓛 (buffer_bytes_at «data» max_size old) ∗ ⌜ max_size < 2 ^ 63 ⌝ }
    ensures* { ∃ₛ (λ new. sem 𝓛 (buffer_bytes_at «data» max_size new) ∗
        ⌜ EitherOnce seed keep size old result new ⌝) }
{
    either_in(
        alloc,
        std::slice::from_raw_parts_mut(data, max_size),
        size,
        seed,
        keep,
    )
}

/// Changes that module as the options say, and reports it as `teddertempo_rewrite_with` does; the kind is the number of the last change.
///
/// C passes `data`, `size`, `max_size`, and pointers to the options and the report, which aren't null and don't overlap the bytes.
#[unsafe(no_mangle)]
pub unsafe extern "C" fn teddertempo_change_with(
    alloc: Global,
    data: *mut u8,
    size: usize,
    max_size: usize,
    options: &ChangeOptions,
    report: &mut Report,
) -> usize
    ghost old: { List ℕ }
    requires* { sem 𝓛 (buffer_bytes_at «data» max_size old) ∗ ⌜ max_size < 2 ^ 63 ⌝ }
    ensures* { ∃ₛ (λ new. sem 𝓛 (buffer_bytes_at «data» max_size new) ∗
        ⌜ ChangesWith options.now size old result new report.new ⌝) }
{
    change_with_in(
        alloc,
        std::slice::from_raw_parts_mut(data, max_size),
        size,
        options,
        report,
    )
}

/// Changes operators that are named: the change with the number in `place` of each operator of the function, from the last one that is
/// named down to the first one, of which it makes anything, as `change_at` of `module_changes` has it: by no seed. The report is that of
/// `teddertempo_change_with`, and tells of the last change, which is of the first operator that was changed.
///
/// The new module is valid where the old one was, and computes something else, of which nothing is promised. Answers its size; 0, and the
/// bytes are as they were, where the report says why: the change makes nothing of any of these operators, there is no such function, a
/// module with one of the changes doesn't fit, or another reason of `change_at`.
///
/// C passes `data`, `size`, `max_size`, and pointers to the place and the report, which aren't null and don't overlap the bytes.
#[unsafe(no_mangle)]
pub unsafe extern "C" fn teddertempo_change_at(
    alloc: Global,
    data: *mut u8,
    size: usize,
    max_size: usize,
    place: &Place,
    report: &mut Report,
) -> usize
    ghost old: { List ℕ }
    requires* { sem 𝓛 (buffer_bytes_at «data» max_size old) ∗ ⌜ max_size < 2 ^ 63 ⌝ }
    ensures* { ∃ₛ (λ new. sem 𝓛 (buffer_bytes_at «data» max_size new) ∗
        ⌜ ChangesPlace place.now size old result new report.new ⌝) }
{
    change_at_in(
        alloc,
        std::slice::from_raw_parts_mut(data, max_size),
        size,
        place,
        report,
    )
}

/// Lists the places of the module with these bytes at which `teddertempo_change_at` can make a change: a row for each operator and each
/// change of it, by the operators of the functions in their order, and for one operator by the numbers of the changes. Of the options only
/// `changes` and `only` are used. Writes as many rows to the front of `sites` as there is room for, and returns how many there are.
///
/// The outcome is `DONE` if the sites are listed, even if there are none. Otherwise the result is 0, `sites` is unchanged, and the report
/// says why: the bytes aren't a module, the module has no function of its own with the index, the options are refused, or no memory is left.
///
/// C passes a pointer to the module and how many bytes it has, a pointer to the options, one to the rows and how many there is room
/// for, and one to the report. None is null, and they don't overlap.
#[unsafe(no_mangle)]
pub extern "C" fn teddertempo_sites(
    alloc: Global,
    bytes: &[u8],
    options: &ChangeOptions,
    sites: &mut [SiteRow],
    report: &mut Report,
) -> usize
    ensures { ListsSites options.now bytes.now sites.old result sites.new report.new }
{
    list_sites(alloc, bytes, options, sites, report)
}

/// Drops the custom sections of the module with these bytes that name places in its code (`.debug_*`, `sourceMappingURL`,
/// `external_debug_info`, `metadata.code.*`), which are others once it is rewritten. Answers the new module's size, which is no larger;
/// 0, and the bytes are as they were, where they aren't a preamble and whole sections in order, are an object file, or for want of
/// memory. What the sections contain isn't read. The new module is valid where the old one was, and does what it did.
///
/// C passes a pointer to the module, which isn't null and may be read and written, and how many bytes it has.
#[unsafe(no_mangle)]
pub extern "C" fn teddertempo_strip(alloc: Global, bytes: &mut [u8]) -> usize
    ensures { Strips bytes.old result bytes.new }
{
    strip_in(alloc, bytes)
}

/// The version as a number: 0x000400 for 0.4.0.
#[unsafe(no_mangle)]
pub extern "C" fn teddertempo_version() -> u32
    ensures { result ≡ 1024 }
{
    0x00_04_00
}

/// How many rules there are. Their numbers are those below.
#[unsafe(no_mangle)]
pub extern "C" fn teddertempo_rule_count() -> u64
    ensures { result ≡ length names }
{
    rule_count() as u64
}

// Writes as much of the text to the front of the room as there is room for, and answers the text's length.
#[tactic(auto, using(crate::proofs::NamingLemmas::holds_name))]
fn hold(text: &[u8], room: &mut [u8]) -> usize
    ensures { HoldsName text.now room.old result room.new }
{
    let count = text.len().min(room.len());
    room[..count].copy_from_slice(&text[..count]);
    text.len()
}

/// Writes the name of the rule with the number to the front of `name`, as much of it as there is room for, and answers the name's
/// length; 0 where no rule has the number.
///
/// C passes the rule's number, a pointer to the room, which isn't null, and how many bytes there are.
#[unsafe(no_mangle)]
pub extern "C" fn teddertempo_rule_name(rule: u32, name: &mut [u8]) -> usize
    ensures { WritesRuleName rule name.old result name.new }
{
    match Rule::from_number(rule as usize) {
        Some(rule) => hold(rule.name().as_bytes(), name),
        None => 0,
    }
}

/// Writes the name of the change with the number to the front of `name`, as much of it as there is room for, and answers the name's
/// length; 0 where no change has the number.
///
/// C passes the change's number, a pointer to the room, which isn't null, and how many bytes there are.
#[unsafe(no_mangle)]
pub extern "C" fn teddertempo_change_name(change: u32, name: &mut [u8]) -> usize
    ensures { WritesChangeName change name.old result name.new }
{
    match CHANGES.get(change as usize) {
        Some(change) => hold(change.name().as_bytes(), name),
        None => 0,
    }
}

// The rule with the name, which is any bytes.
fn rule_by_name(name: &[u8]) -> Option<Rule>
    ensures some { IfSome result (λ rule. rule_name rule ≡ name.now) }
    ensures none { IfNone result ((rule : Rule) → rule_name rule ≢ name.now) }
{
    match std::str::from_utf8(name) {
        Ok(name) => Rule::from_name(name),
        Err(_) => None,
    }
}

/// The number of the rule with the name, and `u64::MAX` where no rule has it.
///
/// C passes a pointer to the name, which isn't null, and how many bytes it has.
#[unsafe(no_mangle)]
pub extern "C" fn teddertempo_rule_number(name: &[u8]) -> u64
    ensures known { result ≢ u64.MAX → slice_get names result ≡ Some name.now }
    ensures unknown { result ≡ u64.MAX → (rule : Rule) → rule_name rule ≢ name.now }
{
    rows_are_few();
    match rule_by_name(name) {
        Some(rule) => rule.number() as u64,
        None => u64::MAX,
    }
}

//! What a caller of `teddertempo_rewrite_with` asks for, and what the options of all calls have in common.
ghost use Rattle.std.specs.Prelude.{◌≡◌, ◌↔◌, ◌<◌, IfOk, IsTrue};
ghost use Rattle.std.specs.List.{filter};
ghost use Rattle.module_rewrites.specs.Dose.{IsOneOrMore};
ghost use Rattle.teddertempo_c.specs.Options.{AreBad, IsMisused, NamesNoRule, allows, allows_number, are_zero, dose_of, function_of, has_bit, has_flag, most_of, rules_of, word_of};

use crate::rules::every_rule;
use module_rewrites::Dose;
use rewrite_rules::{Rule, rule_count};
use std::alloc::{AllocError, Global};
use std::mem::size_of;

/// What a call does. C passes a pointer to one: it is `struct teddertempo_options` of the header. All zero is the default.
#[repr(C)]
#[derive(Clone, Copy)]
pub struct Options {
    /// The seed of the generator: equal modules, options and sizes of the buffer give equal bytes.
    pub seed: u64,
    /// Bit i of the word w says whether the rule with the number 64 w + i may rewrite. If all words are 0, every rule may.
    pub rules: [u64; 16],
    /// 0: any function is rewritten; n + 1: only the function with the index n among all functions of the module, imported ones first.
    pub only: u64,
    /// How many rewrites are made, one after another; 0 counts as 1.
    pub count: u64,
    /// How many bytes larger than the old module the new one may be; 0: as large as the buffer.
    pub growth: u64,
    /// If it isn't 0, as many rewrites are made as this percentage of the operators of the functions that may be rewritten and can be
    /// read, at least one, instead of `count`.
    pub percent: u64,
    /// `EXACT`, `SHRINK` and `NO_GROWTH`, or some of them. Other bits are of later versions.
    pub flags: u64,
    /// Fields of later versions: 0.
    pub reserved: [u64; 8],
}

const _: () = prove!(size_of::<Options>() == 240);

/// The engine does on floats, vectors and memories what the standard specifies, and no other thread writes the module's memories, so that
/// rules on these may rewrite.
pub const EXACT: u64 = 1;

/// Each rewrite makes the module smaller: it leaves no more operators, and fewer bytes, or as many that come earlier in the dictionary.
pub const SHRINK: u64 = 2;

/// The new module is no larger than the old one.
pub const NO_GROWTH: u64 = 4;

/// The flags of a call that rewrites.
pub const FLAGS: u64 = EXACT | SHRINK | NO_GROWTH;

// Whether all words are 0.
fn are_zero(words: &[u64]) -> bool
    ensures { result ≡ are_zero words.now }
{
    words.iter().all(|word| *word == 0)
}

// The word with the bit of the rule with the number; 0 if there is no such word.
fn word_of(words: &[u64], number: usize) -> u64
    ensures { result ≡ word_of words.now number }
{
    match words.get(number / 64) {
        Some(word) => *word,
        None => 0,
    }
}

/// Whether the bit with the number is set in the word, modulo 64.
pub fn has_bit(word: u64, number: usize) -> bool
    ensures { result ≡ has_bit word number }
{
    (word >> (number % 64)) % 2 == 1
}

/// Whether the flag is set.
pub fn has_flag(flags: u64, flag: u64) -> bool
    ensures { result ≡ has_flag flags flag }
{
    flags & flag != 0
}

// Whether the rule with the number may rewrite.
fn allows_number(options: &Options, number: usize) -> bool
    ensures { result ≡ allows_number options.now number }
{
    let named = has_bit(word_of(&options.rules, number), number);
    are_zero(&options.rules) || named
}

// The rules that the options allow, in their order.
fn allowed(alloc: Global, options: &Options, rules: &[Rule]) -> Result<Vec<Rule>, AllocError>
    ensures { IfOk result (λ r. r.items ≡ filter (allows options.now) rules.now) }
{
    let mut those = Vec::new(alloc);
    for rule in rules {
        if allows_number(options, rule.number()) {
            those.push(*rule)?;
        }
    }
    Ok(those)
}

/// The rules that may rewrite. The only error is that memory was refused.
pub fn rules_of(alloc: Global, options: &Options) -> Result<Vec<Rule>, AllocError>
    ensures { IfOk result (λ r. r.items ≡ rules_of options.now) }
{
    let rules = every_rule(alloc)?;
    allowed(alloc, options, &rules)
}

// Whether a bit is set that is no rule's.
fn names_no_rule(words: &[u64; 16]) -> bool
    ensures { IsTrue result ↔ NamesNoRule words.now }
{
    for number in rule_count()..64 * words.len() {
        if has_bit(word_of(words, number), number) {
            return true;
        }
    }
    false
}

/// Whether a flag is set that isn't among the known ones, a growth is given beside `NO_GROWTH`, or a word of later versions isn't 0.
pub fn is_misused(growth: u64, flags: u64, known: u64, reserved: &[u64]) -> bool
    ensures { IsTrue result ↔ IsMisused growth flags known reserved.now }
{
    flags & known != flags || (has_flag(flags, NO_GROWTH) && growth != 0) || !are_zero(reserved)
}

/// Whether the options are refused: for a reason of `is_misused`, or since a bit is set that is no rule's.
pub fn are_bad(options: &Options) -> bool
    ensures { IsTrue result ↔ AreBad options.now }
{
    is_misused(options.growth, options.flags, FLAGS, &options.reserved)
        || names_no_rule(&options.rules)
}

/// The only function that may be edited, if one is named.
pub fn function_of(only: u64) -> Option<usize>
    ensures { result ≡ function_of only }
{
    if only == 0 {
        None
    } else {
        Some(only as usize - 1)
    }
}

/// How many rewrites are made.
pub fn dose_of(options: &Options) -> Dose
    ensures is { result ≡ dose_of options.now }
    ensures some { IsOneOrMore result }
{
    if options.percent != 0 {
        Dose::Percent(options.percent as usize)
    } else if options.count == 0 {
        Dose::Times(1)
    } else {
        Dose::Times(options.count as usize)
    }
}

/// How many bytes the new module of one of `size` bytes may have in a buffer with that much room.
pub fn most_of(growth: u64, flags: u64, size: usize, room: usize) -> usize
    ensures { result ≡ most_of growth flags size room }
{
    if has_flag(flags, NO_GROWTH) {
        room.min(size)
    } else if growth == 0 {
        room
    } else {
        room.min(size.saturating_add(growth as usize))
    }
}

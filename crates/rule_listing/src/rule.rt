//! A rule, as it is listed.

use rewrite_rules::Growth;

/// A rule: its number, its name, what it does to the number of instructions, whether it needs an engine that is exact, and the texts of
/// its rows.
#[derive(Clone, Copy)]
pub(crate) struct ListedRule<'a> {
    pub number: usize,
    pub name: &'a str,
    pub growth: Growth,
    pub exact: bool,
    pub lines: &'a [String],
}

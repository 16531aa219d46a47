//! The rules, by their numbers and names.
ghost use Rattle.std.specs.Prelude.{◌<◌, length};
ghost use Rattle.rewrite_rules.specs.Names.{names};

use crate::names::{name_of, number_of, number_of_row, rule_count};
use std::str::FromStr;
use thiserror::Error as ThisError;

/// A rule, by its number: its place among the names in the table.
#[derive(Clone, Copy, Debug, PartialEq, Eq)]
pub struct Rule {
    number: u16,
    ghost is_there: { number < length names },
}

/// No rule has the name.
#[derive(Clone, Copy, Debug, PartialEq, Eq, ThisError)]
#[error("UnknownRule")]
pub struct UnknownRule;

impl Rule {
    ghost use Rattle.std.specs.Prelude.{◌≡◌, ◌≢◌, ◌<◌, ◌≤◌, Some, None, length, IfSome, IfNone};
    ghost use Rattle.rewrite_rules.specs.Names.{rule_of};
    ghost use Rattle.rewrite_rules.specs.Rule.{rule_number, rule_name};
    ghost use Rattle.rewrite_rules.specs.declared.rule.Rule.{Rule};

    // The rule with that number. Condition: there is one.
    pub(crate) fn numbered(number: u16) -> Rule
        requires { number < length names }
        ensures { rule_number result ≡ number }
    {
        Rule { number }
    }

    /// The rule with that number, or none where there are fewer.
    pub fn from_number(number: usize) -> Option<Rule>
        ensures some { IfSome result (λ rule. rule_number rule ≡ number) }
        ensures none { IfNone result (length names ≤ number) }
    {
        if number >= rule_count() {
            return None;
        }
        Some(Rule {
            number: number as u16,
        })
    }

    /// The rule that the row of the table with that number is of; none where there are fewer rows.
    pub fn of_row(row: usize) -> Option<Rule>
        ensures some { IfSome result (λ rule. rule_of row ≡ Some (rule_number rule)) }
        ensures none { IfNone result (rule_of row ≡ None) }
    {
        let number = number_of_row(row)?;
        Some(Rule {
            number: number as u16,
        })
    }

    /// The rule's place among the names in the table.
    pub fn number(self) -> usize
        ensures { result ≡ rule_number self }
    {
        self.number as usize
    }

    /// The rule's name.
    pub fn name(self) -> &'static str
        ensures { result.now ≡ rule_name self }
    {
        name_of(self.number as usize).unwrap_or("")
    }

    /// The rule of that name, or none where no rule has it.
    pub fn from_name(name: &str) -> Option<Rule>
        ensures some { IfSome result (λ rule. rule_name rule ≡ name.now) }
        ensures none { IfNone result ((rule : Rule) → rule_name rule ≢ name.now) }
    {
        let number = number_of(name)?;
        Some(Rule {
            number: number as u16,
        })
    }
}

impl FromStr for Rule {
    ghost use Rattle.rewrite_rules.specs.Rule.{ReadsAs};

    type Err = UnknownRule;

    ghost from_str_gives = { λ text outcome. ReadsAs text outcome };

    fn from_str(s: &str) -> Result<Rule, UnknownRule> {
        Rule::from_name(s).ok_or(UnknownRule)
    }
}

impl std::fmt::Display for Rule {
    ghost use Rattle.std.specs.Prelude.{Some};
    ghost use Rattle.rewrite_rules.specs.Rule.{rule_name};

    ghost output = { λ rule. Some (rule_name rule) };

    fn fmt<W: std::fmt::Write>(&self, f: &mut std::fmt::Formatter<W>) -> std::fmt::Result {
        let name = self.name();
        write!(f, "{name}")
    }
}

//! The names of rules by the rows of the table.
ghost use Rattle.std.specs.Prelude.{◌≡◌, ℕ, map, slice_get};
ghost use Rattle.rewrite_rules.specs.Names.{names, rule_of};

use rewrite_rules::{rule_names, rules_of_rows};
use std::alloc::{AllocError, Global};

/// The names of all rules, and of which rule each row of the table is: for what names the rules of many rewrites.
#[derive(Drop)]
pub struct RowNames {
    texts: Vec<&'static str>,
    rules: Vec<u16>,
    ghost named: { map (λ name. name.now) texts.items ≡ names },
    ghost ruled: { (n : ℕ) → slice_get rules.items n ≡ rule_of n },
}

impl RowNames {
    ghost use Rattle.std.specs.Prelude.{◌≡◌};
    ghost use Rattle.module_showing.specs.Shown.{row_name};

    /// The names, made anew. The only error is that memory was refused.
    pub fn new(alloc: Global) -> Result<RowNames, AllocError> {
        let texts = rule_names(alloc)?;
        let rules = rules_of_rows(alloc)?;
        Ok(RowNames { texts, rules })
    }

    /// The name of the rule that the row is of; empty where there is no such row.
    pub fn name(&self, row: usize) -> &'static str
        ensures { result.now ≡ row_name row }
    {
        let Some(number) = self.rules.get(row).copied() else {
            return "";
        };
        match self.texts.get(number as usize).copied() {
            Some(name) => name,
            None => "",
        }
    }
}

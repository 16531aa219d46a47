//! Tests of `rewrite_rules` and `body_rewrites` by cases worked by hand: the calls on rows of the table, and their texts; what each rule
//! makes of bodies, and where it makes nothing; every rewrite of a body, and what is chosen.
//!
//! A case begins with the call that is tried. Of a call on a body the other fields are a scene (see `scene`), a rule or what is given for
//! one, a body, and what more the call takes. A body is a text of `body_notation`, without its `end`, or its bytes after `0x`.

mod body_calls;
mod coverage;
mod lists;
mod own_rules;
mod printing;
mod rule_table;
mod scene;
mod table_calls;
mod unreadable;

use body_calls::answer_on_body;
use case_files::{Answers, fields_of, judge_file};
use coverage::Coverage;
use rule_table::RuleTable;
use std::alloc::{AllocError, Global};
use std::io;
use table_calls::answer_on_table;
use unreadable::Unreadable;

const FAMILIES: &str = "
rule_orders rule_forms rule_operands rule_shorter rule_bits rule_extensions rule_integer_tests rule_floats rule_float_signs
rule_float_tests rule_vectors rule_vector_masks rule_lanes rule_lane_tests rule_lane_bounds rule_lane_floats rule_lane_moves
rule_float_lane_tests rule_saturation rule_conversions rule_accesses rule_control rule_bodies rule_own_code rule_lists rule_names
rule_parts rule_texts rule_exactness
";

/// Answers by the calls of `rewrite_rules` and `body_rewrites`.
#[derive(Drop)]
struct RuleAnswers {
    table: RuleTable,
}

impl RuleAnswers {
    // What the call of the input answers.
    fn answer_of(&self, alloc: Global, input: &str) -> Result<String, Unreadable> {
        let fields = fields_of(alloc, input)?;
        let (call, arguments) = fields.split_first().ok_or(Unreadable)?;
        match *call {
            "rewrite_body"
            | "trees_of"
            | "own_code"
            | "own_growth"
            | "rewrites_of_body"
            | "reached_operators"
            | "choose" => answer_on_body(alloc, &self.table, call, arguments),
            _ => answer_on_table(alloc, call, arguments),
        }
    }
}

impl Answers for RuleAnswers {
    fn answer(&self, alloc: Global, input: &str) -> Result<String, AllocError> {
        match self.answer_of(alloc, input) {
            Ok(text) => Ok(text),
            Err(Unreadable) => String::from_str(alloc, "unreadable input"),
        }
    }
}

/// Judges the cases of every family; whether all are right.
pub fn judge_all(rt: &HostRuntime) -> io::Result<bool> {
    let table = RuleTable::new(rt.alloc())?;
    let coverage = Coverage::new(rt, &table, FAMILIES)?;
    let answers = RuleAnswers { table };
    let mut all_right = judge_file(rt, "rule_coverage", &coverage)?;
    for family in FAMILIES.split_whitespace() {
        let is_right = judge_file(rt, family, &answers)?;
        all_right = all_right && is_right;
    }
    Ok(all_right)
}

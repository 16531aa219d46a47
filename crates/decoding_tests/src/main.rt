//! Tests by cases from outside: of bytes and operators, of modules, their sections, what these declare and the names of functions, of
//! what is known of a module, of what each row takes and gives, of payloads, errors and every node. A file of `data/` for each family
//! has the cases with what is expected. Prints for each family how many of them are answered so.
#![tactic(auto)]

mod code;
mod devices;
mod errors;
mod given;
mod inputs;
mod lists;
mod modules;
mod node_names;
mod nodes;
mod operand_types;
mod payloads;
mod sections;

use crate::inputs::Text;
use case_files::{Answers, fields_of, judge_file};
use std::alloc::Global;
use std::process::ExitCode;

/// The families. Each has a file of its name.
const FAMILIES: &str =
    "bodies comparisons devices errors function_names given lists modules operand_types payloads rows sections texts \
     variants";

/// The calls of the family of that name.
#[derive(Clone, Copy)]
struct Calls(&'static str);

impl Answers for Calls {
    fn answer(&self, alloc: Global, input: &str) -> Text {
        let fields = fields_of(alloc, input)?;
        match self.0 {
            "bodies" | "rows" => code::answer(alloc, &fields),
            "devices" => devices::answer(alloc, &fields),
            "errors" => errors::answer(alloc, &fields),
            "given" => given::answer(alloc, &fields),
            "lists" => lists::answer(alloc, &fields),
            "modules" => modules::answer(alloc, &fields),
            "operand_types" => operand_types::answer(alloc, &fields),
            "payloads" => payloads::answer(alloc, &fields),
            "function_names" | "sections" => sections::answer(alloc, &fields),
            _ => nodes::answer(alloc, &fields),
        }
    }
}

fn main(rt: HostRuntime) -> ExitCode {
    let mut status = ExitCode::SUCCESS;
    for family in FAMILIES.split_whitespace() {
        let judged = judge_file(&rt, family, &Calls(family));
        if !matches!(judged, Ok(true)) {
            status = ExitCode::FAILURE;
            let _ = eprintln!(rt; "{family}: {judged:?}");
        }
    }
    status
}

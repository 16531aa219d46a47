//! The calls on bodies: what rows of the table make of an operator, and other calls.

ghost use Rattle.body_splices.specs.OwnBytes.{IsBodyIn};
ghost use Rattle.body_rewrites.specs.Places.{HasItsLists};

use super::lists::list_text;
use super::own_rules::own_text;
use super::printing::body_text;
use super::rule_table::RuleTable;
use super::scene::{Scene, scene_of};
use super::unreadable::{Unreadable, number_in};
use body_notation::body_of;
use body_rewrites::{Body, Rewrite, blocks_of, rewrite_body, trees_of};
use case_files::bytes_of;
use std::alloc::Global;
use wasm_code::{Function, OperatorAndByteOffset, read_body};
use wasm_execution::IntegerType;

/// What a rule draws if no word is given.
const DRAWN: u64 = 4294967303;

/// What is asked of a body: a call, what it is asked with, and whether the body is a text, so that new ones are printed as texts too.
#[derive(Clone, Copy)]
pub struct Asked<'a> {
    pub call: &'a str,
    /// A rule, a row, or the rules that may be used.
    pub with: &'a str,
    pub is_text: bool,
    /// The field after the body: an operator, or what may become of the number of operators.
    pub first: &'a str,
    /// The words that are drawn.
    pub second: &'a str,
}

impl Asked<'_> {
    /// The word that a rule draws.
    pub fn word(&self) -> u64 {
        self.second.parse().unwrap_or(DRAWN)
    }
}

// The body that the text is, or the bytes after `0x`.
fn code_of(alloc: Global, text: &str) -> Result<Function, Unreadable> {
    match text.strip_prefix("0x") {
        Some(digits) => {
            let mut code = Function::new(alloc);
            code.raw(&bytes_of(alloc, digits)?)?;
            Ok(code)
        }
        None => Ok(body_of(alloc, text)?),
    }
}

// Both widths, with their names.
const WIDTHS: [(IntegerType, &str); 2] = [(IntegerType::I32, "i32"), (IntegerType::I64, "i64")];

// What the row makes of the operator: the body, and the types of the globals that are asked for. None where it makes nothing.
fn made(
    alloc: Global,
    body: &Body<'_>,
    bytes: &[u8],
    rewrite: Rewrite,
    asked: &Asked<'_>,
) -> Result<Option<String>, Unreadable>
    requires lists { HasItsLists body.now }
    requires body { IsBodyIn bytes.now body.now.operators.now }
{
    let word = asked.word();
    let mut new = Function::new(alloc);
    let Some(types) = rewrite_body(alloc, body, bytes, rewrite, word, &mut new)? else {
        return Ok(None);
    };
    let mut text = body_text(alloc, new.bytes(), asked.is_text)?;
    for t in &types {
        write!(text, " | {}", t.name())?;
    }
    Ok(Some(text))
}

// All that the rule or the row makes of the operator, a line each, with its width. Of `rewriting_rows` the rows that make something.
fn rewritten_text(
    alloc: Global,
    table: &RuleTable,
    body: &Body<'_>,
    bytes: &[u8],
    asked: &Asked<'_>,
) -> Result<String, Unreadable>
    requires lists { HasItsLists body.now }
    requires body { IsBodyIn bytes.now body.now.operators.now }
{
    let operator = number_in(asked.first)?;
    let mut lines = String::new(alloc);
    for row in table.rows(alloc, asked.with)? {
        for (width, name) in WIDTHS {
            let rewrite = Rewrite {
                operator,
                row,
                width,
            };
            match made(alloc, body, bytes, rewrite, asked)? {
                Some(_) if asked.call == "rewriting_rows" => writeln!(lines, "{row}")?,
                Some(text) => writeln!(lines, "{name} | {text}")?,
                None => {}
            }
        }
    }
    if lines.is_empty() {
        lines.push_str("nothing")?;
    }
    Ok(lines)
}

// The answer of a call on the body.
fn answer_there(
    alloc: Global,
    table: &RuleTable,
    body: &Body<'_>,
    bytes: &[u8],
    asked: &Asked<'_>,
) -> Result<String, Unreadable>
    requires lists { HasItsLists body.now }
    requires body { IsBodyIn bytes.now body.now.operators.now }
{
    match asked.call {
        "rewrite_body" | "rewriting_rows" => rewritten_text(alloc, table, body, bytes, asked),
        "trees_of" => {
            let operator = number_in(asked.first)?;
            Ok(format!(in alloc; "{:?}", body.trees.get(operator))?)
        }
        "own_code" | "own_growth" => own_text(alloc, table, body, asked),
        _ => list_text(alloc, body, asked),
    }
}

// The same on the body of these operators.
fn answer_in(
    alloc: Global,
    table: &RuleTable,
    scene: &Scene,
    bytes: &[u8],
    operators: &[OperatorAndByteOffset],
    asked: &Asked<'_>,
) -> Result<String, Unreadable>
    requires { IsBodyIn bytes.now operators.now }
{
    let info = &scene.info;
    let locals = scene.locals.as_slice();
    let trees = trees_of(alloc, locals, info, operators)?;
    let blocks = blocks_of(alloc, operators)?;
    let body = Body {
        info,
        locals,
        operators,
        trees: &trees,
        blocks: &blocks,
    };
    answer_there(alloc, table, &body, bytes, asked)
}

/// The answer of the call of that name to its arguments.
pub fn answer_on_body(
    alloc: Global,
    table: &RuleTable,
    call: &str,
    arguments: &[&str],
) -> Result<String, Unreadable> {
    let [scene, with, text, rest @ ..] = arguments else {
        return Err(Unreadable);
    };
    let with = *with;
    let first = rest.first().copied().unwrap_or("");
    let second = rest.get(1).copied().unwrap_or("");
    let asked = Asked {
        call,
        with,
        is_text: !text.starts_with("0x"),
        first,
        second,
    };
    let scene = scene_of(alloc, scene)?;
    let code = code_of(alloc, text)?;
    let bytes = code.bytes();
    match read_body(alloc, bytes, 0, bytes.len()) {
        Ok(operators) => answer_in(alloc, table, &scene, bytes, &operators, &asked),
        Err(_) => Err(Unreadable),
    }
}

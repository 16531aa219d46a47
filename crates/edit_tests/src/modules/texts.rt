//! Rewrites and changes shown, texts of operators, and the list of rules.

use crate::modules::fields::Fields;
use anyhow::{Context, Result};
use body_rewrites::Rewrite;
use module_changes::MadeChange;
use module_rewrites::MadeRewrite;
use module_showing::{OperatorText, write_shown, write_shown_change};
use rewrite_rules::{Rule, row_count, rule_count};
use rule_listing::{Form, write_rules};
use std::alloc::Global;
use std::str;
use wasm_code::read_code;
use wasm_execution::IntegerType;

/// The bytes as a text, and `end` after it.
fn ended(alloc: Global, bytes: &[u8]) -> Result<String> {
    Ok(format!(in alloc; "{}end", str::from_utf8(bytes)?)?)
}

/// `rewrite`, a rule, a function, an operator, and a module before and after: what is shown.
pub(crate) fn rewrite(alloc: Global, fields: &mut Fields<'_>) -> Result<String> {
    let rule = fields.rule()?;
    let row = (0..row_count()).find(|row| Rule::of_row(*row) == Some(rule));
    let function = fields.number()?;
    let rewrite = Rewrite {
        operator: fields.number()?,
        row: row.context("no row")?,
        width: IntegerType::I32,
    };
    let made = MadeRewrite { function, rewrite };
    let (old, new) = (fields.bytes()?, fields.bytes()?);
    let mut output = Vec::new(alloc);
    write_shown(alloc, &mut output, &old, &new, &made)?;
    ended(alloc, &output)
}

/// `change`, a change, a function, an operator, where the code begins that it replaces, and a module before and after: what is shown.
pub(crate) fn change(alloc: Global, fields: &mut Fields<'_>) -> Result<String> {
    let made = MadeChange {
        change: fields.change()?,
        function: fields.number()?,
        operator: fields.number()?,
        start: fields.number()?,
    };
    let (old, new) = (fields.bytes()?, fields.bytes()?);
    let mut output = Vec::new(alloc);
    write_shown_change(alloc, &mut output, &old, &new, &made)?;
    ended(alloc, &output)
}

/// `operator`, and the bytes of code: the text of its first operator.
pub(crate) fn operator(alloc: Global, fields: &mut Fields<'_>) -> Result<String> {
    let bytes = fields.bytes()?;
    let operators = read_code(alloc, &bytes, 0, bytes.len())?;
    let (operator, _) = *operators.first().context("no operator")?;
    Ok(format!(in alloc; "{}", OperatorText(operator))?)
}

/// The list of rules in the form of the name.
fn list_of(alloc: Global, form: &str) -> Result<Vec<u8>> {
    let form = match form {
        "json" => Form::Json,
        "markdown" => Form::Markdown,
        _ => Form::Text,
    };
    let mut output = Vec::new(alloc);
    write_rules(alloc, &mut output, form)?;
    Ok(output)
}

/// `lines`, a form, and numbers: how many lines the list of rules has, and how many rules and rows there are; and its lines with these
/// numbers, from 0.
pub(crate) fn lines(alloc: Global, fields: &mut Fields<'_>) -> Result<String> {
    let list = list_of(alloc, fields.text())?;
    let numbers = fields.words()?;
    let list = str::from_utf8(&list)?;
    let (count, rules, rows) = (list.lines().count(), rule_count(), row_count());
    let mut text = format!(in alloc; "{count} lines {rules} rules {rows} rows\n")?;
    for (number, line) in list.lines().enumerate() {
        if numbers.contains(&(number as u64)) {
            text.push_str(line)?;
            text.push('\n')?;
        }
    }
    Ok(text)
}

/// `exact`: the numbers of the rules that need an exact engine.
pub(crate) fn exact(alloc: Global) -> Result<String> {
    let list = list_of(alloc, "json")?;
    let mut numbers: Vec<usize> = Vec::new(alloc);
    for (number, line) in str::from_utf8(&list)?.lines().enumerate() {
        if line.starts_with(r#"{"exact":true,"#) {
            numbers.push(number)?;
        }
    }
    Ok(format!(in alloc; "{numbers:?}")?)
}

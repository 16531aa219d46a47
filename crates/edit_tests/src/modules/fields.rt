//! The fields of a case, and texts of what is answered.

use anyhow::{Context, Result};
use body_changes::{CHANGES, Change};
use body_notation::{body_of, code_of, words_of};
use case_files::bytes_of;
use module_showing::OperatorText;
use rewrite_rules::Rule;
use std::alloc::Global;
use std::fmt::Debug;
use wasm_code::{Function, Instr, Operator};
use wasm_types::PrimitiveTypeInfo;

/// The fields of an input that aren't read yet: each is asked for what it is to be.
#[derive(Drop)]
pub(crate) struct Fields<'a> {
    alloc: Global,
    rest: &'a str,
}

impl<'a> Fields<'a> {
    /// All fields of the input.
    pub(crate) fn new(alloc: Global, input: &'a str) -> Fields<'a> {
        Fields { alloc, rest: input }
    }

    /// The next field; an empty one where there is none.
    pub(crate) fn text(&mut self) -> &'a str {
        let (first, rest) = self.rest.split_once('|').unwrap_or((self.rest, ""));
        self.rest = rest;
        first.trim()
    }

    /// A number.
    pub(crate) fn number(&mut self) -> Result<usize> {
        Ok(self.text().parse::<usize>()?)
    }

    /// The index of a function, or none for `any`.
    pub(crate) fn function(&mut self) -> Result<Option<usize>> {
        match self.text() {
            "any" => Ok(None),
            number => Ok(Some(number.parse::<usize>()?)),
        }
    }

    /// Bytes, in hexadecimal digits.
    pub(crate) fn bytes(&mut self) -> Result<Vec<u8>> {
        let field = self.text();
        Ok(bytes_of(self.alloc, field)?)
    }

    /// Words of a generator.
    pub(crate) fn words(&mut self) -> Result<Vec<u64>> {
        let field = self.text();
        words_of(self.alloc, field).ok().context("no words")
    }

    /// A body.
    pub(crate) fn body(&mut self) -> Result<Function> {
        let field = self.text();
        body_of(self.alloc, field).ok().context("no body")
    }

    /// Instructions.
    pub(crate) fn code(&mut self) -> Result<Vec<Instr>> {
        let field = self.text();
        code_of(self.alloc, field).ok().context("no code")
    }

    /// Types.
    pub(crate) fn types(&mut self) -> Result<Vec<PrimitiveTypeInfo>> {
        let mut types = Vec::new(self.alloc);
        for name in self.text().split_whitespace() {
            types.push(PrimitiveTypeInfo::from_name(name).context("no type")?)?;
        }
        Ok(types)
    }

    /// A rule.
    pub(crate) fn rule(&mut self) -> Result<Rule> {
        Rule::from_name(self.text()).context("no rule")
    }

    /// Rules.
    pub(crate) fn rules(&mut self) -> Result<Vec<Rule>> {
        let mut rules = Vec::new(self.alloc);
        for name in self.text().split_whitespace() {
            rules.push(Rule::from_name(name).context("no rule")?)?;
        }
        Ok(rules)
    }

    /// A change.
    pub(crate) fn change(&mut self) -> Result<Change> {
        Change::from_name(self.text()).context("no change")
    }

    /// Changes, or all of them.
    pub(crate) fn changes(&mut self) -> Result<Vec<Change>> {
        let names = self.text();
        if names == "all" {
            return Ok(Vec::from_slice(self.alloc, &CHANGES)?);
        }
        let mut changes = Vec::new(self.alloc);
        for name in names.split_whitespace() {
            changes.push(Change::from_name(name).context("no change")?)?;
        }
        Ok(changes)
    }
}

/// A line for each of the items.
pub(crate) fn lines_of<T: Debug>(alloc: Global, items: &[T]) -> Result<String> {
    let mut text = String::new(alloc);
    for item in items {
        let line = format!(in alloc; "{item:?}\n")?;
        text.push_str(line.as_str())?;
    }
    Ok(text)
}

/// The instructions in the words of the text format, with semicolons between them.
pub(crate) fn code_text(alloc: Global, code: &[Instr]) -> Result<String> {
    let mut text = String::new(alloc);
    for instr in code {
        if !text.is_empty() {
            text.push_str("; ")?;
        }
        let operator = OperatorText(Operator::Instr(*instr));
        let operator = format!(in alloc; "{operator}")?;
        text.push_str(operator.as_str())?;
    }
    Ok(text)
}

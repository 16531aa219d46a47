//! The calls on the table of rules, on its rows, and on what these consist of.

use super::unreadable::{Unreadable, number_in};
use body_notation::{instr_of, words_of};
use rewrite_rules::{
    Condition, Effects, Number, Row, Rule, Side, Step, TableRow, Widths, access_at, all_rules,
    may_move, row_at, row_count, rule_count, rule_names, rules_of_rows,
};
use std::alloc::Global;
use wasm_execution::{Binary, IntegerType, Operation};
use wasm_types::PrimitiveTypeInfo;

// Numbers of rows by their names.
static NUMBERS: [(&str, Number); 12] = [
    ("Literal(7)", Number::Literal(7)),
    ("Ones", Number::Ones),
    ("Bits", Number::Bits),
    ("Sign", Number::Sign),
    ("Slot(1)", Number::Slot(1)),
    ("Turned(0)", Number::Turned(0)),
    ("Next(0)", Number::Next(0)),
    ("Previous(0)", Number::Previous(0)),
    ("Negated(0)", Number::Negated(0)),
    ("Power(0)", Number::Power(0)),
    ("Place(0)", Number::Place(0)),
    ("Sum(0, 1)", Number::Sum(0, 1)),
];

// What may be asked of constants, by its name.
static CONDITIONS: [(&str, Condition); 5] = [
    ("BelowWidth(0)", Condition::BelowWidth(0)),
    ("Power(0)", Condition::Power(0)),
    ("Mask(0)", Condition::Mask(0)),
    ("Turns(0, 0)", Condition::Turns(0, 0)),
    ("Turns(0, 1)", Condition::Turns(0, 1)),
];

// What has that name.
fn named<T: Copy>(list: &[(&str, T)], name: &str) -> Result<T, Unreadable> {
    for (known, value) in list {
        if *known == name {
            return Ok(*value);
        }
    }
    Err(Unreadable)
}

// The value of a number by constants for a width, or whether a condition holds of them.
fn number_text(
    alloc: Global,
    call: &str,
    name: &str,
    constants: &str,
    width: &str,
) -> Result<String, Unreadable> {
    let constants = words_of(alloc, constants)?;
    let width = match width {
        "i32" => IntegerType::I32,
        _ => IntegerType::I64,
    };
    if call == "Condition::holds" {
        let holds = named(&CONDITIONS, name)?.holds(width, &constants);
        return Ok(format!(in alloc; "{holds}")?);
    }
    let value = named(&NUMBERS, name)?.value(width, &constants);
    Ok(format!(in alloc; "{value}")?)
}

// The indices of operands.
fn indices_of(alloc: Global, text: &str) -> Result<Vec<u8>, Unreadable> {
    let mut indices = Vec::new(alloc);
    for word in text.split_whitespace() {
        indices.push(word.parse().ok().ok_or(Unreadable)?)?;
    }
    Ok(indices)
}

// Whether operands, each of which may do what its word says, may move from these places to those.
fn moves_text(alloc: Global, effects: &str, left: &str, right: &str) -> Result<String, Unreadable> {
    let mut list = Vec::new(alloc);
    for word in effects.split_whitespace() {
        list.push(Effects {
            writes: word == "writes",
            traps: word == "traps",
            asks: word == "asks",
        })?;
    }
    let left = indices_of(alloc, left)?;
    let right = indices_of(alloc, right)?;
    Ok(format!(in alloc; "{}", may_move(&list, &left, &right))?)
}

// The immediate that the access with that number writes instead of the instruction's.
fn written_text(alloc: Global, access: &str, instr: &str) -> Result<String, Unreadable> {
    let access = access_at(access.parse().ok().ok_or(Unreadable)?).ok_or(Unreadable)?;
    let immediate = instr_of(instr).ok_or(Unreadable)?.imm();
    Ok(format!(in alloc; "{:?}", access.written(immediate))?)
}

// The step that the word is: an operand, or a row of the instruction table with or without a lane; or the sign of an i32, or `i32.xor`.
fn step_of(word: &str) -> Option<Step> {
    Some(match word {
        "x" => Step::Operand(0),
        "y" => Step::Operand(1),
        "sign" => Step::Constant(Number::Literal(0x8000_0000)),
        "xor" => Step::Whole(Operation::Binary(IntegerType::I32, Binary::Xor)),
        _ => match word.split_once('/') {
            Some((row, lane)) => Step::Exact(row.parse().ok()?, Some(lane.parse().ok()?)),
            None => Step::Exact(word.parse().ok()?, None),
        },
    })
}

// The side with the steps that the words are.
fn side_of(words: &str) -> Result<Side, Unreadable> {
    let mut side = [Step::End; 7];
    for (step, word) in side.iter_mut().zip(words.split_whitespace()) {
        *step = step_of(word).ok_or(Unreadable)?;
    }
    Ok(side)
}

// The row for a first operand of the first type, and others of the second one, with these sides.
fn step_row(types: &str, left: &str, right: &str) -> Result<Row, Unreadable> {
    let (first, second) = types.split_once(' ').ok_or(Unreadable)?;
    let first = PrimitiveTypeInfo::from_name(first).ok_or(Unreadable)?;
    let second = PrimitiveTypeInfo::from_name(second).ok_or(Unreadable)?;
    Ok(Row {
        widths: Widths::Operands(first, second, second),
        condition: None,
        left: side_of(left)?,
        right: side_of(right)?,
    })
}

// The text of a row, or its growth.
fn row_answer(alloc: Global, call: &str, row: Option<Row>) -> Result<String, Unreadable> {
    match row {
        Some(row) if call == "Row::growth" => Ok(format!(in alloc; "{:?}", row.growth())?),
        Some(row) => Ok(format!(in alloc; "{row}")?),
        None => Ok(String::from_str(alloc, "None")?),
    }
}

// The number and the name of a rule.
fn rule_text(alloc: Global, rule: Option<Rule>) -> Result<String, Unreadable> {
    let told = rule.map(|rule| (rule.number(), rule.name()));
    Ok(format!(in alloc; "{told:?}")?)
}

// The answer of a call to a number.
fn answer_to_number(alloc: Global, call: &str, number: usize) -> Result<String, Unreadable> {
    match call {
        "rule_names" => {
            let names = rule_names(alloc)?;
            Ok(format!(in alloc; "{:?}", names.get(number))?)
        }
        "rules_of_rows" => {
            let rules = rules_of_rows(alloc)?;
            Ok(format!(in alloc; "{:?}", rules.get(number))?)
        }
        "access_at" => {
            let access = access_at(u8::try_from(number).ok().ok_or(Unreadable)?);
            Ok(format!(in alloc; "{access:?}")?)
        }
        "TableRow::needs_exact" => {
            let needs = TableRow::numbered(number).map(|row| row.needs_exact());
            Ok(format!(in alloc; "{needs:?}")?)
        }
        "row_at" | "Row::growth" => row_answer(alloc, call, row_at(number)),
        "Rule::from_number" => rule_text(alloc, Rule::from_number(number)),
        "Rule::of_row" => rule_text(alloc, Rule::of_row(number)),
        "all_rules" => rule_text(alloc, all_rules(alloc)?.get(number).copied()),
        _ => Err(Unreadable),
    }
}

/// The answer of the call of that name to its arguments.
pub fn answer_on_table(
    alloc: Global,
    call: &str,
    arguments: &[&str],
) -> Result<String, Unreadable> {
    match arguments {
        [] => {
            let count = match call {
                "rule_count" => rule_count(),
                "row_count" => row_count(),
                "rules_of_rows" => rules_of_rows(alloc)?.len(),
                _ => return Err(Unreadable),
            };
            Ok(format!(in alloc; "{count}")?)
        }
        [name] => match call {
            "Rule::from_name" => rule_text(alloc, Rule::from_name(name)),
            "parse" => rule_text(alloc, name.parse().ok()),
            _ => answer_to_number(alloc, call, number_in(name)?),
        },
        [access, instr] => match call {
            "Access::written" => written_text(alloc, access, instr),
            _ => Err(Unreadable),
        },
        [first, second, third] => match call {
            "may_move" => moves_text(alloc, first, second, third),
            "Row" | "Row::growth" => {
                row_answer(alloc, call, Some(step_row(first, second, third)?))
            }
            "Number::value" | "Condition::holds" => number_text(alloc, call, first, second, third),
            _ => Err(Unreadable),
        },
        _ => Err(Unreadable),
    }
}

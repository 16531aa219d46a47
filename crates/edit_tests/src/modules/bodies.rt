//! Changes of bodies.
ghost use Rattle.std.specs.Prelude.{IfOk};
ghost use Rattle.body_splices.specs.OwnBytes.{IsBodyIn};

use crate::modules::fields::{Fields, code_text, lines_of};
use crate::modules::samples::{LOCALS, WITH_REFERENCE, module, module_of_one};
use PrimitiveTypeInfo::I32;
use anyhow::{Context, Result, bail};
use body_changes::{
    Body, Change, Scope, Source, change_last, change_of_words, code_of_words, copied_into,
    is_drawable, other_operator, replace_code, types_in_place, types_of_code, unit_named, units_of,
};
use body_notation::instr_of;
use instruction_names::instruction_name;
use std::alloc::Global;
use wasm_code::{Function, OperatorAndByteOffset, read_code};
use wasm_types::PrimitiveTypeInfo;

/// Of how many instructions drawn code is at most.
const MOST: usize = 2;

/// `units`, and a body with two locals of i32: the unit of each operator.
pub(crate) fn units(alloc: Global, fields: &mut Fields<'_>) -> Result<String> {
    let function = fields.body()?;
    let bytes = function.bytes();
    let info = module_of_one(alloc)?;
    let operators = read_code(alloc, bytes, 0, bytes.len())?;
    let units = units_of(alloc, &[I32, I32], &info, &operators)?;
    lines_of(alloc, &units)
}

/// `chosen`, changes, a body and words: the change that these choose, its operator, where its code begins, and the code. Or `none`. What
/// may be copied is the unit of the operator that the third word names. With a range after these: the last operator in it that the first
/// change changes.
pub(crate) fn chosen(alloc: Global, fields: &mut Fields<'_>) -> Result<String> {
    let changes = fields.changes()?;
    let function = fields.body()?;
    let words = fields.words()?;
    let bytes = function.bytes();
    let info = module(alloc)?;
    let operators = read_code(alloc, bytes, 0, bytes.len())?;
    let units = units_of(alloc, LOCALS, &info, &operators)?;
    let source = Source {
        info: &info,
        locals: LOCALS,
        operators: &operators,
        input: bytes,
    };
    let unit = unit_named(alloc, &source, words.get(2).copied().unwrap_or(0))?;
    let code = unit.unwrap_or(Vec::new(alloc));
    let copied = copied_into(alloc, &source, &code)?;
    let body = Body {
        source,
        units: &units,
        most: MOST,
        copied,
    };
    let found = match fields.text() {
        "" => change_of_words(alloc, &body, &changes, &words)?,
        first => {
            let change = changes.first().copied().context("no change")?;
            let range = first.parse::<usize>()?..operators.len().min(fields.number()?);
            change_last(alloc, &body, change, range, &words)?
        }
    };
    let Some(found) = found else {
        return Ok(String::from_str(alloc, "none")?);
    };
    let code = code_text(alloc, &found.code)?;
    let name = found.change.name();
    Ok(format!(in alloc; "{name} {} {} [{code}]", found.at, found.start)?)
}

/// `types`, and code: the types that it leaves.
pub(crate) fn types(alloc: Global, fields: &mut Fields<'_>) -> Result<String> {
    let code = fields.code()?;
    let types = types_of_code(alloc, WITH_REFERENCE, &module(alloc)?, &code)?;
    Ok(format!(in alloc; "{types:?}")?)
}

/// The operators of the body after the first byte.
fn operators_of(alloc: Global, bytes: &[u8]) -> Result<Vec<OperatorAndByteOffset>>
    ensures { IfOk result (λ operators. IsBodyIn bytes.now operators.items) }
{
    let from = bytes.len().min(1);
    Ok(read_code(alloc, bytes, from, bytes.len())?)
}

/// `replaced`, a byte and a body, a range of operators, and code: the types that the operators leave, whether the code comes in their
/// place, and what a sink holds then that held the byte 7.
pub(crate) fn replaced(alloc: Global, fields: &mut Fields<'_>) -> Result<String> {
    let input = fields.bytes()?;
    let (start, end) = (fields.number()?, fields.number()?);
    let code = fields.code()?;
    let info = module(alloc)?;
    let operators = operators_of(alloc, &input)?;
    let source = Source {
        info: &info,
        locals: WITH_REFERENCE,
        operators: &operators,
        input: &input,
    };
    if end >= operators.len() {
        bail!("no such operator");
    }
    let types = types_in_place(alloc, &source, start..end)?;
    let mut sink = Function::new(alloc);
    sink.raw(b"\x07")?;
    let is_replaced = replace_code(alloc, &source, start..end, &code, &mut sink)?;
    let held = hex::encode(alloc, sink.bytes())?;
    Ok(format!(in alloc; "{types:?} {is_replaced} {held}")?)
}

/// `drawn`, a type, how many instructions there may be, and words: the code that they draw.
pub(crate) fn drawn(alloc: Global, fields: &mut Fields<'_>) -> Result<String> {
    let wanted = fields.types()?.first().copied().context("no type")?;
    let size = fields.number()?;
    let words = fields.words()?;
    let info = module(alloc)?;
    let scope = Scope {
        info: &info,
        locals: WITH_REFERENCE,
    };
    if size == 0 || !is_drawable(&info, wanted) {
        bail!("nothing is drawn");
    }
    let code = code_of_words(alloc, &scope, wanted, size, &words)?;
    code_text(alloc, &code)
}

/// `other`, an instruction, the types of its operands, and a word: another operator on these.
pub(crate) fn other(alloc: Global, fields: &mut Fields<'_>) -> Result<String> {
    let instr = instr_of(fields.text()).context("no such instruction")?;
    let operands = fields.types()?;
    let word = fields.number()? as u64;
    let info = module(alloc)?;
    let scope = Scope {
        info: &info,
        locals: WITH_REFERENCE,
    };
    let other = other_operator(&scope, &instr, &operands, word);
    let name = other.map(|found| instruction_name(found.row()));
    Ok(format!(in alloc; "{name:?}")?)
}

/// `name`, and a name, or none: the change of that name, and its name.
pub(crate) fn name(alloc: Global, fields: &mut Fields<'_>) -> Result<String> {
    let change = Change::from_name(fields.text());
    let name = change.map(|change| change.name());
    Ok(format!(in alloc; "{change:?} {name:?}")?)
}

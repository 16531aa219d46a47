//! What rules beside the table make of bodies.

use super::body_calls::Asked;
use super::printing::{add_item, instruction_text};
use super::rule_table::RuleTable;
use super::unreadable::{Unreadable, number_in};
use body_rewrites::{Body, own_code, own_growth};
use body_splices::Piece;
use rewrite_rules::{Own, Widths, row_at};
use std::alloc::{AllocError, Global};

// The rule of that name, or after `access` the access with that number.
fn own_named(alloc: Global, table: &RuleTable, name: &str) -> Result<Own, Unreadable> {
    if let Some(number) = name.strip_prefix("access ") {
        return Ok(Own::Access(number.parse().ok().ok_or(Unreadable)?));
    }
    let rows = table.rows(alloc, name)?;
    let row = rows.first().and_then(|row| row_at(*row));
    match row.ok_or(Unreadable)?.widths {
        Widths::Own(own) => Ok(own),
        _ => Err(Unreadable),
    }
}

// A piece as a text.
fn piece_text(alloc: Global, piece: Piece) -> Result<String, AllocError> {
    match piece {
        Piece::Kept { start, end } => format!(in alloc; "{start}..{end}"),
        Piece::New(instr) => instruction_text(alloc, &instr),
        Piece::Structural(_) => String::from_str(alloc, "structural"),
    }
}

/// What the rule makes at the operator: the first operator that is replaced, what is written, where ranges are of operators that stay,
/// and the type of the global that is asked for. Of `own_growth` what it does to the number of operators.
pub fn own_text(
    alloc: Global,
    table: &RuleTable,
    body: &Body<'_>,
    asked: &Asked<'_>,
) -> Result<String, Unreadable> {
    let own = own_named(alloc, table, asked.with)?;
    let operator = number_in(asked.first)?;
    if asked.call == "own_growth" {
        return Ok(format!(in alloc; "{:?}", own_growth(body, own, operator))?);
    }
    let Some(code) = own_code(body, own, operator, asked.word()) else {
        return Ok(String::from_str(alloc, "nothing")?);
    };
    let mut pieces = String::new(alloc);
    for piece in code.pieces.as_slice() {
        add_item(&mut pieces, "; ", &piece_text(alloc, *piece)?)?;
    }
    if pieces.is_empty() {
        pieces.push_str("no code")?;
    }
    if let Some(t) = code.asks {
        write!(pieces, " | {}", t.name())?;
    }
    Ok(format!(in alloc; "{} | {pieces}", code.start)?)
}

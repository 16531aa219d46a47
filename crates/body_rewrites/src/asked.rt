//! Lines of the table, as operators are asked for them.
ghost use Rattle.std.specs.Prelude.{◌≡◌, ◌++◌, slice_get, OnOk, IfOk};
ghost use Rattle.body_rewrites.specs.Alone.{form_of};
ghost use Rattle.body_rewrites.specs.Rewrites.{asked_widths};
ghost use Rattle.body_rewrites.specs.Asking.{asked_as, asked_for, asked_in, all_asked, is_ready, ready_lines};
ghost use Rattle.body_rewrites.specs.Places.{context_of};
ghost use Rattle.std.specs.List.{filter};
ghost use Rattle.rewrite_rules.specs.Table.{ROWS};
ghost use Rattle.body_rewrites.specs.Listing.{widths_told};

use crate::alone::form_of;
use crate::places::{Body, Line, is_exact};
use crate::rewrite::Rewrite;
use crate::root::Root;
use crate::roots::root_of;
use rewrite_rules::{Own, TableRow, Widths, row_count, width_by};
use std::alloc::{AllocError, Global};
use wasm_execution::IntegerType;

/// What a line is, by which it is asked.
#[derive(Clone, Copy, PartialEq, Eq)]
pub(crate) enum Form {
    /// A rule beside the table.
    Own(Own),
    /// Its left side is an operand alone; whether the right side has it more than once.
    Alone(bool),
    /// Any other line.
    Other,
}

/// A line, with the number of its row, and what has to stand where it applies.
#[derive(Drop)]
pub(crate) struct Asked {
    pub(crate) number: usize,
    pub(crate) form: Form,
    pub(crate) root: Root,
    pub(crate) line: Line,
}

impl Asked {
    ghost use Rattle.std.specs.Prelude.{◌≡◌};
    ghost use Rattle.body_rewrites.specs.Asking.{rewrite_of};

    /// The same one again.
    pub(crate) fn again(&self) -> Asked
        ensures { result ≡ self.now }
    {
        Asked {
            number: self.number,
            form: self.form,
            root: self.root,
            line: Line {
                row: self.line.row.again(),
                width: self.line.width,
            },
        }
    }

    // Whether what runs the module is exact where the row has to be; a rule beside the table or an operand alone is ready always.
    fn is_ready(&self, exact: bool) -> bool
        ensures { result ≡ is_ready exact self.now }
    {
        match self.form {
            Form::Own(_) => true,
            Form::Alone(_) => true,
            Form::Other => self.line.row.is_ready(exact),
        }
    }

    /// The rewrite of the operator that it is asked for.
    pub(crate) fn rewrite_at(&self, at: usize) -> Rewrite
        ensures { result ≡ rewrite_of at self.now }
    {
        Rewrite {
            operator: at,
            row: self.number,
            width: self.line.width,
        }
    }
}

/// The widths that a row is asked for: one, and another one where there is one.
pub(crate) fn widths_of(widths: Widths) -> (IntegerType, Option<IntegerType>)
    ensures { asked_widths widths ≡ widths_told result.0 result.1 }
{
    match widths {
        Widths::Both => (IntegerType::I32, Some(IntegerType::I64)),
        Widths::Only(width) => (width, None),
        Widths::Any => (IntegerType::I32, None),
        Widths::Operands(first, _, _) => (width_by(first), None),
        Widths::Own(_) => (IntegerType::I32, None),
    }
}

/// The line of the row with the number for the width.
pub(crate) fn asked_as(number: usize, row: TableRow, form: Form, width: IntegerType) -> Asked
    requires { form ≡ form_of row }
    ensures { result ≡ asked_as number row width }
{
    let line = Line { row, width };
    Asked {
        number,
        form,
        root: root_of(&line),
        line,
    }
}

// Adds the lines of the row with the number.
fn add_asked(number: usize, row: TableRow, list: &mut Vec<Asked>) -> Result<(), AllocError>
    ensures { OnOk result (list.new.items ≡ list.old.items ++ asked_for number row) }
{
    let (width, more) = widths_of(row.widths());
    let form = form_of(&row);
    list.push(asked_as(number, row.again(), form, width))?;
    match more {
        Some(width) => {
            list.push(asked_as(number, row, form, width))?;
            Ok(())
        }
        None => Ok(()),
    }
}

/// Adds the lines of the row with the number, where there is one. The only error is that memory was refused.
pub(crate) fn add_numbered(number: usize, list: &mut Vec<Asked>) -> Result<(), AllocError>
    ensures { OnOk result
        (list.new.items ≡ list.old.items ++ asked_in number (slice_get ROWS number)) }
{
    match TableRow::numbered(number) {
        Some(row) => add_asked(number, row, list),
        None => Ok(()),
    }
}

// All lines of the table, by the row and the width.
fn all_asked(alloc: Global) -> Result<Vec<Asked>, AllocError>
    ensures { IfOk result (λ list. list.items ≡ all_asked) }
{
    let mut list = Vec::new(alloc);
    for number in 0..row_count() {
        add_numbered(number, &mut list)?;
    }
    Ok(list)
}

// Adds those of the lines that are ready.
fn add_ready(lines: &[Asked], exact: bool, list: &mut Vec<Asked>) -> Result<(), AllocError>
    ensures { OnOk result
        (list.new.items ≡ list.old.items ++ filter (is_ready exact) lines.now) }
{
    for asked in lines {
        if asked.is_ready(exact) {
            list.push(asked.again())?;
        }
    }
    Ok(())
}

/// The lines of the table, by the row and the width, but, where what runs the body's module isn't exact, those on exact rows whose left
/// side is more than an operand: there they make nothing. The only error is that memory was refused.
pub(crate) fn ready_lines(alloc: Global, body: &Body<'_>) -> Result<Vec<Asked>, AllocError>
    ensures { IfOk result (λ list. list.items ≡ ready_lines (context_of body.now).info.exact) }
{
    let lines = all_asked(alloc)?;
    let mut list = Vec::new(alloc);
    add_ready(lines.as_slice(), is_exact(body), &mut list)?;
    Ok(list)
}

//! Rows of the table, where they stand.
use crate::lines::line_at;
use crate::table::{Condition, Side, TableLine, Widths};
use std::marker::Model;

/// A row of the table, where it stands: its sides are lent.
#[derive(Drop)]
pub struct TableRow {
    line: &'static TableLine,
}

impl Model for TableRow {
    ghost use Rattle.rewrite_rules.specs.declared.table.Row.{Row};
    ghost use Rattle.rewrite_rules.specs.Lines.{row_shown};

    ghost Value = { Row };

    ghost view = { λ r. row_shown r.line.now };
}

impl TableRow {
    ghost use Rattle.std.specs.Prelude.{◌≡◌, slice_get};
    ghost use Rattle.rewrite_rules.specs.Table.{ROWS};

    /// The row with that number, from 0 on; none where there are fewer.
    pub fn numbered(number: usize) -> Option<TableRow>
        ensures { result ≡ slice_get ROWS number }
    {
        let line = line_at(number)?;
        Some(TableRow { line })
    }

    /// The same row again.
    pub fn again(&self) -> TableRow
        ensures { result ≡ self.now }
    {
        TableRow { line: self.line }
    }

    /// Its widths.
    pub fn widths(&self) -> Widths
        ensures { result ≡ self.now.widths }
    {
        self.line.1
    }

    /// What is asked of its constants.
    pub fn condition(&self) -> Option<Condition>
        ensures { result ≡ self.now.condition }
    {
        self.line.2
    }

    /// What is rewritten.
    pub fn left(&self) -> &'static Side
        ensures { result.now ≡ self.now.left }
    {
        &self.line.3
    }

    /// What it is rewritten as.
    pub fn right(&self) -> &'static Side
        ensures { result.now ≡ self.now.right }
    {
        &self.line.4
    }
}

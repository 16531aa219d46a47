//! The lines of the table, laid out by the classes of instructions where they may apply.
ghost use Rattle.std.specs.Prelude.{◌≡◌, ◌↔◌, ◌&&◌, true, ◌++◌, ◌<◌, ◌≤◌, [], ◌∷◌, ℕ, List, false, length, get_or, IfOk, OnOk};
ghost use Rattle.body_rewrites.specs.Alone.{form_of};
ghost use Rattle.body_rewrites.specs.Asking.{all_asked, asked_as, asked_for, AddsLine, AreLaidOut, AreRootClasses, AreCandidateClasses, AreEmpty, NoneStands, NoneServes, is_alone, form_alone};
ghost use Rattle.body_rewrites.specs.Rewrites.{asked_widths};
ghost use Rattle.body_rewrites.specs.Roots.{fits, root_of};

use crate::alone::form_of;
use crate::asked::{Asked, Form, asked_as, widths_of};
use crate::places::Line;
use crate::root::Root;
use crate::roots::root_of;
use rewrite_rules::{TableRow, row_count};
use std::alloc::{AllocError, Global};
use wasm_execution::IntegerType;

// The class behind the last one, of which there are 447.
fn behind_class(last: usize) -> usize
    ensures same { (class : ℕ) → class < 447 → class ≤ last → class < result }
    ensures only { (class : ℕ) → class < result → class ≤ last }
    ensures inside { result ≤ 447 }
{
    if last < 446 { last + 1 } else { 447 }
}

// The first class and the one behind the last of the instructions where a line with the root may apply.
fn classes_of_root(root: Root) -> (usize, usize)
    ensures are { AreRootClasses root result }
    ensures inside { result.1 ≤ 447 }
{
    match root {
        Root::Classes(first, last) => (first, behind_class(last)),
        Root::Tree => (0, 447),
        Root::Any => (0, 447),
    }
}

// The same of a line whose row is ready, as what runs the module is exact where the row has to be; else none.
fn classes_if_ready(ready: bool, root: Root) -> (usize, usize)
    ensures are { (class : ℕ) → class < 447 → ((ready && fits class true root) ≡ true)
        ↔ ((result.0 ≤ class) × (class < result.1)) }
    ensures inside { result.1 ≤ 447 }
{
    if ready { classes_of_root(root) } else { (0, 0) }
}

// The same of the line; none where its left side is an operand alone.
fn classes_of(asked: &Asked, exact: bool) -> (usize, usize)
    ensures are { AreCandidateClasses exact asked.now result }
    ensures inside { result.1 ≤ 447 }
{
    match asked.form {
        Form::Own(_) => classes_of_root(asked.root),
        Form::Alone(_) => (0, 0),
        Form::Other => classes_if_ready(asked.line.row.is_ready(exact), asked.root),
    }
}

// Adds the line to the list of each used class, from the first one to before the end.
fn add_candidate(
    asked: &Asked,
    classes: (usize, usize),
    used: &[bool],
    lists: &mut [Vec<Asked>],
) -> Result<(), AllocError>
    requires used { classes.1 ≤ length used.now }
    requires lists { classes.1 ≤ length lists.old }
    ensures { OnOk result (AddsLine asked.now used.now classes lists.old lists.new) }
{
    for class in classes.0..classes.1 {
        if used[class] {
            lists[class].push(asked.again())?;
        }
    }
    Ok(())
}

// Whether the class is used.
fn is_used(used: &[bool], class: usize) -> bool
    ensures { result ≡ get_or used.now class false }
{
    used.get(class).copied().unwrap_or(false)
}

// Whether the line's left side is an operand alone.
fn is_alone(asked: &Asked) -> bool
    ensures { result ≡ is_alone asked.now }
{
    match asked.form {
        Form::Alone(_) => true,
        Form::Own(_) => false,
        Form::Other => false,
    }
}

// Adds the line: among those of an operand alone, or to the lists of the used classes where it may apply.
fn add_line(
    asked: &Asked,
    exact: bool,
    used: &[bool],
    lists: &mut [Vec<Asked>],
    alone: &mut Vec<Asked>,
) -> Result<(), AllocError>
    requires used { length used.now ≡ 447 }
    requires lists { length lists.old ≡ 447 }
    ensures added { OnOk result ((lines : List Asked)
        → AreLaidOut exact used.now lines lists.old alone.old.items
        → AreLaidOut exact used.now (lines ++ asked.now ∷ []) lists.new alone.new.items) }
    ensures long { OnOk result (length lists.new ≡ 447) }
{
    if is_alone(asked) {
        alone.push(asked.again())?;
        return Ok(());
    }
    add_candidate(asked, classes_of(asked, exact), used, lists)
}

// Whether an instruction of a used class may stand where a line with the root applies. Of several classes it looks at none.
fn may_stand(root: Root, used: &[bool]) -> bool
    ensures { result ≡ false → NoneStands used.now root }
{
    match root {
        Root::Classes(first, last) => first != last || is_used(used, first),
        Root::Tree => true,
        Root::Any => true,
    }
}

// Whether one may stand where the row's line for the width applies.
fn may_apply(row: &TableRow, width: IntegerType, used: &[bool]) -> bool
    ensures { result ≡ false
        → NoneStands used.now (root_of (record { row = row.now; width = width })) }
{
    let line = Line {
        row: row.again(),
        width,
    };
    may_stand(root_of(&line), used)
}

// Whether one may stand where a line of the row applies; so it does where the left side is an operand alone.
fn may_serve(row: &TableRow, form: Form, used: &[bool]) -> bool
    ensures { result ≡ false → (form_alone form ≡ false)
        × NoneServes used.now row.now (asked_widths row.now.widths) }
{
    if let Form::Alone(_) = form {
        return true;
    }
    let (width, more) = widths_of(row.widths());
    let one = may_apply(row, width, used);
    match more {
        Some(width) => one || may_apply(row, width, used),
        None => one,
    }
}

// Adds the lines of the row with the number.
fn add_row(
    number: usize,
    row: TableRow,
    exact: bool,
    used: &[bool],
    lists: &mut [Vec<Asked>],
    alone: &mut Vec<Asked>,
) -> Result<(), AllocError>
    requires used { length used.now ≡ 447 }
    requires lists { length lists.old ≡ 447 }
    ensures added { OnOk result ((lines : List Asked)
        → AreLaidOut exact used.now lines lists.old alone.old.items
        → AreLaidOut exact used.now (lines ++ asked_for number row) lists.new alone.new.items) }
    ensures long { OnOk result (length lists.new ≡ 447) }
{
    let form = form_of(&row);
    if !may_serve(&row, form, used) {
        return Ok(());
    }
    let (width, more) = widths_of(row.widths());
    add_line(
        &asked_as(number, row.again(), form, width),
        exact,
        used,
        lists,
        alone,
    )?;
    match more {
        Some(width) => add_line(
            &asked_as(number, row, form, width),
            exact,
            used,
            lists,
            alone,
        ),
        None => Ok(()),
    }
}

// An empty list for each class.
fn empty_lists(alloc: Global) -> Result<Vec<Vec<Asked>>, AllocError>
    ensures { IfOk result (λ lists. AreEmpty 447 lists.items) }
{
    let mut lists = Vec::new(alloc);
    for _ in 0..447usize {
        lists.push(Vec::new(alloc))?;
    }
    Ok(lists)
}

// Adds the lines of all rows.
fn add_rows(
    exact: bool,
    used: &[bool],
    lists: &mut [Vec<Asked>],
    alone: &mut Vec<Asked>,
) -> Result<(), AllocError>
    requires used { length used.now ≡ 447 }
    requires none { AreLaidOut exact used.now [] lists.old alone.old.items }
    ensures { OnOk result (AreLaidOut exact used.now all_asked lists.new alone.new.items) }
{
    for number in 0..row_count() {
        if let Some(row) = TableRow::numbered(number) {
            add_row(number, row, exact, used, lists, alone)?;
        }
    }
    Ok(())
}

/// For each used class the lines that may apply where such an instruction stands, but those of an operand alone, and those on exact rows
/// where what runs the module isn't exact; and those of an operand alone.
pub(crate) fn lay_out(
    alloc: Global,
    exact: bool,
    used: &[bool],
) -> Result<(Vec<Vec<Asked>>, Vec<Asked>), AllocError>
    requires { length used.now ≡ 447 }
    ensures { IfOk result (λ laid. AreLaidOut exact used.now all_asked laid.0.items laid.1.items) }
{
    let mut lists = empty_lists(alloc)?;
    let mut alone = Vec::new(alloc);
    add_rows(exact, used, &mut lists, &mut alone)?;
    Ok((lists, alone))
}

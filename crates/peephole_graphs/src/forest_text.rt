//! The text of a forest.

ghost use Rattle.std.specs.Prelude.{◌≡◌, ◌<◌, ◌++◌, [], length, map, OnOk, MatchResult, string_bytes};
ghost use Rattle.std.specs.List.{All};
ghost use Rattle.mutate_base.specs.declared.error.Error.{Error};
ghost use Rattle.peephole_lang.specs.Term.{AreBelow};
ghost use Rattle.peephole_lang.specs.Text.{text_of};
ghost use Rattle.peephole_graphs.specs.ForestText.{branch, edge, entries_as_nodes, entry_term, tree_lines, forest_lines, Answers, AnswersAmong, CanTell, HasLines, IsForestText, LeavesText};
ghost use Rattle.peephole_graphs.specs.ForestSteps.{has_some_children, edges, HasEntry};

use crate::dfg::StackEntry;
use mutate_base::Error;
use peephole_lang::{Id, Language};
use std::alloc::{AllocError, Global};

// What stands in front of a child behind its parent's inner prefix, by the children behind it.
fn branch(later: &[Id]) -> &'static str
    ensures { result.now ≡ branch (has_some_children later.now) }
{
    if later.is_empty() { "└──" } else { "├──" }
}

// What stands there in front of those below the child.
fn edge(later: &[Id]) -> &'static str
    ensures { result.now ≡ edge (has_some_children later.now) }
{
    if later.is_empty() { "    " } else { "│   " }
}

// Writes the inner prefix below the levels, each of which has the children that are still to come.
fn write_edges(text: &mut String, levels: &[&[Id]]) -> Result<(), AllocError>
    ensures { OnOk result (string_bytes text.new
        ≡ string_bytes text.old ++ edges (map (λ ids. ids.now) levels.now)) }
{
    for ids in levels {
        text.push_str(edge(ids))?;
    }
    Ok(())
}

// Writes an entry's own text, behind its prefix.
fn write_entry<F: Fn(&StackEntry) -> Result<String, Error>>(
    text: &mut String,
    entry: &StackEntry,
    f: &F,
) -> Result<(), Error>
    requires { CanTell F.Fn f.now entry.now }
    ensures { LeavesText (HasEntry (Answers F.Fn f.now) (string_bytes text.old) entry.now)
        result (string_bytes text.new) }
{
    let own = f(entry)?;
    let color = entry.color;
    let at = entry.operator_idx;
    writeln!(text, "({color})(at {at}) {own}")?;
    Ok(())
}

// Writes the line of a child below the levels, by the children behind it.
fn write_child<F: Fn(&StackEntry) -> Result<String, Error>>(
    text: &mut String,
    levels: &[&[Id]],
    later: &[Id],
    entry: &StackEntry,
    f: &F,
) -> Result<(), Error>
    requires { CanTell F.Fn f.now entry.now }
    ensures { LeavesText (HasEntry (Answers F.Fn f.now) (string_bytes text.old
        ++ (edges (map (λ ids. ids.now) levels.now)
        ++ branch (has_some_children later.now))) entry.now)
        result (string_bytes text.new) }
{
    write_edges(text, levels)?;
    text.push_str(branch(later))?;
    write_entry(text, entry, f)
}

// Writes the lines of an entry's tree, with no recursion.
fn write_tree<F: Fn(&StackEntry) -> Result<String, Error>>(
    alloc: Global,
    text: &mut String,
    entries: &[StackEntry],
    root: usize,
    f: &F,
) -> Result<(), Error>
    requires callable { All (CanTell F.Fn f.now) entries.now }
    requires root { root < length entries.now }
    requires below { AreBelow (entries_as_nodes entries.now) }
    ensures { LeavesText (HasLines (AnswersAmong F.Fn f.now entries.now) (string_bytes text.old)
        (tree_lines [] [] (entry_term entries.now root)))
        result (string_bytes text.new) }
{
    let top = &entries[root];
    write_entry(text, top, f)?;
    let mut levels = Vec::new(alloc);
    levels.push(top.operator.children())?;
    while let Some(ids) = levels.pop() {
        if let Some((child, later)) = ids.split_first() {
            let entry = &entries[child.0 as usize];
            write_child(text, levels.as_slice(), later, entry, f)?;
            levels.push(later)?;
            levels.push(entry.operator.children())?;
        }
    }
    Ok(())
}

// Writes the lines of the roots' trees, the roots ascending.
fn write_roots<F: Fn(&StackEntry) -> Result<String, Error>>(
    alloc: Global,
    text: &mut String,
    entries: &[StackEntry],
    parents: &[Option<usize>],
    f: &F,
) -> Result<(), Error>
    requires callable { All (CanTell F.Fn f.now) entries.now }
    requires below { AreBelow (entries_as_nodes entries.now) }
    requires paired { length parents.now ≡ length entries.now }
    ensures { LeavesText (HasLines (AnswersAmong F.Fn f.now entries.now) (string_bytes text.old)
        (forest_lines entries.now parents.now))
        result (string_bytes text.new) }
{
    for index in 0..parents.len() {
        if parents[index].is_none() {
            write_tree(alloc, text, entries, index, f)?;
        }
    }
    Ok(())
}

/// The text of the forest with these entries and parents, in which `f` tells the text of each entry. Refused where `f`
/// refuses, with that refusal, and for want of memory (`Memory`).
pub(crate) fn print_forest<F: Fn(&StackEntry) -> Result<String, Error>>(
    alloc: Global,
    entries: &[StackEntry],
    parents: &[Option<usize>],
    f: &F,
) -> Result<String, Error>
    requires callable { All (CanTell F.Fn f.now) entries.now }
    requires below { AreBelow (entries_as_nodes entries.now) }
    requires paired { length parents.now ≡ length entries.now }
    ensures { IsForestText F.Fn f.now entries.now parents.now result }
{
    let mut text = String::from_str(alloc, "DFG forest\n")?;
    write_roots(alloc, &mut text, entries, parents, f)?;
    Ok(text)
}

/// The text of an entry's operator.
pub(crate) fn operator_text(alloc: Global, entry: &StackEntry) -> Result<String, Error>
    ensures { MatchResult result (λ text. string_bytes text ≡ text_of entry.now.operator)
        (λ e. e ≡ Error.Memory) }
{
    let operator = &entry.operator;
    Ok(format!(in alloc; "{operator}")?)
}

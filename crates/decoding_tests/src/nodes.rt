//! Nodes: their texts, places, names, children and instructions, and how they compare.

use crate::inputs::{Text, compared, field, unreadable};
use crate::node_names::name_of;
use case_files::bytes_of;
use peephole_lang::{Id, Lang, Language, TermError};
use std::alloc::{AllocError, Global};
use std::hash::{DefaultHasher, Hash, Hasher};
use wasm_code::{Instr, Operator, read_body};

/// Answers calls on nodes, which are given by their texts and the numbers of their children.
pub fn answer(alloc: Global, fields: &[&str]) -> Text {
    let (call, first, second) = (field(fields, 0), field(fields, 1), field(fields, 2));
    match call {
        "from_op_str" => match second.parse::<u32>() {
            Ok(count) => made(alloc, first.trim_matches('\''), None, count),
            Err(_) => unreadable(alloc),
        },
        "from_op_str by count" => by_count(alloc, first.trim_matches('\''), None),
        "of_instr by count" => match instr_of(alloc, &bytes_of(alloc, first)?) {
            Some(instr) => by_count(alloc, "", Some(instr)),
            None => unreadable(alloc),
        },
        "default" => format!(in alloc; "{} {}", Lang::default(), Lang::default() == Lang::Undef),
        _ => match (node_of(alloc, first)?, node_of(alloc, second)?) {
            (Ok(node), Ok(other)) if call == "compare" => alike(alloc, &node, &other),
            (Ok(node), _) => told(alloc, call, node),
            (Err(error), _) => format!(in alloc; "{error:?}"),
        },
    }
}

/// The node that words tell: its text, and the numbers of its children.
fn node_of(alloc: Global, words: &str) -> Result<Result<Lang, TermError>, AllocError> {
    let mut words = words.split_whitespace();
    let text = words.next().unwrap_or("");
    let ids = words.filter_map(|word| Some(Id(word.parse::<u32>().ok()?)));
    Ok(Lang::from_op_str(text, ids.collect(alloc)?))
}

/// The last instruction of a body.
fn instr_of(alloc: Global, bytes: &[u8]) -> Option<Instr> {
    let mut last = None;
    for (operator, _) in read_body(alloc, bytes, 0, bytes.len()).ok()?.iter() {
        if let Operator::Instr(instr) = operator {
            last = Instr::new(instr.row(), instr.imm());
        }
    }
    last
}

/// The numbers of the children, each after a space.
fn children_of(alloc: Global, node: &Lang) -> Text {
    let mut text = String::new(alloc);
    for child in node.children() {
        text.push_str(&format!(in alloc; " {}", child.0)?)?;
    }
    Ok(text)
}

/// What the text, or the instruction in its place, makes with the children 0, 1 and so on.
fn made(alloc: Global, text: &str, instr: Option<Instr>, count: u32) -> Text {
    let ids = (0..count).map(|number| Id(number)).collect(alloc)?;
    let node = match instr {
        Some(instr) => Lang::of_instr(&instr, ids).ok_or(None),
        None => Lang::from_op_str(text, ids).map_err(Some),
    };
    match node {
        Ok(node) => format!(in alloc; "{node}{}", children_of(alloc, &node)?),
        Err(Some(error)) => format!(in alloc; "{error:?}"),
        Err(None) => format!(in alloc; "-"),
    }
}

/// The same with no child, and with each number of them up to four.
fn by_count(alloc: Global, text: &str, instr: Option<Instr>) -> Text {
    let mut all = String::new(alloc);
    for count in 0..5 {
        all.push_str(&made(alloc, text, instr, count)?)?;
        all.push_str("; ")?;
    }
    all.trim_end().to_string(alloc)
}

fn hash_of(node: &Lang) -> u64 {
    let mut state = DefaultHasher::new();
    node.hash(&mut state);
    state.finish()
}

/// How two nodes compare, whether each matches the other, and whether they hash alike.
fn alike(alloc: Global, node: &Lang, other: &Lang) -> Text {
    let (matches, back) = (node.matches(other), other.matches(node));
    let hashes = hash_of(node) == hash_of(other);
    let order = compared(alloc, node, other)?;
    format!(in alloc; "{order}, {matches} {back}, {hashes}")
}

/// What the calls answer on one node, on its copies, or on its children, each of which becomes the one ten places further.
fn told(alloc: Global, call: &str, mut node: Lang) -> Text {
    let copy = node.clone()?;
    match call {
        "node" => {
            let (place, name, instr) = (node.place(), name_of(&node).unwrap_or("-"), node.instr());
            let (writable, matches) = (node.is_writable(), node.matches(&copy));
            let children = children_of(alloc, &node)?;
            format!(in alloc;
                "{place} {name} {node} {node:?}{children}, {writable} {matches}, {instr:?}"
            )
        }
        "copy" => {
            let alike_copy = alike(alloc, &node, &copy)?;
            match node.clone_node() {
                Ok(again) => format!(in alloc; "{alike_copy}; {}", alike(alloc, &node, &again)?),
                Err(error) => format!(in alloc; "{error}"),
            }
        }
        "children" => {
            for id in node.children_mut() {
                *id = Id(id.0.wrapping_add(10));
            }
            let (before, after) = (children_of(alloc, &copy)?, children_of(alloc, &node)?);
            format!(in alloc; "from{before} to{after}, {}", node.matches(&copy))
        }
        _ => unreadable(alloc),
    }
}

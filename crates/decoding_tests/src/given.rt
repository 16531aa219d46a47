//! Modules and configurations that are copied and set up, and words that are drawn.

use crate::inputs::{Text, field, types_of, unreadable};
use crate::operand_types::module_of;
use given_words::Words;
use mutate_base::WasmMutate;
use rand_core::Rng;
use std::alloc::{AllocError, Global};
use wasm_types::{FuncInfo, ModuleInfo, TypeInfo};

/// Answers calls on copies, configurations and words.
pub fn answer(alloc: Global, fields: &[&str]) -> Text {
    let (first, second) = (field(fields, 1), field(fields, 2));
    match field(fields, 0) {
        "copied module" => {
            let mut info = module_of(alloc)?;
            info.function_map.push(3)?;
            let copy = info.clone()?;
            let (globals, bytes) = (copy.get_global_count(), copy.input_wasm);
            let functions = [0, 1, 2, 3, 4].map(|index| copy.get_functype_idx(index));
            format!(in alloc;
                "{globals} {bytes:?} {:?} {:?} {functions:?}",
                copy.table_types, copy.memory_types
            )
        }
        "copied type" => {
            let (params, returns) = (types_of(alloc, first)?, types_of(alloc, second)?);
            let function = FuncInfo { params, returns };
            let copy = function.clone()?;
            let text = format!(in alloc; "{function:?}, {copy:?}")?;
            let (declared, other) = (TypeInfo::Func(function), TypeInfo::Other);
            let (again, other) = (declared.clone()?, other.clone()?);
            format!(in alloc; "{text}, {declared:?}, {again:?}, {other:?}")
        }
        "configuration" => configured(alloc, drawn_from(alloc, first)?),
        "words" => drawn(alloc, drawn_from(alloc, first)?, second),
        _ => unreadable(alloc),
    }
}

/// The words of that list. What is no number is none.
fn drawn_from(alloc: Global, list: &str) -> Result<Words, AllocError> {
    let words = list.split_whitespace().filter_map(|word| word.parse().ok());
    Ok(Words::new(words.collect(alloc)?))
}

/// Whether a configuration is set up before, whether then; whether it preserves what is computed, the globals of its module, and the
/// first two words that are drawn from it.
fn configured(alloc: Global, words: Words) -> Text {
    let mut config: WasmMutate<Words> = WasmMutate::new();
    let before = config.is_set_up();
    config.preserve_semantics(true);
    config.set_up(ModuleInfo::new(alloc, &[]), words);
    let (preserves, globals) = (
        config.preserves_semantics(),
        config.info().get_global_count(),
    );
    let (first, second) = (config.rng().next_u64(), config.rng().next_u64());
    format!(in alloc;
        "{before} {} {preserves} {globals} {first} {second}",
        config.is_set_up()
    )
}

/// What is drawn: a number of 32 or of 64 bits, or so many bytes.
fn drawn(alloc: Global, mut words: Words, draws: &str) -> Text {
    let mut text = String::new(alloc);
    for draw in draws.split_whitespace() {
        let answer = match draw {
            "u32" => format!(in alloc; "{} ", words.next_u32())?,
            "u64" => format!(in alloc; "{} ", words.next_u64())?,
            _ => {
                let count = usize::from(draw.parse::<u8>().unwrap_or(0));
                let mut bytes = [9u8; 256];
                words.fill_bytes(&mut bytes[..count]);
                format!(in alloc; "{:?} ", &bytes[..count])?
            }
        };
        text.push_str(&answer)?;
    }
    text.trim().to_string(alloc)
}

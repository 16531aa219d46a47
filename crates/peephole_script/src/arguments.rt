//! The words behind a command's name.

ghost use Rattle.std.specs.Prelude.{◌≡◌, position, IfOk, MatchOption, Some, None};
ghost use Rattle.std.specs.List.{concat};
ghost use Rattle.peephole_script.specs.Text.{texts};
ghost use Rattle.peephole_script.specs.Arguments.{all_of, type_of, is_64, element_of, is_yes, is_arrow, parts_of, Argument};

use crate::fault::Fault;
use std::alloc::{AllocError, Global};
use wasm_types::{ElementType, PrimitiveTypeInfo};

/// The type of a name, where it is a value's: `empty` is none.
pub fn type_of(word: &str) -> Option<PrimitiveTypeInfo>
    ensures { result ≡ type_of word.now }
{
    match PrimitiveTypeInfo::from_name(word) {
        None => None,
        Some(value) => match value {
            PrimitiveTypeInfo::Empty => None,
            _ => Some(value),
        },
    }
}

/// The types that the words name; `BadArgument` where one names none, `Memory` for want of memory.
pub fn types_of(alloc: Global, words: &[&str]) -> Result<Vec<PrimitiveTypeInfo>, Fault>
    ensures { Argument (all_of type_of (texts words.now)) result }
{
    let mut types = Vec::new(alloc);
    for word in words {
        let Some(value) = type_of(word) else {
            return Err(Fault::BadArgument);
        };
        types.push(value)?;
    }
    Ok(types)
}

/// Whether `32` or `64` is 64; none for another word.
pub fn is_64(word: &str) -> Option<bool>
    ensures { result ≡ is_64 word.now }
{
    if word == "32" {
        Some(false)
    } else if word == "64" {
        Some(true)
    } else {
        None
    }
}

/// The elements that `func` or `extern` names; none for another word.
pub fn element_of(word: &str) -> Option<ElementType>
    ensures { result ≡ element_of word.now }
{
    if word == "func" {
        Some(ElementType::Func)
    } else if word == "extern" {
        Some(ElementType::Extern)
    } else {
        None
    }
}

/// Whether `yes` or `no` is yes; none for another word.
pub fn is_yes(word: &str) -> Option<bool>
    ensures { result ≡ is_yes word.now }
{
    if word == "yes" {
        Some(true)
    } else if word == "no" {
        Some(false)
    } else {
        None
    }
}

fn is_arrow(word: &str) -> bool
    ensures { result ≡ is_arrow word.now }
{
    word == "->"
}

fn arrow_place(words: &[&str]) -> Option<usize>
    ensures { result ≡ position (λ word. is_arrow word.now) words.now }
{
    words.iter().position(|word| is_arrow(word))
}

/// The words before the first arrow `->`, and those behind it; none where there is no arrow.
pub fn parts_of<'a, 'b>(words: &'a [&'b str]) -> Option<(&'a [&'b str], &'a [&'b str])>
    ensures { let found = parts_of (texts words.now) in
        MatchOption result (found ≡ None)
        (λ parts. found ≡ Some (texts parts.0.now, texts parts.1.now)) }
{
    match arrow_place(words) {
        Some(at) => Some((&words[..at], &words[at + 1..])),
        None => None,
    }
}

/// The words joined; an error for want of memory alone.
pub fn join(alloc: Global, words: &[&str]) -> Result<Vec<u8>, AllocError>
    ensures { IfOk result (λ text. text.items ≡ concat (texts words.now)) }
{
    let mut text = Vec::new(alloc);
    for word in words {
        text.extend_from_slice(word.as_bytes())?;
    }
    Ok(text)
}

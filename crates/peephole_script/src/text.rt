//! Lines, words and numbers of the input.

ghost use Rattle.std.specs.Prelude.{◌≡◌, position, IfOk};
ghost use Rattle.std.specs.List.{before_first, after_first, list_all};
ghost use Rattle.std.specs.Char.{is_ascii_digit};
ghost use Rattle.peephole_script.specs.Text.{is_byte, is_text, words_of, number_of, texts};

use memchr::memchr;
use std::alloc::{AllocError, Global};

/// Where the first line feed stands.
fn line_end(bytes: &[u8]) -> Option<usize>
    ensures { result ≡ position (is_byte 10) bytes.now }
{
    memchr(b'\n', bytes)
}

/// The bytes before the first line feed, and those after it; all of them and none where there is none.
#[tactic(auto, using(crate::proofs::Lines::places))]
pub fn cut_line(bytes: &[u8]) -> (&[u8], &[u8])
    ensures line { result.0.now ≡ before_first (is_byte 10) bytes.now }
    ensures rest { result.1.now ≡ after_first (is_byte 10) bytes.now }
{
    match line_end(bytes) {
        Some(at) => (&bytes[..at], &bytes[at + 1..]),
        None => (bytes, &[]),
    }
}

/// Whether a line has printable characters of ASCII and spaces alone.
pub fn is_text(line: &[u8]) -> bool
    ensures { result ≡ is_text line.now }
{
    let mut text = true;
    for b in line {
        text &= 0x20 <= *b && *b <= 0x7e;
    }
    text
}

/// The words of a line, which spaces separate; an error for want of memory alone.
pub fn words_of<'a>(alloc: Global, line: &'a str) -> Result<Vec<&'a str>, AllocError>
    ensures { IfOk result (λ words. texts words.items ≡ words_of line.now) }
{
    let mut words = Vec::new(alloc);
    for word in line.split(' ') {
        if !word.is_empty() {
            words.push(word)?;
        }
    }
    Ok(words)
}

/// Whether a word has decimal digits alone.
fn is_digits(word: &str) -> bool
    ensures { result ≡ list_all is_ascii_digit word.now }
{
    word.as_bytes().iter().all(|b| b.is_ascii_digit())
}

/// The number that a word writes in decimal digits, below 2^64; none where it writes no such number.
pub fn number_of(word: &str) -> Option<u64>
    ensures { result ≡ number_of word.now }
{
    if is_digits(word) {
        word.parse::<u64>().ok()
    } else {
        None
    }
}

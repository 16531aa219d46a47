//! A code entry, drawn by its size.
ghost use Rattle.std.specs.Prelude.{◌≡◌, ◌<◌, ◌≤◌, ◌%◌, ◌^◌, All, length, IfNone, IfSome};
ghost use Rattle.std.specs.List.{sum_by};
ghost use Rattle.wasm_lists.specs.declared.entries.Entry.{Entry as Place};
ghost use Rattle.body_rewrites.specs.Choice.{after_word};
ghost use Rattle.module_rewrites.specs.Drawing.{ContainsByte, NamesEntry, WordNames, contents_length};

use rand_core::Rng;
use wasm_module::{Entry, Layout};

// How many bytes the entry contains.
fn size_of_entry(entry: &Entry) -> usize
    requires { entry.now.contents ≤ entry.now.end }
    ensures { result ≡ contents_length entry.now }
{
    entry.end - entry.contents
}

// How many bytes the entries contain.
fn size_of_entries(entries: &[Entry]) -> usize
    requires ordered { All (λ (e : Place). e.contents ≤ e.end) entries.now }
    requires few { sum_by contents_length entries.now < 2 ^ 64 }
    ensures { result ≡ sum_by contents_length entries.now }
{
    let mut size = 0;
    for entry in entries {
        size += size_of_entry(entry);
    }
    size
}

// The index of the entry that contains the byte with this number, of all bytes that entries contain; none where there are fewer.
fn entry_of_byte(entries: &[Entry], byte: usize) -> Option<usize>
    requires ordered { All (λ (e : Place). e.contents ≤ e.end) entries.now }
    ensures contains { IfSome result (λ n. ContainsByte entries.now n byte) }
    ensures none { IfNone result (sum_by contents_length entries.now ≤ byte) }
{
    let mut left = byte;
    for n in 0..entries.len() {
        let size = size_of_entry(&entries[n]);
        if left < size {
            return Some(n);
        }
        left -= size;
    }
    None
}

// A number below `count`: the word, modulo `count`.
fn number_below(word: u64, count: usize) -> usize
    requires some { 0 < count }
    ensures { result ≡ word % count }
{
    (word % count as u64) as usize
}

/// The index of the code entry that a word names by its size: the word, modulo the number of bytes that all entries contain, names one
/// of these bytes, and so the entry that contains it. The first one where no entry contains any. Condition: there is an entry, and
/// they are those of a module, which has fewer than 2^64 bytes.
pub fn entry_of_word(layout: &Layout, word: u64) -> usize
    requires some { 0 < length layout.now.entries }
    requires ordered { All (λ (e : Place). e.contents ≤ e.end) layout.now.entries }
    requires few { sum_by contents_length layout.now.entries < 2 ^ 64 }
    ensures named { WordNames word layout.now.entries result }
    ensures inside { result < length layout.now.entries }
{
    let count = size_of_entries(&layout.entries);
    let byte = number_below(word, count.max(1));
    entry_of_byte(&layout.entries, byte).unwrap_or(0)
}

/// The index of a code entry that is drawn by its size: the one that the generator's next word names.
pub(crate) fn draw_entry<R: Rng>(generator: &mut R, layout: &Layout) -> usize
    requires some { 0 < length layout.now.entries }
    requires ordered { All (λ (e : Place). e.contents ≤ e.end) layout.now.entries }
    requires few { sum_by contents_length layout.now.entries < 2 ^ 64 }
    ensures named { NamesEntry (R.stream generator.old) layout.now.entries result }
    ensures inside { result < length layout.now.entries }
    ensures after { R.stream generator.new ≡ after_word (R.stream generator.old) }
{
    entry_of_word(layout, generator.next_u64())
}

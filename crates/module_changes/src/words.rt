//! Words of a generator.
ghost use Rattle.std.specs.Prelude.{◌≡◌, IfOk};
ghost use Rattle.rand_core.specs.Stream.{next_u64};
ghost use Rattle.body_rewrites.specs.Choice.{after_word};
ghost use Rattle.module_changes.specs.Words.{after_words, next_words_of};

use rand_core::Rng;
use std::alloc::{AllocError, Global};

// The generator's next word.
fn next_word<R: Rng>(generator: &mut R) -> u64
    ensures word { result ≡ (next_u64 (R.stream generator.old)).0 }
    ensures after { R.stream generator.new ≡ after_word (R.stream generator.old) }
{
    generator.next_u64()
}

/// The generator's next words, so many.
pub(crate) fn draw_words<R: Rng>(
    alloc: Global,
    generator: &mut R,
    count: usize,
) -> Result<Vec<u64>, AllocError>
    ensures words { IfOk result (λ words. words.items
        ≡ next_words_of (R.stream generator.old) count) }
    ensures after { IfOk result (λ words.
        R.stream generator.new ≡ after_words (R.stream generator.old) count) }
{
    let mut words = Vec::new(alloc);
    'words: for _ in 0..count {
        words.push(next_word(generator))?;
    }
    Ok(words)
}

//! What holds of given words, for every caller.
ghost use Rattle.std.specs.Prelude.{◌≡◌, ◌^◌, ◌+◌, ◌/◌, ◌%◌, List, drop, ℕ};
ghost use Rattle.rand_core.specs.Stream.{next_u32, next_u64, fill_bytes};
ghost use Rattle.rand_core.specs.Steps.{fill_via_u64};
ghost use Rattle.given_words.specs.Words.{word_step, word_stream};

/// What is drawn from given words, and the words that are left: 32 bits are the low half of the next word, 64 bits the next
/// word, and bytes take a word for each eight of them or part of eight.
pub fn words_are_drawn()
    ensures u32 { (words : List ℕ) → let taken = word_step words in
        next_u32 (word_stream words) ≡ (taken.0 % 2 ^ 32, word_stream taken.1) }
    ensures u64 { (words : List ℕ) → let taken = word_step words in
        next_u64 (word_stream words) ≡ (taken.0, word_stream taken.1) }
    ensures bytes { (n : ℕ) (words : List ℕ) → let taken = fill_via_u64 word_step n words in
        fill_bytes n (word_stream words) ≡ (taken.0, word_stream taken.1) }
    ensures left { (n : ℕ) (words : List ℕ)
        → (fill_via_u64 word_step n words).1 ≡ drop ((n + 7) / 8) words }
{}

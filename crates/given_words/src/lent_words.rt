ghost use Rattle.std.specs.Prelude.{◌≡◌};
ghost use Rattle.given_words.specs.Words.{word_step, word_stream};

use rand_core::Rng;
use rand_core::utils::{self, NextWord};
use std::marker::Model;

/// Words as `Words` are, that belong to someone else: to draw them anew copies none. A contract sees the
/// words that are left.
#[derive(Drop)]
pub struct LentWords<'a> {
    left: &'a [u64],
}

impl<'a> Model for LentWords<'a> {
    ghost use Rattle.std.specs.Prelude.{List, ℕ};

    ghost Value = { List ℕ };

    ghost view = { λ w. w.left.now };
}

impl<'a> LentWords<'a> {
    /// The words of the list.
    pub fn new(list: &'a [u64]) -> LentWords<'a>
        ensures { result ≡ list.now }
    {
        LentWords { left: list }
    }
}

impl<'a> NextWord<u64> for LentWords<'a> {
    ghost step = { word_step };

    fn next_word(&mut self) -> u64 {
        match self.left {
            [word, rest @ ..] => {
                self.left = rest;
                *word
            }
            [] => 0,
        }
    }
}

impl<'a> Rng for LentWords<'a> {
    ghost stream = { word_stream };

    fn next_u32(&mut self) -> u32 {
        (self.next_word() & 0xffff_ffff) as u32
    }

    fn next_u64(&mut self) -> u64 {
        self.next_word()
    }

    fn fill_bytes(&mut self, dst: &mut [u8]) {
        utils::fill_bytes_via_u64(self, dst)
    }
}

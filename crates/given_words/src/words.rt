ghost use Rattle.std.specs.Prelude.{◌≡◌};
ghost use Rattle.given_words.specs.Words.{word_step, word_stream};

use rand_core::Rng;
use rand_core::utils::{self, NextWord};
use std::marker::Model;

/// Words that a program is given in place of a random generator's, the first to be drawn first, and zeros after the
/// last. A contract sees the words that are left.
#[derive(Drop)]
pub struct Words {
    list: Vec<u64>,
    // How many words of the list have been drawn.
    drawn: usize,
}

impl Model for Words {
    ghost use Rattle.std.specs.Prelude.{List, ℕ, drop};

    ghost Value = { List ℕ };

    ghost view = { λ w. drop w.drawn w.list.items };
}

impl Words {
    /// The words of the list.
    pub fn new(list: Vec<u64>) -> Words
        ensures { result ≡ list.items }
    {
        Words { list, drawn: 0 }
    }
}

impl NextWord<u64> for Words {
    ghost step = { word_step };

    fn next_word(&mut self) -> u64 {
        match self.list.get(self.drawn) {
            Some(word) => {
                self.drawn += 1;
                *word
            }
            None => 0,
        }
    }
}

impl Rng for Words {
    ghost stream = { word_stream };

    fn next_u32(&mut self) -> u32 {
        (self.next_word() & 0xffff_ffff) as u32
    }

    fn next_u64(&mut self) -> u64 {
        self.next_word()
    }

    fn fill_bytes(&mut self, dst: &mut [u8]) {
        utils::fill_bytes_via_u64(self, dst)
    }
}

//! What of a module may be rewritten, and on what.

use body_rewrites::Growth;
use rewrite_rules::Rule;
use std::marker::Model;

/// What of a module may be rewritten, how large a new one may be, whether it is made smaller, and whether what runs it is exact.
#[derive(Drop)]
pub struct Scope<'a> {
    /// The rules.
    pub rules: &'a [Rule],
    /// The only function that may be rewritten, by its index among all functions of the module, imported ones first; none: any may
    /// be.
    pub function: Option<usize>,
    /// The most bytes that a new module may have.
    pub max_size: usize,
    /// Whether each rewrite is to make the module smaller: it leaves no more operators, and the module has fewer bytes, or as many
    /// and comes before the old one as words stand in a dictionary.
    pub shrinking: bool,
    /// Whether what runs the module does what the standard says on the exact rows, on floats, vectors and memories, and no other thread
    /// writes its memories: only then is a row with one of these operators applied.
    pub exact: bool,
}

// What leaves no more operators.
const NO_MORE: [Growth; 2] = [Growth::Shrinks, Growth::Keeps];

// The most attempts at entries that words name, or at the function that is named.
const DRAWS: usize = 16;

// The same where rewrites are to make the module smaller, and it has more bytes than that.
const MOST_DRAWS: usize = 4096;

// All that may become of the number of operators.
const ALL: [Growth; 3] = [Growth::Shrinks, Growth::Keeps, Growth::Grows];

impl<'a> Model for Scope<'a> {
    ghost use Rattle.module_rewrites.specs.Scope.{Scope};

    ghost Value = { Scope };

    ghost view = { λ s. record {
      rules = s.rules.now;
      function = s.function;
      most = s.max_size;
      shrinking = s.shrinking;
      exact = s.exact;
    } };
}

impl<'a> Scope<'a> {
    ghost use Rattle.std.specs.Prelude.{◌≡◌, ◌<◌};
    ghost use Rattle.module_rewrites.specs.Scope.{draws_of, wanted_of};

    /// The rules.
    pub fn rules(&self) -> &'a [Rule]
        ensures { result.now ≡ self.now.rules }
    {
        self.rules
    }

    /// What a rewrite may do to the number of operators.
    pub fn wanted(&self) -> &'static [Growth]
        ensures { result.now ≡ wanted_of self.now }
    {
        if self.shrinking { &NO_MORE } else { &ALL }
    }

    /// The most attempts at entries of the module of these bytes that words name, or at the function that is named.
    pub(crate) fn draws(&self, bytes: &[u8]) -> usize
        ensures is { result ≡ draws_of self.now bytes.now }
        ensures some { 0 < result }
    {
        if self.shrinking {
            bytes.len().min(MOST_DRAWS).max(DRAWS)
        } else {
            DRAWS
        }
    }
}

//! The words behind a command's name, as the session reads them.

ghost use Rattle.std.specs.Prelude.{◌≡◌, ◌≤◌, ◌<◌, ◌^◌, All, IfOk, MatchResult, Some, None, Ok};
ghost use Rattle.peephole_lang.specs.Term.{numbers_of};
ghost use Rattle.peephole_script.specs.Text.{texts};
ghost use Rattle.peephole_commands.specs.Arguments.{only_word, named_children, Reads};

use peephole_lang::Id;
use peephole_script::{Fault, number_of};
use std::alloc::Global;

/// The only word; `BadArgument` where there is none, or more than one.
pub fn only<'a>(arguments: &[&'a str]) -> Result<&'a str, Fault>
    ensures { MatchResult result
        (λ word. only_word (λ w. Some w) (texts arguments.now) ≡ Some word.now)
        (λ f. (f ≡ Fault.BadArgument) × (only_word (λ w. Some w) (texts arguments.now) ≡ None)) }
{
    match arguments {
        [word] => Ok(word),
        _ => Err(Fault::BadArgument),
    }
}

/// The ids that the words write, each below the count; `BadArgument` where a word writes no number, else `BadChild` where
/// one is not below, `Memory` for want of memory.
pub fn ids_of(alloc: Global, words: &[&str], count: u64) -> Result<Vec<Id>, Fault>
    requires { count ≤ 2 ^ 32 }
    ensures read { Reads (named_children count (texts words.now)) result }
    ensures below { IfOk result (λ ids. All (λ child. child < count) (numbers_of ids.items)) }
{
    let mut ids = Vec::new(alloc);
    let mut below = true;
    for word in words {
        let Some(number) = number_of(word) else {
            return Err(Fault::BadArgument);
        };
        if number < count {
            ids.push(Id(number as u32))?;
        } else {
            below = false;
        }
    }
    if below { Ok(ids) } else { Err(Fault::BadChild) }
}

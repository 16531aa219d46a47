//! The nodes of arithmetic, and their texts.
ghost use Rattle.std.specs.Prelude.{◌≡◌, [], Some, codes, refl};
ghost use Rattle.std.specs.Option.{option_copied};
ghost use Rattle.peephole_lang.specs.Language.{ReadsInto};
ghost use Rattle.peephole_lang.specs.Names.{rest_after};
ghost use Rattle.peephole_examples.specs.Arith.{arithmetic_head, arithmetic_ids, arithmetic_children, arithmetic_with_ids, IsEqualArithmetic, IsArithmeticNode, arith_matches, arithmetic_text, read_number, arithmetic_reads, says, reads_back, determined, equal_says, keeps_head, has_written, matches_exactly, matches_equivalence};

use mutate_base::Error;
use peephole_lang::{Children, Id, Language, no_children};
use peephole_payloads::TermError;
use peephole_payloads::number::read_i32;
use std::fmt;

/// What a node is, apart from its children.
#[derive(Clone, Copy, Debug, PartialEq, Eq)]
pub enum ArithHead {
    Num(i32),
    Neg,
    Add,
    Sum,
}

/// A node of a term of arithmetic.
#[derive(Drop)]
pub enum Arith {
    /// `num.1`: a number
    Num(i32),
    /// `neg`: the negative of its child
    Neg([Id; 1]),
    /// `add`: the sum of its two children
    Add([Id; 2]),
    /// `sum`: the sum of its children, of which there may be any number
    Sum(Vec<Id>),
}

// The text behind `num.`.
fn behind_num(text: &str) -> Option<&str>
    ensures { option_copied result ≡ rest_after (codes "num.") text.now }
{
    match text.strip_prefix("num.") {
        Some(digits) => Some(digits),
        None => None,
    }
}

// The node of the number that the digits write.
fn read_num(digits: &str) -> Result<Arith, TermError>
    ensures { ReadsInto arithmetic_head arithmetic_ids (λ text count. read_number text)
        digits.now [] result }
{
    Ok(Arith::Num(read_i32(digits)?))
}

impl fmt::Display for Arith {
    ghost output = { λ a. Some (arithmetic_text a) };

    fn fmt<W: fmt::Write>(&self, f: &mut fmt::Formatter<W>) -> fmt::Result {
        match self {
            Arith::Num(number) => write!(f, "num.{number}"),
            Arith::Neg(_) => f.write_str("neg"),
            Arith::Add(_) => f.write_str("add"),
            Arith::Sum(_) => f.write_str("sum"),
        }
    }
}

impl Language for Arith {
    type Head = ArithHead;

    ghost head = { arithmetic_head };

    ghost ids = { arithmetic_ids };

    ghost children = { arithmetic_children };

    ghost text = { arithmetic_text };

    ghost reads = { arithmetic_reads };

    ghost matches = { arith_matches };

    ghost with_ids = { arithmetic_with_ids };

    ghost IsEqual = { IsEqualArithmetic };

    ghost IsNode = { IsArithmeticNode };

    fn children(&self) -> &[Id] {
        match self {
            Arith::Num(number) => {
                let _in_range = *number;
                &[]
            }
            Arith::Neg(children) => children,
            Arith::Add(children) => children,
            Arith::Sum(children) => children.as_slice(),
        }
    }

    fn children_mut(&mut self) -> &mut [Id] {
        match self {
            Arith::Num(_) => no_children(self),
            Arith::Neg(children) => children.as_mut_slice(),
            Arith::Add(children) => children.as_mut_slice(),
            Arith::Sum(children) => children.as_mut_slice(),
        }
    }

    fn matches(&self, other: &Arith) -> bool {
        match (self, other) {
            (Arith::Num(number), Arith::Num(second)) => *number == *second,
            (Arith::Neg(first), Arith::Neg(second)) => first.as_slice().len()
                == second.as_slice().len(),
            (Arith::Add(first), Arith::Add(second)) => first.as_slice().len()
                == second.as_slice().len(),
            (Arith::Sum(first), Arith::Sum(second)) => first.len() == second.len(),
            _ => false,
        }
    }

    fn from_op_str(op_str: &str, given: Vec<Id>) -> Result<Arith, TermError> {
        if op_str == "neg" {
            return Ok(Arith::Neg(Children::from(given)?));
        }
        if op_str == "add" {
            return Ok(Arith::Add(Children::from(given)?));
        }
        if op_str == "sum" {
            return Ok(Arith::Sum(Children::from(given)?));
        }
        match behind_num(op_str) {
            Some(_) if !given.is_empty() => Err(TermError::ExpectedZeroChildren),
            Some(digits) => read_num(digits),
            None => Err(TermError::InvalidToken),
        }
    }

    fn clone_node(&self) -> Result<Arith, Error> {
        Ok(match self {
            Arith::Num(number) => Arith::Num(*number),
            Arith::Neg(children) => Arith::Neg(*children),
            Arith::Add(children) => Arith::Add(*children),
            Arith::Sum(children) => Arith::Sum(children.clone()?),
        })
    }

    ghost numbers = { λ a. refl };

    ghost says = { says };

    ghost displays = { λ a. refl };

    ghost matches_exactly = { matches_exactly };

    ghost matches_equivalence = { matches_equivalence };

    ghost determined = { determined };

    ghost equal_says = { equal_says };

    ghost keeps_head = { keeps_head };

    ghost has_written = { has_written };

    ghost text_reads_back = { reads_back };
}

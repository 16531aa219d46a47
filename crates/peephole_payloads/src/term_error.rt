ghost use Rattle.std.specs.Prelude.{◌≡◌};
ghost use Rattle.peephole_payloads.specs.TermError.{term_error_name};

use thiserror::Error as ThisError;

/// Why a text with given children names no node, or a text no payload. It displays as its name.
#[derive(Clone, Copy, Debug, PartialEq, Eq, ThisError)]
pub enum TermError {
    /// No node has this text.
    #[error("InvalidToken")]
    InvalidToken,
    /// Children are given to a node that has none.
    #[error("ExpectedZeroChildren")]
    ExpectedZeroChildren,
    /// A node of one child is given this other number of children.
    #[error("ExpectedOneChild")]
    ExpectedOneChild(usize),
    /// A node of this number of children is given another number.
    #[error("ExpectedChildren")]
    ExpectedChildren(usize),
    /// A part of the payload is missing.
    #[error("MissingInfo")]
    MissingInfo,
    /// The payload has a part too many.
    #[error("TooMuchInfo")]
    TooMuchInfo,
    /// A number isn't written in decimal digits, or is out of its type's range.
    #[error("BadInteger")]
    BadInteger,
    /// The lanes of a shuffle aren't sixteen.
    #[error("WrongLanes")]
    WrongLanes,
    /// The bits of a float aren't written in 8 or 16 hexadecimal digits.
    #[error("BadBits")]
    BadBits,
    /// No type of references has this name.
    #[error("BadRefType")]
    BadRefType,
    /// No value type has this name.
    #[error("BadValType")]
    BadValType,
}

impl TermError {
    /// The variant's name, as `InvalidToken`.
    pub fn name(&self) -> &'static str
        ensures { result.now ≡ term_error_name self.now }
    {
        match self {
            TermError::InvalidToken => "InvalidToken",
            TermError::ExpectedZeroChildren => "ExpectedZeroChildren",
            TermError::ExpectedOneChild(_) => "ExpectedOneChild",
            TermError::ExpectedChildren(_) => "ExpectedChildren",
            TermError::MissingInfo => "MissingInfo",
            TermError::TooMuchInfo => "TooMuchInfo",
            TermError::BadInteger => "BadInteger",
            TermError::WrongLanes => "WrongLanes",
            TermError::BadBits => "BadBits",
            TermError::BadRefType => "BadRefType",
            TermError::BadValType => "BadValType",
        }
    }
}

//! The changes, by name.
ghost use Rattle.std.specs.Prelude.{◌≡◌, ◌≢◌, IfNone, IfSome};

/// What is made of an operator and what stands right before it, so that the body stays valid and computes something else.
#[derive(Clone, Copy, Debug, PartialEq, Eq)]
pub enum Change {
    /// A constant becomes another one of its type.
    Constant,
    /// An operator on one or two operands becomes another one of the same types.
    Operator,
    /// An access to a local becomes one to another of its type.
    Local,
    /// A value is drawn anew: a constant, a local, a global, or operators on such.
    Draw,
    /// A value, or a statement, becomes a copy of another one.
    Copy,
    /// The first of two operands stands for the whole.
    FirstOperand,
    /// The only operand, or the second one, does.
    LastOperand,
    /// Two operands of one type change places.
    ExchangeOperands,
    /// A statement, which leaves no value, is gone.
    Delete,
    /// It stands there twice.
    Double,
    /// It changes places with the statement right before it.
    ExchangeStatements,
    /// A global that is read becomes another one of its type.
    Global,
    /// A function that is called becomes another one of its type.
    Call,
    /// A load or a store gets another offset and alignment.
    MemoryArgument,
}

/// All of them.
pub const CHANGES: [Change; 14] = [
    Change::Constant,
    Change::Operator,
    Change::Local,
    Change::Draw,
    Change::Copy,
    Change::FirstOperand,
    Change::LastOperand,
    Change::ExchangeOperands,
    Change::Delete,
    Change::Double,
    Change::ExchangeStatements,
    Change::Global,
    Change::Call,
    Change::MemoryArgument,
];

impl Change {
    ghost use Rattle.body_changes.specs.Change.{change_name};
    ghost use Rattle.body_changes.specs.declared.change.Change.{Change};

    /// Its name, as `constant` or `first_operand`.
    pub fn name(self) -> &'static str
        ensures { result.now ≡ change_name self }
    {
        match self {
            Change::Constant => "constant",
            Change::Operator => "operator",
            Change::Local => "local",
            Change::Draw => "draw",
            Change::Copy => "copy",
            Change::FirstOperand => "first_operand",
            Change::LastOperand => "last_operand",
            Change::ExchangeOperands => "exchange_operands",
            Change::Delete => "delete",
            Change::Double => "double",
            Change::ExchangeStatements => "exchange_statements",
            Change::Global => "global",
            Change::Call => "call",
            Change::MemoryArgument => "memory_argument",
        }
    }

    /// The change of that name, or none where no change has it.
    pub fn from_name(name: &str) -> Option<Change>
        ensures some { IfSome result (λ c. name.now ≡ change_name c) }
        ensures none { IfNone result ((c : Change) → name.now ≢ change_name c) }
    {
        match name {
            "constant" => Some(Change::Constant),
            "operator" => Some(Change::Operator),
            "local" => Some(Change::Local),
            "draw" => Some(Change::Draw),
            "copy" => Some(Change::Copy),
            "first_operand" => Some(Change::FirstOperand),
            "last_operand" => Some(Change::LastOperand),
            "exchange_operands" => Some(Change::ExchangeOperands),
            "delete" => Some(Change::Delete),
            "double" => Some(Change::Double),
            "exchange_statements" => Some(Change::ExchangeStatements),
            "global" => Some(Change::Global),
            "call" => Some(Change::Call),
            "memory_argument" => Some(Change::MemoryArgument),
            _ => None,
        }
    }
}

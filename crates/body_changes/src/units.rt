//! The units of a body's operators, found in one pass: the shortest code that ends with an operator and needs nothing from what
//! stands before it.
ghost use Rattle.std.specs.Prelude.{◌≡◌, ◌<◌, ◌+◌, ℕ, List, [], ◌++◌, length, take, IfOk, OnOk};
ghost use Rattle.wasm_code.specs.declared.operator.Operator.{Operator as BodyOperator};
ghost use Rattle.wasm_execution.specs.Row.{list_of};
ghost use Rattle.wasm_execution.specs.Values.{Context, context_in};
ghost use Rattle.body_changes.specs.Pass.{value_start_of, start_where, takes_of, AreValues, IsNextUnit};
ghost use Rattle.body_changes.specs.Units.{AreUnits, IsUnitAt};

use crate::typed::told_types;
use std::alloc::{AllocError, Global};
use wasm_code::{Instr, Operator, OperatorAndByteOffset};
use wasm_execution::operand_count;
use wasm_types::{ModuleInfo, PrimitiveTypeInfo};

/// The operands that an operator takes, by their types, where there are one or two.
#[derive(Clone, Copy, Debug, PartialEq, Eq)]
pub enum Takes {
    One(PrimitiveTypeInfo),
    Two(PrimitiveTypeInfo, PrimitiveTypeInfo),
    Other,
}

/// An operator's unit.
#[derive(Clone, Copy, Debug, PartialEq, Eq)]
pub struct Unit {
    /// Where it begins.
    pub start: usize,
    /// Where its last operand begins; where the operator stands, if it takes none.
    pub last: usize,
    /// The operands that the operator takes.
    pub takes: Takes,
    /// The type of the value that it leaves, if it leaves one.
    pub gives: Option<PrimitiveTypeInfo>,
}

// The values that stand before the next operator: where the shortest code begins that leaves each and those above it, and their
// types.
#[derive(Drop)]
struct Values {
    starts: Vec<usize>,
    types: Vec<PrimitiveTypeInfo>,
}

// The start with that number, or else the other.
fn start_at(starts: &[usize], number: usize, other: usize) -> usize
    ensures { result ≡ value_start_of starts.now number other }
{
    starts.get(number).copied().unwrap_or(other)
}

// The operands of these types.
fn takes_of(operands: &[PrimitiveTypeInfo]) -> Takes
    ensures { result ≡ takes_of operands.now }
{
    match operands {
        [t] => Takes::One(*t),
        [t, u] => Takes::Two(*t, *u),
        _ => Takes::Other,
    }
}

impl Values {
    // Before the first operator.
    fn new(alloc: Global) -> Values
        ensures { (context : Context) (operators : List (BodyOperator × ℕ))
            → AreValues context operators 0 result.starts.items result.types.items }
    {
        Values {
            starts: Vec::new(alloc),
            types: Vec::new(alloc),
        }
    }

    // No value is left.
    fn clear(&mut self)
        ensures starts { self.new.starts.items ≡ [] }
        ensures types { self.new.types.items ≡ [] }
    {
        self.starts.clear();
        self.types.clear();
    }

    // Puts what an operator leaves in the place of its operands, the values behind the first `below`.
    fn put(
        &mut self,
        below: usize,
        start: usize,
        gives: Option<PrimitiveTypeInfo>,
    ) -> Result<(), AllocError>
        ensures starts { OnOk result
            (self.new.starts.items ≡ take below self.old.starts.items ++ start_where gives start) }
        ensures types { OnOk result
            (self.new.types.items ≡ take below self.old.types.items ++ list_of gives) }
    {
        self.starts.truncate(below);
        self.types.truncate(below);
        if let Some(t) = gives {
            self.starts.push(start)?;
            self.types.push(t)?;
        }
        Ok(())
    }

    // The unit of the instruction with the index `at`, where its operands are the last ones of these; and how many values stand
    // below them.
    fn unit(
        &self,
        locals: &[PrimitiveTypeInfo],
        info: &ModuleInfo<'_>,
        instr: &Instr,
        at: usize,
    ) -> Option<(usize, Unit)>
        requires { length self.now.types.items ≡ length self.now.starts.items }
        ensures { IsNextUnit (context_in info.now locals.now) instr.now at self.now.starts.items
            self.now.types.items result }
    {
        let count = operand_count(info, instr);
        let all = self.starts.len();
        if count > all {
            return None;
        }
        let below = all - count;
        let operands = &self.types[below..];
        let gives = told_types(info, locals, instr, operands)?;
        let unit = Unit {
            start: start_at(&self.starts, below, at),
            last: start_at(&self.starts, all - count.min(1), at),
            takes: takes_of(operands),
            gives,
        };
        Some((below, unit))
    }

    // Reads the operator with the index `at`, the next one, and answers its unit, if it has one.
    fn next(
        &mut self,
        locals: &[PrimitiveTypeInfo],
        info: &ModuleInfo<'_>,
        operators: &[OperatorAndByteOffset],
        at: usize,
    ) -> Result<Option<Unit>, AllocError>
        requires inside { at < length operators.now }
        requires values { AreValues (context_in info.now locals.now) operators.now at
            self.old.starts.items self.old.types.items }
        ensures values { IfOk result (λ _. AreValues (context_in info.now locals.now) operators.now
            (at + 1) self.new.starts.items self.new.types.items) }
        ensures found { IfOk result (λ o.
            IsUnitAt (context_in info.now locals.now) operators.now at o) }
    {
        let Operator::Instr(instr) = operators[at].0 else {
            self.clear();
            return Ok(None);
        };
        let Some((below, unit)) = self.unit(locals, info, &instr, at) else {
            self.clear();
            return Ok(None);
        };
        self.put(below, unit.start, unit.gives)?;
        Ok(Some(unit))
    }
}

/// The unit of each operator of a body, in their order, or none where it has none: where it is no instruction, where an operand is
/// missing or stands before a structural operator, or where types don't fit (see `types_of_code`). `locals` are the types of the
/// function's parameters and locals.
///
/// It takes time linear in the body, and one pass. The only error is that memory was refused.
pub fn units_of(
    alloc: Global,
    locals: &[PrimitiveTypeInfo],
    info: &ModuleInfo<'_>,
    operators: &[OperatorAndByteOffset],
) -> Result<Vec<Option<Unit>>, AllocError>
    ensures { IfOk result (λ v. AreUnits (context_in info.now locals.now) operators.now v.items) }
{
    let mut values = Values::new(alloc);
    let mut units = Vec::new(alloc);
    for at in 0..operators.len() {
        units.push(values.next(locals, info, operators, at)?)?;
    }
    Ok(units)
}

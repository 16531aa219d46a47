//! What an operator is to a graph.

ghost use Rattle.std.specs.Prelude.{◌≡◌, ◌↔◌, IsTrue, length};
ghost use Rattle.wasm_code.specs.Table.{row_info_of};
ghost use Rattle.peephole_graphs.specs.Shape.{IsFit, has_result, call_shape, judge_call, judge_found, judge};

use wasm_code::{Imm, Instr, Operator, ResultKind, row_info};
use wasm_types::{FuncInfo, ModuleInfo, TypeInfo};

/// An instruction with what counts of it in a graph: the number of its operands, whether it has a result, and by how much it raises the colour.
#[derive(Clone, Copy)]
pub struct Shape {
    pub instr: Instr,
    pub operands: usize,
    pub has_result: bool,
    pub change: u8,
}

/// An operator under a module's information.
#[derive(Clone, Copy)]
pub enum Judged {
    /// An instruction that a graph can hold.
    Fits(Shape),
    /// An operator that no graph holds.
    Unfit,
    /// A call of the function with this index, which the module doesn't have, or for which it has no type.
    Unknown(u32),
}

fn is_result(kind: ResultKind) -> bool
    ensures { result ≡ has_result kind }
{
    match kind {
        ResultKind::Nothing => false,
        _ => true,
    }
}

// A call of a function of this type.
fn call_shape(instr: Instr, callee: &FuncInfo) -> Judged
    ensures { result ≡ call_shape instr (length callee.now.params) callee.now.returns }
{
    let (has_result, change) = match callee.returns.as_slice() {
        [] => (false, 2),
        [_] => (true, 1),
        _ => return Judged::Unfit,
    };
    Judged::Fits(Shape {
        instr,
        operands: callee.params.len(),
        has_result,
        change,
    })
}

// A call, by the type of the function that its immediate names.
fn judge_call(info: &ModuleInfo, instr: Instr) -> Judged
    ensures { result ≡ judge_call info.now instr instr.imm }
{
    match instr.imm() {
        Imm::Index(function) => match info.get_functype_idx(function) {
            None => Judged::Unknown(function),
            Some(TypeInfo::Other) => Judged::Unknown(function),
            Some(TypeInfo::Func(callee)) => call_shape(instr, callee),
        },
        _ => Judged::Unfit,
    }
}

// An instruction by its row.
fn judge_instr(info: &ModuleInfo, instr: Instr) -> Judged
    ensures { result ≡ judge_found info.now instr (row_info_of instr.row) }
{
    match row_info(instr.row()) {
        None => Judged::Unfit,
        Some(row) => match row.operands {
            None => judge_call(info, instr),
            Some(operands) => Judged::Fits(Shape {
                instr,
                operands: usize::from(operands),
                has_result: is_result(row.result),
                change: row.change,
            }),
        },
    }
}

/// What an operator is to a graph under a module's information.
pub fn judge_operator(info: &ModuleInfo, operator: &Operator) -> Judged
    ensures { result ≡ judge info.now operator.now }
{
    match operator {
        Operator::Instr(instr) => judge_instr(info, *instr),
        _ => Judged::Unfit,
    }
}

/// Whether a graph holds the operator under a module's information: no graph holds a delimiter, `call_indirect`, a call of a
/// function that isn't known or has more than one result, or a `select` that is no instruction.
pub fn fits_graph(info: &ModuleInfo<'_>, operator: &Operator) -> bool
    ensures { IsTrue result ↔ IsFit (judge info.now operator.now) }
{
    match judge_operator(info, operator) {
        Judged::Fits(_) => true,
        Judged::Unfit => false,
        Judged::Unknown(_) => false,
    }
}

//! The types of results of single nodes, with a look-up of the caller's, and the data of classes.

use crate::parts::{Refusal, field_of, info_with};
use crate::terms::node_of;
use peephole_terms::{
    ClassData, Id, Lang, OperandTypes, PeepholeMutationAnalysis, PrimitiveTypeInfo,
};
use std::alloc::Global;

// One type for every operand, or none.
#[derive(Clone, Copy)]
struct AllAlike {
    tpe: Option<PrimitiveTypeInfo>,
}

impl OperandTypes for AllAlike {
    ghost types = { λ t id. t.tpe };

    fn tpe(&self, _id: Id) -> Option<PrimitiveTypeInfo> {
        self.tpe
    }
}

// A function of no parameters that returns two numbers, a memory of 64 bits, and a local of type f32.
fn analysis_of(alloc: Global) -> Result<PeepholeMutationAnalysis<'static>, Refusal> {
    let returns = [PrimitiveTypeInfo::I32, PrimitiveTypeInfo::I64];
    let info = info_with(alloc, &[], &returns, true)?;
    let locals = Vec::from_slice(alloc, &[PrimitiveTypeInfo::F32])?;
    Ok(PeepholeMutationAnalysis::new(&info, locals)?)
}

// The name of a node's type, where all operands have one type or none is known.
fn type_text(
    alloc: Global,
    analysis: &PeepholeMutationAnalysis,
    case: &str,
) -> Result<String, Refusal> {
    let node: Lang = node_of(alloc, field_of(case, "node"))?;
    let tpe = PrimitiveTypeInfo::from_name(field_of(case, "operands"));
    let found = analysis.get_returning_tpe(&node, &AllAlike { tpe })?;
    Ok(String::from_str(alloc, found.name())?)
}

// Whether the data of two classes is equal, and that of the first one to its copy.
fn class_text(alloc: Global, case: &str) -> Result<String, Refusal> {
    let first = PrimitiveTypeInfo::from_name(field_of(case, "of")).ok_or(Refusal::Unreadable)?;
    let second = PrimitiveTypeInfo::from_name(field_of(case, "and")).ok_or(Refusal::Unreadable)?;
    let data = ClassData { tpe: first };
    let equal = data == ClassData { tpe: second };
    let copied = data.clone()? == data;
    Ok(format!(in alloc; "equal {equal}, copied {copied}")?)
}

/// What a call on types answers.
pub fn answered(alloc: Global, call: &str, case: &str) -> Result<String, Refusal> {
    match call {
        "type" => type_text(alloc, &analysis_of(alloc)?, case),
        "type_by_copy" => type_text(alloc, &analysis_of(alloc)?.clone()?, case),
        _ => class_text(alloc, case),
    }
}

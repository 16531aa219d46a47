//! The type of a node's result.

ghost use Rattle.std.specs.Prelude.{◌≡◌, ◌<◌, ℕ, Option, slice_get, IfOk, IfErr};
ghost use Rattle.wasm_types.specs.declared.types.PrimitiveTypeInfo.{PrimitiveTypeInfo};
ghost use Rattle.peephole_analysis.specs.Analysis.{value_type, reference_type, element_type, address_type, one_result, index_type, immediate_type, immediate_index, kind_type, rowless_types, or_empty, first_type, returning_type};

use mutate_base::Error;
use peephole_lang::{Id, Lang};
use std::alloc::AllocError;
use std::marker::Model;
use wasm_code::{AbstractHeapType, HeapType, Imm, ResultKind, ValType, row_info};
use wasm_types::{ElementType, ModuleInfo, PrimitiveTypeInfo, TypeInfo};

/// What tells the types of operands by their ids.
pub trait OperandTypes {
    /// The type of each id, where one is known.
    ghost types: { Self → ℕ → Option PrimitiveTypeInfo };

    /// The type of the operand with this id, `Empty` where it has no result, or None where its type isn't known.
    fn tpe(&self, id: Id) -> Option<PrimitiveTypeInfo>
        ensures { result ≡ types self.now id.0 };
}

/// What is known of a class of equal terms: the type of their results.
#[derive(Clone, Copy, Debug, PartialEq, Eq)]
pub struct ClassData {
    pub tpe: PrimitiveTypeInfo,
}

/// The types of results in a function of a module. A contract sees the module's lists and the types of the locals.
#[derive(Debug, Drop)]
pub struct PeepholeMutationAnalysis<'a> {
    info: ModuleInfo<'a>,
    locals: Vec<PrimitiveTypeInfo>,
}

impl<'a> Model for PeepholeMutationAnalysis<'a> {
    ghost use Rattle.peephole_analysis.specs.Analysis.{Analysis};

    ghost Value = { Analysis };

    ghost view = { λ a. record { info = a.info; locals = a.locals.items } };
}

impl<'a> Clone for PeepholeMutationAnalysis<'a> {
    ghost use Rattle.std.specs.Prelude.{◌≡◌};

    ghost is_clone = { λ a b. b ≡ a };

    fn clone(&self) -> Result<PeepholeMutationAnalysis<'a>, AllocError> {
        Ok(PeepholeMutationAnalysis {
            info: self.info.clone()?,
            locals: self.locals.clone()?,
        })
    }
}

fn of_value(ty: ValType) -> PrimitiveTypeInfo
    ensures { result ≡ value_type ty }
{
    match ty {
        ValType::I32 => PrimitiveTypeInfo::I32,
        ValType::I64 => PrimitiveTypeInfo::I64,
        ValType::F32 => PrimitiveTypeInfo::F32,
        ValType::F64 => PrimitiveTypeInfo::F64,
        ValType::V128 => PrimitiveTypeInfo::V128,
        ValType::FuncRef => PrimitiveTypeInfo::FuncRef,
        ValType::ExternRef => PrimitiveTypeInfo::ExternRef,
    }
}

fn of_reference(ty: HeapType) -> PrimitiveTypeInfo
    ensures { result ≡ reference_type ty }
{
    match ty {
        HeapType::Abstract {
            ty: AbstractHeapType::Func,
        } => PrimitiveTypeInfo::FuncRef,
        HeapType::Abstract {
            ty: AbstractHeapType::Extern,
        } => PrimitiveTypeInfo::ExternRef,
    }
}

fn of_element(ty: ElementType) -> PrimitiveTypeInfo
    ensures { result ≡ element_type ty }
{
    match ty {
        ElementType::Func => PrimitiveTypeInfo::FuncRef,
        ElementType::Extern => PrimitiveTypeInfo::ExternRef,
        ElementType::Other => PrimitiveTypeInfo::Empty,
    }
}

fn of_address(wide: bool) -> PrimitiveTypeInfo
    ensures { result ≡ address_type wide }
{
    if wide {
        PrimitiveTypeInfo::I64
    } else {
        PrimitiveTypeInfo::I32
    }
}

// The one type that a function returns.
fn of_results(returns: &[PrimitiveTypeInfo]) -> Result<PrimitiveTypeInfo, Error>
    ensures { result ≡ one_result returns.now }
{
    match returns {
        [] => Ok(PrimitiveTypeInfo::Empty),
        [one] => Ok(*one),
        _ => Err(Error::NoMutationsApplicable),
    }
}

fn index_of(imm: Imm) -> u32
    ensures { result ≡ immediate_index imm }
{
    match imm {
        Imm::Index(index) => index,
        _ => 0,
    }
}

fn of_immediate(imm: Imm) -> PrimitiveTypeInfo
    ensures { result ≡ immediate_type imm }
{
    match imm {
        Imm::Heap(ty) => of_reference(ty),
        Imm::Val(ty) => of_value(ty),
        _ => PrimitiveTypeInfo::Empty,
    }
}

// Of a node without an instruction, by its place.
fn of_rowless(place: u16) -> PrimitiveTypeInfo
    requires { place < 12 }
    ensures { result ≡ or_empty (slice_get rowless_types place) }
{
    match place {
        0 => PrimitiveTypeInfo::I32,
        1 => PrimitiveTypeInfo::I64,
        2 => PrimitiveTypeInfo::F32,
        3 => PrimitiveTypeInfo::F64,
        4 => PrimitiveTypeInfo::Empty,
        5 => PrimitiveTypeInfo::I32,
        6 => PrimitiveTypeInfo::I64,
        7 => PrimitiveTypeInfo::I32,
        8 => PrimitiveTypeInfo::I64,
        9 => PrimitiveTypeInfo::F32,
        10 => PrimitiveTypeInfo::F64,
        _ => PrimitiveTypeInfo::Empty,
    }
}

// What is said of the first operand, where there is one.
fn first_of<T: OperandTypes>(operands: &T, ids: &[Id]) -> Option<PrimitiveTypeInfo>
    ensures { result ≡ first_type (T.types operands.now) ids.now }
{
    match ids {
        [first, ..] => operands.tpe(*first),
        [] => None,
    }
}

impl<'a> PeepholeMutationAnalysis<'a> {
    /// The types of results in a function of a module that has these locals, its parameters among them. The module's lists
    /// are copied. Refused for want of memory alone.
    pub fn new(
        info: &ModuleInfo<'a>,
        locals: Vec<PrimitiveTypeInfo>,
    ) -> Result<PeepholeMutationAnalysis<'a>, Error>
        ensures made { IfOk result (λ a. a ≡ record { info = info.now; locals = locals.items }) }
        ensures refused { IfErr result (λ e. e ≡ Error.Memory) }
    {
        Ok(PeepholeMutationAnalysis {
            info: info.clone()?,
            locals,
        })
    }

    /// The same without a copy: the module and the locals are taken, and `into_parts` gives them back.
    pub fn of(info: ModuleInfo<'a>, locals: Vec<PrimitiveTypeInfo>) -> PeepholeMutationAnalysis<'a>
        ensures { result ≡ record { info = info.entry; locals = locals.items } }
    {
        PeepholeMutationAnalysis { info, locals }
    }

    /// The module and the locals.
    pub fn into_parts(self) -> (ModuleInfo<'a>, Vec<PrimitiveTypeInfo>)
        ensures info { result.0 ≡ self.entry.info }
        ensures locals { result.1.items ≡ self.entry.locals }
    {
        (self.info, self.locals)
    }

    // Of an instruction that names something by its index.
    fn of_index(&self, kind: ResultKind, index: u32) -> Result<PrimitiveTypeInfo, Error>
        ensures { result ≡ index_type self.now kind index }
    {
        let place = index as usize;
        match kind {
            ResultKind::Local => match self.locals.get(place) {
                Some(ty) => Ok(*ty),
                None => Err(Error::UnknownLocal(index)),
            },
            ResultKind::Global => match self.info.global_types.get(place) {
                Some(ty) => Ok(*ty),
                None => Err(Error::UnknownGlobal(index)),
            },
            ResultKind::Call => match self.info.get_functype_idx(index) {
                Some(TypeInfo::Func(callee)) => of_results(callee.returns.as_slice()),
                Some(TypeInfo::Other) => Err(Error::UnknownFunction(index)),
                None => Err(Error::UnknownFunction(index)),
            },
            ResultKind::Memory => match self.info.memory_types.get(place) {
                Some(memory) => Ok(of_address(memory.memory64)),
                None => Err(Error::UnknownMemory(index)),
            },
            ResultKind::Table => match self.info.table_types.get(place) {
                Some(table) => Ok(of_address(table.table64)),
                None => Err(Error::UnknownTable(index)),
            },
            ResultKind::Element => match self.info.table_types.get(place) {
                Some(table) => Ok(of_element(table.element_type)),
                None => Err(Error::UnknownTable(index)),
            },
            _ => Ok(PrimitiveTypeInfo::Empty),
        }
    }

    // Of a node that has an instruction, by what decides the type of the result.
    fn of_kind<T: OperandTypes>(
        &self,
        kind: ResultKind,
        node: &Lang,
        operands: &T,
    ) -> Result<PrimitiveTypeInfo, Error>
        ensures { result ≡ kind_type self.now (T.types operands.now) node.now kind }
    {
        match kind {
            ResultKind::Nothing => Ok(PrimitiveTypeInfo::Empty),
            ResultKind::Fixed(ty) => Ok(of_value(ty)),
            ResultKind::First => match first_of(operands, node.children()) {
                Some(ty) => Ok(ty),
                None => Err(Error::UnknownOperand),
            },
            ResultKind::Immediate => Ok(of_immediate(node.payload().imm())),
            _ => self.of_index(kind, index_of(node.payload().imm())),
        }
    }

    /// The type of a node's result, `Empty` where it has none: the result column of the instruction table, and of a node
    /// without an instruction the type of the value that it stands for. Of its operands only the first one of `Select` is
    /// looked up, in `operands`.
    ///
    /// `NoMutationsApplicable` for a call with several results; `UnknownFunction`, `UnknownLocal`, `UnknownGlobal`,
    /// `UnknownTable` or `UnknownMemory` where the type is that of something that isn't there; `UnknownOperand` where the
    /// type of the first operand of `Select` isn't known.
    pub fn get_returning_tpe<T: OperandTypes>(
        &self,
        node: &Lang,
        operands: &T,
    ) -> Result<PrimitiveTypeInfo, Error>
        ensures { result ≡ returning_type self.now (T.types operands.now) node.now }
    {
        let place = node.place();
        if place < 12 {
            return Ok(of_rowless(place));
        }
        match row_info(place - 12) {
            Some(row) => self.of_kind(row.result, node, operands),
            None => Ok(PrimitiveTypeInfo::Empty),
        }
    }
}

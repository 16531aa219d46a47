//! The nodes of peephole terms.
use peephole_nodes::{Id, Numeric, Payload, Simd};
use peephole_payloads::{F32, F64, MemArg, MemoryCopy, MemoryInit, RefType, TableCopy, TableInit};
use wasm_code::ValType;

const _: () = prove!(size_of::<Lang>() <= 48);

/// What a node is, apart from its children.
#[derive(Clone, Copy, Debug, PartialEq, Eq)]
pub struct Head {
    /// The place of its variant: 12 more than the row of its instruction, or below 12 where it has none.
    pub place: u16,
    /// What it says besides.
    pub payload: Payload,
}

/// A node of a term: an instruction whose operands are the children, or one of the twelve nodes without an instruction.
/// Numeric instructions with operands and vector instructions are held in one: their places are those of what is held.
/// `TypedSelect` has the last place.
#[derive(Drop)]
pub enum Lang {
    /// Any number of type i32, drawn when it is written.
    RandI32,
    /// Any number of type i64, drawn when it is written.
    RandI64,
    /// Any number of type f32, drawn when it is written.
    RandF32,
    /// Any number of type f64, drawn when it is written.
    RandF64,
    /// No value is known.
    Undef,
    /// The i32 constant that is its child, as a sum.
    UnfoldI32(Id),
    /// The i64 constant that is its child, as a sum.
    UnfoldI64(Id),
    /// Its child, put into a requested global of type i32 and read from it again.
    I32UseGlobal(Id),
    /// Its child, put into a requested global of type i64 and read from it again.
    I64UseGlobal(Id),
    /// Its child, put into a requested global of type f32 and read from it again.
    F32UseGlobal(Id),
    /// Its child, put into a requested global of type f64 and read from it again.
    F64UseGlobal(Id),
    /// Its children, one after another.
    Container(Vec<Id>),
    Nop, // nop
    Call(u32, Vec<Id>), // call
    Drop([Id; 1]), // drop
    Select([Id; 3]), // select
    LocalGet(u32), // local.get
    LocalSet(u32, Id), // local.set
    LocalTee(u32, Id), // local.tee
    GlobalGet(u32), // global.get
    GlobalSet(u32, Id), // global.set
    TableGet(u32, Id), // table.get
    TableSet(u32, [Id; 2]), // table.set
    I32Load(MemArg, Id), // i32.load
    I64Load(MemArg, Id), // i64.load
    F32Load(MemArg, Id), // f32.load
    F64Load(MemArg, Id), // f64.load
    I32Load8S(MemArg, Id), // i32.load8_s
    I32Load8U(MemArg, Id), // i32.load8_u
    I32Load16S(MemArg, Id), // i32.load16_s
    I32Load16U(MemArg, Id), // i32.load16_u
    I64Load8S(MemArg, Id), // i64.load8_s
    I64Load8U(MemArg, Id), // i64.load8_u
    I64Load16S(MemArg, Id), // i64.load16_s
    I64Load16U(MemArg, Id), // i64.load16_u
    I64Load32S(MemArg, Id), // i64.load32_s
    I64Load32U(MemArg, Id), // i64.load32_u
    I32Store(MemArg, [Id; 2]), // i32.store
    I64Store(MemArg, [Id; 2]), // i64.store
    F32Store(MemArg, [Id; 2]), // f32.store
    F64Store(MemArg, [Id; 2]), // f64.store
    I32Store8(MemArg, [Id; 2]), // i32.store8
    I32Store16(MemArg, [Id; 2]), // i32.store16
    I64Store8(MemArg, [Id; 2]), // i64.store8
    I64Store16(MemArg, [Id; 2]), // i64.store16
    I64Store32(MemArg, [Id; 2]), // i64.store32
    MemorySize(u32), // memory.size
    MemoryGrow(u32, Id), // memory.grow
    I32(i32), // i32.const
    I64(i64), // i64.const
    F32(F32), // f32.const
    F64(F64), // f64.const
    RefNull(RefType), // ref.null
    RefIsNull(Id), // ref.is_null
    RefFunc(u32), // ref.func
    MemoryInit(MemoryInit, [Id; 3]), // memory.init
    DataDrop(u32), // data.drop
    MemoryCopy(MemoryCopy, [Id; 3]), // memory.copy
    MemoryFill(u32, [Id; 3]), // memory.fill
    TableInit(TableInit, [Id; 3]), // table.init
    ElemDrop(u32), // elem.drop
    TableCopy(TableCopy, [Id; 3]), // table.copy
    TableGrow(u32, [Id; 2]), // table.grow
    TableSize(u32), // table.size
    TableFill(u32, [Id; 3]), // table.fill
    /// `select` with the type of its value
    TypedSelect(ValType, [Id; 3]),
    /// A numeric instruction with operands.
    Numeric(Numeric),
    /// A vector instruction.
    Simd(Simd),
}

impl From<Numeric> for Lang {
    ghost use Rattle.std.specs.Prelude.{◌≡◌};
    ghost use Rattle.peephole_lang.specs.declared.lang.Lang.TheVariants as variant;

    ghost from_gives = { λ n l. l ≡ variant.Numeric n };

    fn from(node: Numeric) -> Lang {
        Lang::Numeric(node)
    }
}

impl From<Simd> for Lang {
    ghost use Rattle.std.specs.Prelude.{◌≡◌};
    ghost use Rattle.peephole_lang.specs.declared.lang.Lang.TheVariants as variant;

    ghost from_gives = { λ s l. l ≡ variant.Simd s };

    fn from(node: Simd) -> Lang {
        Lang::Simd(node)
    }
}

impl Default for Lang {
    ghost use Rattle.std.specs.Prelude.{◌≡◌};
    ghost use Rattle.peephole_lang.specs.declared.lang.Lang.TheVariants.{Undef};

    ghost is_default = { λ l. l ≡ Undef };

    fn default() -> Lang {
        Lang::Undef
    }
}

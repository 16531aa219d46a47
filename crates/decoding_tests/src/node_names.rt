//! The names of the variants.

use peephole_lang::{Lang, Numeric, Simd};

/// The names of the variants, and which of them the node's is.
macro_rules! name_among {
    ($node:ident, $kind:ident, $($variant:ident $index:literal,)*) => {
        (
            stringify!($($variant)*),
            match $node {
                $($kind::$variant { .. } => $index,)*
            },
        )
    };
}

fn own_name(node: &Lang) -> (&'static str, usize) {
    name_among! {
        node, Lang, RandI32 0, RandI64 1, RandF32 2, RandF64 3, Undef 4, UnfoldI32 5, UnfoldI64 6, I32UseGlobal 7, I64UseGlobal 8,
        F32UseGlobal 9, F64UseGlobal 10, Container 11, Nop 12, Call 13, Drop 14, Select 15, LocalGet 16, LocalSet 17, LocalTee 18,
        GlobalGet 19, GlobalSet 20, TableGet 21, TableSet 22, I32Load 23, I64Load 24, F32Load 25, F64Load 26, I32Load8S 27, I32Load8U 28,
        I32Load16S 29, I32Load16U 30, I64Load8S 31, I64Load8U 32, I64Load16S 33, I64Load16U 34, I64Load32S 35, I64Load32U 36, I32Store 37,
        I64Store 38, F32Store 39, F64Store 40, I32Store8 41, I32Store16 42, I64Store8 43, I64Store16 44, I64Store32 45, MemorySize 46,
        MemoryGrow 47, I32 48, I64 49, F32 50, F64 51, RefNull 52, RefIsNull 53, RefFunc 54, MemoryInit 55, DataDrop 56, MemoryCopy 57,
        MemoryFill 58, TableInit 59, ElemDrop 60, TableCopy 61, TableGrow 62, TableSize 63, TableFill 64, TypedSelect 65, Numeric 66,
        Simd 67,
    }
}

fn numeric_name(node: &Numeric) -> (&'static str, usize) {
    name_among! {
        node, Numeric, I32Eqz 0, I32Eq 1, I32Ne 2, I32LtS 3, I32LtU 4, I32GtS 5, I32GtU 6, I32LeS 7, I32LeU 8, I32GeS 9, I32GeU 10,
        I64Eqz 11, I64Eq 12, I64Ne 13, I64LtS 14, I64LtU 15, I64GtS 16, I64GtU 17, I64LeS 18, I64LeU 19, I64GeS 20, I64GeU 21, F32Eq 22,
        F32Ne 23, F32Lt 24, F32Gt 25, F32Le 26, F32Ge 27, F64Eq 28, F64Ne 29, F64Lt 30, F64Gt 31, F64Le 32, F64Ge 33, I32Clz 34,
        I32Ctz 35, I32Popcnt 36, I32Add 37, I32Sub 38, I32Mul 39, I32DivS 40, I32DivU 41, I32RemS 42, I32RemU 43, I32And 44, I32Or 45,
        I32Xor 46, I32Shl 47, I32ShrS 48, I32ShrU 49, I32RotL 50, I32RotR 51, I64Clz 52, I64Ctz 53, I64Popcnt 54, I64Add 55, I64Sub 56,
        I64Mul 57, I64DivS 58, I64DivU 59, I64RemS 60, I64RemU 61, I64And 62, I64Or 63, I64Xor 64, I64Shl 65, I64ShrS 66, I64ShrU 67,
        I64RotL 68, I64RotR 69, F32Abs 70, F32Neg 71, F32Ceil 72, F32Floor 73, F32Trunc 74, F32Nearest 75, F32Sqrt 76, F32Add 77,
        F32Sub 78, F32Mul 79, F32Div 80, F32Min 81, F32Max 82, F32Copysign 83, F64Abs 84, F64Neg 85, F64Ceil 86, F64Floor 87, F64Trunc 88,
        F64Nearest 89, F64Sqrt 90, F64Add 91, F64Sub 92, F64Mul 93, F64Div 94, F64Min 95, F64Max 96, F64Copysign 97, Wrap 98,
        I32TruncF32S 99, I32TruncF32U 100, I32TruncF64S 101, I32TruncF64U 102, I64ExtendI32S 103, I64ExtendI32U 104, I64TruncF32S 105,
        I64TruncF32U 106, I64TruncF64S 107, I64TruncF64U 108, F32ConvertI32S 109, F32ConvertI32U 110, F32ConvertI64S 111,
        F32ConvertI64U 112, F32DemoteF64 113, F64ConvertI32S 114, F64ConvertI32U 115, F64ConvertI64S 116, F64ConvertI64U 117,
        F64PromoteF32 118, I32ReinterpretF32 119, I64ReinterpretF64 120, F32ReinterpretI32 121, F64ReinterpretI64 122, I32Extend8S 123,
        I32Extend16S 124, I64Extend8S 125, I64Extend16S 126, I64Extend32S 127, I32TruncSatF32S 128, I32TruncSatF32U 129,
        I32TruncSatF64S 130, I32TruncSatF64U 131, I64TruncSatF32S 132, I64TruncSatF32U 133, I64TruncSatF64S 134, I64TruncSatF64U 135,
    }
}

fn simd_name(node: &Simd) -> (&'static str, usize) {
    name_among! {
        node, Simd, V128Load 0, V128Load8x8S 1, V128Load8x8U 2, V128Load16x4S 3, V128Load16x4U 4, V128Load32x2S 5, V128Load32x2U 6,
        V128Load8Splat 7, V128Load16Splat 8, V128Load32Splat 9, V128Load64Splat 10, V128Store 11, V128 12, I8x16Shuffle 13,
        I8x16Swizzle 14, I8x16Splat 15, I16x8Splat 16, I32x4Splat 17, I64x2Splat 18, F32x4Splat 19, F64x2Splat 20, I8x16ExtractLaneS 21,
        I8x16ExtractLaneU 22, I8x16ReplaceLane 23, I16x8ExtractLaneS 24, I16x8ExtractLaneU 25, I16x8ReplaceLane 26, I32x4ExtractLane 27,
        I32x4ReplaceLane 28, I64x2ExtractLane 29, I64x2ReplaceLane 30, F32x4ExtractLane 31, F32x4ReplaceLane 32, F64x2ExtractLane 33,
        F64x2ReplaceLane 34, I8x16Eq 35, I8x16Ne 36, I8x16LtS 37, I8x16LtU 38, I8x16GtS 39, I8x16GtU 40, I8x16LeS 41, I8x16LeU 42,
        I8x16GeS 43, I8x16GeU 44, I16x8Eq 45, I16x8Ne 46, I16x8LtS 47, I16x8LtU 48, I16x8GtS 49, I16x8GtU 50, I16x8LeS 51, I16x8LeU 52,
        I16x8GeS 53, I16x8GeU 54, I32x4Eq 55, I32x4Ne 56, I32x4LtS 57, I32x4LtU 58, I32x4GtS 59, I32x4GtU 60, I32x4LeS 61, I32x4LeU 62,
        I32x4GeS 63, I32x4GeU 64, F32x4Eq 65, F32x4Ne 66, F32x4Lt 67, F32x4Gt 68, F32x4Le 69, F32x4Ge 70, F64x2Eq 71, F64x2Ne 72,
        F64x2Lt 73, F64x2Gt 74, F64x2Le 75, F64x2Ge 76, V128Not 77, V128And 78, V128AndNot 79, V128Or 80, V128Xor 81, V128Bitselect 82,
        V128AnyTrue 83, V128Load8Lane 84, V128Load16Lane 85, V128Load32Lane 86, V128Load64Lane 87, V128Store8Lane 88, V128Store16Lane 89,
        V128Store32Lane 90, V128Store64Lane 91, V128Load32Zero 92, V128Load64Zero 93, F32x4DemoteF64x2Zero 94, F64x2PromoteLowF32x4 95,
        I8x16Abs 96, I8x16Neg 97, I8x16Popcnt 98, I8x16AllTrue 99, I8x16Bitmask 100, I8x16NarrowI16x8S 101, I8x16NarrowI16x8U 102,
        F32x4Ceil 103, F32x4Floor 104, F32x4Trunc 105, F32x4Nearest 106, I8x16Shl 107, I8x16ShrS 108, I8x16ShrU 109, I8x16Add 110,
        I8x16AddSatS 111, I8x16AddSatU 112, I8x16Sub 113, I8x16SubSatS 114, I8x16SubSatU 115, F64x2Ceil 116, F64x2Floor 117,
        I8x16MinS 118, I8x16MinU 119, I8x16MaxS 120, I8x16MaxU 121, F64x2Trunc 122, I8x16AvgrU 123, I16x8ExtAddPairwiseI8x16S 124,
        I16x8ExtAddPairwiseI8x16U 125, I32x4ExtAddPairwiseI16x8S 126, I32x4ExtAddPairwiseI16x8U 127, I16x8Abs 128, I16x8Neg 129,
        I16x8Q15MulrSatS 130, I16x8AllTrue 131, I16x8Bitmask 132, I16x8NarrowI32x4S 133, I16x8NarrowI32x4U 134, I16x8ExtendLowI8x16S 135,
        I16x8ExtendHighI8x16S 136, I16x8ExtendLowI8x16U 137, I16x8ExtendHighI8x16U 138, I16x8Shl 139, I16x8ShrS 140, I16x8ShrU 141,
        I16x8Add 142, I16x8AddSatS 143, I16x8AddSatU 144, I16x8Sub 145, I16x8SubSatS 146, I16x8SubSatU 147, F64x2Nearest 148,
        I16x8Mul 149, I16x8MinS 150, I16x8MinU 151, I16x8MaxS 152, I16x8MaxU 153, I16x8AvgrU 154, I16x8ExtMulLowI8x16S 155,
        I16x8ExtMulHighI8x16S 156, I16x8ExtMulLowI8x16U 157, I16x8ExtMulHighI8x16U 158, I32x4Abs 159, I32x4Neg 160, I32x4AllTrue 161,
        I32x4Bitmask 162, I32x4ExtendLowI16x8S 163, I32x4ExtendHighI16x8S 164, I32x4ExtendLowI16x8U 165, I32x4ExtendHighI16x8U 166,
        I32x4Shl 167, I32x4ShrS 168, I32x4ShrU 169, I32x4Add 170, I32x4Sub 171, I32x4Mul 172, I32x4MinS 173, I32x4MinU 174, I32x4MaxS 175,
        I32x4MaxU 176, I32x4DotI16x8S 177, I32x4ExtMulLowI16x8S 178, I32x4ExtMulHighI16x8S 179, I32x4ExtMulLowI16x8U 180,
        I32x4ExtMulHighI16x8U 181, I64x2Abs 182, I64x2Neg 183, I64x2AllTrue 184, I64x2Bitmask 185, I64x2ExtendLowI32x4S 186,
        I64x2ExtendHighI32x4S 187, I64x2ExtendLowI32x4U 188, I64x2ExtendHighI32x4U 189, I64x2Shl 190, I64x2ShrS 191, I64x2ShrU 192,
        I64x2Add 193, I64x2Sub 194, I64x2Mul 195, I64x2Eq 196, I64x2Ne 197, I64x2LtS 198, I64x2GtS 199, I64x2LeS 200, I64x2GeS 201,
        I64x2ExtMulLowI32x4S 202, I64x2ExtMulHighI32x4S 203, I64x2ExtMulLowI32x4U 204, I64x2ExtMulHighI32x4U 205, F32x4Abs 206,
        F32x4Neg 207, F32x4Sqrt 208, F32x4Add 209, F32x4Sub 210, F32x4Mul 211, F32x4Div 212, F32x4Min 213, F32x4Max 214, F32x4PMin 215,
        F32x4PMax 216, F64x2Abs 217, F64x2Neg 218, F64x2Sqrt 219, F64x2Add 220, F64x2Sub 221, F64x2Mul 222, F64x2Div 223, F64x2Min 224,
        F64x2Max 225, F64x2PMin 226, F64x2PMax 227, I32x4TruncSatF32x4S 228, I32x4TruncSatF32x4U 229, F32x4ConvertI32x4S 230,
        F32x4ConvertI32x4U 231, I32x4TruncSatF64x2SZero 232, I32x4TruncSatF64x2UZero 233, F64x2ConvertLowI32x4S 234,
        F64x2ConvertLowI32x4U 235, I8x16RelaxedSwizzle 236, I32x4RelaxedTruncF32x4S 237, I32x4RelaxedTruncF32x4U 238,
        I32x4RelaxedTruncF64x2SZero 239, I32x4RelaxedTruncF64x2UZero 240, F32x4RelaxedMadd 241, F32x4RelaxedNmadd 242,
        F64x2RelaxedMadd 243, F64x2RelaxedNmadd 244, I8x16RelaxedLaneselect 245, I16x8RelaxedLaneselect 246, I32x4RelaxedLaneselect 247,
        I64x2RelaxedLaneselect 248, F32x4RelaxedMin 249, F32x4RelaxedMax 250, F64x2RelaxedMin 251, F64x2RelaxedMax 252,
        I16x8RelaxedQ15mulrS 253, I16x8RelaxedDotI8x16I7x16S 254, I32x4RelaxedDotI8x16I7x16AddS 255,
    }
}

/// The name of the variant of a node, of those that `Numeric` and `Simd` hold too.
pub fn name_of(node: &Lang) -> Option<&'static str> {
    let (names, index) = match node {
        Lang::Numeric(numeric) => numeric_name(numeric),
        Lang::Simd(simd) => simd_name(simd),
        _ => own_name(node),
    };
    names.split_whitespace().nth(index)
}

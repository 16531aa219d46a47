//! The variants of the vector nodes with their places, by payload and number of children. `V128` stands nowhere here: it alone
//! has no children.

// The group of that name, for the macro `$use`, behind what it is given: how a variant's payload is read, how its children are
// lent, and the variants.
macro_rules! simd_group {
    (memory_one => $use:ident $given:tt) => { $use! { $given
        { (payload, _) Payload::Memory(*payload) } { (_, child) slice::from_ref(child), slice::from_mut(child) } [
            V128Load 201, V128Load8x8S 202, V128Load8x8U 203, V128Load16x4S 204, V128Load16x4U 205,
            V128Load32x2S 206, V128Load32x2U 207, V128Load8Splat 208, V128Load16Splat 209,
            V128Load32Splat 210, V128Load64Splat 211, V128Load32Zero 293, V128Load64Zero 294,
        ]
    } };
    (memory_two => $use:ident $given:tt) => { $use! { $given
        { (payload, _) Payload::Memory(*payload) } { (_, children) children, children.as_mut_slice() } [
            V128Store 212,
        ]
    } };
    (shuffle_two => $use:ident $given:tt) => { $use! { $given
        { (payload, _) Payload::Shuffle(*payload) } { (_, children) children, children.as_mut_slice() } [
            I8x16Shuffle 214,
        ]
    } };
    (lane_one => $use:ident $given:tt) => { $use! { $given
        { (payload, _) Payload::Lane(*payload) } { (_, child) slice::from_ref(child), slice::from_mut(child) } [
            I8x16ExtractLaneS 222, I8x16ExtractLaneU 223, I16x8ExtractLaneS 225,
            I16x8ExtractLaneU 226, I32x4ExtractLane 228, I64x2ExtractLane 230, F32x4ExtractLane 232,
            F64x2ExtractLane 234,
        ]
    } };
    (lane_two => $use:ident $given:tt) => { $use! { $given
        { (payload, _) Payload::Lane(*payload) } { (_, children) children, children.as_mut_slice() } [
            I8x16ReplaceLane 224, I16x8ReplaceLane 227, I32x4ReplaceLane 229, I64x2ReplaceLane 231,
            F32x4ReplaceLane 233, F64x2ReplaceLane 235,
        ]
    } };
    (memory_lane_two => $use:ident $given:tt) => { $use! { $given
        { (lane, memarg, _) memory_lane(*lane, *memarg) } { (_, _, children) children, children.as_mut_slice() } [
            V128Load8Lane 285, V128Load16Lane 286, V128Load32Lane 287, V128Load64Lane 288,
            V128Store8Lane 289, V128Store16Lane 290, V128Store32Lane 291, V128Store64Lane 292,
        ]
    } };
    (plain_one_to_383 => $use:ident $given:tt) => { $use! { $given
        { (..) Payload::Nothing } { (children) children, children.as_mut_slice() } [
            I8x16Splat 216, I16x8Splat 217, I32x4Splat 218, I64x2Splat 219, F32x4Splat 220,
            F64x2Splat 221, V128Not 278, V128AnyTrue 284, F32x4DemoteF64x2Zero 295,
            F64x2PromoteLowF32x4 296, I8x16Abs 297, I8x16Neg 298, I8x16Popcnt 299, I8x16AllTrue 300,
            I8x16Bitmask 301, F32x4Ceil 304, F32x4Floor 305, F32x4Trunc 306, F32x4Nearest 307,
            F64x2Ceil 317, F64x2Floor 318, F64x2Trunc 323, I16x8ExtAddPairwiseI8x16S 325,
            I16x8ExtAddPairwiseI8x16U 326, I32x4ExtAddPairwiseI16x8S 327,
            I32x4ExtAddPairwiseI16x8U 328, I16x8Abs 329, I16x8Neg 330, I16x8AllTrue 332,
            I16x8Bitmask 333, I16x8ExtendLowI8x16S 336, I16x8ExtendHighI8x16S 337,
            I16x8ExtendLowI8x16U 338, I16x8ExtendHighI8x16U 339, F64x2Nearest 349, I32x4Abs 360,
            I32x4Neg 361, I32x4AllTrue 362, I32x4Bitmask 363, I32x4ExtendLowI16x8S 364,
            I32x4ExtendHighI16x8S 365, I32x4ExtendLowI16x8U 366, I32x4ExtendHighI16x8U 367,
            I64x2Abs 383,
        ]
    } };
    (plain_one_from_384 => $use:ident $given:tt) => { $use! { $given
        { (..) Payload::Nothing } { (children) children, children.as_mut_slice() } [
            I64x2Neg 384, I64x2AllTrue 385, I64x2Bitmask 386, I64x2ExtendLowI32x4S 387,
            I64x2ExtendHighI32x4S 388, I64x2ExtendLowI32x4U 389, I64x2ExtendHighI32x4U 390,
            F32x4Abs 407, F32x4Neg 408, F32x4Sqrt 409, F64x2Abs 418, F64x2Neg 419, F64x2Sqrt 420,
            I32x4TruncSatF32x4S 429, I32x4TruncSatF32x4U 430, F32x4ConvertI32x4S 431,
            F32x4ConvertI32x4U 432, I32x4TruncSatF64x2SZero 433, I32x4TruncSatF64x2UZero 434,
            F64x2ConvertLowI32x4S 435, F64x2ConvertLowI32x4U 436, I32x4RelaxedTruncF32x4S 438,
            I32x4RelaxedTruncF32x4U 439, I32x4RelaxedTruncF64x2SZero 440,
            I32x4RelaxedTruncF64x2UZero 441,
        ]
    } };
    (plain_two_to_279 => $use:ident $given:tt) => { $use! { $given
        { (..) Payload::Nothing } { (children) children, children.as_mut_slice() } [
            I8x16Swizzle 215, I8x16Eq 236, I8x16Ne 237, I8x16LtS 238, I8x16LtU 239, I8x16GtS 240,
            I8x16GtU 241, I8x16LeS 242, I8x16LeU 243, I8x16GeS 244, I8x16GeU 245, I16x8Eq 246,
            I16x8Ne 247, I16x8LtS 248, I16x8LtU 249, I16x8GtS 250, I16x8GtU 251, I16x8LeS 252,
            I16x8LeU 253, I16x8GeS 254, I16x8GeU 255, I32x4Eq 256, I32x4Ne 257, I32x4LtS 258,
            I32x4LtU 259, I32x4GtS 260, I32x4GtU 261, I32x4LeS 262, I32x4LeU 263, I32x4GeS 264,
            I32x4GeU 265, F32x4Eq 266, F32x4Ne 267, F32x4Lt 268, F32x4Gt 269, F32x4Le 270,
            F32x4Ge 271, F64x2Eq 272, F64x2Ne 273, F64x2Lt 274, F64x2Gt 275, F64x2Le 276,
            F64x2Ge 277, V128And 279,
        ]
    } };
    (plain_two_280_to_370 => $use:ident $given:tt) => { $use! { $given
        { (..) Payload::Nothing } { (children) children, children.as_mut_slice() } [
            V128AndNot 280, V128Or 281, V128Xor 282, I8x16NarrowI16x8S 302, I8x16NarrowI16x8U 303,
            I8x16Shl 308, I8x16ShrS 309, I8x16ShrU 310, I8x16Add 311, I8x16AddSatS 312,
            I8x16AddSatU 313, I8x16Sub 314, I8x16SubSatS 315, I8x16SubSatU 316, I8x16MinS 319,
            I8x16MinU 320, I8x16MaxS 321, I8x16MaxU 322, I8x16AvgrU 324, I16x8Q15MulrSatS 331,
            I16x8NarrowI32x4S 334, I16x8NarrowI32x4U 335, I16x8Shl 340, I16x8ShrS 341,
            I16x8ShrU 342, I16x8Add 343, I16x8AddSatS 344, I16x8AddSatU 345, I16x8Sub 346,
            I16x8SubSatS 347, I16x8SubSatU 348, I16x8Mul 350, I16x8MinS 351, I16x8MinU 352,
            I16x8MaxS 353, I16x8MaxU 354, I16x8AvgrU 355, I16x8ExtMulLowI8x16S 356,
            I16x8ExtMulHighI8x16S 357, I16x8ExtMulLowI8x16U 358, I16x8ExtMulHighI8x16U 359,
            I32x4Shl 368, I32x4ShrS 369, I32x4ShrU 370,
        ]
    } };
    (plain_two_371_to_428 => $use:ident $given:tt) => { $use! { $given
        { (..) Payload::Nothing } { (children) children, children.as_mut_slice() } [
            I32x4Add 371, I32x4Sub 372, I32x4Mul 373, I32x4MinS 374, I32x4MinU 375, I32x4MaxS 376,
            I32x4MaxU 377, I32x4DotI16x8S 378, I32x4ExtMulLowI16x8S 379, I32x4ExtMulHighI16x8S 380,
            I32x4ExtMulLowI16x8U 381, I32x4ExtMulHighI16x8U 382, I64x2Shl 391, I64x2ShrS 392,
            I64x2ShrU 393, I64x2Add 394, I64x2Sub 395, I64x2Mul 396, I64x2Eq 397, I64x2Ne 398,
            I64x2LtS 399, I64x2GtS 400, I64x2LeS 401, I64x2GeS 402, I64x2ExtMulLowI32x4S 403,
            I64x2ExtMulHighI32x4S 404, I64x2ExtMulLowI32x4U 405, I64x2ExtMulHighI32x4U 406,
            F32x4Add 410, F32x4Sub 411, F32x4Mul 412, F32x4Div 413, F32x4Min 414, F32x4Max 415,
            F32x4PMin 416, F32x4PMax 417, F64x2Add 421, F64x2Sub 422, F64x2Mul 423, F64x2Div 424,
            F64x2Min 425, F64x2Max 426, F64x2PMin 427, F64x2PMax 428,
        ]
    } };
    (plain_two_from_429 => $use:ident $given:tt) => { $use! { $given
        { (..) Payload::Nothing } { (children) children, children.as_mut_slice() } [
            I8x16RelaxedSwizzle 437, F32x4RelaxedMin 450, F32x4RelaxedMax 451, F64x2RelaxedMin 452,
            F64x2RelaxedMax 453, I16x8RelaxedQ15mulrS 454, I16x8RelaxedDotI8x16I7x16S 455,
        ]
    } };
    (plain_three => $use:ident $given:tt) => { $use! { $given
        { (..) Payload::Nothing } { (children) children, children.as_mut_slice() } [
            V128Bitselect 283, F32x4RelaxedMadd 442, F32x4RelaxedNmadd 443, F64x2RelaxedMadd 444,
            F64x2RelaxedNmadd 445, I8x16RelaxedLaneselect 446, I16x8RelaxedLaneselect 447,
            I32x4RelaxedLaneselect 448, I64x2RelaxedLaneselect 449,
            I32x4RelaxedDotI8x16I7x16AddS 456,
        ]
    } };
}

// All groups, for the macro `$use`, behind what it is given. Those that are left are asked for one after the other.
macro_rules! simd_groups {
    ($use:ident $given:tt) => {
        simd_group! {
            memory_one => simd_groups {
                $use $given []
                memory_two shuffle_two lane_one lane_two memory_lane_two plain_one_to_383 plain_one_from_384
                plain_two_to_279 plain_two_280_to_370 plain_two_371_to_428 plain_two_from_429 plain_three
            }
        }
    };
    ({ $use:ident $given:tt [$($asked:tt)*] $next:ident $($left:ident)* } $($group:tt)*) => {
        simd_group! { $next => simd_groups { $use $given [$($asked)* $($group)*] $($left)* } }
    };
    ({ $use:ident $given:tt [$($asked:tt)*] } $($group:tt)*) => {
        $use! { $given $($asked)* $($group)* }
    };
}

// The groups with a payload, for the macro `$use`, behind what it is given.
macro_rules! simd_payload_groups {
    ($use:ident $given:tt) => {
        simd_group! {
            memory_one => simd_groups {
                $use $given [] memory_two shuffle_two lane_one lane_two memory_lane_two
            }
        }
    };
}

pub(crate) use simd_group;
pub(crate) use simd_groups;
pub(crate) use simd_payload_groups;

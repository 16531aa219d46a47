//! The variants of the numeric nodes with their places, by number of children.

// The group of that name, for the macro `$use`, behind what it is given.
macro_rules! numeric_group {
    (plain_one_to_171 => $use:ident $given:tt) => { $use! { $given [
        I32Eqz 52, I64Eqz 63, I32Clz 86, I32Ctz 87, I32Popcnt 88, I64Clz 104, I64Ctz 105,
        I64Popcnt 106, F32Abs 122, F32Neg 123, F32Ceil 124, F32Floor 125, F32Trunc 126,
        F32Nearest 127, F32Sqrt 128, F64Abs 136, F64Neg 137, F64Ceil 138, F64Floor 139,
        F64Trunc 140, F64Nearest 141, F64Sqrt 142, Wrap 150, I32TruncF32S 151, I32TruncF32U 152,
        I32TruncF64S 153, I32TruncF64U 154, I64ExtendI32S 155, I64ExtendI32U 156, I64TruncF32S 157,
        I64TruncF32U 158, I64TruncF64S 159, I64TruncF64U 160, F32ConvertI32S 161,
        F32ConvertI32U 162, F32ConvertI64S 163, F32ConvertI64U 164, F32DemoteF64 165,
        F64ConvertI32S 166, F64ConvertI32U 167, F64ConvertI64S 168, F64ConvertI64U 169,
        F64PromoteF32 170, I32ReinterpretF32 171,
    ] } };
    (plain_one_from_172 => $use:ident $given:tt) => { $use! { $given [
        I64ReinterpretF64 172, F32ReinterpretI32 173, F64ReinterpretI64 174, I32Extend8S 175,
        I32Extend16S 176, I64Extend8S 177, I64Extend16S 178, I64Extend32S 179, I32TruncSatF32S 183,
        I32TruncSatF32U 184, I32TruncSatF64S 185, I32TruncSatF64U 186, I64TruncSatF32S 187,
        I64TruncSatF32U 188, I64TruncSatF64S 189, I64TruncSatF64U 190,
    ] } };
    (plain_two_to_100 => $use:ident $given:tt) => { $use! { $given [
        I32Eq 53, I32Ne 54, I32LtS 55, I32LtU 56, I32GtS 57, I32GtU 58, I32LeS 59, I32LeU 60,
        I32GeS 61, I32GeU 62, I64Eq 64, I64Ne 65, I64LtS 66, I64LtU 67, I64GtS 68, I64GtU 69,
        I64LeS 70, I64LeU 71, I64GeS 72, I64GeU 73, F32Eq 74, F32Ne 75, F32Lt 76, F32Gt 77,
        F32Le 78, F32Ge 79, F64Eq 80, F64Ne 81, F64Lt 82, F64Gt 83, F64Le 84, F64Ge 85, I32Add 89,
        I32Sub 90, I32Mul 91, I32DivS 92, I32DivU 93, I32RemS 94, I32RemU 95, I32And 96, I32Or 97,
        I32Xor 98, I32Shl 99, I32ShrS 100,
    ] } };
    (plain_two_from_101 => $use:ident $given:tt) => { $use! { $given [
        I32ShrU 101, I32RotL 102, I32RotR 103, I64Add 107, I64Sub 108, I64Mul 109, I64DivS 110,
        I64DivU 111, I64RemS 112, I64RemU 113, I64And 114, I64Or 115, I64Xor 116, I64Shl 117,
        I64ShrS 118, I64ShrU 119, I64RotL 120, I64RotR 121, F32Add 129, F32Sub 130, F32Mul 131,
        F32Div 132, F32Min 133, F32Max 134, F32Copysign 135, F64Add 143, F64Sub 144, F64Mul 145,
        F64Div 146, F64Min 147, F64Max 148, F64Copysign 149,
    ] } };
}

// All groups, for the macro `$use`, behind what it is given. Those that are left are asked for one after the other.
macro_rules! numeric_groups {
    ($use:ident $given:tt) => {
        numeric_group! {
            plain_one_to_171 => numeric_groups {
                $use $given [] plain_one_from_172 plain_two_to_100 plain_two_from_101
            }
        }
    };
    ({ $use:ident $given:tt [$($asked:tt)*] $next:ident $($left:ident)* } $($group:tt)*) => {
        numeric_group! { $next => numeric_groups { $use $given [$($asked)* $($group)*] $($left)* } }
    };
    ({ $use:ident $given:tt [$($asked:tt)*] } $($group:tt)*) => {
        $use! { $given $($asked)* $($group)* }
    };
}

pub(crate) use numeric_group;
pub(crate) use numeric_groups;

//! The variants of `Lang` with their places, but for those that hold another node.

// Them, for the macro `$use`, behind what it is given: first those with neither payload nor children; then those with a payload
// alone, and how it is read; then the others: how their payload is read, how their children are lent, and how they are copied.
macro_rules! lang_variants {
    ($use:ident $given:tt) => {
        $use! {
            $given
            [RandI32 0, RandI64 1, RandF32 2, RandF64 3, Undef 4, Nop 12,]
            [
                { payload Payload::Index(*payload) } [
                    LocalGet 16, GlobalGet 19, MemorySize 46, RefFunc 182, DataDrop 192,
                    ElemDrop 196, TableSize 199,
                ]
                { payload Payload::I32(*payload) } [I32 48,]
                { payload Payload::I64(*payload) } [I64 49,]
                { payload Payload::F32(*payload) } [F32 50,]
                { payload Payload::F64(*payload) } [F64 51,]
                { payload Payload::Ref(*payload) } [RefNull 180,]
            ]
            [
                { (..) Payload::Nothing }
                { (child) slice::from_ref(child), only_child(child) }
                { (child) (*child) } [
                    UnfoldI32 5, UnfoldI64 6, I32UseGlobal 7, I64UseGlobal 8, F32UseGlobal 9,
                    F64UseGlobal 10, RefIsNull 181,
                ]
                { (..) Payload::Nothing }
                { (children) children.as_slice(), children.as_mut_slice() }
                { (children) (children.clone()?) } [Container 11,]
                { (payload, _) Payload::Index(*payload) }
                { (_, children) children.as_slice(), children.as_mut_slice() }
                { (payload, children) (*payload, children.clone()?) } [Call 13,]
                { (..) Payload::Nothing }
                { (children) children, children.as_mut_slice() }
                { (children) (*children) } [Drop 14,]
                { (..) Payload::Nothing }
                { (children) children, children.as_mut_slice() }
                { (children) (*children) } [Select 15,]
                { (payload, _) Payload::Index(*payload) }
                { (_, child) slice::from_ref(child), only_child(child) }
                { (payload, child) (*payload, *child) } [
                    LocalSet 17, LocalTee 18, GlobalSet 20, TableGet 21, MemoryGrow 47,
                ]
                { (payload, _) Payload::Index(*payload) }
                { (_, children) children, children.as_mut_slice() }
                { (payload, children) (*payload, *children) } [TableSet 22, TableGrow 198,]
                { (payload, _) Payload::Memory(*payload) }
                { (_, child) slice::from_ref(child), only_child(child) }
                { (payload, child) (*payload, *child) } [
                    I32Load 23, I64Load 24, F32Load 25, F64Load 26, I32Load8S 27, I32Load8U 28,
                    I32Load16S 29, I32Load16U 30, I64Load8S 31, I64Load8U 32, I64Load16S 33,
                    I64Load16U 34, I64Load32S 35, I64Load32U 36,
                ]
                { (payload, _) Payload::Memory(*payload) }
                { (_, children) children, children.as_mut_slice() }
                { (payload, children) (*payload, *children) } [
                    I32Store 37, I64Store 38, F32Store 39, F64Store 40, I32Store8 41, I32Store16 42,
                    I64Store8 43, I64Store16 44, I64Store32 45,
                ]
                { (payload, _) Payload::MemoryInit(*payload) }
                { (_, children) children, children.as_mut_slice() }
                { (payload, children) (*payload, *children) } [MemoryInit 191,]
                { (payload, _) Payload::MemoryCopy(*payload) }
                { (_, children) children, children.as_mut_slice() }
                { (payload, children) (*payload, *children) } [MemoryCopy 193,]
                { (payload, _) Payload::Index(*payload) }
                { (_, children) children, children.as_mut_slice() }
                { (payload, children) (*payload, *children) } [MemoryFill 194, TableFill 200,]
                { (payload, _) Payload::TableInit(*payload) }
                { (_, children) children, children.as_mut_slice() }
                { (payload, children) (*payload, *children) } [TableInit 195,]
                { (payload, _) Payload::TableCopy(*payload) }
                { (_, children) children, children.as_mut_slice() }
                { (payload, children) (*payload, *children) } [TableCopy 197,]
                { (payload, _) Payload::Value(*payload) }
                { (_, children) children, children.as_mut_slice() }
                { (payload, children) (*payload, *children) } [TypedSelect 457,]
            ]
        }
    };
}

pub(crate) use lang_variants;

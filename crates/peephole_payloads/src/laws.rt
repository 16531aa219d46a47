//! What holds of payloads and their texts, for every caller.
ghost use Rattle.std.specs.Prelude.{◌≡◌, ◌<◌, ◌≤◌, ◌^◌, ◌-◌, ℕ, ℤ, pos, neg_ℤ, ◌≤ℤ◌, ◌<ℤ◌, Some, Ok, length};
ghost use Rattle.std.specs.Fmt.{decimal, signed_decimal};
ghost use Rattle.std.specs.Bool.{Decides};
ghost use Rattle.std.specs.List.{AllByRecursion};
ghost use Rattle.wasm_code.specs.declared.immediate.ValType.{ValType};
ghost use Rattle.wasm_code.specs.ValType.{val_type_name};
ghost use Rattle.peephole_payloads.specs.Number.{read_unsigned, read_signed};
ghost use Rattle.peephole_payloads.specs.PayloadText as text;
ghost use Rattle.peephole_payloads.specs.contracts.float.F32PartialEq.TheImpl as f32_eq;
ghost use Rattle.peephole_payloads.specs.contracts.float.F64PartialEq.TheImpl as f64_eq;
ghost use Rattle.peephole_payloads.specs.contracts.payload.RefTypePartialEq.TheImpl as ref_type_eq;
ghost use Rattle.peephole_payloads.specs.contracts.payload.MemArgPartialEq.TheImpl as mem_arg_eq;
ghost use Rattle.peephole_payloads.specs.contracts.payload.MemArgLanePartialEq.TheImpl as mem_arg_lane_eq;
ghost use Rattle.peephole_payloads.specs.contracts.payload.ShufflePartialEq.TheImpl as shuffle_eq;
ghost use Rattle.peephole_payloads.specs.contracts.payload.TableCopyPartialEq.TheImpl as table_copy_eq;
ghost use Rattle.peephole_payloads.specs.contracts.payload.MemoryCopyPartialEq.TheImpl as memory_copy_eq;
ghost use Rattle.peephole_payloads.specs.contracts.payload.TableInitPartialEq.TheImpl as table_init_eq;
ghost use Rattle.peephole_payloads.specs.contracts.payload.MemoryInitPartialEq.TheImpl as memory_init_eq;
ghost use Rattle.wasm_code.specs.Order.{IsOrderedBy};
ghost use Rattle.peephole_payloads.specs.Order as order;
ghost use Rattle.peephole_payloads.specs.contracts.float.F32Ord.TheImpl as f32_ord;
ghost use Rattle.peephole_payloads.specs.contracts.float.F32PartialOrd.TheImpl as f32_partial_ord;
ghost use Rattle.peephole_payloads.specs.contracts.float.F64Ord.TheImpl as f64_ord;
ghost use Rattle.peephole_payloads.specs.contracts.float.F64PartialOrd.TheImpl as f64_partial_ord;
ghost use Rattle.peephole_payloads.specs.contracts.payload.RefTypeOrd.TheImpl as ref_type_ord;
ghost use Rattle.peephole_payloads.specs.contracts.payload.RefTypePartialOrd.TheImpl as ref_type_partial_ord;
ghost use Rattle.peephole_payloads.specs.contracts.payload.MemArgOrd.TheImpl as mem_arg_ord;
ghost use Rattle.peephole_payloads.specs.contracts.payload.MemArgPartialOrd.TheImpl as mem_arg_partial_ord;
ghost use Rattle.peephole_payloads.specs.contracts.payload.MemArgLaneOrd.TheImpl as mem_arg_lane_ord;
ghost use Rattle.peephole_payloads.specs.contracts.payload.MemArgLanePartialOrd.TheImpl as mem_arg_lane_partial_ord;
ghost use Rattle.peephole_payloads.specs.contracts.payload.ShuffleOrd.TheImpl as shuffle_ord;
ghost use Rattle.peephole_payloads.specs.contracts.payload.ShufflePartialOrd.TheImpl as shuffle_partial_ord;
ghost use Rattle.peephole_payloads.specs.contracts.payload.TableCopyOrd.TheImpl as table_copy_ord;
ghost use Rattle.peephole_payloads.specs.contracts.payload.TableCopyPartialOrd.TheImpl as table_copy_partial_ord;
ghost use Rattle.peephole_payloads.specs.contracts.payload.MemoryCopyOrd.TheImpl as memory_copy_ord;
ghost use Rattle.peephole_payloads.specs.contracts.payload.MemoryCopyPartialOrd.TheImpl as memory_copy_partial_ord;
ghost use Rattle.peephole_payloads.specs.contracts.payload.TableInitOrd.TheImpl as table_init_ord;
ghost use Rattle.peephole_payloads.specs.contracts.payload.TableInitPartialOrd.TheImpl as table_init_partial_ord;
ghost use Rattle.peephole_payloads.specs.contracts.payload.MemoryInitOrd.TheImpl as memory_init_ord;
ghost use Rattle.peephole_payloads.specs.contracts.payload.MemoryInitPartialOrd.TheImpl as memory_init_partial_ord;
ghost use Rattle.peephole_payloads.specs.declared.payload.RefType.{RefType};
ghost use Rattle.peephole_payloads.specs.declared.payload.MemArg.{MemArg};
ghost use Rattle.peephole_payloads.specs.declared.payload.MemArgLane.{MemArgLane};
ghost use Rattle.peephole_payloads.specs.declared.payload.Shuffle.{Shuffle};
ghost use Rattle.peephole_payloads.specs.declared.payload.TableCopy.{TableCopy};
ghost use Rattle.peephole_payloads.specs.declared.payload.MemoryCopy.{MemoryCopy};
ghost use Rattle.peephole_payloads.specs.declared.payload.TableInit.{TableInit};
ghost use Rattle.peephole_payloads.specs.declared.payload.MemoryInit.{MemoryInit};

/// The text of a number, of a float's bits, or of the name of a type reads as what it is the text of, where a number is within its type.
pub fn number_texts_read_back()
    ensures unsigned { (bits n : ℕ) → n < 2 ^ bits → n < 2 ^ 64
        → read_unsigned bits (decimal n) ≡ Some n }
    ensures signed { (bits : ℕ) (z : ℤ) → bits ≤ 128 → neg_ℤ (pos (2 ^ (bits - 1))) ≤ℤ z
        → z <ℤ pos (2 ^ (bits - 1)) → read_signed bits (signed_decimal z) ≡ Some z }
    ensures f32 { (bits : ℕ) → bits < 2 ^ 32 → text.read_f32 (text.f32_text bits) ≡ Ok bits }
    ensures f64 { (bits : ℕ) → bits < 2 ^ 64 → text.read_f64 (text.f64_text bits) ≡ Ok bits }
    ensures ref_type { (x : RefType) → text.read_ref_type (text.ref_type_text x) ≡ Ok x }
    ensures val_type { (x : ValType) → text.read_val_type (val_type_name x) ≡ Ok x }
{}

/// So does the text of a payload of several numbers, where each is within its type.
pub fn payload_texts_read_back()
    ensures mem_arg { (x : MemArg) → x.static_offset < 2 ^ 64 → x.align < 2 ^ 8 → x.mem < 2 ^ 32
        → text.read_mem_arg (text.mem_arg_text x) ≡ Ok x }
    ensures mem_arg_lane { (x : MemArgLane) → x.memarg.static_offset < 2 ^ 64
        → x.memarg.align < 2 ^ 8 → x.memarg.mem < 2 ^ 32 → x.lane < 2 ^ 8
        → text.read_mem_arg_lane (text.mem_arg_lane_text x) ≡ Ok x }
    ensures shuffle { (x : Shuffle) → length x.indices ≡ 16
        → AllByRecursion (λ n. n < 256) x.indices → text.read_shuffle (text.shuffle_text x) ≡ Ok x }
    ensures table_copy { (x : TableCopy) → x.src < 2 ^ 32 → x.dst < 2 ^ 32
        → text.read_table_copy (text.table_copy_text x) ≡ Ok x }
    ensures memory_copy { (x : MemoryCopy) → x.src < 2 ^ 32 → x.dst < 2 ^ 32
        → text.read_memory_copy (text.memory_copy_text x) ≡ Ok x }
    ensures table_init { (x : TableInit) → x.table < 2 ^ 32 → x.segment < 2 ^ 32
        → text.read_table_init (text.table_init_text x) ≡ Ok x }
    ensures memory_init { (x : MemoryInit) → x.memory < 2 ^ 32 → x.segment < 2 ^ 32
        → text.read_memory_init (text.memory_init_text x) ≡ Ok x }
{}

/// Two floats compare equal, by `==`, exactly where their bits are the same.
pub fn equal_floats()
    ensures f32 { (x y : ℕ) → Decides (f32_eq.ghosts.eq x y) (x ≡ y) }
    ensures f64 { (x y : ℕ) → Decides (f64_eq.ghosts.eq x y) (x ≡ y) }
{}

/// Two payloads of each other type compare equal, by `==`, exactly where they are the same.
pub fn equal_payload_parts()
    ensures ref_type { (x y : RefType) → Decides (ref_type_eq.ghosts.eq x y) (x ≡ y) }
    ensures mem_arg { (x y : MemArg) → Decides (mem_arg_eq.ghosts.eq x y) (x ≡ y) }
    ensures mem_arg_lane { (x y : MemArgLane) → Decides (mem_arg_lane_eq.ghosts.eq x y) (x ≡ y) }
    ensures shuffle { (x y : Shuffle) → Decides (shuffle_eq.ghosts.eq x y) (x ≡ y) }
    ensures table_copy { (x y : TableCopy) → Decides (table_copy_eq.ghosts.eq x y) (x ≡ y) }
    ensures memory_copy { (x y : MemoryCopy) → Decides (memory_copy_eq.ghosts.eq x y) (x ≡ y) }
    ensures table_init { (x y : TableInit) → Decides (table_init_eq.ghosts.eq x y) (x ≡ y) }
    ensures memory_init { (x y : MemoryInit) → Decides (memory_init_eq.ghosts.eq x y) (x ≡ y) }
{}

/// Floats compare, by `cmp` and by `<` and its like, as their bits do, taken as numbers without sign.
pub fn floats_are_ordered()
    ensures f32 { IsOrderedBy order.float_numbers f32_ord.ghosts.cmp
        f32_partial_ord.ghosts.partial_cmp }
    ensures f64 { IsOrderedBy order.float_numbers f64_ord.ghosts.cmp
        f64_partial_ord.ghosts.partial_cmp }
{}

/// Payloads of each other type compare, by `cmp` and by `<` and its like, as their fields do, in the order that they stand in:
/// the first one that differs decides.
pub fn payload_parts_are_ordered()
    ensures ref_type { IsOrderedBy order.ref_type_numbers ref_type_ord.ghosts.cmp
        ref_type_partial_ord.ghosts.partial_cmp }
    ensures mem_arg { IsOrderedBy order.mem_arg_numbers mem_arg_ord.ghosts.cmp
        mem_arg_partial_ord.ghosts.partial_cmp }
    ensures mem_arg_lane { IsOrderedBy order.mem_arg_lane_numbers mem_arg_lane_ord.ghosts.cmp
        mem_arg_lane_partial_ord.ghosts.partial_cmp }
    ensures shuffle { IsOrderedBy order.shuffle_numbers shuffle_ord.ghosts.cmp
        shuffle_partial_ord.ghosts.partial_cmp }
    ensures table_copy { IsOrderedBy order.table_copy_numbers table_copy_ord.ghosts.cmp
        table_copy_partial_ord.ghosts.partial_cmp }
    ensures memory_copy { IsOrderedBy order.memory_copy_numbers memory_copy_ord.ghosts.cmp
        memory_copy_partial_ord.ghosts.partial_cmp }
    ensures table_init { IsOrderedBy order.table_init_numbers table_init_ord.ghosts.cmp
        table_init_partial_ord.ghosts.partial_cmp }
    ensures memory_init { IsOrderedBy order.memory_init_numbers memory_init_ord.ghosts.cmp
        memory_init_partial_ord.ghosts.partial_cmp }
{}

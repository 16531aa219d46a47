//! Laws on spellings and on value types: functions that do nothing, and whose contracts hold for all values.
ghost use Rattle.std.specs.Prelude.{◌≡◌, ◌≢◌, ◌<◌, ◌≤◌, ◌+◌, ◌-◌, ◌^◌, ◌≤ℤ◌, ◌<ℤ◌, ◌++◌, ℕ, ℤ, pos, neg_ℤ, List, [], ◌∷◌, length, Ok, Err, true};
ghost use Rattle.wasm_code.specs.Instruction.{Instruction, IsInstruction};
ghost use Rattle.wasm_code.specs.Operator.{Spells, Fails, SpellsAny, FailsAny, is_known};
ghost use Rattle.wasm_code.specs.Number.{SpellsUnsigned, SpellsSigned, FailsUnsigned, FailsSigned};
ghost use Rattle.wasm_code.specs.Immediate.{SpellsValType, FailsValType};
ghost use Rattle.wasm_code.specs.laws.GrammarLemmas.{Exact};
ghost use Rattle.wasm_code.specs.Code.{shortest, shortest_signed, code};
ghost use Rattle.wasm_code.specs.Body.{SpellsBody, SpellsCode, IsFault, IsCodeFault, SpellsAll, AreSpelled, bytes_of, with_offsets, move_by, IsCut};
ghost use Rattle.wasm_code.specs.Reader.{body_at, any_code_at, operator_at, any_at, unsigned_at, signed_at, val_type_at};
ghost use Rattle.std.specs.Bool.{Decides};
ghost use Rattle.wasm_code.specs.Order.{IsOrderedBy, val_type_place};
ghost use Rattle.wasm_code.specs.contracts.immediate.ValTypePartialEq.TheImpl as val_type_eq;
ghost use Rattle.wasm_code.specs.contracts.immediate.ValTypeOrd.TheImpl as val_type_ord;
ghost use Rattle.wasm_code.specs.contracts.immediate.ValTypePartialOrd.TheImpl as val_type_partial_ord;
ghost use Rattle.wasm_code.specs.declared.immediate.ValType.{ValType};
ghost use Rattle.wasm_code.specs.declared.fault.ReadKind.{ReadKind};
ghost use Rattle.wasm_code.specs.declared.fault.ReadKind.TheVariants.{Memory};
ghost use Rattle.wasm_code.specs.declared.operator.Operator.{Operator};
ghost use Rattle.wasm_code.specs.declared.operator.Operator.TheVariants as op;

/// No spelling begins another spelling, and a spelling spells one operator.
pub fn one_spelling()
    ensures known { (a b x y : List ℕ) (m n : Operator) → Spells a m → Spells b n → a ++ x ≡ b ++ y
        → (m ≡ n) × (x ≡ y) }
    ensures any { (a b x y : List ℕ) (m n : Operator) → SpellsAny a m → SpellsAny b n
        → a ++ x ≡ b ++ y → (m ≡ n) × (x ≡ y) }
{}

/// Any operator that is known is spelled as the known operators are.
pub fn known_operators()
    ensures any { (text : List ℕ) (x : Operator) → Spells text x → SpellsAny text x }
    ensures known { (text : List ℕ) (x : Operator) → SpellsAny text x → is_known x ≡ true
        → Spells text x }
{}

/// The code of an instruction spells it.
pub fn code_spells()
    ensures { (i : Instruction) → IsInstruction i → Spells (code i) (op.Instr i) }
{}

/// No spelling of an instruction has fewer bytes than its code.
pub fn code_is_shortest()
    ensures { (i : Instruction) (text : List ℕ) → Spells text (op.Instr i)
        → length (code i) ≤ length text }
{}

/// Reading a body as a function answers its operators, or the kind and the offset of its first fault, and nothing else:
/// every text has one of the two.
pub fn body_at_reads()
    ensures spelled { (start : ℕ) (text : List ℕ) (xs : List (Operator × ℕ))
        → SpellsBody start text xs → body_at start text ≡ Ok xs }
    ensures faulty { (start : ℕ) (text : List ℕ) (kind : ReadKind) (offset : ℕ)
        → IsFault start (start + length text) text kind offset → kind ≢ Memory
        → body_at start text ≡ Err (kind, offset) }
    ensures answers { (start : ℕ) (text : List ℕ) (xs : List (Operator × ℕ))
        → body_at start text ≡ Ok xs → SpellsBody start text xs }
    ensures faults { (start : ℕ) (text : List ℕ) (kind : ReadKind) (offset : ℕ)
        → body_at start text ≡ Err (kind, offset)
        → IsFault start (start + length text) text kind offset × (kind ≢ Memory) }
{}

/// Reading code as a function answers its operators, or the kind and the offset of its first fault, as `body_at_reads` says of
/// known operators alone.
pub fn code_at_reads()
    ensures spelled { (start : ℕ) (text : List ℕ) (xs : List (Operator × ℕ))
        → SpellsCode start text xs → any_code_at start text ≡ Ok xs }
    ensures faulty { (start : ℕ) (text : List ℕ) (kind : ReadKind) (offset : ℕ)
        → IsCodeFault start (start + length text) text kind offset → kind ≢ Memory
        → any_code_at start text ≡ Err (kind, offset) }
    ensures answers { (start : ℕ) (text : List ℕ) (xs : List (Operator × ℕ))
        → any_code_at start text ≡ Ok xs → SpellsCode start text xs }
    ensures faults { (start : ℕ) (text : List ℕ) (kind : ReadKind) (offset : ℕ)
        → any_code_at start text ≡ Err (kind, offset)
        → IsCodeFault start (start + length text) text kind offset × (kind ≢ Memory) }
{}

/// Reading a number, a value type or an operator as a function takes exactly what spells one, whatever follows it, and fails
/// exactly where none begins the bytes.
pub fn parts_are_read()
    ensures unsigned { (bits : ℕ) → Exact (SpellsUnsigned bits) (FailsUnsigned bits)
        (unsigned_at bits) }
    ensures signed { (bits : ℕ) → Exact (SpellsSigned bits) (FailsSigned bits) (signed_at bits) }
    ensures val_types { Exact SpellsValType FailsValType val_type_at }
    ensures operators { Exact Spells Fails operator_at }
    ensures any { Exact SpellsAny FailsAny any_at }
{}

/// A joined list of spelled operators is read as that list, with its offsets.
pub fn joined_spellings()
    ensures { (start : ℕ) (xs : List (Operator × List ℕ)) → AreSpelled xs
        → SpellsAll (with_offsets start xs) start (bytes_of xs) }
{}

/// Lists of operators are joined, moved and cut as their bytes are.
pub fn bodies_append()
    ensures joins { (xs ys : List (Operator × ℕ)) (start : ℕ) (a b : List ℕ) → SpellsAll xs start a
        → SpellsAll ys (start + length a) b → SpellsAll (xs ++ ys) start (a ++ b) }
    ensures shifts { (xs : List (Operator × ℕ)) (start by : ℕ) (text : List ℕ)
        → SpellsAll xs start text → SpellsAll (move_by by xs) (start + by) text }
    ensures cuts { (xs ys : List (Operator × ℕ)) (start : ℕ) (text : List ℕ)
        → SpellsAll (xs ++ ys) start text → IsCut xs ys start text }
{}

/// Bytes spell one list of operators.
pub fn one_list()
    ensures { (xs ys : List (Operator × ℕ)) (start : ℕ) (text : List ℕ) → SpellsAll xs start text
        → SpellsAll ys start text → xs ≡ ys }
{}

/// The shortest spelling of a number spells it, at any number of bits to 64 that it fits.
pub fn shortest_is_a_spelling()
    ensures unsigned { (bits n : ℕ) → 1 ≤ bits → bits ≤ 64 → n < 2 ^ bits
        → SpellsUnsigned bits (shortest n) n }
    ensures signed { (bits : ℕ) (z : ℤ) → 1 ≤ bits → bits ≤ 64 → neg_ℤ (pos (2 ^ (bits - 1))) ≤ℤ z
        → z <ℤ pos (2 ^ (bits - 1)) → SpellsSigned bits (shortest_signed z) z }
{}

/// No spelling of a number has fewer bytes than the shortest one.
pub fn shortest_is_least()
    ensures unsigned { (bits n : ℕ) (text : List ℕ) → bits ≤ 64 → SpellsUnsigned bits text n
        → length (shortest n) ≤ length text }
    ensures signed { (bits : ℕ) (z : ℤ) (text : List ℕ) → bits ≤ 64 → SpellsSigned bits text z
        → length (shortest_signed z) ≤ length text }
{}

/// Two value types compare equal, by `==`, exactly where they are the same.
pub fn equal_val_types()
    ensures { (t u : ValType) → Decides (val_type_eq.ghosts.eq t u) (t ≡ u) }
{}

/// Value types compare, by `cmp` and by `<` and its like, as their places among the variants do.
pub fn val_types_are_ordered()
    ensures { IsOrderedBy (λ (t : ValType). val_type_place t ∷ []) val_type_ord.ghosts.cmp
        val_type_partial_ord.ghosts.partial_cmp }
{}

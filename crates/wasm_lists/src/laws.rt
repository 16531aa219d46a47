//! Laws on what sections list: functions that do nothing, and whose contracts hold for all values.
ghost use Rattle.std.specs.Prelude.{◌≡◌, ℕ, List};
ghost use Rattle.wasm_types.specs.declared.types.MemoryType.{MemoryType};
ghost use Rattle.wasm_types.specs.declared.types.PrimitiveTypeInfo.{PrimitiveTypeInfo};
ghost use Rattle.wasm_types.specs.declared.types.TableType.{TableType};
ghost use Rattle.wasm_types.specs.declared.types.TypeInfo.{TypeInfo};
ghost use Rattle.wasm_code.specs.Number.{SpellsUnsigned, FailsUnsigned};
ghost use Rattle.wasm_code.specs.Reader.{unsigned_at};
ghost use Rattle.wasm_code.specs.laws.GrammarLemmas.{Exact};
ghost use Rattle.wasm_sections.specs.declared.fault.ModuleFault.{ModuleFault};
ghost use Rattle.wasm_sections.specs.declared.fault.ModuleFault.TheVariants.{Memory};
ghost use Rattle.wasm_lists.specs.Entries.{SpellsEntries, SpellsMeasuredSize, FailsSized};
ghost use Rattle.wasm_lists.specs.Globals.{SpellsGlobal, FailsGlobal};
ghost use Rattle.wasm_lists.specs.Imports.{SpellsImport, FailsImport};
ghost use Rattle.wasm_lists.specs.Known.{Known, SpellsKnown, IsKnownFault};
ghost use Rattle.wasm_lists.specs.List.{SpellsList, FailsList, IsListFault};
ghost use Rattle.wasm_lists.specs.Locals.{SpellsLocals, SpellsGroup, FailsGroup};
ghost use Rattle.wasm_lists.specs.Reader.{list_at, type_group_at, import_at, table_at, memory_type_at, global_at, measured_size_at, locals_group_at};
ghost use Rattle.wasm_lists.specs.Tables.{SpellsTable, FailsTable, SpellsMemoryType, FailsMemoryType};
ghost use Rattle.wasm_lists.specs.Types.{SpellsTypeGroup, FailsTypeGroup};
ghost use Rattle.wasm_lists.specs.declared.entries.Entry.{Entry};
ghost use Rattle.wasm_lists.specs.declared.import.Import.{Import};

use wasm_code::laws::parts_are_read;

/// Of a text one list is known.
pub fn one_list()
    ensures types { (start : ℕ) (text : List ℕ) (known other : Known (List TypeInfo))
        → SpellsKnown SpellsTypeGroup FailsTypeGroup start text known
        → SpellsKnown SpellsTypeGroup FailsTypeGroup start text other → known ≡ other }
    ensures imports { (start : ℕ) (text : List ℕ) (known other : Known Import)
        → SpellsKnown SpellsImport FailsImport start text known
        → SpellsKnown SpellsImport FailsImport start text other → known ≡ other }
    ensures functions { (text xs ys : List ℕ) → SpellsList (SpellsUnsigned 32) text xs
        → SpellsList (SpellsUnsigned 32) text ys → xs ≡ ys }
    ensures tables { (start : ℕ) (text : List ℕ) (known other : Known TableType)
        → SpellsKnown SpellsTable FailsTable start text known
        → SpellsKnown SpellsTable FailsTable start text other → known ≡ other }
    ensures memories { (start : ℕ) (text : List ℕ) (known other : Known MemoryType)
        → SpellsKnown SpellsMemoryType FailsMemoryType start text known
        → SpellsKnown SpellsMemoryType FailsMemoryType start text other → known ≡ other }
    ensures globals { (start : ℕ) (text : List ℕ) (known other : Known PrimitiveTypeInfo)
        → SpellsKnown SpellsGlobal FailsGlobal start text known
        → SpellsKnown SpellsGlobal FailsGlobal start text other → known ≡ other }
    ensures entries { (start : ℕ) (text : List ℕ) (xs ys : List Entry)
        → SpellsEntries start text xs → SpellsEntries start text ys → xs ≡ ys }
    ensures locals { (params : List PrimitiveTypeInfo) (start : ℕ) (text : List ℕ)
        (types others : List PrimitiveTypeInfo) (expression place : ℕ)
        → SpellsLocals params start text types expression
        → SpellsLocals params start text others place → (types ≡ others) × (expression ≡ place) }
{
    parts_are_read();
}

/// A text of which a list is known has no fault.
pub fn lists_have_no_fault()
    ensures types { (start : ℕ) (text : List ℕ) (known : Known (List TypeInfo))
        → SpellsKnown SpellsTypeGroup FailsTypeGroup start text known
        → (fault : ModuleFault) (offset : ℕ)
        → IsKnownFault SpellsTypeGroup FailsTypeGroup start text fault offset
        → fault ≡ Memory }
    ensures imports { (start : ℕ) (text : List ℕ) (known : Known Import)
        → SpellsKnown SpellsImport FailsImport start text known
        → (fault : ModuleFault) (offset : ℕ)
        → IsKnownFault SpellsImport FailsImport start text fault offset → fault ≡ Memory }
    ensures functions { (start : ℕ) (text xs : List ℕ) → SpellsList (SpellsUnsigned 32) text xs
        → (fault : ModuleFault) (offset : ℕ)
        → IsListFault (SpellsUnsigned 32) (FailsUnsigned 32) start text fault offset
        → fault ≡ Memory }
    ensures tables { (start : ℕ) (text : List ℕ) (known : Known TableType)
        → SpellsKnown SpellsTable FailsTable start text known
        → (fault : ModuleFault) (offset : ℕ)
        → IsKnownFault SpellsTable FailsTable start text fault offset → fault ≡ Memory }
    ensures memories { (start : ℕ) (text : List ℕ) (known : Known MemoryType)
        → SpellsKnown SpellsMemoryType FailsMemoryType start text known
        → (fault : ModuleFault) (offset : ℕ)
        → IsKnownFault SpellsMemoryType FailsMemoryType start text fault offset → fault ≡ Memory }
    ensures globals { (start : ℕ) (text : List ℕ) (known : Known PrimitiveTypeInfo)
        → SpellsKnown SpellsGlobal FailsGlobal start text known
        → (fault : ModuleFault) (offset : ℕ)
        → IsKnownFault SpellsGlobal FailsGlobal start text fault offset → fault ≡ Memory }
    ensures entries { (start : ℕ) (text : List ℕ) (entries : List Entry)
        → SpellsEntries start text entries → (fault : ModuleFault) (offset : ℕ)
        → IsListFault SpellsMeasuredSize FailsSized start text fault offset → fault ≡ Memory }
{
    parts_are_read();
}

/// Reading a list as a function takes exactly what spells one, whatever follows it, and fails exactly where none begins the
/// bytes.
pub fn lists_are_read()
    ensures types { Exact (SpellsList SpellsTypeGroup)
        (FailsList SpellsTypeGroup FailsTypeGroup) (list_at type_group_at) }
    ensures imports { Exact (SpellsList SpellsImport) (FailsList SpellsImport FailsImport)
        (list_at import_at) }
    ensures functions { Exact (SpellsList (SpellsUnsigned 32))
        (FailsList (SpellsUnsigned 32) (FailsUnsigned 32)) (list_at (unsigned_at 32)) }
    ensures tables { Exact (SpellsList SpellsTable)
        (FailsList SpellsTable FailsTable) (list_at table_at) }
    ensures memories { Exact (SpellsList SpellsMemoryType)
        (FailsList SpellsMemoryType FailsMemoryType) (list_at memory_type_at) }
    ensures globals { Exact (SpellsList SpellsGlobal) (FailsList SpellsGlobal FailsGlobal)
        (list_at global_at) }
    ensures entries { Exact (SpellsList SpellsMeasuredSize)
        (FailsList SpellsMeasuredSize FailsSized) (list_at measured_size_at) }
    ensures groups { Exact (SpellsList SpellsGroup) (FailsList SpellsGroup FailsGroup)
        (list_at locals_group_at) }
{
    parts_are_read();
}

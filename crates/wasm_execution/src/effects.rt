//! Whether an instruction changes anything but a variable, and whether it traps.
ghost use Rattle.std.specs.Prelude.{◌≡◌};
ghost use Rattle.wasm_execution.specs.OtherRow.{is_in_span, changes, may_trap};

use wasm_code::Instr;

// Calls, table.set, stores, memory.grow, and all of FC 8 to FC 17 but table.size; by the numbers of their rows.
const CHANGING: [(u16, u16); 8] = [
    (1, 1),
    (10, 10),
    (25, 33),
    (35, 35),
    (179, 186),
    (188, 188),
    (200, 200),
    (277, 280),
];

// table.get, loads, and truncations of floats.
const FAILING: [(u16, u16); 7] = [
    (9, 9),
    (11, 24),
    (139, 142),
    (145, 148),
    (189, 199),
    (273, 276),
    (281, 282),
];

// Whether the number is in one of the spans, each its first and its last.
fn is_in_span(spans: &[(u16, u16)], number: u16) -> bool
    ensures { result ≡ is_in_span spans.now number }
{
    for span in spans {
        if span.0 <= number && number <= span.1 {
            return true;
        }
    }
    false
}

/// Whether an instruction may change globals, memories, tables, segments or what lies outside the module: a call, a store, or
/// another that writes one of these. Setting a variable does not count.
pub fn changes(instr: &Instr) -> bool
    ensures { result ≡ changes instr.now }
{
    let row = instr.row();
    let listed = is_in_span(&CHANGING, row);
    listed || row > 445
}

/// Whether an instruction that is no integer row may trap: it may change something, reads a table's or a memory's element, or
/// truncates a float.
pub fn may_trap(instr: &Instr) -> bool
    ensures { result ≡ may_trap instr.now }
{
    let row = instr.row();
    let listed = is_in_span(&FAILING, row);
    let changed = changes(instr);
    changed || listed
}

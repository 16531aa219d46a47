//! What holds of nodes and their texts, for every caller.
ghost use Rattle.std.specs.Prelude.{◌≡◌, ◌↔◌, ℕ, List, true, Some, IsSome, Ok, length};
ghost use Rattle.std.specs.List.{Contains};
ghost use Rattle.wasm_code.specs.Instruction.{Instruction};
ghost use Rattle.peephole_nodes.specs.contracts.payload.PayloadPartialEq.TheImpl as payload_eq;
ghost use Rattle.peephole_nodes.specs.declared.payload.Payload.{Payload};
ghost use Rattle.peephole_lang.specs.Names.{rest_after, behind_name};
ghost use Rattle.std.specs.Bool.{Decides};
ghost use Rattle.peephole_lang.specs.Lang.{place_of, payload_of, ids_of};
ghost use Rattle.peephole_nodes.specs.declared.id.Id.{Id};
ghost use Rattle.peephole_nodes.specs.declared.numeric.Numeric.{Numeric};
ghost use Rattle.peephole_nodes.specs.declared.simd.Simd.{Simd};
ghost use Rattle.peephole_nodes.specs.Text.{numeric_text, simd_text};
ghost use Rattle.peephole_lang.specs.declared.lang.Lang.{Lang};
ghost use Rattle.peephole_lang.specs.declared.lang.Lang.TheVariants as variant;
ghost use Rattle.peephole_lang.specs.Compared.{lang_eq};
ghost use Rattle.peephole_lang.specs.Equal.{IsEqual};
ghost use Rattle.peephole_lang.specs.Language.{IsSame};
ghost use Rattle.peephole_lang.specs.Making.{is_made};
ghost use Rattle.peephole_lang.specs.Node.{IsNode, head_of, instr_of, takes_children};
ghost use Rattle.peephole_nodes.specs.Variants.{variant_fits, Variant, variants};
ghost use Rattle.peephole_lang.specs.Text.{text_of, reads};

use crate::language::Language;

/// What a node's text reads as, with its children, is that node.
pub fn text_reads_back()
    ensures { (l : Lang) → IsNode l → reads (text_of l) (length (ids_of l)) ≡ Ok (head_of l) }
{}

/// A node that is held in one has its text.
pub fn held_has_its_text()
    ensures numeric { (n : Numeric) → text_of (variant.Numeric n) ≡ numeric_text n }
    ensures simd { (s : Simd) → text_of (variant.Simd s) ≡ simd_text s }
{}

/// Each node is of a variant of the table: with that place, that kind of payload, and that many children.
pub fn is_of_its_variant()
    ensures { (l : Lang) → IsNode l → variant_fits (place_of l) (payload_of l) (length (ids_of l))
        ≡ true }
{}

/// Each variant of the table is made: where it has that place, that kind of payload and that many children, the makers of nodes
/// (`Numeric::make`, `Simd::make`, and that of the others) answer a node.
pub fn each_variant_is_made()
    ensures { (place count : ℕ) (p : Payload)
        → variant_fits place p count ≡ true → is_made place p count ≡ true }
{}

/// At most one variant fits a text: the whole text is its name, or its name and a dot begin the text where it has a payload.
pub fn one_variant_a_text()
    ensures { (v w : Variant) (text : List ℕ) → Contains variants v → Contains variants w
        → IsSome (behind_name v.payload (rest_after v.name text))
        → IsSome (behind_name w.payload (rest_after w.name text)) → v ≡ w }
{}

/// The instruction of a node takes the node's children, and nodes with the same instruction and children are the same. By
/// the contract of `of_instr`, the node that it makes of a node's instruction and children is therefore that node.
pub fn instruction_decides_node()
    ensures takes { (l : Lang) (i : Instruction) → IsNode l → instr_of l ≡ Some i
        → takes_children i.row (length (ids_of l)) ≡ true }
    ensures one { (l m : Lang) (i : Instruction) → instr_of l ≡ Some i → instr_of m ≡ Some i
        → ids_of l ≡ ids_of m → IsSame head_of ids_of m l }
{}

/// The test for equal payloads is true exactly where they are equal.
pub fn equal_payloads()
    ensures { (p q : Payload) → Decides (payload_eq.ghosts.eq p q) (p ≡ q) }
{}

/// Two nodes are equal exactly where they have the same place, payload and children.
pub fn equal_exactly()
    ensures { (l m : Lang) → Decides (lang_eq l m) (IsSame head_of ids_of l m) }
{}

/// The test for equal nodes is true exactly where they are equal, but for how much memory a list of children keeps for more.
pub fn equal_nodes_are_equal()
    ensures { (l m : Lang) → Decides (lang_eq l m) (IsEqual l m) }
{}

/// Nodes that match have as many children, in every language.
pub fn matching_have_as_many<L: Language>()
    ensures { (l m : L) → L.matches l m ≡ true → length (L.ids l) ≡ length (L.ids m) }
{}

/// Nodes that match and have equal children are the same, in every language.
pub fn matching_are_same<L: Language>()
    ensures { (l m : L) → L.matches l m ≡ true → L.ids l ≡ L.ids m → IsSame L.head L.ids m l }
{}

/// Nodes that match and have equal children are equal, in every language.
pub fn matching_are_equal<L: Language>()
    ensures { (l m : L) → L.matches l m ≡ true → L.ids l ≡ L.ids m → L.IsEqual l m }
{}

/// Nodes are equal exactly where they say the same and have the same children, in every language.
pub fn equal_are_same<L: Language>()
    ensures { (l m : L) → L.IsEqual l m ↔ IsSame L.head L.ids l m }
{}

/// A node whose children were written through `children_mut` matches what it was before, in every language.
pub fn written_matches<L: Language>()
    ensures { (l : L) (w : List Id) → length w ≡ length (L.ids l)
        → L.matches l (L.with_ids l w) ≡ true }
{}

//! Callers that know no more of their nodes than the trait says.
ghost use Rattle.std.specs.Prelude.{◌≡◌, true, length, IsSome, IfSome};
ghost use Rattle.peephole_lang.specs.Language.{IsSame};

use peephole_lang::{Id, Language};

/// Puts another id in the place of the first child.
pub fn set_first<L: Language>(node: &mut L, id: Id)
    ensures { L.head node.new ≡ L.head node.old }
{
    if let Some(first) = node.children_mut().first_mut() {
        *first = id;
    }
}

/// Puts the first id in the place of each child.
pub fn all_first<L: Language>(node: &mut L)
    ensures head { L.head node.new ≡ L.head node.old }
    ensures matches { L.matches node.old node.new ≡ true }
    ensures count { length (L.ids node.new) ≡ length (L.ids node.old) }
{
    for child in node.children_mut() {
        *child = Id(0);
    }
}

/// The same node again, read from its text.
pub fn read_again<L: Language>(node: &L, text: &str, children: Vec<Id>) -> Option<L>
    requires text { text.now ≡ L.text node.now }
    requires children { children.items ≡ L.ids node.now }
    ensures is { IsSome result }
    ensures same { IfSome result (λ l. IsSame L.head L.ids node.now l) }
{
    let _in_hand = node.children();
    match L::from_op_str(text, children) {
        Ok(again) => Some(again),
        Err(_) => None,
    }
}

//! What holds a node.

ghost use Rattle.std.specs.Prelude.{◌≡◌};
ghost use Rattle.peephole_lang.specs.declared.lang.Lang.{Lang};

use peephole_graphs::StackEntry;
use peephole_lang::Lang;

/// What stands at a place of a list of nodes: the node itself, or what holds it.
pub(crate) trait Holds {
    ghost held: { Self → Lang };

    fn node(&self) -> &Lang
        ensures { result.now ≡ held self.now };
}

impl Holds for Lang {
    ghost held = { λ l. l };

    fn node(&self) -> &Lang {
        self
    }
}

impl Holds for StackEntry {
    ghost held = { λ e. e.operator };

    fn node(&self) -> &Lang {
        &self.operator
    }
}

//! The nodes of `Lang` as a kind of nodes.
ghost use Rattle.std.specs.Prelude.{◌≡◌, refl};
ghost use Rattle.peephole_lang.specs.laws.Again.{determined};
ghost use Rattle.peephole_lang.specs.laws.EqualLemmas.{equal_says};
ghost use Rattle.peephole_lang.specs.Equal.{IsEqual};
ghost use Rattle.peephole_lang.specs.Lang.{ids_of, with_ids};
ghost use Rattle.peephole_lang.specs.Text.{text_of, reads};
ghost use Rattle.peephole_lang.specs.Compared.{lang_matches};
ghost use Rattle.peephole_lang.specs.laws.WithIdsLemmas.{keeps_head, has_written};
ghost use Rattle.peephole_lang.specs.Node.{IsNode, head_of, children_of};
ghost use Rattle.peephole_lang.specs.laws.NodeLemmas.{matches_exactly, matches_equivalence, says};
ghost use Rattle.peephole_lang.specs.laws.TextLemmas.{reads_back};

use crate::lang::{Head, Lang};
use crate::language::Language;
use mutate_base::Error;
use peephole_nodes::Id;
use peephole_payloads::TermError;

impl Lang {
    /// Whether both are the same variant with the same payload and as many children, whichever these are.
    pub fn matches(&self, other: &Lang) -> bool
        ensures { result ≡ lang_matches self.now other.now }
    {
        self.place() == other.place()
            && self.payload() == other.payload()
            && self.children().len() == other.children().len()
    }
}

impl Language for Lang {
    type Head = Head;

    ghost head = { head_of };

    ghost ids = { ids_of };

    ghost children = { children_of };

    ghost text = { text_of };

    ghost reads = { reads };

    ghost matches = { lang_matches };

    ghost with_ids = { with_ids };

    ghost IsEqual = { IsEqual };

    ghost IsNode = { IsNode };

    fn children(&self) -> &[Id] {
        // the payload's numbers are of their types, which the trait's contract says too
        let _in_range = self.payload().imm();
        self.children()
    }

    fn children_mut(&mut self) -> &mut [Id] {
        self.children_mut()
    }

    fn matches(&self, other: &Lang) -> bool {
        self.matches(other)
    }

    fn from_op_str(op_str: &str, given: Vec<Id>) -> Result<Lang, TermError> {
        Lang::from_op_str(op_str, given)
    }

    fn clone_node(&self) -> Result<Lang, Error> {
        match self.clone() {
            Ok(node) => Ok(node),
            Err(_) => Err(Error::Memory),
        }
    }

    ghost numbers = { λ l. refl };

    ghost says = { says };

    ghost displays = { λ l. refl };

    ghost matches_exactly = { matches_exactly };

    ghost matches_equivalence = { matches_equivalence };

    ghost determined = { determined };

    ghost equal_says = { equal_says };

    ghost keeps_head = { keeps_head };

    ghost has_written = { has_written };

    ghost text_reads_back = { reads_back };
}

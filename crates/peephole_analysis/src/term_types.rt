//! The type of a term's result, by its first operands.

ghost use Rattle.std.specs.Prelude.{◌≡◌, ◌<◌, None, length, slice_get, IfSome};
ghost use Rattle.peephole_lang.specs.Node.{head_of, children_of};
ghost use Rattle.peephole_lang.specs.Term.{AreBelow, nodes_of, term_of};
ghost use Rattle.peephole_analysis.specs.Analysis.{Analysis};
ghost use Rattle.peephole_analysis.specs.Deciding.{first_place, deciding_operand};
ghost use Rattle.peephole_analysis.specs.TermTypes.{term_type, known_type};

use crate::analysis::{OperandTypes, PeepholeMutationAnalysis};
use mutate_base::Error;
use peephole_lang::{Id, Lang, RecExpr};
use wasm_code::{ResultKind, row_info};
use wasm_types::PrimitiveTypeInfo;

// Nothing is known of any operand.
#[derive(Clone, Copy)]
struct NoTypes;

impl OperandTypes for NoTypes {
    ghost use Rattle.std.specs.Prelude.{None};

    ghost types = { λ _ id. None };

    fn tpe(&self, _id: Id) -> Option<PrimitiveTypeInfo> {
        None
    }
}

// The types of an expression's nodes.
#[derive(Drop)]
struct NodeTypes<'a> {
    analysis: &'a PeepholeMutationAnalysis<'a>,
    expr: &'a RecExpr<Lang>,
}

impl<'a> OperandTypes for NodeTypes<'a> {
    ghost use Rattle.peephole_analysis.specs.TermTypes.{known_type};

    ghost types = { λ t id. known_type t.analysis.now t.expr.now id };

    fn tpe(&self, id: Id) -> Option<PrimitiveTypeInfo> {
        let nodes = self.expr.as_ref();
        let from = id.0 as usize;
        if from >= nodes.len() {
            return None;
        }
        let place = deciding_place(nodes, from);
        self.analysis
            .get_returning_tpe(&nodes[place], &NoTypes)
            .ok()
    }
}

fn first_place(ids: &[Id]) -> Option<usize>
    ensures { result ≡ first_place ids.now }
{
    match ids {
        [first, ..] => Some(first.0 as usize),
        [] => None,
    }
}

// The operand whose type is that of the node's result, where the table says so.
fn deciding_operand(node: &Lang) -> Option<usize>
    ensures { result ≡ deciding_operand node.now }
{
    let place = node.place();
    if place < 12 {
        return None;
    }
    let row = row_info(place - 12)?;
    match row.result {
        ResultKind::First => first_place(node.children()),
        _ => None,
    }
}

// The place whose node alone decides the type at `from`: down the operands that decide, as far as there are such.
fn deciding_place(nodes: &[Lang], from: usize) -> usize
    requires below { AreBelow (nodes_of head_of children_of nodes.now) }
    requires there { from < length nodes.now }
    ensures there { result < length nodes.now }
    ensures same { (a : Analysis) → known_type a nodes.now result ≡ known_type a nodes.now from }
    ensures alone { IfSome (slice_get nodes.now result) (λ l. deciding_operand l ≡ None) }
{
    let mut place = from;
    while let Some(operand) = deciding_operand(&nodes[place]) {
        place = operand;
    }
    place
}

impl<'a> PeepholeMutationAnalysis<'a> {
    /// The type of a term's result: of its root, where the type of each node's first operand is the type of that operand's
    /// result, and isn't known where that is refused. Condition: the expression has a node.
    ///
    /// It goes down first operands alone, without recursion, and takes no memory. The refusals are those of
    /// `get_returning_tpe`.
    pub fn type_of(&self, expr: &RecExpr<Lang>) -> Result<PrimitiveTypeInfo, Error>
        requires { 0 < length expr.now }
        ensures { result ≡ term_type self.now (term_of head_of children_of expr.now) }
    {
        let nodes = expr.as_ref();
        let types = NodeTypes {
            analysis: self,
            expr,
        };
        self.get_returning_tpe(&nodes[nodes.len() - 1], &types)
    }
}

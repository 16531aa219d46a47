//! What rules beside the table do to the number of operators.
ghost use Rattle.std.specs.Prelude.{◌≡◌, IfSome, IfNone};
ghost use Rattle.wasm_execution.specs.Values.{Context};
ghost use Rattle.body_rewrites.specs.Places.{AreListsOf};
ghost use Rattle.body_rewrites.specs.Changes.{Change};
ghost use Rattle.body_rewrites.specs.Growth.{HasGrowth};
ghost use Rattle.body_rewrites.specs.Own.{IsOwnChange};
ghost use Rattle.body_rewrites.specs.OwnSites.{in_bodies, growth_of};

use crate::growth::Growth;
use crate::own::Made;
use crate::own::sites::site_of;
use crate::places::Body;
use rewrite_rules::{Growth as RowGrowth, Own};

// The growth of a row, as one of bodies.
fn in_bodies(growth: RowGrowth) -> Growth
    ensures { result ≡ in_bodies growth }
{
    match growth {
        RowGrowth::Shrinks => Growth::Shrinks,
        RowGrowth::Keeps => Growth::Keeps,
        RowGrowth::Grows => Growth::Grows,
    }
}

// Whether that is more than what it is made of.
fn growth_of(made: Made) -> Growth
    ensures { result ≡ growth_of made }
{
    match made {
        Made::Nothing => Growth::Shrinks,
        Made::Constant(_, _) => Growth::Shrinks,
        Made::Sum(_, _) => Growth::Grows,
        Made::Nop => Growth::Grows,
        Made::Global(_, _) => Growth::Grows,
        Made::SetAndGet(_) => Growth::Grows,
        Made::Tee(_) => Growth::Shrinks,
        Made::Access(access, _) => in_bodies(access.growth()),
        Made::Wrapped(_, _) => Growth::Grows,
        Made::Inner(_, _) => Growth::Shrinks,
        Made::Conditional(_, _) => Growth::Grows,
        Made::Selected => Growth::Shrinks,
        Made::Tested => Growth::Grows,
        Made::DoublyTested => Growth::Grows,
        Made::Dead => Growth::Grows,
        Made::Bounded(_) => Growth::Grows,
        Made::InConditional(_) => Growth::Grows,
        Made::BranchIf(_) => Growth::Shrinks,
    }
}

/// Whether the rule makes something at the operator, and what that does to the number of operators.
pub fn own_growth(body: &Body<'_>, own: Own, at: usize) -> Option<Growth>
    ensures some { IfSome result (λ growth. (context : Context) → context.info ≡ body.now.info.now
        → AreListsOf context body.now
        → (change : Change) × IsOwnChange context body.now.operators.now own at change
        × HasGrowth body.now.operators.now at change growth) }
    ensures none { IfNone result ((context : Context) → context.info ≡ body.now.info.now
        → AreListsOf context body.now
        → (change : Change) → ¬ (IsOwnChange context body.now.operators.now own at change)) }
{
    let Some(site) = site_of(body, own, at) else {
        return None;
    };
    Some(growth_of(site.made))
}

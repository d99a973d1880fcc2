//! K5: the steps of reads.

ghost use Rattle.std.specs.Prelude.{◌≡◌, ◌<◌, ◌↔◌, ◌⊎◌, length, IsTrue};
ghost use Rattle.rc_tuple.specs.RisingSet.{In};
ghost use Rattle.rc_spec.specs.Adequacy.{IsLossless};
ghost use Rattle.rc_spec.specs.Decomposition.{bound};
ghost use Rattle.rc_spec.specs.InRange.{IsInRange};
ghost use Rattle.rc_plan.specs.PlanRules.{Progress, IsFindable, IsKnown, KeepsK5};
ghost use Rattle.rc_check.specs.Sets.{sets_of};

use crate::progress::ProgressSets;
use rc_fd::is_lossless;
use rc_plan::{ReadMode, Statement};
use rc_spec::{Edge, Spec};
use rc_tuple::ColSet;

/// Whether an edge begins at the root, or where an edge ends that was read in this search.
fn is_reached(before: &ProgressSets, node: u8) -> bool
    ensures { (p : Progress) → before.now ≡ sets_of p → IsTrue result ↔ ((node ≡ 0) ⊎ In node p.reached) }
{
    node == 0 || before.reached.has(node)
}

/// Whether the bindings have a look-up's key.
fn is_findable(mode: ReadMode, key: ColSet, columns: ColSet) -> bool
    ensures { IsTrue result ↔ IsFindable mode key columns }
{
    match mode {
        ReadMode::Lookup => key.within(columns),
        ReadMode::Scan => true,
    }
}

/// Whether a look-up has its key, and the join with the edge's rows loses no tuple.
fn can_be_joined(spec: &Spec, before: &ProgressSets, edge: &Edge, mode: ReadMode) -> bool
    requires { edge.now.to < length spec.now.nodes }
    ensures { (p : Progress) → before.now ≡ sets_of p
        → IsTrue result ↔ (IsFindable mode edge.now.key p.columns × IsLossless spec.now p.visited (bound spec.now edge.now.to)) }
{
    is_findable(mode, edge.key, before.columns)
        && is_lossless(spec.deps.list(), before.visited, spec.bound(edge.to))
}

/// Whether the edge of a Read is reached, a look-up has its key, and the join loses no tuple (K5).
#[tactic(auto, using(rc_spec::specs::DecompositionLaws::edge_known))]
pub(crate) fn keeps_k5(spec: &Spec, before: &ProgressSets, statement: &Statement) -> bool
    requires range { IsInRange spec.now }
    requires known { IsKnown spec.now statement.now }
    ensures { (p : Progress) → before.now ≡ sets_of p → IsTrue result ↔ KeepsK5 spec.now p statement.now }
{
    match *statement {
        Statement::Read { edge, mode } => {
            let edge = spec.edge(edge);
            is_reached(before, edge.from) && can_be_joined(spec, before, edge, mode)
        }
        _ => true,
    }
}

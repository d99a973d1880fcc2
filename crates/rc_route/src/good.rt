//! Whether the edges of a list can be read in turn and visit a need.

ghost use Rattle.std.specs.Prelude.{◌≡◌, ◌↔◌, ◌⊎◌, ℕ, List, ◌++◌, ◌<◌, length, IsTrue, IfSome, IfNone};
ghost use Rattle.rc_tuple.specs.RisingSet.{In};
ghost use Rattle.rc_spec.specs.Decomposition.{bound};
ghost use Rattle.rc_spec.specs.Adequacy.{IsLossless};
ghost use Rattle.rc_spec.specs.InRange.{IsInRange};
ghost use Rattle.rc_route.specs.GoodRoutes.{IsStep, IsGoodFrom, IsGoodRoute};

use rc_fd::is_lossless;
use rc_spec::{Edge, Spec};
use rc_tuple::ColSet;

/// A set of node numbers. They are below 16, and the set takes numbers below 32.
type NodeSet = ColSet;

/// What some edges did: the nodes where they end, and the columns that those bind.
#[derive(Clone, Copy)]
struct Progress {
    reached: NodeSet,
    visited: ColSet,
}

/// Whether an edge begins at the root or at a node that was reached, and its join with what was visited loses no tuple.
fn can_be_read(spec: &Spec, reached: NodeSet, visited: ColSet, edge: &Edge) -> bool
    requires { edge.now.to < length spec.now.nodes }
    ensures { IsTrue result
        ↔ (((edge.now.from ≡ 0) ⊎ In edge.now.from reached) × IsLossless spec.now visited (bound spec.now edge.now.to)) }
{
    (edge.from == 0 || reached.has(edge.from))
        && is_lossless(spec.deps.list(), visited, spec.bound(edge.to))
}

/// Whether the edge with this number can be read behind edges that did so. (A number that no edge has can't.)
#[tactic(auto, using(rc_spec::specs::DecompositionLaws::edge_known))]
fn is_step(spec: &Spec, reached: NodeSet, visited: ColSet, number: u8) -> bool
    requires { IsInRange spec.now }
    ensures { IsTrue result ↔ IsStep spec.now reached visited number }
{
    let edges = spec.edges.list();
    if number as usize >= edges.len() {
        return false;
    }
    can_be_read(spec, reached, visited, &edges[number as usize])
}

/// What was done after some more edges, or `None` where one of them can't be read.
fn after_edges(spec: &Spec, before: Progress, edges: &[u8]) -> Option<Progress>
    requires { IsInRange spec.now }
    ensures none { IfNone result ((need rest : List ℕ) → IsGoodFrom spec.now need before.reached before.visited (edges.now ++ rest) → ⊥) }
    ensures some { IfSome result (λ after. (need rest : List ℕ)
        → IsGoodFrom spec.now need before.reached before.visited (edges.now ++ rest) ↔ IsGoodFrom spec.now need after.reached after.visited rest) }
{
    let mut reached = before.reached;
    let mut visited = before.visited;
    for edge in edges {
        if !is_step(spec, reached, visited, *edge) {
            return None;
        }
        let target = spec.edge(*edge).to;
        reached = reached.with(target);
        visited = visited.union(spec.bound(target));
    }
    Some(Progress { reached, visited })
}

/// Whether two lists of edges, one behind the other, are a good route for the need.
pub(crate) fn is_good(spec: &Spec, need: ColSet, first: &[u8], second: &[u8]) -> bool
    requires { IsInRange spec.now }
    ensures { IsTrue result ↔ IsGoodRoute spec.now need (first.now ++ second.now) }
{
    let start = Progress {
        reached: NodeSet::empty(),
        visited: ColSet::empty(),
    };
    let Some(middle) = after_edges(spec, start, first) else {
        return false;
    };
    let Some(end) = after_edges(spec, middle, second) else {
        return false;
    };
    need.within(end.visited)
}

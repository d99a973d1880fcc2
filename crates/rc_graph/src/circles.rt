ghost use Rattle.std.specs.Prelude.{ℕ, ◌↔◌, IsTrue};
ghost use Rattle.rc_tuple.specs.RisingSet.{In};
ghost use Rattle.rc_tuple.specs.ColSet.{IsColSet};
ghost use Rattle.rc_spec.specs.InRange.{IsInRange};
ghost use Rattle.rc_spec.specs.Adequacy.{KeepsA2};
ghost use Rattle.rc_spec.specs.Decomposition.{LiesOnCircle};
ghost use Rattle.rc_graph.specs.Walks.{IsTarget, Reaches};

use rc_spec::Spec;
use rc_tuple::ColSet;

/// A set of node numbers. They are below 16, and the set takes numbers below 32.
pub(crate) type NodeSet = ColSet;

/// The targets of the edges that begin at the node or in the set.
fn targets(spec: &Spec, node: u8, set: NodeSet) -> NodeSet
    requires { IsInRange spec.now }
    ensures members { (target : ℕ) → In target result ↔ IsTarget spec.now.edges node set target }
    ensures set { IsColSet result }
{
    let mut found = NodeSet::empty();
    for edge in spec.edges.list() {
        if edge.from == node || set.has(edge.from) {
            found = found.with(edge.to);
        }
    }
    found
}

/// The nodes to which a walk of at least one edge leads from the node. (Reachability by breadth-first search.)
fn reached_from(spec: &Spec, node: u8) -> NodeSet
    requires { IsInRange spec.now }
    ensures { (other : ℕ) → In other result ↔ Reaches spec.now node other }
{
    // In turn k `reached` has the ends of all walks of 1 to k edges, and `next` those of 1 to k + 1.
    let mut reached = NodeSet::empty();
    let mut next = targets(spec, node, reached);
    while !next.within(reached) {
        reached = reached.union(next);
        next = targets(spec, node, reached);
    }
    reached
}

/// Whether the node lies on a circle.
fn lies_on_circle(spec: &Spec, node: u8) -> bool
    requires { IsInRange spec.now }
    ensures { IsTrue result ↔ LiesOnCircle spec.now node }
{
    reached_from(spec, node).has(node)
}

/// Whether the node keeps rule A2.
pub fn keeps_a2(spec: &Spec, node: u8) -> bool
    requires { IsInRange spec.now }
    ensures { IsTrue result ↔ KeepsA2 spec.now node }
{
    !lies_on_circle(spec, node)
}

//! What paths cost. (PLDI 2011, the cost of query plans; PLDI 2012, the locks of a plan.)

ghost use Rattle.std.specs.Prelude.{◌≡◌, ℕ, ◌<◌, ◌≤◌, ◌*◌, length};
ghost use Rattle.rc_tuple.specs.RisingSet.{In};
ghost use Rattle.rc_spec.specs.InRange.{IsInRange};
ghost use Rattle.rc_spec.specs.Placement.{IsPlaced};
ghost use Rattle.rc_route.specs.Paths.{lookup_cost, scan_cost, read_cost, lock_cost, edge_cost, cost};

use rc_spec::{EdgeKind, Spec};
use rc_tuple::ColSet;

/// What a read by the key costs.
fn lookup_cost(kind: EdgeKind) -> u64
    ensures { result ≡ lookup_cost kind }
{
    match kind {
        EdgeKind::Hash | EdgeKind::Singleton => 1,
        EdgeKind::Ordered => 2,
        EdgeKind::List => 4,
    }
}

/// What a read of all rows costs.
fn scan_cost(kind: EdgeKind) -> u64
    ensures { result ≡ scan_cost kind }
{
    match kind {
        EdgeKind::Hash | EdgeKind::Ordered | EdgeKind::List => 32,
        EdgeKind::Singleton => 1,
    }
}

/// What the read of an edge costs where the columns of the pattern are bound.
fn read_cost(spec: &Spec, pattern: ColSet, edge: u8) -> u64
    requires { edge < length spec.now.edges }
    ensures { result ≡ read_cost spec.now pattern edge }
{
    let edge = spec.edge(edge);
    if edge.key.within(pattern) {
        lookup_cost(edge.kind)
    } else {
        scan_cost(edge.kind)
    }
}

/// What the locks of an edge cost: one stripe where pattern and source have the columns of its class, else all.
fn lock_cost(spec: &Spec, pattern: ColSet, edge: u8) -> u64
    requires known { edge < length spec.now.edges }
    requires range { IsInRange spec.now }
    requires placed { IsPlaced spec.now }
    ensures { result ≡ lock_cost spec.now pattern edge }
{
    let class = spec.class(spec.class_of(edge));
    let source = spec.bound(spec.edge(edge).from);
    if class.cols.within(pattern.union(source)) {
        1
    } else {
        u64::from(class.stripes)
    }
}

/// What an edge costs.
pub(crate) fn edge_cost(spec: &Spec, pattern: ColSet, edge: u8) -> u64
    requires known { edge < length spec.now.edges }
    requires range { IsInRange spec.now }
    requires placed { IsPlaced spec.now }
    ensures value { result ≡ edge_cost spec.now pattern edge }
    ensures few { result ≤ 288 }
{
    read_cost(spec, pattern, edge) + lock_cost(spec, pattern, edge)
}

/// What so few edges cost together.
pub(crate) fn cost_of(spec: &Spec, pattern: ColSet, edges: &[u8]) -> u64
    requires known { (e : ℕ) → In e edges.now → e < length spec.now.edges }
    requires short { length edges.now ≤ 16 }
    requires range { IsInRange spec.now }
    requires placed { IsPlaced spec.now }
    ensures value { result ≡ cost spec.now pattern edges.now }
    ensures few { result ≤ 288 * 16 }
{
    let mut total = 0;
    for edge in edges {
        total += edge_cost(spec, pattern, *edge);
    }
    total
}

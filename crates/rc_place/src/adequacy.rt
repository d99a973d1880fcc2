//! The rules of adequacy at an edge, each as a test.

ghost use Rattle.std.specs.Prelude.{◌≡◌, ◌<◌, ◌≤◌, ◌↔◌, length, IsTrue};
ghost use Rattle.rc_spec.specs.Adequacy.{visited, KeepsA3, KeepsA4, KeepsA5, KeepsA6, KeepsA7, IsReachedBy};
ghost use Rattle.rc_spec.specs.InRange.{IsEdgeAmong, IsInRange};

use rc_fd::{determines, is_lossless};
use rc_spec::{Edge, EdgeKind, Spec};
use rc_tuple::ColSet;

/// Whether the key has no column of the source, and the target binds the columns of both.
pub fn keeps_a3(spec: &Spec, edge: &Edge) -> bool
    requires { IsEdgeAmong (length spec.now.nodes) (length spec.now.columns) edge.now }
    ensures { IsTrue result ↔ KeepsA3 spec.now edge.now }
{
    edge.key.inter(spec.bound(edge.from)).is_empty()
        && spec.source_and_key(edge).within(spec.bound(edge.to))
}

/// Whether source and key determine the target.
pub fn keeps_a4(spec: &Spec, edge: &Edge) -> bool
    requires { IsEdgeAmong (length spec.now.nodes) (length spec.now.columns) edge.now }
    ensures { IsTrue result ↔ KeepsA4 spec.now edge.now }
{
    determines(
        spec.deps.list(),
        spec.source_and_key(edge),
        spec.bound(edge.to),
    )
}

/// Whether the edge has a key unless it is a singleton, and as a singleton has its key determined by its source.
pub fn keeps_a5(spec: &Spec, edge: &Edge) -> bool
    requires { IsEdgeAmong (length spec.now.nodes) (length spec.now.columns) edge.now }
    ensures { IsTrue result ↔ KeepsA5 spec.now edge.now }
{
    match edge.kind {
        EdgeKind::Singleton => determines(spec.deps.list(), spec.bound(edge.from), edge.key),
        EdgeKind::Hash | EdgeKind::Ordered | EdgeKind::List => !edge.key.is_empty(),
    }
}

/// Whether the node is the root, or one of the edges ends at it.
fn is_reached(edges: &[Edge], node: u8) -> bool
    ensures { IsTrue result ↔ IsReachedBy edges.now node }
{
    node == 0 || edges.iter().any(|edge| edge.to == node)
}

/// Whether the edge with this number begins at the root or where an earlier edge ends, and its join with what
/// the edges before have visited loses no tuple.
#[tactic(auto, using(rc_spec::specs::DecompositionLaws::edge_known))]
pub fn keeps_a6(spec: &Spec, number: u8) -> bool
    requires known { number < length spec.now.edges }
    requires range { IsInRange spec.now }
    ensures { IsTrue result ↔ KeepsA6 spec.now number }
{
    let edges = spec.edges.list();
    let edge = &edges[number as usize];
    is_reached(&edges[..number as usize], edge.from)
        && is_lossless(spec.deps.list(), visited(spec, number), spec.bound(edge.to))
}

/// The columns that the targets of the first edges bind.
fn visited(spec: &Spec, count: u8) -> ColSet
    requires known { count ≤ length spec.now.edges }
    requires range { IsInRange spec.now }
    ensures { result ≡ visited spec.now count }
{
    let mut cols = ColSet::empty();
    for number in 0..count {
        cols = cols.union(spec.bound(spec.edge(number).to));
    }
    cols
}

/// Whether the column is visited.
pub fn keeps_a7(spec: &Spec, column: u8) -> bool
    requires range { IsInRange spec.now }
    requires known { column < length spec.now.columns }
    ensures { IsTrue result ↔ KeepsA7 spec.now column }
{
    visited(spec, spec.edges.list().len() as u8).has(column)
}

//! What plans ask of edges and lock classes, found once for all calls.

ghost use Rattle.std.specs.Prelude.{◌<◌, length};
ghost use Rattle.rc_spec.specs.Acceptance.{IsSealed};
ghost use Rattle.rc_plan.specs.Resolved.{AreBandStarts, AreResolvedEdges, IsResolvedEdge};

use rc_spec::{Accepted, MAX_CLASSES, MAX_EDGES, Spec, band_start};
use rc_tuple::ColSet;

/// An edge as a Read and an Apply use it: where its rows stand, and how their columns are parted.
#[derive(Clone, Copy, Debug)]
pub struct ResolvedEdge {
    /// The number of the class that the edge is placed on.
    pub class: u8,
    /// The number, among all stripes, of the class's first.
    pub start: u32,
    /// The columns of the edge's source.
    pub source: ColSet,
    /// Its key.
    pub key: ColSet,
    /// The columns of its target.
    pub target: ColSet,
    /// The columns of the target that neither source nor key has.
    pub extra: ColSet,
    /// How many columns the key has.
    pub keys: usize,
    /// How many columns are extra.
    pub extras: usize,
}

impl ResolvedEdge {
    /// What stands where there is no edge.
    fn none() -> ResolvedEdge {
        ResolvedEdge {
            class: 0,
            start: 0,
            source: ColSet::empty(),
            key: ColSet::empty(),
            target: ColSet::empty(),
            extra: ColSet::empty(),
            keys: 0,
            extras: 0,
        }
    }

    /// The edge with this number. Costs a walk over the placements, and one over the classes.
    fn of(spec: &Spec, edge: u8) -> ResolvedEdge
        requires sealed { IsSealed spec.now }
        requires known { edge < length spec.now.edges }
        ensures { IsResolvedEdge spec.now edge result }
    {
        let found = spec.edge(edge);
        let class = spec.class_of(edge);
        let source = spec.bound(found.from);
        let key = found.key;
        let target = spec.bound(found.to);
        let extra = target.minus(source.union(key));
        ResolvedEdge {
            class,
            start: band_start(spec, class),
            source,
            key,
            target,
            extra,
            keys: key.len() as usize,
            extras: extra.len() as usize,
        }
    }
}

/// Each edge, by its number. What stands behind the last is of no matter.
pub(crate) fn resolve_edges(accepted: &Accepted) -> [ResolvedEdge; MAX_EDGES]
    ensures { AreResolvedEdges accepted.now result }
{
    let spec = accepted.spec();
    let mut edges = [ResolvedEdge::none(); MAX_EDGES];
    for edge in 0..spec.edges.list().len() as u8 {
        edges[edge as usize] = ResolvedEdge::of(spec, edge);
    }
    edges
}

/// The number, among all stripes, of the first of each class, by the number of the class. What stands behind the last is
/// of no matter.
pub(crate) fn band_starts(accepted: &Accepted) -> [u32; MAX_CLASSES]
    ensures { AreBandStarts accepted.now result }
{
    let spec = accepted.spec();
    let mut starts = [0; MAX_CLASSES];
    for class in 0..spec.classes.list().len() as u8 {
        starts[class as usize] = band_start(spec, class);
    }
    starts
}

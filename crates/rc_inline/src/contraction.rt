//! Which edges can be inlined, and their contraction.

ghost use Rattle.std.specs.Prelude.{◌≡◌, ◌<◌, ◌==◌, length, map, filter, not};
ghost use Rattle.rc_inline.specs.Contraction.{contracted, edges_into, edges_out_of, first_inlinable};
ghost use Rattle.rc_inline.specs.Contraction.{is_inlinable, rejoined, renumbered, renumbered_place};
ghost use Rattle.rc_spec.specs.InRange.{IsInRange};

use rc_spec::{Edge, EdgeKind, Edges, Nodes, Place, Places, Spec};

/// How many edges lead to the node.
fn edges_into(spec: &Spec, node: u8) -> usize
    ensures { result ≡ edges_into spec.now node }
{
    spec.edges
        .list()
        .iter()
        .filter(|edge| edge.to == node)
        .count()
}

/// How many edges lead from the node.
fn edges_out_of(spec: &Spec, node: u8) -> usize
    ensures { result ≡ edges_out_of spec.now node }
{
    spec.edges
        .list()
        .iter()
        .filter(|edge| edge.from == node)
        .count()
}

/// Whether the edge is a singleton that alone leads from its source, to which one edge leads.
fn is_inlinable(spec: &Spec, edge: &Edge) -> bool
    ensures { result ≡ is_inlinable spec.now edge.now }
{
    matches!(edge.kind, EdgeKind::Singleton)
        && edges_into(spec, edge.from) == 1
        && edges_out_of(spec, edge.from) == 1
}

/// The position of the first edge that can be inlined.
fn position_of_first(spec: &Spec) -> Option<usize>
    ensures { result ≡ first_inlinable spec.now }
{
    let edges = spec.edges.list();
    edges.iter().position(|edge| is_inlinable(spec, edge))
}

/// The number of the first edge that can be inlined.
pub(crate) fn first_inlinable(spec: &Spec) -> Option<u8>
    requires { IsInRange spec.now }
    ensures { result ≡ first_inlinable spec.now }
{
    match position_of_first(spec) {
        Some(number) => Some(number as u8),
        None => None,
    }
}

/// The specification without the edge and its source: where an edge led to the source it leads to the target. Takes no
/// memory.
pub(crate) fn contracted(spec: Spec, edge: u8) -> Spec
    requires range { IsInRange spec }
    requires known { edge < length spec.edges }
    ensures { result ≡ contracted spec edge }
{
    let mut edges = spec.edges.into_vec();
    let mut nodes = spec.nodes.into_vec();
    let gone = edges.remove(edge as usize);
    nodes.remove(gone.from as usize);
    rejoin_all(&mut edges, &gone);
    let mut places = without(spec.places.into_vec(), edge);
    renumber_places(&mut places, edge);
    Spec {
        columns: spec.columns,
        deps: spec.deps,
        nodes: Nodes::from_vec(nodes),
        edges: Edges::from_vec(edges),
        classes: spec.classes,
        places: Places::from_vec(places),
        ops: spec.ops,
        most_rows: spec.most_rows,
    }
}

/// The number of what has this number, when what has the other is gone.
fn renumbered(gone: u8, number: u8) -> u8
    ensures { result ≡ renumbered gone number }
{
    if gone < number { number - 1 } else { number }
}

/// Joins an edge to the others when one is gone, with its source.
fn rejoin(edge: &mut Edge, gone: &Edge)
    ensures { edge.new ≡ rejoined gone.now edge.old }
{
    if edge.to == gone.from {
        edge.to = gone.to;
    }
    edge.from = renumbered(gone.from, edge.from);
    edge.to = renumbered(gone.from, edge.to);
}

/// Joins the edges when one is gone, with its source.
fn rejoin_all(edges: &mut [Edge], gone: &Edge)
    ensures { edges.new ≡ map (rejoined gone.now) edges.old }
{
    for edge in edges.iter_mut() {
        rejoin(edge, gone);
    }
}

/// The placement of an edge, when that with another number is gone.
fn renumber_place(place: &mut Place, gone: u8)
    ensures { place.new ≡ renumbered_place gone place.old }
{
    place.edge = renumbered(gone, place.edge);
}

/// The placements of the edges when one is gone.
fn renumber_places(places: &mut [Place], gone: u8)
    ensures { places.new ≡ map (renumbered_place gone) places.old }
{
    for place in places.iter_mut() {
        renumber_place(place, gone);
    }
}

/// The placements of the other edges.
fn without(mut places: Vec<Place>, edge: u8) -> Vec<Place>
    ensures { result.items ≡ filter (λ place. not (place.edge == edge)) places.items }
{
    places.retain(|place| place.edge != edge);
    places
}

//! The search for the least path to each node, in an order in which each edge leads forward. (Shortest paths in a
//! directed acyclic graph.)

ghost use Rattle.std.specs.Prelude.{◌≡◌, ℕ, ◌<◌, ◌++◌, ◌∷◌, [], length, IfOk};
ghost use Rattle.rc_spec.specs.Acceptance.{IsSealed};
ghost use Rattle.rc_spec.specs.Decomposition.{edge_at};
ghost use Rattle.rc_spec.specs.First.{EachHolds};
ghost use Rattle.rc_spec.specs.InRange.{IsInRange};
ghost use Rattle.rc_spec.specs.Order.{IsTopologicalOrder};
ghost use Rattle.rc_route.specs.Paths.{IsPathFromRoot};
ghost use Rattle.rc_route.specs.Search.{path_at, EndsAt, IsFirstLeastOrNone, cost_by, Binds, cost_to, AreLeastPaths};

use crate::Route;
use crate::costs::{cost_of, edge_cost};
use rc_spec::Spec;
use rc_tuple::{ColSet, Memory};
use std::alloc::Global;

/// What an edge costs behind the path to its source.
fn cost_by(spec: &Spec, pattern: ColSet, paths: &[Route], edge: u8) -> u64
    requires known { edge < length spec.now.edges }
    requires sealed { IsSealed spec.now }
    requires count { length paths.now ≡ length spec.now.nodes }
    requires paths { EachHolds (IsPathFromRoot spec.now) paths.now }
    ensures value { result ≡ cost_by spec.now pattern paths.now edge }
    ensures few { result < u64.MAX }
{
    let path = &paths[spec.edge(edge).from as usize];
    cost_of(spec, pattern, path.list()) + edge_cost(spec, pattern, edge)
}

/// Of the edges into the node, the first of those that cost least behind the path to their source.
fn last_edge(spec: &Spec, pattern: ColSet, paths: &[Route], node: u8) -> Option<u8>
    requires sealed { IsSealed spec.now }
    requires count { length paths.now ≡ length spec.now.nodes }
    requires paths { EachHolds (IsPathFromRoot spec.now) paths.now }
    ensures { IsFirstLeastOrNone (EndsAt spec.now node) (cost_by spec.now pattern paths.now) (length spec.now.edges) result }
{
    let mut best = None;
    let mut lowest = u64::MAX;
    for edge in 0..spec.edges.list().len() as u8 {
        if spec.edge(edge).to == node {
            let price = cost_by(spec, pattern, paths, edge);
            if price < lowest {
                best = Some(edge);
                lowest = price;
            }
        }
    }
    best
}

/// The path to the edge's source, and the edge.
fn path_by(spec: &Spec, paths: &[Route], edge: u8) -> Result<Route, Memory>
    requires known { edge < length spec.now.edges }
    requires range { IsInRange spec.now }
    requires count { length paths.now ≡ length spec.now.nodes }
    ensures { IfOk result (λ path. path ≡ path_at paths.now (edge_at spec.now edge).from ++ edge ∷ []) }
{
    let mut path = paths[spec.edge(edge).from as usize].copy()?;
    path.push(edge)?;
    Ok(path)
}

/// The empty path for each node.
fn empty_paths(alloc: Global, spec: &Spec) -> Result<Vec<Route>, Memory>
    ensures count { IfOk result (λ paths. length paths.items ≡ length spec.now.nodes) }
    ensures empty { IfOk result (λ paths. EachHolds (λ path. path ≡ []) paths.items) }
{
    let mut paths = Vec::new(alloc);
    for _ in spec.nodes.list() {
        paths.push(Route::new(alloc))?;
    }
    Ok(paths)
}

/// The least path to each node, by node numbers: that of least cost, and of those the one whose edges, compared from
/// the last one back, are least.
pub(crate) fn least_paths(
    alloc: Global,
    spec: &Spec,
    pattern: ColSet,
    order: &[u8],
) -> Result<Vec<Route>, Memory>
    requires sealed { IsSealed spec.now }
    requires order { IsTopologicalOrder spec.now order.now }
    ensures { IfOk result (λ paths. AreLeastPaths spec.now pattern order.now paths.items) }
{
    let mut paths = empty_paths(alloc, spec)?;
    for node in order {
        if let Some(edge) = last_edge(spec, pattern, &paths, *node) {
            paths[*node as usize] = path_by(spec, &paths, edge)?;
        }
    }
    Ok(paths)
}

/// Of the nodes that bind the need, the first of those to which the path costs least.
pub(crate) fn last_node(spec: &Spec, pattern: ColSet, need: ColSet, paths: &[Route]) -> Option<u8>
    requires sealed { IsSealed spec.now }
    requires count { length paths.now ≡ length spec.now.nodes }
    requires paths { EachHolds (IsPathFromRoot spec.now) paths.now }
    ensures { IsFirstLeastOrNone (Binds spec.now need) (cost_to spec.now pattern paths.now) (length spec.now.nodes) result }
{
    let mut best = None;
    let mut least = u64::MAX;
    for node in 0..spec.nodes.list().len() as u8 {
        if need.within(spec.bound(node)) {
            let price = cost_of(spec, pattern, paths[node as usize].list());
            if price < least {
                best = Some(node);
                least = price;
            }
        }
    }
    best
}

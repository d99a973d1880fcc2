//! Edges that are placed together where their classes have the same columns, and what an embedded store makes of a
//! specification.

ghost use Rattle.std.specs.Prelude.{◌≡◌, ◌<◌, ◌≤◌, ◌↔◌, None, IfOk, IsTrue, length, map, position};
ghost use Rattle.std.specs.List.{list_all};
ghost use Rattle.rc_tuple.specs.RisingSet.{In};
ghost use Rattle.rc_spec.specs.InRange.{IsInRange};
ghost use Rattle.rc_spec.specs.Names.{IsWellNamed};
ghost use Rattle.rc_spec.specs.Placement.{KeepsP3, class_of};
ghost use Rattle.rc_spec.specs.declared.items.Place.{Place};
ghost use Rattle.rc_inline.specs.Contraction.{first_inlinable};
ghost use Rattle.rc_inline.specs.Placing.{co_placed, embedded, is_no_wider, is_over, is_widest};
ghost use Rattle.rc_inline.specs.Placing.{moved, placed_together, widest};
ghost use Rattle.rc_inline.specs.PlacingLaws.{AreOrdered};

use crate::inlining::inline;
use rc_spec::{Accepted, Class, NodeOrder, Place, Places, Spec, WellFormed};
use rc_tuple::{ColSet, Memory};
use std::alloc::Global;

/// Whether the class has these columns.
fn is_over(cols: ColSet, class: &Class) -> bool
    ensures { result ≡ is_over cols class.now }
{
    class.cols.within(cols) && cols.within(class.cols)
}

/// Whether the other class, if it has these columns, has no more stripes.
fn is_no_wider(cols: ColSet, class: &Class, other: &Class) -> bool
    ensures { result ≡ is_no_wider cols class.now other.now }
{
    !is_over(cols, other) || other.stripes <= class.stripes
}

/// Whether no class with these columns has more stripes.
fn has_most_stripes(classes: &[Class], cols: ColSet, class: &Class) -> bool
    ensures { result ≡ list_all (is_no_wider cols class.now) classes.now }
{
    classes.iter().all(|other| is_no_wider(cols, class, other))
}

/// Whether the class has these columns, and as many stripes as any that has them.
fn is_widest(classes: &[Class], cols: ColSet, class: &Class) -> bool
    ensures { result ≡ is_widest classes.now cols class.now }
{
    is_over(cols, class) && has_most_stripes(classes, cols, class)
}

/// The position of the first class that has these columns, and as many stripes as any that has them.
fn position_of_widest(classes: &[Class], cols: ColSet) -> Option<usize>
    ensures { result ≡ position (is_widest classes.now cols) classes.now }
{
    classes
        .iter()
        .position(|class| is_widest(classes, cols, class))
}

/// Of the classes with the columns of this one, the number of that with the most stripes, of several the first. Costs the
/// square of the classes.
fn widest(classes: &[Class], class: u8) -> u8
    requires few { length classes.now ≤ 16 }
    requires known { class < length classes.now }
    ensures { result ≡ widest classes.now class }
{
    match position_of_widest(classes, classes[class as usize].cols) {
        Some(number) => number as u8,
        None => class,
    }
}

/// Moves a placement to the widest class over its class's columns.
fn move_place(place: &mut Place, classes: &[Class])
    requires few { length classes.now ≤ 16 }
    requires known { place.old.class < length classes.now }
    ensures { place.new ≡ moved classes.now place.old }
{
    place.class = widest(classes, place.class);
}

/// Moves each placement to the widest class over its class's columns.
fn move_places(places: &mut [Place], classes: &[Class])
    requires few { length classes.now ≤ 16 }
    requires known { (place : Place) → In place places.old → place.class < length classes.now }
    ensures { places.new ≡ map (moved classes.now) places.old }
{
    for place in places.iter_mut() {
        move_place(place, classes);
    }
}

/// The specification with each edge on the widest class over its class's columns. Takes no memory.
fn co_placed(spec: Spec) -> Spec
    requires { IsInRange spec }
    ensures { result ≡ co_placed spec }
{
    let mut places = spec.places.into_vec();
    move_places(&mut places, spec.classes.list());
    Spec {
        columns: spec.columns,
        deps: spec.deps,
        nodes: spec.nodes,
        edges: spec.edges,
        classes: spec.classes,
        places: Places::from_vec(places),
        ops: spec.ops,
        most_rows: spec.most_rows,
    }
}

/// The class of an edge that is moved.
fn class_then(accepted: &Accepted, edge: u8) -> u8
    requires { edge < length accepted.now.edges }
    ensures { result ≡ class_of (co_placed accepted.now) edge }
{
    widest(accepted.spec().classes.list(), accepted.class_of(edge))
}

/// Whether no edge that ends where this one begins has a later class, when both are moved.
fn keeps_p3_then(accepted: &Accepted, edge: u8) -> bool
    requires { edge < length accepted.now.edges }
    ensures { IsTrue result ↔ KeepsP3 (co_placed accepted.now) edge }
{
    let edges = accepted.spec().edges.list();
    let from = edges[edge as usize].from;
    let class = class_then(accepted, edge);
    for (other, above) in edges.iter().enumerate() {
        if above.to == from && class_then(accepted, other as u8) > class {
            return false;
        }
    }
    true
}

/// Whether each edge keeps that rule, when all are moved.
fn are_ordered_then(accepted: &Accepted) -> bool
    ensures { IsTrue result ↔ AreOrdered (co_placed accepted.now) }
{
    for edge in 0..accepted.spec().edges.list().len() as u8 {
        if !keeps_p3_then(accepted, edge) {
            return false;
        }
    }
    true
}

/// The specification with each edge on the widest class over its class's columns, of several the first, so that a call
/// takes one stripe where it took one of each of these classes. Where an edge's class would come after that of an edge that
/// begins where it ends, the specification stays as it is. Columns, dependencies, nodes, edges, lock classes and
/// operations stay. (PLDI 2012, lock placement: an edge may stand on any class whose columns choose a stripe of its rows.)
///
/// `Err` only where memory is wanted; the specification is gone then. Costs, for each pair of edges, the square of the
/// classes.
pub fn place_together(alloc: Global, accepted: Accepted) -> Result<Accepted, Memory>
    ensures { IfOk result (λ result. result ≡ placed_together accepted) }
{
    if !are_ordered_then(&accepted) {
        return Ok(accepted);
    }
    let order = NodeOrder::from_slice(alloc, accepted.order())?;
    let spec = WellFormed::new(co_placed(accepted.into_spec()));
    Ok(Accepted::seal(spec, order))
}

/// The specification as an embedded store has it: its singletons are inlined, and then its edges are placed together.
/// Columns, dependencies, lock classes and operations stay.
///
/// `Err` only where memory is wanted; the specification is gone then. Costs what `inline` and `place_together` do.
pub fn embed(alloc: Global, accepted: Accepted) -> Result<Accepted, Memory>
    ensures value { IfOk result (λ result. result ≡ embedded accepted) }
    ensures done { IfOk result (λ result. first_inlinable result ≡ None) }
    ensures named { IfOk result (λ result. IsWellNamed accepted → IsWellNamed result) }
{
    place_together(alloc, inline(alloc, accepted)?)
}

//! The specification whose singletons are kept in the rows above them.

ghost use Rattle.std.specs.Prelude.{◌≡◌, None, IfOk};
ghost use Rattle.rc_spec.specs.Names.{IsWellNamed};
ghost use Rattle.rc_inline.specs.Contraction.{first_inlinable};
ghost use Rattle.rc_inline.specs.Inlining.{inlined};

use crate::contraction::{contracted, first_inlinable};
use rc_graph::order_nodes;
use rc_spec::{Accepted, WellFormed};
use rc_tuple::Memory;
use std::alloc::Global;

/// The specification without each singleton that alone leads from its source, where one edge leads to that source: this
/// edge leads to the singleton's target then, so that its rows have the singleton's columns, and a plan has one Read in
/// place of two. Nothing more can go in what is left. Columns, dependencies, lock classes and operations stay. (Edge
/// contraction; of objects, inlining.)
///
/// `Err` only where memory is wanted; the specification is gone then. Costs, for each edge that goes, an
/// order of the nodes.
pub fn inline(alloc: Global, accepted: Accepted) -> Result<Accepted, Memory>
    ensures value { IfOk result (λ result. result ≡ inlined accepted) }
    ensures done { IfOk result (λ result. first_inlinable result ≡ None) }
    ensures named { IfOk result (λ result. IsWellNamed accepted → IsWellNamed result) }
{
    let mut inlined = accepted;
    while let Some(edge) = first_inlinable(inlined.spec()) {
        let spec = WellFormed::new(contracted(inlined.into_spec(), edge));
        // A contraction keeps all rules, so only the order of the nodes is found anew.
        let order = order_nodes(alloc, &spec)?;
        inlined = Accepted::seal(spec, order);
    }
    Ok(inlined)
}

//! What a Read asks of its edge, for all bindings.

ghost use Rattle.std.specs.Prelude.{◌≡◌, ◌<◌, length};
ghost use Rattle.rc_spec.specs.Acceptance.{IsSealed};
ghost use Rattle.rc_spec.specs.Placement.{class_of};
ghost use Rattle.rc_spec.specs.Stripes.{physical_stripe};
ghost use Rattle.rc_machine.specs.EdgeRead.{IsResolved};

use rc_bindings::Binding;
use rc_plan::{Compiled, ReadMode, ResolvedEdge};
use rc_spec::{Class, Spec};

/// A Read of an edge of a specification: how its rows are found, at which columns, and on which stripes they stand.
#[derive(Debug, Drop)]
pub(crate) struct EdgeRead<'a> {
    pub(crate) spec: &'a Spec,
    pub(crate) edge: u8,
    pub(crate) mode: ReadMode,
    /// The class that the edge is placed on.
    pub(crate) class: &'a Class,
    /// What was found of the edge when the plans were compiled.
    pub(crate) resolved: &'a ResolvedEdge,
}

impl<'a> EdgeRead<'a> {
    /// A Read of the edge with this number. Walks over nothing.
    pub(crate) fn of(compiled: &'a Compiled, edge: u8, mode: ReadMode) -> EdgeRead<'a>
        requires known { edge < length compiled.now.spec.edges }
        ensures resolved { IsResolved result }
        ensures spec { result.spec.now ≡ compiled.now.spec }
        ensures edge { result.edge ≡ edge }
        ensures mode { result.mode ≡ mode }
    {
        let resolved = compiled.edge(edge);
        EdgeRead {
            spec: compiled.accepted().spec(),
            edge,
            mode,
            class: compiled.class(resolved.class),
            resolved,
        }
    }

    /// The number, among all stripes, of the edge's stripe on which the binding falls.
    pub(crate) fn stripe_of(&self, binding: &Binding) -> u32
        requires sealed { IsSealed self.now.spec.now }
        requires known { self.now.edge < length self.now.spec.now.edges }
        requires resolved { IsResolved self.now }
        requires wide { binding.now.width ≡ length self.now.spec.now.columns }
        ensures { result ≡ physical_stripe self.now.spec.now (class_of self.now.spec.now self.now.edge) binding.now.tuple }
    {
        self.resolved.start + binding.stripe_of(self.class)
    }
}

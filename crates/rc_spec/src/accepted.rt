ghost use Rattle.std.specs.Prelude.{◌≡◌, ◌<◌, length};
ghost use Rattle.rc_spec.specs.Acceptance.{IsAccepted, IsSealed};
ghost use Rattle.rc_spec.specs.Order.{IsTopologicalOrder};
ghost use Rattle.rc_spec.specs.Placement.{class_of};

use crate::{Spec, WellFormed};
use rc_tuple::SmallList;
use std::marker::Model;

/// Node numbers, in an order in which each edge leads forward.
pub type NodeOrder = SmallList<u8>;

/// A specification that meets all rules: its decomposition is adequate and well placed, and each operation keeps its
/// rule. It keeps the order of the nodes that the test of the graph found, so that nobody looks
/// for it again; contracts see the specification alone.
#[derive(Debug, Drop)]
pub struct Accepted {
    spec: WellFormed,
    order: NodeOrder,
}

impl Model for Accepted {
    ghost use Rattle.rc_spec.specs.declared.spec.Spec.{Spec};
    ghost use Rattle.rc_spec.specs.Order.{IsSealedWith};

    ghost Value = { Spec };

    ghost view = { λ a. a.spec };

    ghost invariant = { λ a. IsSealedWith a.spec a.order };
}

impl Accepted {
    /// Keeps a specification that meets all rules, with an order of its nodes in which each edge leads forward.
    pub fn seal(spec: WellFormed, order: NodeOrder) -> Accepted
        requires accepted { IsAccepted spec }
        requires order { IsTopologicalOrder spec order }
        ensures { result ≡ spec }
    {
        Accepted { spec, order }
    }

    /// The specification.
    pub fn spec(&self) -> &Spec
        ensures value { result.now ≡ self.now }
        ensures sealed { IsSealed self.now }
    {
        &self.spec
    }

    /// The specification, given back.
    pub fn into_spec(self) -> Spec
        ensures { result ≡ self }
    {
        self.spec.into_spec()
    }

    /// All nodes in topological order: at each place stands the first written node whose edges all come from nodes
    /// before it.
    pub fn order(&self) -> &[u8]
        ensures { IsTopologicalOrder self.now result.now }
    {
        self.order.list()
    }

    /// The number of the class on which an edge is placed.
    pub fn class_of(&self, edge: u8) -> u8
        requires { edge < length self.now.edges }
        ensures value { result ≡ class_of self.now edge }
        ensures known { result < length self.now.classes }
    {
        self.spec.class_of(edge)
    }
}

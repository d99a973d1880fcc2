//! Specifications in range.

ghost use Rattle.std.specs.Prelude.{◌≡◌};
ghost use Rattle.rc_spec.specs.InRange.{IsWellFormed};

use crate::Spec;
use std::marker::Model;
use std::ops::Deref;

/// A specification that names nothing but its own columns, nodes, edges and classes, keeps the limits of their numbers,
/// and has a column and a node: what is asked before any rule can be tested. Contracts see the specification alone.
#[derive(Debug, Drop)]
pub struct WellFormed {
    spec: Spec,
}

impl Model for WellFormed {
    ghost use Rattle.rc_spec.specs.declared.spec.Spec.{Spec};
    ghost use Rattle.rc_spec.specs.InRange.{IsWellFormed};

    ghost Value = { Spec };

    ghost view = { λ w. w.spec };

    ghost invariant = { λ w. IsWellFormed w.spec };
}

impl WellFormed {
    /// Keeps a specification that is in range, and has a column and a node.
    pub fn new(spec: Spec) -> Self
        requires { IsWellFormed spec }
        ensures { result ≡ spec }
    {
        WellFormed { spec }
    }

    /// Sets the most rows that a query answers one by one.
    pub fn set_most_rows(&mut self, most: u64)
        ensures { self.new ≡ record self.old { most_rows = most } }
    {
        self.spec.most_rows = most;
    }

    /// The specification, given back.
    pub fn into_spec(self) -> Spec
        ensures { result ≡ self }
    {
        self.spec
    }
}

impl Deref for WellFormed {
    type Target = Spec;

    ghost deref_gives = { λ w x. x ≡ w };

    fn deref(&self) -> &Spec
        ensures value { result.now ≡ self.now }
        ensures formed { IsWellFormed self.now }
    {
        &self.spec
    }
}

ghost use Rattle.std.specs.Prelude.{◌≡◌};

use crate::{Class, Column, Edge, Node, Op};

/// An item that has a name.
pub trait Named {
    ghost use Rattle.std.specs.Prelude.{List, ℕ};

    ghost name_of: { Self → List ℕ };

    /// The bytes of the name.
    fn name(&self) -> &[u8]
        ensures { result.now ≡ name_of self.now };
}

impl Named for Column {
    ghost name_of = { λ column. column.name };

    fn name(&self) -> &[u8] {
        self.name.list()
    }
}

impl Named for Node {
    ghost name_of = { λ node. node.name };

    fn name(&self) -> &[u8] {
        self.name.list()
    }
}

impl Named for Edge {
    ghost name_of = { λ edge. edge.name };

    fn name(&self) -> &[u8] {
        self.name.list()
    }
}

impl Named for Class {
    ghost name_of = { λ class. class.name };

    fn name(&self) -> &[u8] {
        self.name.list()
    }
}

impl Named for Op {
    ghost name_of = { λ op. op.name };

    fn name(&self) -> &[u8] {
        self.name.list()
    }
}

ghost use Rattle.std.specs.Prelude.{◌≡◌, ◌<◌, length};
ghost use Rattle.rc_spec.specs.Acceptance.{count_of};
ghost use Rattle.rc_spec.specs.Calls.{all_columns};
ghost use Rattle.rc_spec.specs.Decomposition.{bound, edge_at, source_and_key};
ghost use Rattle.rc_spec.specs.InRange.{IsEdgeAmong, IsInRange, IsOpAmong, IsSetBelow};
ghost use Rattle.rc_spec.specs.Placement.{class_at, class_of, op_at};
ghost use Rattle.rc_spec.specs.Spec.{empty};

use crate::{Class, Column, Edge, ItemKind, MAX_ROWS, Node, Op, Place};
use rc_tuple::{ColSet, Dep, SmallList};
use std::alloc::Global;

/// The columns, by number.
pub type Columns = SmallList<Column>;

/// The dependencies, in written order.
pub type Deps = SmallList<Dep>;

/// The nodes, by number; the first is the root.
pub type Nodes = SmallList<Node>;

/// The edges, by number.
pub type Edges = SmallList<Edge>;

/// The lock classes, by number.
pub type Classes = SmallList<Class>;

/// The placements, in written order.
pub type Places = SmallList<Place>;

/// The operations, by number.
pub type Ops = SmallList<Op>;

/// A relational specification with its decomposition, its lock placement and its operations.
#[derive(Debug, Drop)]
pub struct Spec {
    /// The columns of the relation.
    pub columns: Columns,
    /// Its functional dependencies.
    pub deps: Deps,
    /// The nodes of the decomposition, the root first.
    pub nodes: Nodes,
    /// The edges of the decomposition.
    pub edges: Edges,
    /// The lock classes, in the order in which they are locked.
    pub classes: Classes,
    /// Which class each edge is placed on.
    pub places: Places,
    /// The declared operations.
    pub ops: Ops,
    /// The most rows that a query answers one by one; of more it answers their number. It is `MAX_ROWS` unless it is
    /// set otherwise; the greatest number sets no limit.
    pub most_rows: u64,
}

impl Spec {
    /// The specification with no item, and at most `MAX_ROWS` rows a reply, which takes no memory.
    pub fn new(alloc: Global) -> Self
        ensures { result ≡ empty }
    {
        Spec {
            columns: Columns::new(alloc),
            deps: Deps::new(alloc),
            nodes: Nodes::new(alloc),
            edges: Edges::new(alloc),
            classes: Classes::new(alloc),
            places: Places::new(alloc),
            ops: Ops::new(alloc),
            most_rows: MAX_ROWS,
        }
    }

    /// The set of all columns.
    #[tactic(auto, using(rc_tuple::specs::ColSetLaws::range_with_next))]
    pub fn all_columns(&self) -> ColSet
        requires { IsInRange self.now }
        ensures { result ≡ all_columns self.now }
    {
        let mut cols = ColSet::empty();
        for col in 0..self.columns.list().len() as u8 {
            cols = cols.with(col);
        }
        cols
    }

    /// How many items of this kind there are.
    pub fn count_of(&self, kind: ItemKind) -> u8
        requires { IsInRange self.now }
        ensures { result ≡ count_of self.now kind }
    {
        match kind {
            ItemKind::Node => self.nodes.list().len() as u8,
            ItemKind::Edge => self.edges.list().len() as u8,
            ItemKind::Column => self.columns.list().len() as u8,
            ItemKind::Lock => self.classes.list().len() as u8,
            ItemKind::Operation => self.ops.list().len() as u8,
        }
    }

    /// The edge with this number. In a specification in range its numbers are the specification's own.
    pub fn edge(&self, number: u8) -> &Edge
        requires { number < length self.now.edges }
        ensures value { result.now ≡ edge_at self.now number }
        ensures known { IsInRange self.now → IsEdgeAmong (length self.now.nodes) (length self.now.columns) result.now }
    {
        &self.edges.list()[number as usize]
    }

    /// The lock class with this number. In a specification in range its columns are the specification's own.
    pub fn class(&self, number: u8) -> &Class
        requires { number < length self.now.classes }
        ensures value { result.now ≡ class_at self.now number }
        ensures known { IsInRange self.now → IsSetBelow (length self.now.columns) result.now.cols }
    {
        &self.classes.list()[number as usize]
    }

    /// The operation with this number. In a specification in range its columns are the specification's own.
    pub fn op(&self, number: u8) -> &Op
        requires { number < length self.now.ops }
        ensures value { result.now ≡ op_at self.now number }
        ensures known { IsInRange self.now → IsOpAmong (length self.now.columns) result.now }
    {
        &self.ops.list()[number as usize]
    }

    /// The columns that a node binds.
    pub fn bound(&self, node: u8) -> ColSet
        requires { node < length self.now.nodes }
        ensures { result ≡ bound self.now node }
    {
        self.nodes.list()[node as usize].cols
    }

    /// The columns by which a row of an edge is found: those of its source, and its key.
    pub fn source_and_key(&self, edge: &Edge) -> ColSet
        requires { edge.now.from < length self.now.nodes }
        ensures { result ≡ source_and_key self.now edge.now }
    {
        self.bound(edge.from).union(edge.key)
    }

    /// The class of the first placement of an edge, or 0 where the edge has none.
    pub fn class_of(&self, edge: u8) -> u8
        ensures { result ≡ class_of self.now edge }
    {
        for place in self.places.list() {
            if place.edge == edge {
                return place.class;
            }
        }
        0
    }
}

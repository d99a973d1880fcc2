//! A counted row of an edge.

use rc_tuple::Tuple;
use std::marker::Model;

/// A row of an edge with its count: how many tuples of the relation have it as their projection.
#[derive(Debug, Drop)]
pub struct CountedRow {
    /// The number of the edge.
    pub edge: u8,
    /// The row: a tuple over the columns of the edge's target.
    pub row: Tuple,
    /// Its count.
    pub count: u64,
}

impl Model for CountedRow {
    ghost use Rattle.rc_spec.specs.Fragments.{EdgeRow};

    ghost Value = { EdgeRow };

    ghost view = { λ a. (a.edge, a.row, a.count) };
}

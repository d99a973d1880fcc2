use rc_tuple::{ColSet, Cols, SmallList};

/// The bytes of a name: in a well named specification 1 to 16 bytes of `a` to `z`, `0` to `9` and `_`,
/// the first of them a letter.
pub type Name = SmallList<u8>;

/// What the values of a column stand for.
#[derive(Clone, Copy, Debug, PartialEq, Eq)]
pub enum ColKind {
    /// Numbers.
    Num,
    /// Texts, each known by its rank among all texts of a workload.
    Text,
}

/// A column of the relation; its number is its place in the list of columns.
#[derive(Debug, Drop)]
pub struct Column {
    /// Its name.
    pub name: Name,
    /// What its values stand for.
    pub kind: ColKind,
}

/// A node of the decomposition with the columns that it binds (PLDI 2011, decompositions).
#[derive(Debug, Drop)]
pub struct Node {
    /// Its name.
    pub name: Name,
    /// The columns that it binds; the root binds none.
    pub cols: ColSet,
}

/// The kind of container that keeps an edge's rows.
#[derive(Clone, Copy, Debug, PartialEq, Eq)]
pub enum EdgeKind {
    /// A hashed map from keys to rows.
    Hash,
    /// A map in the order of the keys.
    Ordered,
    /// A list of rows.
    List,
    /// One row at most for each row of the source node, which determines the key.
    Singleton,
}

/// An edge of the decomposition, from one node to another, by node numbers, with its key columns.
#[derive(Debug, Drop)]
pub struct Edge {
    /// Its name.
    pub name: Name,
    /// The number of the node that it leads from, its source.
    pub from: u8,
    /// The number of the node that it leads to, its target.
    pub to: u8,
    /// The kind of container that keeps its rows.
    pub kind: EdgeKind,
    /// The columns by which its rows are told apart at one row of the source.
    pub key: ColSet,
}

/// A lock class: how many stripes it has, and the columns whose values choose one (PLDI 2012, lock
/// striping).
#[derive(Debug, Drop)]
pub struct Class {
    /// Its name.
    pub name: Name,
    /// How many stripes it has.
    pub stripes: u32,
    /// The columns whose values choose a stripe.
    pub cols: ColSet,
}

/// The placement of an edge on a lock class, by their numbers (PLDI 2012, lock placement).
#[derive(Clone, Copy, Debug, PartialEq, Eq)]
pub struct Place {
    /// The number of the edge.
    pub edge: u8,
    /// The number of the class.
    pub class: u8,
}

/// What an operation does with the tuples that match its pattern.
#[derive(Debug, Drop)]
pub enum OpKind {
    /// Answers the values of the output columns, in written order, of the tuples whose values of the range columns lie
    /// between the bounds that a call gives.
    Query { outs: Cols, ranges: Cols },
    /// Adds a tuple, unless one with the same pattern values is there (put if absent).
    Insert,
    /// Takes the matching tuple out.
    Remove,
    /// Puts a tuple in the place of the one that has its pattern values.
    Update,
}

/// An operation with its pattern columns, in written order.
#[derive(Debug, Drop)]
pub struct Op {
    /// Its name.
    pub name: Name,
    /// The columns by which it finds tuples, in written order.
    pub pattern: Cols,
    /// What it does with them.
    pub kind: OpKind,
}

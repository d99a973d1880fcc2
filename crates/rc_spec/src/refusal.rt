ghost use Rattle.std.specs.Prelude.{◌≡◌, Some, IfOk};
ghost use Rattle.rc_spec.specs.Acceptance.{IsItemOf, item_of};
ghost use Rattle.rc_spec.specs.RefusalText.{item_name, refusal_text};

use crate::{Named, Spec};
use rc_tuple::Memory;
use std::alloc::Global;
use std::fmt;

/// The rules of acceptance: A1 to A7 make a decomposition adequate (PLDI 2011, adequacy), P1 to P6 make it
/// well placed (PLDI 2012, lock placement), and O1 to O3 are those of operations.
#[derive(Clone, Copy, Debug, PartialEq, Eq)]
pub enum Rule {
    /// The root binds nothing, no edge enters it and one leaves it; an edge enters each other node.
    A1,
    /// The node lies on no circle of edges.
    A2,
    /// The key has no column of the edge's source, and the target binds the columns of both.
    A3,
    /// The columns of source and key determine those of the target.
    A4,
    /// Only a singleton has no key, and in a singleton the source determines the key.
    A5,
    /// The edge begins at the root or where an earlier edge ends, and the columns common to its target and to
    /// those visited before determine either.
    A6,
    /// The column is visited.
    A7,
    /// The edge is placed exactly once.
    P1,
    /// Source and key have the columns of the edge's lock class.
    P2,
    /// No edge that ends where this one begins has a later class.
    P3,
    /// A class with no columns has one stripe.
    P4,
    /// An edge whose source hasn't all columns of its class is of kind hash.
    P5,
    /// The class has a stripe, and the classes up to it have at most 256.
    P6,
    /// An insert's pattern isn't empty.
    O1,
    /// A remove's or an update's pattern determines all columns.
    O2,
    /// A query has outputs, and they are distinct.
    O3,
}

impl fmt::Display for Rule {
    ghost use Rattle.rc_spec.specs.RefusalText.{rule_text};

    ghost output = { λ rule. Some (rule_text rule) };

    fn fmt<W: fmt::Write>(&self, f: &mut fmt::Formatter<W>) -> fmt::Result {
        match self {
            Rule::A1 => write!(f, "A1"),
            Rule::A2 => write!(f, "A2"),
            Rule::A3 => write!(f, "A3"),
            Rule::A4 => write!(f, "A4"),
            Rule::A5 => write!(f, "A5"),
            Rule::A6 => write!(f, "A6"),
            Rule::A7 => write!(f, "A7"),
            Rule::P1 => write!(f, "P1"),
            Rule::P2 => write!(f, "P2"),
            Rule::P3 => write!(f, "P3"),
            Rule::P4 => write!(f, "P4"),
            Rule::P5 => write!(f, "P5"),
            Rule::P6 => write!(f, "P6"),
            Rule::O1 => write!(f, "O1"),
            Rule::O2 => write!(f, "O2"),
            Rule::O3 => write!(f, "O3"),
        }
    }
}

/// A kind of item.
#[derive(Clone, Copy, Debug, PartialEq, Eq)]
pub enum ItemKind {
    /// Nodes of the decomposition.
    Node,
    /// Edges of the decomposition.
    Edge,
    /// Columns of the relation.
    Column,
    /// Lock classes.
    Lock,
    /// Operations.
    Operation,
}

/// An item of a specification, by its number among those of its kind.
#[derive(Clone, Copy, Debug, PartialEq, Eq)]
pub enum Item {
    /// A node of the decomposition.
    Node(u8),
    /// An edge of the decomposition.
    Edge(u8),
    /// A column of the relation.
    Column(u8),
    /// A lock class.
    Lock(u8),
    /// An operation.
    Operation(u8),
}

impl fmt::Display for Item {
    ghost use Rattle.rc_spec.specs.RefusalText.{kind_text};

    ghost output = { λ item. Some (kind_text item) };

    /// The kind of the item, as a refusal prints it.
    fn fmt<W: fmt::Write>(&self, f: &mut fmt::Formatter<W>) -> fmt::Result {
        match self {
            Item::Node(_) => write!(f, "node"),
            Item::Edge(_) => write!(f, "edge"),
            Item::Column(_) => write!(f, "column"),
            Item::Lock(_) => write!(f, "lock"),
            Item::Operation(_) => write!(f, "op"),
        }
    }
}

impl Item {
    /// The item of this kind with this number.
    pub fn new(kind: ItemKind, number: u8) -> Item
        ensures { result ≡ item_of kind number }
    {
        match kind {
            ItemKind::Node => Item::Node(number),
            ItemKind::Edge => Item::Edge(number),
            ItemKind::Column => Item::Column(number),
            ItemKind::Lock => Item::Lock(number),
            ItemKind::Operation => Item::Operation(number),
        }
    }

    /// The item's name.
    fn name(self, spec: &Spec) -> &[u8]
        requires { IsItemOf spec.now self }
        ensures { result.now ≡ item_name spec.now self }
    {
        match self {
            Item::Node(node) => spec.nodes.list()[node as usize].name(),
            Item::Edge(edge) => spec.edge(edge).name(),
            Item::Column(column) => spec.columns.list()[column as usize].name(),
            Item::Lock(class) => spec.class(class).name(),
            Item::Operation(op) => spec.op(op).name(),
        }
    }
}

/// A broken rule, and the item that breaks it.
#[derive(Clone, Copy, Debug, PartialEq, Eq)]
pub struct Refusal {
    /// The first broken rule.
    pub rule: Rule,
    /// The first item that breaks it.
    pub item: Item,
}

/// The line that refuses a specification, without a line feed: `refused`, the rule, and the item by its name.
pub fn print_refusal(alloc: Global, spec: &Spec, refusal: &Refusal) -> Result<Vec<u8>, Memory>
    requires { IsItemOf spec.now refusal.now.item }
    ensures { IfOk result (λ line. line.items ≡ refusal_text spec.now refusal.now) }
{
    let start = format!(in alloc; "refused {} {} ", refusal.rule, refusal.item)?;
    let mut line = start.into_bytes();
    line.extend_from_slice(refusal.item.name(spec))?;
    Ok(line)
}

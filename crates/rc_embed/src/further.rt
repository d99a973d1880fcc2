//! Whether a specification is another one with further operations behind its own.

ghost use Rattle.std.specs.Prelude.{◌≡◌, ◌↔◌, ◌++◌, IsTrue, List};
ghost use Rattle.rc_rel.specs.Further.{Extends};
ghost use Rattle.rc_embed.specs.SameSpec.{IsSameButOperations};

use rc_spec::{Class, Column, Edge, Node, Op, OpKind, Place, Spec};
use rc_tuple::Dep;

/// What can be told from another one of its kind.
trait Same {
    /// Whether both are the same.
    fn same(&self, other: &Self) -> bool
        ensures { IsTrue result ↔ (self.now ≡ other.now) };
}

impl Same for Column {
    fn same(&self, other: &Column) -> bool {
        self.name.list() == other.name.list() && self.kind == other.kind
    }
}

impl Same for Dep {
    fn same(&self, other: &Dep) -> bool {
        self.equals(other)
    }
}

impl Same for Node {
    fn same(&self, other: &Node) -> bool {
        self.name.list() == other.name.list() && self.cols.equals(other.cols)
    }
}

impl Same for Edge {
    fn same(&self, other: &Edge) -> bool {
        self.name.list() == other.name.list()
            && self.from == other.from
            && self.to == other.to
            && self.kind == other.kind
            && self.key.equals(other.key)
    }
}

impl Same for Class {
    fn same(&self, other: &Class) -> bool {
        self.name.list() == other.name.list()
            && self.stripes == other.stripes
            && self.cols.equals(other.cols)
    }
}

impl Same for Place {
    fn same(&self, other: &Place) -> bool {
        self == other
    }
}

impl Same for OpKind {
    fn same(&self, other: &OpKind) -> bool {
        match (self, other) {
            (
                OpKind::Query { outs, ranges },
                OpKind::Query {
                    outs: other_outs,
                    ranges: other_ranges,
                },
            ) => outs.list() == other_outs.list() && ranges.list() == other_ranges.list(),
            (OpKind::Insert, OpKind::Insert) => true,
            (OpKind::Remove, OpKind::Remove) => true,
            (OpKind::Update, OpKind::Update) => true,
            _ => false,
        }
    }
}

impl Same for Op {
    fn same(&self, other: &Op) -> bool {
        self.name.list() == other.name.list()
            && self.pattern.list() == other.pattern.list()
            && self.kind.same(&other.kind)
    }
}

/// Whether a list begins with the items of another one.
fn begins_with<T: Same>(items: &[T], first: &[T]) -> bool
    ensures { IsTrue result ↔ ((more : List T) × (items.now ≡ first.now ++ more)) }
{
    if items.len() < first.len() {
        return false;
    }
    for (at, item) in first.iter().enumerate() {
        if !items[at].same(item) {
            return false;
        }
    }
    true
}

/// Whether two lists have the same items.
fn are_same<T: Same>(items: &[T], others: &[T]) -> bool
    ensures { IsTrue result ↔ (items.now ≡ others.now) }
{
    items.len() == others.len() && begins_with(items, others)
}

/// Whether two specifications are the same but for their operations.
fn is_same_but_operations(spec: &Spec, other: &Spec) -> bool
    ensures { IsTrue result ↔ IsSameButOperations spec.now other.now }
{
    are_same(spec.columns.list(), other.columns.list())
        && are_same(spec.deps.list(), other.deps.list())
        && are_same(spec.nodes.list(), other.nodes.list())
        && are_same(spec.edges.list(), other.edges.list())
        && are_same(spec.classes.list(), other.classes.list())
        && are_same(spec.places.list(), other.places.list())
        && spec.most_rows == other.most_rows
}

/// Whether the later specification is the earlier one, with further operations behind its own. Costs as much as both have items.
pub(crate) fn is_further(earlier: &Spec, later: &Spec) -> bool
    ensures { IsTrue result ↔ Extends earlier.now later.now }
{
    is_same_but_operations(earlier, later) && begins_with(later.ops.list(), earlier.ops.list())
}

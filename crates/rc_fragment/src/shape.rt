//! What a fragment knows of the edges.

ghost use Rattle.std.specs.Prelude.{◌≡◌, ◌<◌, length};
ghost use Rattle.std.specs.List.{find};
ghost use Rattle.rc_tuple.specs.ColSet.{IsColSet};
ghost use Rattle.rc_edges.specs.Values.{values_eq};
ghost use Rattle.rc_spec.specs.Decomposition.{edge_at};
ghost use Rattle.rc_spec.specs.Fragments.{edge_numbers};
ghost use Rattle.rc_fragment.specs.Fragment.{is_below, is_hash, lower_of, may_be_implied, shape_of};
ghost use Rattle.rc_fragment.specs.ImpliedTables.{is_kept_of_class};
ghost use Rattle.rc_fragment.specs.RowValues.{extra_columns};

use rc_spec::{Accepted, EdgeKind};
use rc_tuple::ColSet;

/// What a fragment knows of an edge: the columns of its source, of its key and of its target, the kind
/// of its containers, the number of its lock class, and the edge below it whose rows tell its rows, if
/// there is one.
#[derive(Clone, Copy, Debug)]
pub struct EdgeShape {
    pub source: ColSet,
    pub key: ColSet,
    pub target: ColSet,
    pub kind: EdgeKind,
    pub class: u8,
    pub lower: Option<u8>,
}

impl EdgeShape {
    /// What is known of the edge with this number.
    pub(crate) fn of(accepted: &Accepted, number: u8) -> EdgeShape
        requires { number < length accepted.now.edges }
        ensures { result ≡ shape_of accepted.now number }
    {
        let spec = accepted.spec();
        let edge = spec.edge(number);
        EdgeShape {
            source: spec.bound(edge.from),
            key: edge.key,
            target: spec.bound(edge.to),
            kind: edge.kind,
            class: accepted.class_of(number),
            lower: lower_of(accepted, number),
        }
    }

    /// Whether the edge is of the class, and its rows are kept.
    pub(crate) fn is_kept_of(&self, class: u8) -> bool
        ensures { result ≡ is_kept_of_class class self.now }
    {
        self.class == class && self.lower.is_none()
    }

    /// The columns of the target that neither source nor key has.
    pub fn extra(&self) -> ColSet
        ensures columns { result ≡ extra_columns self.now }
        ensures set { IsColSet result }
    {
        self.target.minus(self.source.union(self.key))
    }
}

/// The edge whose rows tell those of this one, if there is one.
fn lower_of(accepted: &Accepted, number: u8) -> Option<u8>
    requires { number < length accepted.now.edges }
    ensures { result ≡ lower_of accepted.now number }
{
    if may_be_implied(accepted, number) {
        first_below(accepted, number)
    } else {
        None
    }
}

/// The first edge that is below this one, if one is.
fn first_below(accepted: &Accepted, number: u8) -> Option<u8>
    requires { number < length accepted.now.edges }
    ensures { result ≡ find (is_below accepted.now number) (edge_numbers accepted.now) }
{
    let edges = accepted.spec().edges.list().len() as u8;
    (0..edges).find(|lower| is_below(accepted, number, *lower))
}

/// Whether the edge's rows may be told by those of another.
fn may_be_implied(accepted: &Accepted, number: u8) -> bool
    requires { number < length accepted.now.edges }
    ensures { result ≡ may_be_implied accepted.now (edge_at accepted.now number) }
{
    let spec = accepted.spec();
    let edge = spec.edge(number);
    are_same(spec.bound(edge.from), ColSet::empty())
        && are_same(edge.key, spec.bound(edge.to))
        && !are_same(edge.key, ColSet::empty())
        && is_hash(edge.kind)
}

/// Whether two sets have the same columns.
fn are_same(left: ColSet, right: ColSet) -> bool
    ensures { result ≡ values_eq left right }
{
    left.equals(right)
}

/// Whether it is the kind hash.
fn is_hash(kind: EdgeKind) -> bool
    ensures { result ≡ is_hash kind }
{
    match kind {
        EdgeKind::Hash => true,
        EdgeKind::Ordered | EdgeKind::List | EdgeKind::Singleton => false,
    }
}

/// Whether the lower edge's rows tell those of the upper one.
fn is_below(accepted: &Accepted, upper: u8, lower: u8) -> bool
    requires upper { upper < length accepted.now.edges }
    requires lower { lower < length accepted.now.edges }
    ensures { result ≡ is_below accepted.now upper lower }
{
    let spec = accepted.spec();
    let source = spec.bound(spec.edge(lower).from);
    let target = spec.bound(spec.edge(upper).to);
    accepted.class_of(lower) == accepted.class_of(upper) && are_same(source, target)
}

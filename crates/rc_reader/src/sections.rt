//! The sections of a specification, as a table, and what a line's kind alone may break: limits and
//! order.

ghost use Rattle.std.specs.Prelude.{◌≡◌};
ghost use Rattle.std.specs.List.{list_any, position_or_len};
ghost use Rattle.rc_reader.specs.Sections.{limit_in, sections, is_kind, row_of, limit_of};
ghost use Rattle.rc_reader.specs.Sections.{line_count, has_lines, has_later, is_full, is_misplaced};

use crate::version::Version;
use rc_spec::{MAX_CLASSES, MAX_DEPS, MAX_EDGES, MAX_NODES, Spec};

/// The kinds of lines: the header, those of the sections, and `end`.
#[derive(Clone, Copy, Debug)]
pub enum LineKind {
    /// The first line.
    Header,
    /// A column of the relation.
    Column,
    /// A functional dependency.
    Dependency,
    /// A node of the decomposition.
    Node,
    /// An edge of the decomposition.
    Edge,
    /// A lock class.
    Lock,
    /// The placement of an edge on a class.
    Place,
    /// An operation.
    Operation,
    /// The last line.
    End,
}

/// The most lines of a section.
#[derive(Clone, Copy, Debug)]
pub(crate) enum Limit {
    /// The same in a text of either version.
    Fixed(usize),
    /// One in a text of the first version, and another in a text of the second.
    ByVersion(usize, usize),
}

impl Limit {
    /// The limit in a text of the version.
    fn in_version(self, version: Version) -> usize
        ensures { result ≡ limit_in version self }
    {
        match self {
            Limit::Fixed(most) => most,
            Limit::ByVersion(first, second) => match version {
                Version::One => first,
                Version::Two => second,
            },
        }
    }
}

/// The most columns of a text of the first version.
const MAX_COLUMNS_OF_ONE: usize = 16;

/// The most columns of a text of the second version, as many as a specification may have.
const MAX_COLUMNS_OF_TWO: usize = 32;

/// The most operations of a text, of which an accepted specification may have more.
const MAX_TEXT_OPS: usize = 32;

/// A section: the kind of its lines, and the most of them that a text may have.
type Section = (LineKind, Limit);

/// The sections in their order.
const SECTIONS: [Section; 7] = [
    (
        LineKind::Column,
        Limit::ByVersion(MAX_COLUMNS_OF_ONE, MAX_COLUMNS_OF_TWO),
    ),
    (LineKind::Dependency, Limit::Fixed(MAX_DEPS)),
    (LineKind::Node, Limit::Fixed(MAX_NODES)),
    (LineKind::Edge, Limit::Fixed(MAX_EDGES)),
    (LineKind::Lock, Limit::Fixed(MAX_CLASSES)),
    (LineKind::Place, Limit::Fixed(MAX_EDGES)),
    (LineKind::Operation, Limit::Fixed(MAX_TEXT_OPS)),
];

fn is_kind(kind: LineKind, other: LineKind) -> bool
    ensures { result ≡ is_kind kind other }
{
    kind as u8 == other as u8
}

/// The place of a kind's row among these, or their number where none is of the kind.
fn row_among(rows: &[Section], kind: LineKind) -> usize
    ensures { result ≡ position_or_len (λ row. is_kind kind row.0) rows.now }
{
    for (place, row) in rows.iter().enumerate() {
        if is_kind(kind, row.0) {
            return place;
        }
    }
    rows.len()
}

/// The place of a kind's row in the table, or the table's length where it has none.
fn row_of(kind: LineKind) -> usize
    ensures { result ≡ row_of kind }
{
    row_among(&SECTIONS, kind)
}

/// How many lines of a kind there may be in a text of the version, where the table has a row for
/// it.
fn limit_of(version: Version, kind: LineKind) -> Option<usize>
    ensures { result ≡ limit_of version kind }
{
    SECTIONS
        .get(row_of(kind))
        .map(|(_, limit)| limit.in_version(version))
}

/// How many lines of a kind were read.
fn line_count(spec: &Spec, kind: LineKind) -> usize
    ensures { result ≡ line_count spec.now kind }
{
    match kind {
        LineKind::Column => spec.columns.list().len(),
        LineKind::Dependency => spec.deps.list().len(),
        LineKind::Node => spec.nodes.list().len(),
        LineKind::Edge => spec.edges.list().len(),
        LineKind::Lock => spec.classes.list().len(),
        LineKind::Place => spec.places.list().len(),
        LineKind::Operation => spec.ops.list().len(),
        LineKind::Header | LineKind::End => 0,
    }
}

fn has_lines(spec: &Spec, kind: LineKind) -> bool
    ensures { result ≡ has_lines (line_count spec.now) kind }
{
    line_count(spec, kind) != 0
}

/// Whether a line of one of these sections was read.
fn has_any(spec: &Spec, rows: &[Section]) -> bool
    ensures { result ≡ list_any (λ row. has_lines (line_count spec.now) row.0) rows.now }
{
    rows.iter().any(|row| has_lines(spec, row.0))
}

/// Whether a line of a section behind that of this kind was read.
fn has_later(spec: &Spec, kind: LineKind) -> bool
    ensures { result ≡ has_later (line_count spec.now) kind }
{
    let behind = row_of(kind) + 1;
    behind < SECTIONS.len() && has_any(spec, &SECTIONS[behind..])
}

/// Whether as many lines of the kind were read as there may be in a text of the version.
pub(crate) fn is_full(version: Version, spec: &Spec, kind: LineKind) -> bool
    ensures { result ≡ is_full version (line_count spec.now) kind }
{
    match limit_of(version, kind) {
        Some(most) => line_count(spec, kind) >= most,
        None => false,
    }
}

/// Whether a line of this kind comes too late, or `end` too early.
pub(crate) fn is_misplaced(spec: &Spec, kind: LineKind) -> bool
    ensures { result ≡ is_misplaced (line_count spec.now) kind }
{
    match kind {
        LineKind::Header => true,
        LineKind::End => {
            line_count(spec, LineKind::Column) == 0 || line_count(spec, LineKind::Node) == 0
        }
        _ => has_later(spec, kind),
    }
}

//! Looks the words of a line up among the items of the lines before it: a function for each form.

ghost use Rattle.std.specs.Prelude.{◌≡◌, IfOk};
ghost use Rattle.rc_spec.specs.InRange.{IsInRange};
ghost use Rattle.rc_reader.specs.Forms.{texts, form_text, column_line, dependency_line, node_line};
ghost use Rattle.rc_reader.specs.Forms.{edge_line, lock_line, place_line, query_line, insert_line};
ghost use Rattle.rc_reader.specs.Forms.{remove_line, update_line};
ghost use Rattle.rc_reader.specs.Found.{found_line, found_change, found_mark};

use crate::forms::Form;
use crate::names::{is_refused_name, named_columns, number_among, repeat_in_both};
use crate::sections::LineKind;
use rc_spec::{Class, ColKind, Column, Edge, EdgeKind, Name, Node, Op, OpKind, Place, Spec};
use rc_tuple::{Dep, Memory};
use std::alloc::Global;

/// What a line adds to a specification.
#[derive(Debug, Drop)]
pub(crate) enum Addition {
    /// The header and `end` add nothing.
    Nothing,
    Column(Column),
    Dependency(Dep),
    Node(Node),
    Edge(Edge),
    Class(Class),
    Place(Place),
    Operation(Op),
}

/// A line, with its words looked up.
#[derive(Debug, Drop)]
pub(crate) struct FoundLine {
    pub(crate) kind: LineKind,
    /// Its own name is refused, or a list names a column twice.
    pub(crate) breaks_names: bool,
    /// A word names nothing.
    pub(crate) breaks_known: bool,
    /// Its number is out of range.
    pub(crate) breaks_range: bool,
    /// What it adds where it breaks no rule. A word that names nothing has the number 0 in it.
    pub(crate) addition: Addition,
}

fn found_column(alloc: Global, spec: &Spec, name: &[u8], kind: ColKind) -> Result<FoundLine, Memory>
    ensures { IfOk result (λ line. line ≡ found_line spec.now (column_line name.now kind)) }
{
    Ok(FoundLine {
        kind: LineKind::Column,
        breaks_names: is_refused_name(spec.columns.list(), name),
        breaks_known: false,
        breaks_range: false,
        addition: Addition::Column(Column {
            name: Name::from_slice(alloc, name)?,
            kind,
        }),
    })
}

fn found_dependency(
    alloc: Global,
    spec: &Spec,
    left: &[&[u8]],
    right: &[&[u8]],
) -> Result<FoundLine, Memory>
    requires { IsInRange spec.now }
    ensures { IfOk result (λ line. line
        ≡ found_line spec.now (dependency_line (texts left.now) (texts right.now))) }
{
    let left = named_columns(alloc, spec.columns.list(), left)?;
    let right = named_columns(alloc, spec.columns.list(), right)?;
    Ok(FoundLine {
        kind: LineKind::Dependency,
        breaks_names: left.names_twice || right.names_twice,
        breaks_known: left.has_unknown || right.has_unknown,
        breaks_range: false,
        addition: Addition::Dependency(Dep {
            left: left.set,
            right: right.set,
        }),
    })
}

fn found_node(
    alloc: Global,
    spec: &Spec,
    name: &[u8],
    columns: &[&[u8]],
) -> Result<FoundLine, Memory>
    requires { IsInRange spec.now }
    ensures { IfOk result (λ line. line
        ≡ found_line spec.now (node_line name.now (texts columns.now))) }
{
    let columns = named_columns(alloc, spec.columns.list(), columns)?;
    Ok(FoundLine {
        kind: LineKind::Node,
        breaks_names: is_refused_name(spec.nodes.list(), name) || columns.names_twice,
        breaks_known: columns.has_unknown,
        breaks_range: false,
        addition: Addition::Node(Node {
            name: Name::from_slice(alloc, name)?,
            cols: columns.set,
        }),
    })
}

fn found_edge(
    alloc: Global,
    spec: &Spec,
    name: &[u8],
    from: &[u8],
    to: &[u8],
    kind: EdgeKind,
    key: &[&[u8]],
) -> Result<FoundLine, Memory>
    requires { IsInRange spec.now }
    ensures { IfOk result (λ line. line
        ≡ found_line spec.now (edge_line name.now from.now to.now kind (texts key.now))) }
{
    let from = number_among(spec.nodes.list(), from);
    let to = number_among(spec.nodes.list(), to);
    let key = named_columns(alloc, spec.columns.list(), key)?;
    Ok(FoundLine {
        kind: LineKind::Edge,
        breaks_names: is_refused_name(spec.edges.list(), name) || key.names_twice,
        breaks_known: from.is_none() || to.is_none() || key.has_unknown,
        breaks_range: false,
        addition: Addition::Edge(Edge {
            name: Name::from_slice(alloc, name)?,
            from: from.unwrap_or(0) as u8,
            to: to.unwrap_or(0) as u8,
            kind,
            key: key.set,
        }),
    })
}

fn found_lock(
    alloc: Global,
    spec: &Spec,
    name: &[u8],
    stripes: Option<u32>,
    columns: &[&[u8]],
) -> Result<FoundLine, Memory>
    requires { IsInRange spec.now }
    ensures { IfOk result (λ line. line
        ≡ found_line spec.now (lock_line name.now stripes (texts columns.now))) }
{
    let columns = named_columns(alloc, spec.columns.list(), columns)?;
    Ok(FoundLine {
        kind: LineKind::Lock,
        breaks_names: is_refused_name(spec.classes.list(), name) || columns.names_twice,
        breaks_known: columns.has_unknown,
        breaks_range: stripes.is_none(),
        addition: Addition::Class(Class {
            name: Name::from_slice(alloc, name)?,
            stripes: stripes.unwrap_or(0),
            cols: columns.set,
        }),
    })
}

fn found_place(spec: &Spec, edge: &[u8], class: &[u8]) -> FoundLine
    requires { IsInRange spec.now }
    ensures { result ≡ found_line spec.now (place_line edge.now class.now) }
{
    let edge = number_among(spec.edges.list(), edge);
    let class = number_among(spec.classes.list(), class);
    FoundLine {
        kind: LineKind::Place,
        breaks_names: false,
        breaks_known: edge.is_none() || class.is_none(),
        breaks_range: false,
        addition: Addition::Place(Place {
            edge: edge.unwrap_or(0) as u8,
            class: class.unwrap_or(0) as u8,
        }),
    }
}

fn found_query(
    alloc: Global,
    spec: &Spec,
    name: &[u8],
    pattern: &[&[u8]],
    ranges: &[&[u8]],
    outs: &[&[u8]],
) -> Result<FoundLine, Memory>
    requires { IsInRange spec.now }
    ensures { IfOk result (λ line. line ≡ found_line spec.now
        (query_line name.now (texts pattern.now) (texts ranges.now) (texts outs.now))) }
{
    let pattern = named_columns(alloc, spec.columns.list(), pattern)?;
    let ranges = named_columns(alloc, spec.columns.list(), ranges)?;
    let outs = named_columns(alloc, spec.columns.list(), outs)?;
    Ok(FoundLine {
        kind: LineKind::Operation,
        breaks_names: is_refused_name(spec.ops.list(), name) || repeat_in_both(&pattern, &ranges),
        breaks_known: pattern.has_unknown || ranges.has_unknown || outs.has_unknown,
        breaks_range: false,
        addition: Addition::Operation(Op {
            name: Name::from_slice(alloc, name)?,
            pattern: pattern.numbers,
            kind: OpKind::Query {
                outs: outs.numbers,
                ranges: ranges.numbers,
            },
        }),
    })
}

/// An insert, a remove or an update.
fn found_change(
    alloc: Global,
    spec: &Spec,
    name: &[u8],
    pattern: &[&[u8]],
    kind: OpKind,
) -> Result<FoundLine, Memory>
    requires { IsInRange spec.now }
    ensures { IfOk result (λ line. line
        ≡ found_change spec.now name.now (texts pattern.now) kind) }
{
    let pattern = named_columns(alloc, spec.columns.list(), pattern)?;
    Ok(FoundLine {
        kind: LineKind::Operation,
        breaks_names: is_refused_name(spec.ops.list(), name) || pattern.names_twice,
        breaks_known: pattern.has_unknown,
        breaks_range: false,
        addition: Addition::Operation(Op {
            name: Name::from_slice(alloc, name)?,
            pattern: pattern.numbers,
            kind,
        }),
    })
}

/// The header and `end`, which have no word to look up.
fn found_mark(kind: LineKind) -> FoundLine
    ensures { result ≡ found_mark kind }
{
    FoundLine {
        kind,
        breaks_names: false,
        breaks_known: false,
        breaks_range: false,
        addition: Addition::Nothing,
    }
}

/// A line of this form, with its words looked up.
pub(crate) fn found_line(alloc: Global, spec: &Spec, form: Form<'_>) -> Result<FoundLine, Memory>
    requires { IsInRange spec.now }
    ensures { IfOk result (λ line. line ≡ found_line spec.now (form_text form.entry)) }
{
    match form {
        Form::Header => Ok(found_mark(LineKind::Header)),
        Form::Column(name, kind) => found_column(alloc, spec, name, kind),
        Form::Dependency(left, right) => found_dependency(alloc, spec, left, right),
        Form::Node(name, columns) => found_node(alloc, spec, name, columns),
        Form::Edge(name, from, to, kind, key) => {
            found_edge(alloc, spec, name, from, to, kind, key)
        }
        Form::Lock(name, stripes, columns) => found_lock(alloc, spec, name, stripes, columns),
        Form::Place(edge, class) => Ok(found_place(spec, edge, class)),
        Form::Query {
            name,
            pattern,
            ranges,
            outs,
        } => found_query(alloc, spec, name, pattern, ranges, outs),
        Form::Insert(name, pattern) => found_change(alloc, spec, name, pattern, OpKind::Insert),
        Form::Remove(name, pattern) => found_change(alloc, spec, name, pattern, OpKind::Remove),
        Form::Update(name, pattern) => found_change(alloc, spec, name, pattern, OpKind::Update),
        Form::End => Ok(found_mark(LineKind::End)),
    }
}

//! The sample: a directed graph with weights.

ghost use Rattle.std.specs.Prelude.{◌≡◌, ◌<◌, ◌+◌, [], ◌∷◌, IfOk};
ghost use Rattle.rc_spec.specs.declared.items.ColKind.TheVariants.{Num};
ghost use Rattle.rc_spec.specs.declared.items.OpKind.TheVariants.{Query};
ghost use Rattle.rc_spec.specs.Acceptance.{IsAccepted};
ghost use Rattle.rc_spec.specs.Names.{IsWellNamed};
ghost use Rattle.rc_generate.specs.Sample.{sample_graph};

use rc_spec::{
    Class, Classes, ColKind, Column, Columns, Deps, Edge, EdgeKind, Edges, MAX_ROWS, Name, Node,
    Nodes, Op, OpKind, Ops, Place, Places, Spec, WellFormed,
};
use rc_tuple::{ColSet, Cols, Dep, Memory};
use std::alloc::Global;

/// The column of an edge's source.
pub(crate) const SOURCE: u8 = 0;
/// The column of its target.
pub(crate) const TARGET: u8 = 1;
/// The column of its weight.
pub(crate) const WEIGHT: u8 = 2;

/// The operation that adds an edge with a weight.
pub(crate) const INSERT: u8 = 0;
/// The operation that takes an edge out.
pub(crate) const REMOVE: u8 = 1;
/// The query for the targets of a source, with their weights.
pub(crate) const SUCCESSORS: u8 = 2;

/// The set of the source alone.
pub(crate) fn source() -> ColSet
    ensures { result ≡ 0 ∷ [] }
{
    ColSet::empty().with(SOURCE)
}

/// The set of the source and the target, which tell edges apart.
pub(crate) fn source_and_target() -> ColSet
    ensures { result ≡ 0 ∷ 1 ∷ [] }
{
    source().with(TARGET)
}

/// The set of all columns.
pub(crate) fn all_columns() -> ColSet
    ensures { result ≡ 0 ∷ 1 ∷ 2 ∷ [] }
{
    source_and_target().with(WEIGHT)
}

/// The set of one column.
fn only(col: u8) -> ColSet
    requires { col < 32 }
    ensures { result ≡ col ∷ [] }
{
    ColSet::empty().with(col)
}

fn column(alloc: Global, name: &[u8]) -> Result<Column, Memory>
    ensures { IfOk result (λ column. column ≡ record { name = name.now; kind = Num }) }
{
    Ok(Column {
        name: Name::from_slice(alloc, name)?,
        kind: ColKind::Num,
    })
}

fn columns(alloc: Global) -> Result<Columns, Memory>
    ensures { IfOk result (λ columns. columns ≡ sample_graph.columns) }
{
    let mut columns = Columns::new(alloc);
    columns.push(column(alloc, b"src")?)?;
    columns.push(column(alloc, b"dst")?)?;
    columns.push(column(alloc, b"weight")?)?;
    Ok(columns)
}

fn deps(alloc: Global) -> Result<Deps, Memory>
    ensures { IfOk result (λ deps. deps ≡ sample_graph.deps) }
{
    let mut deps = Deps::new(alloc);
    deps.push(Dep {
        left: source_and_target(),
        right: only(WEIGHT),
    })?;
    Ok(deps)
}

fn node(alloc: Global, name: &[u8], cols: ColSet) -> Result<Node, Memory>
    ensures { IfOk result (λ node. node ≡ record { name = name.now; cols = cols }) }
{
    Ok(Node {
        name: Name::from_slice(alloc, name)?,
        cols,
    })
}

fn nodes(alloc: Global) -> Result<Nodes, Memory>
    ensures { IfOk result (λ nodes. nodes ≡ sample_graph.nodes) }
{
    let mut nodes = Nodes::new(alloc);
    nodes.push(node(alloc, b"root", ColSet::empty())?)?;
    nodes.push(node(alloc, b"u", source())?)?;
    nodes.push(node(alloc, b"w", source_and_target())?)?;
    nodes.push(node(alloc, b"z", all_columns())?)?;
    Ok(nodes)
}

/// The edge from a node to the next one.
fn edge(alloc: Global, name: &[u8], from: u8, kind: EdgeKind, key: ColSet) -> Result<Edge, Memory>
    requires { from < 255 }
    ensures { IfOk result (λ edge. edge ≡ record { name = name.now; from = from; to = from + 1; kind = kind; key = key }) }
{
    Ok(Edge {
        name: Name::from_slice(alloc, name)?,
        from,
        to: from + 1,
        kind,
        key,
    })
}

fn edges(alloc: Global) -> Result<Edges, Memory>
    ensures { IfOk result (λ edges. edges ≡ sample_graph.edges) }
{
    let mut edges = Edges::new(alloc);
    edges.push(edge(alloc, b"e1", 0, EdgeKind::Hash, source())?)?;
    edges.push(edge(alloc, b"e2", 1, EdgeKind::Ordered, only(TARGET))?)?;
    edges.push(edge(alloc, b"e3", 2, EdgeKind::Singleton, only(WEIGHT))?)?;
    Ok(edges)
}

/// A lock class whose stripe the source chooses.
fn class(alloc: Global, name: &[u8], stripes: u32) -> Result<Class, Memory>
    ensures { IfOk result (λ class. class ≡ record { name = name.now; stripes = stripes; cols = 0 ∷ [] }) }
{
    Ok(Class {
        name: Name::from_slice(alloc, name)?,
        stripes,
        cols: source(),
    })
}

fn classes(alloc: Global) -> Result<Classes, Memory>
    ensures { IfOk result (λ classes. classes ≡ sample_graph.classes) }
{
    let mut classes = Classes::new(alloc);
    classes.push(class(alloc, b"k1", 8)?)?;
    classes.push(class(alloc, b"k2", 4)?)?;
    Ok(classes)
}

fn places(alloc: Global) -> Result<Places, Memory>
    ensures { IfOk result (λ places. places ≡ sample_graph.places) }
{
    let mut places = Places::new(alloc);
    places.push(Place { edge: 0, class: 0 })?;
    places.push(Place { edge: 1, class: 1 })?;
    places.push(Place { edge: 2, class: 1 })?;
    Ok(places)
}

fn op(alloc: Global, name: &[u8], pattern: &[u8], kind: OpKind) -> Result<Op, Memory>
    ensures { IfOk result (λ op. op ≡ record { name = name.now; pattern = pattern.now; kind = kind }) }
{
    Ok(Op {
        name: Name::from_slice(alloc, name)?,
        pattern: Cols::from_slice(alloc, pattern)?,
        kind,
    })
}

/// A query of these outputs.
fn query(alloc: Global, name: &[u8], pattern: &[u8], outs: &[u8]) -> Result<Op, Memory>
    ensures { IfOk result (λ op. op ≡ record { name = name.now; pattern = pattern.now; kind = Query outs.now [] }) }
{
    let kind = OpKind::Query {
        outs: Cols::from_slice(alloc, outs)?,
        ranges: Cols::new(alloc),
    };
    op(alloc, name, pattern, kind)
}

fn ops(alloc: Global) -> Result<Ops, Memory>
    ensures { IfOk result (λ ops. ops ≡ sample_graph.ops) }
{
    let mut ops = Ops::new(alloc);
    ops.push(op(alloc, b"ins", &[SOURCE, TARGET], OpKind::Insert)?)?;
    ops.push(op(alloc, b"del", &[SOURCE, TARGET], OpKind::Remove)?)?;
    ops.push(query(alloc, b"succ", &[SOURCE], &[TARGET, WEIGHT])?)?;
    ops.push(query(alloc, b"find", &[SOURCE, TARGET], &[WEIGHT])?)?;
    Ok(ops)
}

/// The sample specification: a directed graph with weights, decomposed by the source of an edge, in a hashed map, and then
/// by its target, in order. Two lock classes are striped by the source. It has operations to add an edge, to take one out,
/// to find the targets of a source and to find a weight. (PLDI 2011 and 2012 use such a graph throughout.)
pub fn sample_spec(alloc: Global) -> Result<WellFormed, Memory>
    ensures value { IfOk result (λ spec. spec ≡ sample_graph) }
    ensures named { IfOk result IsWellNamed }
    ensures accepted { IfOk result IsAccepted }
{
    Ok(WellFormed::new(Spec {
        columns: columns(alloc)?,
        deps: deps(alloc)?,
        nodes: nodes(alloc)?,
        edges: edges(alloc)?,
        classes: classes(alloc)?,
        places: places(alloc)?,
        ops: ops(alloc)?,
        most_rows: MAX_ROWS,
    }))
}

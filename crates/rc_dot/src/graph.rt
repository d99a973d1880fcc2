//! Nodes and edges.

ghost use Rattle.std.specs.Prelude.{◌≡◌, ◌<◌, ◌++◌, [], ◌∷◌, length, codes, OnOk};
ghost use Rattle.std.specs.List.{flat_map, range_with_len};
ghost use Rattle.rc_spec.specs.InRange.{IsInRange, IsSetBelow};
ghost use Rattle.rc_spec.specs.Placement.{class_of};
ghost use Rattle.rc_dot.specs.Dot.{container_text, drawn_edge, edge_line, ends_text, graph_text, head_text, label_text, node_line, number_text, reads_text, stroke_text, style_text, width_text};

use crate::reading::read_numbers;
use crate::words::{colour_of, push_columns};
use rc_plan::Statement;
use rc_spec::{Accepted, EdgeKind, Named, Node, Spec};
use rc_text::{push_bytes, push_u64};
use rc_tuple::Memory;

/// Appends the beginning of a drawing, the nodes, and the edges with what a plan reads of them.
pub(crate) fn push_graph(
    text: &mut Vec<u8>,
    accepted: &Accepted,
    plan: &[Statement],
) -> Result<(), Memory>
    ensures { OnOk result (text.new.items ≡ text.old.items ++ graph_text accepted.now plan.now) }
{
    let spec = accepted.spec();
    push_bytes(text, head())?;
    push_nodes(text, spec)?;
    push_edges(text, accepted, plan)
}

/// The beginning of a drawing.
#[tactic(auto, unfolding(crate::specs::Dot::head_text))]
fn head() -> &'static [u8]
    ensures { result.now ≡ head_text }
{
    b"digraph relc {
  node [shape=box, style=rounded, fontname=\"Helvetica\", fontsize=11];
  edge [fontname=\"Helvetica\", fontsize=10, arrowsize=0.7];
"
}

/// Appends a line for each node.
fn push_nodes(text: &mut Vec<u8>, spec: &Spec) -> Result<(), Memory>
    requires { IsInRange spec.now }
    ensures { OnOk result (text.new.items ≡ text.old.items
        ++ flat_map (node_line spec.now) spec.now.nodes) }
{
    for node in spec.nodes.list() {
        push_node(text, spec, node)?;
    }
    Ok(())
}

fn push_node(text: &mut Vec<u8>, spec: &Spec, node: &Node) -> Result<(), Memory>
    requires { IsSetBelow (length spec.now.columns) node.now.cols }
    ensures { OnOk result (text.new.items ≡ text.old.items ++ node_line spec.now node.now) }
{
    push_bytes(text, b"  \"")?;
    push_bytes(text, node.name())?;
    push_bytes(text, b"\" [label=\"")?;
    push_bytes(text, node.name())?;
    push_bytes(text, b"\\n{")?;
    push_columns(text, spec, node.cols)?;
    push_bytes(text, b"}\"];\n")
}

/// Appends a line for each edge.
fn push_edges(text: &mut Vec<u8>, accepted: &Accepted, plan: &[Statement]) -> Result<(), Memory>
    ensures { OnOk result (text.new.items ≡ text.old.items
        ++ flat_map (edge_line accepted.now plan.now)
        (range_with_len 0 (length accepted.now.edges))) }
{
    for edge in 0..accepted.spec().edges.list().len() as u8 {
        let numbers = read_numbers(*text.allocator(), plan, edge)?;
        push_edge(text, accepted, edge, &numbers)?;
    }
    Ok(())
}

/// Appends an edge, with the numbers of the statements that read it.
fn push_edge(
    text: &mut Vec<u8>,
    accepted: &Accepted,
    edge: u8,
    numbers: &[usize],
) -> Result<(), Memory>
    requires { edge < length accepted.now.edges }
    ensures { OnOk result (text.new.items ≡ text.old.items
        ++ drawn_edge accepted.now edge numbers.now) }
{
    push_ends(text, accepted.spec(), edge)?;
    push_label(text, accepted, edge, numbers)?;
    push_style(text, accepted, edge, numbers)
}

/// Appends the names of the edge's source and target.
fn push_ends(text: &mut Vec<u8>, spec: &Spec, edge: u8) -> Result<(), Memory>
    requires range { IsInRange spec.now }
    requires edge { edge < length spec.now.edges }
    ensures { OnOk result (text.new.items ≡ text.old.items ++ ends_text spec.now edge) }
{
    let drawn = spec.edge(edge);
    push_bytes(text, b"  \"")?;
    push_bytes(text, spec.nodes.list()[drawn.from as usize].name())?;
    push_bytes(text, b"\" -> \"")?;
    push_bytes(text, spec.nodes.list()[drawn.to as usize].name())?;
    push_bytes(text, b"\" [label=\" ")
}

/// Appends the edge's label.
fn push_label(
    text: &mut Vec<u8>,
    accepted: &Accepted,
    edge: u8,
    numbers: &[usize],
) -> Result<(), Memory>
    requires { edge < length accepted.now.edges }
    ensures { OnOk result (text.new.items ≡ text.old.items
        ++ label_text accepted.now edge numbers.now) }
{
    let spec = accepted.spec();
    let drawn = spec.edge(edge);
    push_bytes(text, drawn.name())?;
    push_bytes(text, container_text(drawn.kind))?;
    push_columns(text, spec, drawn.key)?;
    push_bytes(text, b")\\l lock ")?;
    push_bytes(text, spec.class(accepted.class_of(edge)).name())?;
    push_bytes(text, b"\\l")?;
    push_reads(text, numbers)
}

/// The container of an edge in its label.
fn container_text(kind: EdgeKind) -> &'static [u8]
    ensures { result.now ≡ container_text kind }
{
    match kind {
        EdgeKind::Hash => b" hash (",
        EdgeKind::Ordered => b" ordered (",
        EdgeKind::List => b" list (",
        EdgeKind::Singleton => b" singleton (",
    }
}

/// Appends the numbers of the statements that read an edge, where there are some.
fn push_reads(text: &mut Vec<u8>, numbers: &[usize]) -> Result<(), Memory>
    ensures { OnOk result (text.new.items ≡ text.old.items ++ reads_text numbers.now) }
{
    if numbers.is_empty() {
        return Ok(());
    }
    push_bytes(text, b" read at")?;
    push_numbers(text, numbers)?;
    push_bytes(text, b"\\l")
}

/// Appends numbers, each behind a space.
fn push_numbers(text: &mut Vec<u8>, numbers: &[usize]) -> Result<(), Memory>
    ensures { OnOk result (text.new.items ≡ text.old.items ++ flat_map number_text numbers.now) }
{
    for number in numbers {
        push_bytes(text, b" ")?;
        push_u64(text, *number as u64)?;
    }
    Ok(())
}

/// Appends how the edge is drawn.
fn push_style(
    text: &mut Vec<u8>,
    accepted: &Accepted,
    edge: u8,
    numbers: &[usize],
) -> Result<(), Memory>
    requires { edge < length accepted.now.edges }
    ensures { OnOk result (text.new.items ≡ text.old.items
        ++ style_text accepted.now edge numbers.now) }
{
    let kind = accepted.spec().edge(edge).kind;
    let colour = colour_of(accepted.class_of(edge));
    push_bytes(text, b"\", style=")?;
    push_bytes(text, stroke_text(kind))?;
    push_bytes(text, width_text(kind, numbers))?;
    push_bytes(text, b", color=\"")?;
    push_bytes(text, colour)?;
    push_bytes(text, b"\", fontcolor=\"")?;
    push_bytes(text, colour)?;
    push_bytes(text, b"\"];\n")
}

/// How the arrow of an edge is drawn.
fn stroke_text(kind: EdgeKind) -> &'static [u8]
    ensures { result.now ≡ stroke_text kind }
{
    match kind {
        EdgeKind::Hash => b"solid",
        EdgeKind::Ordered => b"dashed",
        EdgeKind::List => b"bold",
        EdgeKind::Singleton => b"dotted",
    }
}

/// How thick the arrow is, where some statement reads the edge.
fn width_text(kind: EdgeKind, numbers: &[usize]) -> &'static [u8]
    ensures { result.now ≡ width_text kind numbers.now }
{
    if numbers.is_empty() {
        return b"";
    }
    match kind {
        EdgeKind::List => b", penwidth=5",
        EdgeKind::Hash | EdgeKind::Ordered | EdgeKind::Singleton => b", penwidth=3",
    }
}

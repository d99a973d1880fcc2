ghost use Rattle.std.specs.Prelude.{◌↔◌, IsTrue};
ghost use Rattle.rc_spec.specs.InRange.{HasColumnAndNode};
ghost use Rattle.rc_spec.specs.Adequacy.{HasEdgeInto, HasEdgeOutOf, IsRoot, KeepsA1};

use rc_spec::Spec;

/// Whether an edge enters the node.
fn has_edge_in(spec: &Spec, node: u8) -> bool
    ensures { IsTrue result ↔ HasEdgeInto spec.now node }
{
    spec.edges.list().iter().any(|edge| edge.to == node)
}

/// Whether an edge leaves the node.
fn has_edge_out(spec: &Spec, node: u8) -> bool
    ensures { IsTrue result ↔ HasEdgeOutOf spec.now node }
{
    spec.edges.list().iter().any(|edge| edge.from == node)
}

/// Whether the first node is the root.
fn begins_with_root(spec: &Spec) -> bool
    requires { HasColumnAndNode spec.now }
    ensures { IsTrue result ↔ IsRoot spec.now 0 }
{
    spec.nodes.list()[0].cols.is_empty() && !has_edge_in(spec, 0) && has_edge_out(spec, 0)
}

/// Whether the node keeps rule A1.
pub fn keeps_a1(spec: &Spec, node: u8) -> bool
    requires { HasColumnAndNode spec.now }
    ensures { IsTrue result ↔ KeepsA1 spec.now node }
{
    if node == 0 {
        begins_with_root(spec)
    } else {
        has_edge_in(spec, node)
    }
}

//! The drawings.

ghost use Rattle.std.specs.Prelude.{◌≡◌, ◌<◌, length, IfOk};
ghost use Rattle.rc_plan.specs.PlanRules.{AreKnown};
ghost use Rattle.rc_dot.specs.Dot.{drawing_text, plan_drawing_text};

use crate::graph::push_graph;
use crate::tables::{push_classes, push_plan};
use rc_plan::Plan;
use rc_spec::Accepted;
use rc_text::push_bytes;
use rc_tuple::Memory;
use std::alloc::Global;

/// The drawing of a specification: a box for each node with its columns, and an arrow for each edge
/// with its container, its key and its lock class, whose colour it has; and a table of the lock
/// classes in the order in which they are taken. Each line of the text ends with a line feed. Names
/// are written as they are: where they are names of the text language (`IsWellNamed`), the text is
/// meant as a digraph in the language of Graphviz. `Err` where memory is wanted. Costs the text's
/// length, for each edge the placements, and for each class those before it.
pub fn print_drawing(alloc: Global, accepted: &Accepted) -> Result<Vec<u8>, Memory>
    ensures { IfOk result (λ text. text.items ≡ drawing_text accepted.now) }
{
    let mut text = Vec::new(alloc);
    push_graph(&mut text, accepted, &[])?;
    push_classes(&mut text, accepted)?;
    push_bytes(&mut text, b"}\n")?;
    Ok(text)
}

/// The same drawing with the plan of an operation: a table of its statements with their numbers,
/// from 0, and those edges thick that it reads, with the numbers of the statements that read them.
/// `Err` where memory is wanted. Costs the text's length, for each edge the placements and the
/// plan, and for each class those before it.
pub fn print_plan_drawing(
    alloc: Global,
    accepted: &Accepted,
    op: u8,
    plan: &Plan,
) -> Result<Vec<u8>, Memory>
    requires op { op < length accepted.now.ops }
    requires known { AreKnown accepted.now plan.now }
    ensures { IfOk result (λ text. text.items ≡ plan_drawing_text accepted.now op plan.now) }
{
    let mut text = Vec::new(alloc);
    push_graph(&mut text, accepted, plan.list())?;
    push_classes(&mut text, accepted)?;
    push_plan(&mut text, accepted.spec(), op, plan.list())?;
    push_bytes(&mut text, b"}\n")?;
    Ok(text)
}

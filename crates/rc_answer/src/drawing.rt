//! Writes drawings of a specification.

ghost use Rattle.std.specs.Prelude.{◌≡◌, ◌<◌, length};
ghost use Rattle.rc_answer.specs.Answers.{IsPlanDrawingNamed, IsDrawing, IsPlanDrawing};
ghost use Rattle.rc_answer.specs.Writes.{CountsFaults, Writes};

use crate::refusing::refuse_operation;
use crate::status::{Status, Stop};
use crate::writing::write_text;
use rc_dot::{print_drawing, print_plan_drawing};
use rc_io::Sink;
use rc_mutate::compile;
use rc_reader::number_among;
use rc_spec::Accepted;
use std::alloc::Global;

/// Writes the drawing of an accepted specification.
pub(crate) fn write_drawing<K: Sink>(
    alloc: Global,
    sink: &mut K,
    accepted: &Accepted,
) -> Result<Status, Stop>
    ensures written { Writes (IsDrawing accepted.now) (K.held sink.old) (K.held sink.new) result }
    ensures faults { CountsFaults (K.faults sink.old) (K.faults sink.new) result }
{
    let text = print_drawing(alloc, accepted)?;
    write_text(sink, &text)?;
    Ok(Status::Done)
}

/// Writes the drawing of an accepted specification with the plan of the operation of this name, or
/// the refusal of a name that no operation has.
pub(crate) fn write_drawn_plan<K: Sink>(
    alloc: Global,
    sink: &mut K,
    accepted: Accepted,
    name: &[u8],
) -> Result<Status, Stop>
    ensures written { Writes (IsPlanDrawingNamed name.now accepted) (K.held sink.old) (K.held sink.new)
        result }
    ensures faults { CountsFaults (K.faults sink.old) (K.faults sink.new) result }
{
    match number_among(accepted.spec().ops.list(), name) {
        Some(op) => write_plan_of(alloc, sink, accepted, op as u8),
        None => refuse_operation(sink),
    }
}

/// Plans the operations of an accepted specification, and writes its drawing with the plan of one
/// of them.
fn write_plan_of<K: Sink>(
    alloc: Global,
    sink: &mut K,
    accepted: Accepted,
    op: u8,
) -> Result<Status, Stop>
    requires { op < length accepted.ops }
    ensures written { Writes (IsPlanDrawing accepted op) (K.held sink.old) (K.held sink.new) result }
    ensures faults { CountsFaults (K.faults sink.old) (K.faults sink.new) result }
{
    let compiled = compile(alloc, accepted)?;
    let text = print_plan_drawing(alloc, compiled.accepted(), op, compiled.plan(op));
    // Dropped by its type's own `drop`, which is proved, and not field by field.
    drop(compiled);
    write_text(sink, &text?)?;
    Ok(Status::Done)
}

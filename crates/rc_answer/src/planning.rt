//! Writes the plans of a specification's operations.

ghost use Rattle.std.specs.Prelude.{◌≡◌, OnOk, OnErr};
ghost use Rattle.rc_io.specs.Bytes.{Adds, AddsPrefix};
ghost use Rattle.rc_answer.specs.Answers.{IsPlansText};
ghost use Rattle.rc_answer.specs.Writes.{CountsFaults, Writes};
ghost use Rattle.rc_answer.specs.Plans.{plans_text};

use crate::status::{Status, Stop};
use crate::writing::write_text;
use rc_io::{Sink, write_all};
use rc_mutate::compile;
use rc_plan::{Compiled, print_plan};
use rc_spec::Accepted;
use std::alloc::Global;

/// Writes the plan of each operation, in written order.
pub(crate) fn write_plans<K: Sink>(
    alloc: Global,
    sink: &mut K,
    compiled: &Compiled,
) -> Result<(), Stop>
    ensures ok { OnOk result (Adds (K.held sink.old) (plans_text compiled.now.spec compiled.now.plans) (K.held sink.new)) }
    ensures prefix { OnErr result (AddsPrefix (K.held sink.old) (plans_text compiled.now.spec compiled.now.plans) (K.held sink.new)) }
    ensures faults { CountsFaults (K.faults sink.old) (K.faults sink.new) result }
{
    let spec = compiled.accepted().spec();
    for op in 0..spec.ops.list().len() as u8 {
        let text = print_plan(alloc, spec, op, compiled.plan(op))?;
        write_text(sink, &text)?;
    }
    Ok(())
}

/// Plans the operations of an accepted specification, and writes the plans and then `end`.
pub(crate) fn write_planned<K: Sink>(
    alloc: Global,
    sink: &mut K,
    accepted: Accepted,
) -> Result<Status, Stop>
    ensures written { Writes (IsPlansText accepted) (K.held sink.old) (K.held sink.new) result }
    ensures faults { CountsFaults (K.faults sink.old) (K.faults sink.new) result }
{
    let compiled = compile(alloc, accepted)?;
    let _ = compiled.accepted();
    let written = write_plans(alloc, sink, &compiled);
    // Dropped by its type's own `drop`, which is proved, and not field by field.
    drop(compiled);
    written?;
    write_all(sink, b"end\n")?;
    Ok(Status::Done)
}

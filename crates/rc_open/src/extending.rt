//! An accepted specification with further operations.

ghost use Rattle.std.specs.Prelude.{◌≡◌, ◌+◌, ◌≤◌, ◌++◌, length, IfOk, OnOk};
ghost use Rattle.std.specs.List.{AllByRecursion};
ghost use Rattle.rc_work.specs.Shapes.{IsShapeOf, with_operations};

use rc_spec::{Accepted, NodeOrder, Ops, WellFormed};
use rc_tuple::Memory;

/// Puts operations behind others.
fn push_all(ops: &mut Ops, more: Ops) -> Result<(), Memory>
    ensures { OnOk result (ops.new ≡ ops.old ++ more) }
{
    for op in more.into_vec() {
        ops.push(op)?;
    }
    Ok(())
}

/// The specification with further operations behind its own. It is accepted where it was: nothing but these operations is
/// new to its rules, and they keep theirs. `Err` only where memory is wanted; the specification is gone then. Costs a copy of
/// the order of its nodes, and the list of its operations.
pub fn with_operations(accepted: Accepted, shapes: Ops) -> Result<Accepted, Memory>
    requires shapes { AllByRecursion (IsShapeOf accepted) shapes }
    requires few { length accepted.ops + length shapes ≤ 64 }
    ensures { IfOk result (λ extended. extended ≡ with_operations accepted shapes) }
{
    let order = NodeOrder::from_slice(shapes.alloc(), accepted.order())?;
    let mut spec = accepted.into_spec();
    push_all(&mut spec.ops, shapes)?;
    Ok(Accepted::seal(WellFormed::new(spec), order))
}

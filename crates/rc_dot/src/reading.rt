//! The statements of a plan that read an edge.

ghost use Rattle.std.specs.Prelude.{◌≡◌, IfOk};
ghost use Rattle.rc_dot.specs.Dot.{read_numbers};

use rc_plan::{Statement, is_read_of};
use rc_tuple::Memory;
use std::alloc::Global;

/// The numbers, from 0, of the statements that read an edge.
pub(crate) fn read_numbers(
    alloc: Global,
    plan: &[Statement],
    edge: u8,
) -> Result<Vec<usize>, Memory>
    ensures { IfOk result (λ numbers. numbers.items ≡ read_numbers plan.now edge) }
{
    let mut numbers = Vec::new(alloc);
    for (place, statement) in plan.iter().enumerate() {
        if is_read_of(edge, statement) {
            numbers.push(place)?;
        }
    }
    Ok(numbers)
}

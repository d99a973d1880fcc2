//! Operations by what they ask.

ghost use Rattle.std.specs.Prelude.{◌≡◌, ◌<◌, length, IfOk, IfSome};
ghost use Rattle.rc_spec.specs.InRange.{IsInRange};
ghost use Rattle.rc_embed.specs.Shaped.{shape_number};

use rc_reader::{LineFault, Version, read_operation};
use rc_spec::Spec;
use rc_tuple::Memory;
use rc_work::shape_place;
use std::alloc::Global;

/// The number of the first operation, declared or not, that asks as the line does. (A line is read in the forms of the second
/// version: what these have more no operation of a text of the first version is.)
pub(crate) fn shape_number(alloc: Global, spec: &Spec, line: &[u8]) -> Result<Option<u32>, Memory>
    requires { IsInRange spec.now }
    ensures known { IfOk result (λ found. IfSome found (λ op. op < length spec.now.ops)) }
    ensures number { IfOk result (λ found. found ≡ shape_number spec.now line.now) }
{
    match read_operation(alloc, Version::Two, spec, line) {
        Ok(op) => match shape_place(spec.ops.list(), &op) {
            Some(number) => Ok(Some(number as u32)),
            None => Ok(None),
        },
        Err(LineFault::Broken(_)) => Ok(None),
        Err(LineFault::Memory) => Err(Memory),
    }
}

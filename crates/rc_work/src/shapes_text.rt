//! Reads a text of shapes, line by line: each gives an operation without a name, in the form of an `op` line behind its name.

ghost use Rattle.std.specs.Prelude.{◌≤◌, ◌^◌, length, IfOk, OnOk};
ghost use Rattle.std.specs.List.{AllByRecursion};
ghost use Rattle.rc_spec.specs.InRange.{IsInRange};
ghost use Rattle.rc_reader.specs.Answers.{ReadsAs};
ghost use Rattle.rc_work.specs.Shapes.{IsShapeOf};
ghost use Rattle.rc_work.specs.ShapesAnswers.{CanReadShapes, TakesShapeLine};
ghost use Rattle.rc_work.specs.ShapesGrammar.{after_shape_line, shapes_of};

use crate::shapes::{is_one_shape_more, keep_shape, keeps_rules, shape_place};
use rc_reader::{LineFault, LineRule, ReadRefusal, Version, read_operation};
use rc_spec::{Ops, Spec};
use rc_text::{Language, Lines, read_lines};
use std::alloc::Global;

/// Reads a line behind those that gave these shapes. After a refusal what was read is of no use.
#[tactic(auto, unfolding(crate::specs::ShapesGrammar::after_shape_line))]
fn read_shape_line(
    alloc: Global,
    version: Version,
    spec: &Spec,
    shapes: &mut Ops,
    bytes: &[u8],
) -> Result<(), LineFault>
    requires { CanReadShapes spec.now shapes.old }
    ensures taken { TakesShapeLine result shapes.new (after_shape_line version spec.now shapes.old bytes.now) }
    ensures can { OnOk result (CanReadShapes spec.now shapes.new) }
{
    let op = read_operation(alloc, version, spec, bytes)?;
    let place = shape_place(shapes.list(), &op);
    if is_one_shape_more(shapes.list(), place) {
        return Err(LineFault::Broken(LineRule::S6));
    }
    if !keeps_rules(spec, &op) {
        return Err(LineFault::Broken(LineRule::W4));
    }
    keep_shape(alloc, shapes, op, place)?;
    Ok(())
}

/// The lines of a text of shapes, as a language that reads them. None ends the reading.
#[derive(Clone, Copy, Debug)]
struct ShapeLines<'a> {
    alloc: Global,
    version: Version,
    spec: &'a Spec,
}

impl<'a> Language for ShapeLines<'a> {
    ghost use Rattle.rc_work.specs.ShapesAnswers.{CanReadShapes, ReadsShapeLine, fails_shape_line};

    type State = Ops;

    type Fault = LineFault;

    ghost reads = { λ language shapes bytes ended next.
        ReadsShapeLine language.version language.spec.now shapes bytes ended next };

    ghost fails = { λ language shapes bytes fault.
        fails_shape_line language.version language.spec.now shapes bytes fault };

    ghost can = { λ language shapes. CanReadShapes language.spec.now shapes };

    fn read_line(&self, shapes: &mut Ops, bytes: &[u8]) -> Result<bool, LineFault> {
        read_shape_line(self.alloc, self.version, self.spec, shapes, bytes)?;
        Ok(false)
    }
}

/// Reads a text of shapes for a specification whose text is of this version: further operations, a line for
/// each, in the form of an `op` line behind its name. They are named `?1`, `?2` and so on, in the order of their first lines; a
/// line that asks as an earlier one does gives no further one. A refusal is for the first broken rule and its line, one of S2,
/// S3, S4, S6 and W4, or is want of memory.
pub fn read_shapes(
    alloc: Global,
    bytes: &[u8],
    version: Version,
    spec: &Spec,
) -> Result<Ops, ReadRefusal>
    requires short { length bytes.now ≤ 2 ^ 24 }
    requires in_range { IsInRange spec.now }
    ensures exact { ReadsAs result (shapes_of version spec.now bytes.now) }
    ensures few { IfOk result (λ shapes. length shapes ≤ 32) }
    ensures shapes { IfOk result (λ shapes. AllByRecursion (IsShapeOf spec.now) shapes) }
{
    let mut shapes = Ops::new(alloc);
    let mut lines = Lines::new(bytes, 0, 1);
    let language = ShapeLines {
        alloc,
        version,
        spec,
    };
    match read_lines(&language, &mut shapes, &mut lines) {
        Ok(_) => Ok(shapes),
        Err(unread) => Err(unread.fault.at(unread.line)),
    }
}

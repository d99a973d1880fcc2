//! The line by which an operation that wasn't declared is printed.

ghost use Rattle.std.specs.Prelude.{◌≡◌, ◌++◌, length, IfOk, OnOk};
ghost use Rattle.std.specs.List.{flat_map};
ghost use Rattle.rc_tuple.specs.RisingSet.{In};
ghost use Rattle.rc_spec.specs.declared.items.Op.{Op};
ghost use Rattle.rc_spec.specs.InRange.{AreBelow, IsOpAmong};
ghost use Rattle.rc_open.specs.ShapeText.{behind_text, columns_text, kind_text, ranges_text, shape_text, shapes_text};

use rc_plan::push_column;
use rc_spec::{Op, OpKind, Spec};
use rc_text::push_bytes;
use rc_tuple::Memory;
use std::alloc::Global;

/// The word of a kind.
fn kind_word(kind: &OpKind) -> &'static [u8]
    ensures { result.now ≡ kind_text kind.now }
{
    match kind {
        OpKind::Query { .. } => b" query",
        OpKind::Insert => b" insert",
        OpKind::Remove => b" remove",
        OpKind::Update => b" update",
    }
}

/// Appends the names of columns, each behind a space.
fn push_columns(text: &mut Vec<u8>, spec: &Spec, cols: &[u8]) -> Result<(), Memory>
    requires { AreBelow (length spec.now.columns) cols.now }
    ensures { OnOk result (text.new.items ≡ text.old.items ++ columns_text spec.now cols.now) }
{
    for col in cols {
        push_column(text, spec, *col)?;
    }
    Ok(())
}

/// Appends the range columns of a query, where it has some.
fn push_ranges(text: &mut Vec<u8>, spec: &Spec, ranges: &[u8]) -> Result<(), Memory>
    requires { AreBelow (length spec.now.columns) ranges.now }
    ensures { OnOk result (text.new.items ≡ text.old.items ++ ranges_text spec.now ranges.now) }
{
    if ranges.is_empty() {
        return Ok(());
    }
    push_bytes(text, b" :")?;
    push_columns(text, spec, ranges)
}

/// Appends what stands behind the pattern: of a query its range columns, where it has some, and its outputs.
fn push_behind(text: &mut Vec<u8>, spec: &Spec, op: &Op) -> Result<(), Memory>
    requires { IsOpAmong (length spec.now.columns) op.now }
    ensures { OnOk result (text.new.items ≡ text.old.items ++ behind_text spec.now op.now.kind) }
{
    if let OpKind::Query { outs, ranges } = &op.kind {
        push_ranges(text, spec, ranges.list())?;
        push_bytes(text, b" ->")?;
        push_columns(text, spec, outs.list())?;
    }
    Ok(())
}

/// Appends the line of an operation, with its line feed.
fn push_shape(text: &mut Vec<u8>, spec: &Spec, op: &Op) -> Result<(), Memory>
    requires { IsOpAmong (length spec.now.columns) op.now }
    ensures { OnOk result (text.new.items ≡ text.old.items ++ shape_text spec.now op.now) }
{
    push_bytes(text, b"shape ")?;
    push_bytes(text, op.name.list())?;
    push_bytes(text, kind_word(&op.kind))?;
    push_columns(text, spec, op.pattern.list())?;
    push_behind(text, spec, op)?;
    text.push(b'\n')?;
    Ok(())
}

/// The lines of operations that weren't declared, each with its line feed: `shape NAME KIND COLS`, and of a query `: COLS`, where
/// it has ranges, and `-> COLS`, as in the line that declares an operation.
pub fn print_shapes(alloc: Global, spec: &Spec, shapes: &[Op]) -> Result<Vec<u8>, Memory>
    requires { (op : Op) → In op shapes.now → IsOpAmong (length spec.now.columns) op }
    ensures { IfOk result (λ text. text.items ≡ shapes_text spec.now shapes.now) }
{
    let mut text = Vec::new(alloc);
    for shape in shapes {
        push_shape(&mut text, spec, shape)?;
    }
    Ok(text)
}

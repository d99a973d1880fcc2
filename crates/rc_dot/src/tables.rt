//! The tables of the lock classes and of a plan.

ghost use Rattle.std.specs.Prelude.{◌≡◌, ◌<◌, ◌≤◌, ◌+◌, ◌^◌, ◌++◌, length, OnOk};
ghost use Rattle.std.specs.List.{flat_map, range_with_len};
ghost use Rattle.rc_plan.specs.PlanRules.{AreKnown};
ghost use Rattle.rc_dot.specs.Dot.{class_cell, class_line, classes_head, classes_table, number_line, plan_end, plan_head, plan_table_lines, plan_middle, plan_table, statement_table_line, stripes_cells, table_end};

use crate::words::{colour_of, push_columns};
use rc_plan::{Statement, push_statement};
use rc_spec::{Accepted, Named, Spec, band_start};
use rc_text::{push_bytes, push_u64};
use rc_tuple::Memory;

/// Appends the table of the lock classes.
pub(crate) fn push_classes(text: &mut Vec<u8>, accepted: &Accepted) -> Result<(), Memory>
    ensures { OnOk result (text.new.items ≡ text.old.items ++ classes_table accepted.now) }
{
    push_bytes(text, classes_head())?;
    push_class_lines(text, accepted)?;
    push_bytes(text, table_end())
}

/// The head of the table of the lock classes.
#[tactic(auto, unfolding(crate::specs::Dot::classes_head))]
fn classes_head() -> &'static [u8]
    ensures { result.now ≡ classes_head }
{
    b"  \"lock classes\" [shape=plain, label=<
    <table border=\"0\" cellborder=\"1\" cellspacing=\"0\" cellpadding=\"4\">
    <tr><td colspan=\"4\">lock classes, in the order in which they are taken</td></tr>
    <tr><td>class</td><td>columns</td><td>stripes</td><td>physical stripes</td></tr>
"
}

#[tactic(auto, unfolding(crate::specs::Dot::table_end))]
fn table_end() -> &'static [u8]
    ensures { result.now ≡ table_end }
{
    b"    </table>>];\n"
}

/// Appends a line for each class.
fn push_class_lines(text: &mut Vec<u8>, accepted: &Accepted) -> Result<(), Memory>
    ensures { OnOk result (text.new.items ≡ text.old.items
        ++ flat_map (class_line accepted.now) (range_with_len 0 (length accepted.now.classes))) }
{
    for class in 0..accepted.spec().classes.list().len() as u8 {
        push_class_line(text, accepted, class)?;
    }
    Ok(())
}

/// Appends the line of a class.
fn push_class_line(text: &mut Vec<u8>, accepted: &Accepted, class: u8) -> Result<(), Memory>
    requires { class < length accepted.now.classes }
    ensures { OnOk result (text.new.items ≡ text.old.items ++ class_line accepted.now class) }
{
    let spec = accepted.spec();
    push_class(text, spec, class)?;
    push_columns(text, spec, spec.class(class).cols)?;
    push_stripes(text, band_start(spec, class), spec.class(class).stripes)
}

/// Appends the name of a class on its colour.
fn push_class(text: &mut Vec<u8>, spec: &Spec, class: u8) -> Result<(), Memory>
    requires { class < length spec.now.classes }
    ensures { OnOk result (text.new.items ≡ text.old.items ++ class_cell spec.now class) }
{
    push_bytes(text, b"    <tr><td bgcolor=\"")?;
    push_bytes(text, colour_of(class))?;
    push_bytes(text, b"\"><font color=\"white\">")?;
    push_bytes(text, spec.class(class).name())?;
    push_bytes(text, b"</font></td><td>(")
}

/// Appends how many stripes there are, and the first and the last of the band.
fn push_stripes(text: &mut Vec<u8>, start: u32, stripes: u32) -> Result<(), Memory>
    requires some { 0 < stripes }
    requires few { start + stripes ≤ 256 }
    ensures { OnOk result (text.new.items ≡ text.old.items ++ stripes_cells start stripes) }
{
    push_bytes(text, b")</td><td>")?;
    push_u64(text, stripes as u64)?;
    push_bytes(text, b"</td><td>")?;
    push_u64(text, start as u64)?;
    push_bytes(text, b"..")?;
    push_u64(text, (start + stripes - 1) as u64)?;
    push_bytes(text, b"</td></tr>\n")
}

/// Appends the table of an operation's plan.
pub(crate) fn push_plan(
    text: &mut Vec<u8>,
    spec: &Spec,
    op: u8,
    plan: &[Statement],
) -> Result<(), Memory>
    requires op { op < length spec.now.ops }
    requires known { AreKnown spec.now plan.now }
    ensures { OnOk result (text.new.items ≡ text.old.items ++ plan_table spec.now op plan.now) }
{
    push_bytes(text, plan_head())?;
    push_number_lines(text, plan.len())?;
    push_bytes(text, plan_middle())?;
    push_plan_table_lines(text, spec, op, plan)?;
    push_bytes(text, plan_end())
}

#[tactic(auto, unfolding(crate::specs::Dot::plan_head))]
fn plan_head() -> &'static [u8]
    ensures { result.now ≡ plan_head }
{
    b"  \"the plan\" [shape=plain, label=<
    <table border=\"0\" cellborder=\"1\" cellspacing=\"0\" cellpadding=\"4\">
    <tr><td align=\"right\" balign=\"right\"><br/>
"
}

#[tactic(auto, unfolding(crate::specs::Dot::plan_middle))]
fn plan_middle() -> &'static [u8]
    ensures { result.now ≡ plan_middle }
{
    b"</td><td align=\"left\" balign=\"left\">"
}

#[tactic(auto, unfolding(crate::specs::Dot::plan_end))]
fn plan_end() -> &'static [u8]
    ensures { result.now ≡ plan_end }
{
    b"</td></tr>\n    </table>>];\n"
}

/// Appends the numbers of the statements, each in a line of its own.
fn push_number_lines(text: &mut Vec<u8>, count: usize) -> Result<(), Memory>
    requires { count < 2 ^ 63 }
    ensures { OnOk result (text.new.items ≡ text.old.items
        ++ flat_map number_line (range_with_len 0 count)) }
{
    for place in 0..count {
        push_u64(text, place as u64)?;
        push_bytes(text, b"<br/>\n")?;
    }
    Ok(())
}

/// Appends a line with the operation's name, and then one for each statement.
fn push_plan_table_lines(
    text: &mut Vec<u8>,
    spec: &Spec,
    op: u8,
    plan: &[Statement],
) -> Result<(), Memory>
    requires op { op < length spec.now.ops }
    requires known { AreKnown spec.now plan.now }
    ensures { OnOk result (text.new.items ≡ text.old.items ++ plan_table_lines spec.now op plan.now) }
{
    push_bytes(text, b"plan ")?;
    push_bytes(text, spec.op(op).name())?;
    push_bytes(text, b"<br/>\n")?;
    push_statements(text, spec, plan)
}

/// Appends a line for each statement.
fn push_statements(text: &mut Vec<u8>, spec: &Spec, plan: &[Statement]) -> Result<(), Memory>
    requires { AreKnown spec.now plan.now }
    ensures { OnOk result (text.new.items ≡ text.old.items
        ++ flat_map (statement_table_line spec.now) plan.now) }
{
    for statement in plan {
        push_statement(text, spec, statement)?;
        push_bytes(text, b"<br/>\n")?;
    }
    Ok(())
}

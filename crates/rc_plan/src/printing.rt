ghost use Rattle.std.specs.Prelude.{◌≡◌, ◌<◌, ◌++◌, ◌∷◌, [], length, codes, decimal, IfOk, OnOk};
ghost use Rattle.std.specs.List.{flat_map};
ghost use Rattle.rc_tuple.specs.ColSet.{Within};
ghost use Rattle.rc_spec.specs.Calls.{all_columns};
ghost use Rattle.rc_spec.specs.Decomposition.{edge_at};
ghost use Rattle.rc_spec.specs.Placement.{class_at};
ghost use Rattle.rc_plan.specs.declared.statement.Statement.TheVariants.{Lock, Probe, Read, Release};
ghost use Rattle.rc_plan.specs.PlanRules.{IsKnown, AreKnown};
ghost use Rattle.rc_plan.specs.PlanText.{which_text, lock_mode_text, read_mode_text, column_text, statement_text, statement_line, plan_text};

use crate::{Plan, ReadMode, Statement, Which};
use rc_spec::{Mode, Named, Spec};
use rc_tuple::{ColSet, Memory};
use std::alloc::Global;

/// The text of an operation's plan: the line `plan` with the operation's name, and then a line for each statement,
/// as `lock k1 keyed shared`. Classes, edges and columns are named, columns in column order.
pub fn print_plan(alloc: Global, spec: &Spec, op: u8, plan: &Plan) -> Result<Vec<u8>, Memory>
    requires op { op < length spec.now.ops }
    requires known { AreKnown spec.now plan.now }
    ensures { IfOk result (λ text. text.items ≡ plan_text spec.now op plan.now) }
{
    let mut text = Vec::from_slice(alloc, b"plan ")?;
    text.extend_from_slice(spec.op(op).name())?;
    text.push(b'\n')?;
    push_lines(&mut text, spec, plan.list())?;
    Ok(text)
}

/// Appends a line for each statement.
fn push_lines(text: &mut Vec<u8>, spec: &Spec, plan: &[Statement]) -> Result<(), Memory>
    requires { AreKnown spec.now plan.now }
    ensures { OnOk result (text.new.items ≡ text.old.items ++ flat_map (statement_line spec.now) plan.now) }
{
    for statement in plan {
        push_statement(text, spec, statement)?;
        text.push(b'\n')?;
    }
    Ok(())
}

/// Appends the text of a statement, whose classes, edges and columns the specification has. Where memory is wanted a part
/// of it may have been added.
pub fn push_statement(text: &mut Vec<u8>, spec: &Spec, statement: &Statement) -> Result<(), Memory>
    requires { IsKnown spec.now statement.now }
    ensures { OnOk result (text.new.items ≡ text.old.items ++ statement_text spec.now statement.now) }
{
    match *statement {
        Statement::Lock { class, which, mode } => push_lock(text, spec, class, which, mode),
        Statement::Probe { cols } => push_probe(text, spec, cols),
        Statement::Read { edge, mode } => push_read(text, spec, edge, mode),
        Statement::CheckAbsent => push_word(text, b"absent"),
        Statement::CheckFound => push_word(text, b"found"),
        Statement::CheckDep { dep } => push_check(text, dep),
        Statement::Apply => push_word(text, b"apply"),
        Statement::Emit => push_word(text, b"emit"),
        Statement::Commit => push_word(text, b"commit"),
        Statement::Release { class } => push_release(text, spec, class),
    }
}

fn push_lock(
    text: &mut Vec<u8>,
    spec: &Spec,
    class: u8,
    which: Which,
    mode: Mode,
) -> Result<(), Memory>
    requires { class < length spec.now.classes }
    ensures { OnOk result (text.new.items ≡ text.old.items ++ statement_text spec.now (Lock class which mode)) }
{
    push_word(text, b"lock ")?;
    push_word(text, spec.class(class).name())?;
    push_word(
        text,
        match which {
            Which::Keyed => b" keyed",
            Which::All => b" all",
        },
    )?;
    push_word(
        text,
        match mode {
            Mode::Shared => b" shared",
            Mode::Exclusive => b"",
        },
    )
}

fn push_probe(text: &mut Vec<u8>, spec: &Spec, cols: ColSet) -> Result<(), Memory>
    requires { Within cols (all_columns spec.now) }
    ensures { OnOk result (text.new.items ≡ text.old.items ++ statement_text spec.now (Probe cols)) }
{
    push_word(text, b"probe")?;
    for place in 0..cols.len() {
        push_column(text, spec, cols.nth(place).unwrap())?;
    }
    Ok(())
}

/// Appends a space and the name of a column. Where memory is wanted the space may have been added.
pub fn push_column(text: &mut Vec<u8>, spec: &Spec, col: u8) -> Result<(), Memory>
    requires { col < length spec.now.columns }
    ensures { OnOk result (text.new.items ≡ text.old.items ++ column_text spec.now col) }
{
    text.push(b' ')?;
    push_word(text, spec.columns.list()[col as usize].name())
}

fn push_read(text: &mut Vec<u8>, spec: &Spec, edge: u8, mode: ReadMode) -> Result<(), Memory>
    requires { edge < length spec.now.edges }
    ensures { OnOk result (text.new.items ≡ text.old.items ++ statement_text spec.now (Read edge mode)) }
{
    push_word(text, b"read ")?;
    push_word(text, spec.edge(edge).name())?;
    push_word(
        text,
        match mode {
            ReadMode::Lookup => b" lookup",
            ReadMode::Scan => b" scan",
        },
    )
}

fn push_check(text: &mut Vec<u8>, dep: u32) -> Result<(), Memory>
    ensures { OnOk result (text.new.items ≡ text.old.items ++ (codes "check " ++ decimal dep)) }
{
    let check = format!(in *text.allocator(); "check {}", dep)?;
    push_word(text, check.as_bytes())
}

fn push_release(text: &mut Vec<u8>, spec: &Spec, class: u8) -> Result<(), Memory>
    requires { class < length spec.now.classes }
    ensures { OnOk result (text.new.items ≡ text.old.items ++ statement_text spec.now (Release class)) }
{
    push_word(text, b"release ")?;
    push_word(text, spec.class(class).name())
}

/// Appends bytes.
fn push_word(text: &mut Vec<u8>, word: &[u8]) -> Result<(), Memory>
    ensures { OnOk result (text.new.items ≡ text.old.items ++ word.now) }
{
    text.extend_from_slice(word)?;
    Ok(())
}

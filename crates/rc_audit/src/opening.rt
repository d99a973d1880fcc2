//! The lines with which each good report begins: the plans, where they belong to it, and the number of
//! entries.

ghost use Rattle.std.specs.Prelude.{◌≡◌, ◌<◌, ◌+◌, ◌==◌, [], ◌∷◌, ◌++◌, codes, get_or, length, map, sum_by, OnOk, IfOk};
ghost use Rattle.rc_spec.specs.Placement.{op_at};
ghost use Rattle.rc_plan.specs.PlanRules.{AreKnown};
ghost use Rattle.rc_plan.specs.PlanText.{statement_text};
ghost use Rattle.rc_work.specs.Limits.{KeepsLimits};
ghost use Rattle.rc_audit.specs.GoodReports.{plans_in_lines};
ghost use Rattle.rc_audit.specs.Judged.{lines_before, opening_lines};
ghost use Rattle.rc_audit.specs.Judging.{HasMet};

use crate::fault::Fault;
use crate::form::Form;
use crate::meeting::{TextLines, meet_at};
use rc_plan::{Compiled, Statement, push_statement};
use rc_spec::{Named, Spec};
use rc_text::push_bytes;
use rc_tuple::{Memory, SmallList};
use rc_work::{Work, push_count_line};
use std::alloc::Global;

/// The opening lines, of which some came.
#[derive(Debug, Drop)]
pub(crate) struct Opening {
    lines: TextLines,
    /// How many came.
    met: usize,
}

impl Opening {
    /// Before the first of the lines. Costs their bytes, and a walk over the rounds.
    pub(crate) fn new(
        alloc: Global,
        form: Form,
        compiled: &Compiled,
        work: &Work,
    ) -> Result<Opening, Memory>
        requires { KeepsLimits work.now }
        ensures { IfOk result (λ opening.
            opening ≡ record { lines = opening_lines form compiled.now work.now; met = 0 }) }
    {
        let mut lines = print_before(alloc, form, compiled)?;
        let mut line = Vec::new(alloc);
        push_count_line(&mut line, b"journal", turn_count(work))?;
        lines.push(SmallList::from_vec(line))?;
        Ok(Opening { lines, met: 0 })
    }

    /// Passes the next of the lines, and says whether it was the last.
    pub(crate) fn meet_line(&mut self, line: &[u8]) -> Result<bool, Fault>
        requires { self.old.met < length self.old.lines }
        ensures met { HasMet (get_or self.old.lines self.old.met []) line.now result }
        ensures next { OnOk result (self.new ≡ record self.old { met = self.old.met + 1 }) }
        ensures last { IfOk result (λ last. last ≡ (self.new.met == length self.new.lines)) }
    {
        meet_at(line, &self.lines, self.met)?;
        self.met += 1;
        Ok(self.met == self.lines.list().len())
    }
}

/// The lines before that with the number of entries.
fn print_before(alloc: Global, form: Form, compiled: &Compiled) -> Result<TextLines, Memory>
    ensures { IfOk result (λ lines. lines ≡ lines_before form compiled.now) }
{
    match form {
        Form::Run | Form::Group => print_plans(alloc, compiled),
        Form::Journal => Ok(TextLines::new(alloc)),
    }
}

/// The lines of all plans, in the order in which the operations are written.
fn print_plans(alloc: Global, compiled: &Compiled) -> Result<TextLines, Memory>
    ensures { IfOk result (λ lines. lines ≡ plans_in_lines compiled.now) }
{
    let mut lines = TextLines::new(alloc);
    let spec = compiled.accepted().spec();
    for op in 0..spec.ops.list().len() as u8 {
        push_plan(alloc, &mut lines, spec, op, compiled.plan(op).list())?;
    }
    Ok(lines)
}

/// Appends the lines of an operation's plan.
fn push_plan(
    alloc: Global,
    lines: &mut TextLines,
    spec: &Spec,
    op: u8,
    plan: &[Statement],
) -> Result<(), Memory>
    requires op { op < length spec.now.ops }
    requires known { AreKnown spec.now plan.now }
    ensures { OnOk result (lines.new ≡ lines.old
        ++ ((codes "plan " ++ (op_at spec.now op).name) ∷ map (statement_text spec.now) plan.now)) }
{
    let mut name = Vec::new(alloc);
    push_bytes(&mut name, b"plan ")?;
    push_bytes(&mut name, spec.op(op).name())?;
    lines.push(SmallList::from_vec(name))?;
    push_statements(alloc, lines, spec, plan)
}

/// Appends a line for each statement.
fn push_statements(
    alloc: Global,
    lines: &mut TextLines,
    spec: &Spec,
    plan: &[Statement],
) -> Result<(), Memory>
    requires { AreKnown spec.now plan.now }
    ensures { OnOk result (lines.new ≡ lines.old ++ map (statement_text spec.now) plan.now) }
{
    for statement in plan {
        let mut line = Vec::new(alloc);
        push_statement(&mut line, spec, statement)?;
        lines.push(SmallList::from_vec(line))?;
    }
    Ok(())
}

/// How many turns the workload has: as many as each run of it has entries.
fn turn_count(work: &Work) -> u64
    requires { KeepsLimits work.now }
    ensures { result ≡ sum_by length work.now.rounds }
{
    let mut count = 0;
    for round in work.rounds.list() {
        count += round.list().len() as u64;
    }
    count
}

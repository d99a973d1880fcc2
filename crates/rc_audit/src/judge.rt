//! The judge of a report, line by line.

ghost use Rattle.std.specs.Prelude.{◌≡◌, ℕ, ◌≤◌, List, [], ◌∷◌, ◌++◌, length, IfOk, OnOk};
ghost use Rattle.rc_tuple.specs.Tuple.{Pairs};
ghost use Rattle.rc_work.specs.Fitting.{HasThreads, RoundsFit};
ghost use Rattle.rc_work.specs.Limits.{KeepsLimits};
ghost use Rattle.rc_audit.specs.GoodReports.{BeginsGood};
ghost use Rattle.rc_audit.specs.Judged.{IsJudgeable, lines_after};
ghost use Rattle.rc_audit.specs.Judging.{HasPassed, IsAtStage, IsBefore, IsFirstFilled, IsOfSame, HasEntries, Judges, judged_form, judged_plans, judged_work, tail_lines};
ghost use Rattle.rc_audit.specs.Keeping.{Keeps};

use crate::closing::Closing;
use crate::cursors::first_cursors;
use crate::entries::Entries;
use crate::fault::Fault;
use crate::form::Form;
use crate::meeting::TextLines;
use crate::opening::Opening;
use crate::relation::Relation;
use crate::stage::Stage;
use crate::tail::Tail;
use rc_maps::Seed;
use rc_plan::Compiled;
use rc_tuple::Memory;
use rc_work::{Round, Work};
use std::alloc::Global;

/// Judges the lines of a report, one after another, and keeps none of them: only the lines of the
/// plans where it wants them, the relation that the calls so far leave, and where each thread stands.
#[derive(Drop)]
pub struct Judge<'a> {
    alloc: Global,
    seed: Seed,
    form: Form,
    compiled: &'a Compiled,
    work: &'a Work,
    /// What the calls of the entries so far leave.
    relation: Relation,
    stage: Stage,
}

impl<'a> Judge<'a> {
    /// Before the first line of a report of this form, of the workload. The seed is that of the hash tables.
    pub fn new(
        alloc: Global,
        seed: Seed,
        form: Form,
        compiled: &'a Compiled,
        work: &'a Work,
    ) -> Result<Judge<'a>, Memory>
        requires limits { KeepsLimits work.now }
        requires threads { HasThreads work.now }
        requires fit { RoundsFit compiled.now.spec work.now.rounds }
        ensures form_is { IfOk result (λ judge. judged_form judge ≡ form) }
        ensures compiled_is { IfOk result (λ judge. judged_plans judge ≡ compiled.now) }
        ensures work_is { IfOk result (λ judge. judged_work judge ≡ work.now) }
        ensures passed { IfOk result (λ judge. HasPassed judge []) }
    {
        Ok(Judge {
            alloc,
            seed,
            form,
            compiled,
            work,
            relation: Relation::empty(alloc, seed, compiled.accepted())?,
            stage: Stage::Opening(Opening::new(alloc, form, compiled, work)?),
        })
    }

    /// Passes the next line, where a good report begins with the lines so far and this one. A line is
    /// without its line feed and a carriage return before that, and blank lines and comments, which
    /// `audit` passes over, are none. After a fault the judge is of no use. A line costs the bytes of
    /// the line that is wanted in its place. An entry's first costs also what the plans of its calls do, and over
    /// a round the entries' lines cost a walk over it for each thread. Where the relation is to come,
    /// the last of all entries costs the rows of each edge.
    pub fn judge_line(&mut self, line: &[u8]) -> Result<(), Fault>
        requires { (front : List (List ℕ)) × HasPassed self.old front }
        ensures same { IsOfSame self.old self.new }
        ensures judged { (front : List (List ℕ)) → HasPassed self.old front
            → Judges (judged_form self.old) (judged_plans self.old) (judged_work self.old) front
            line.now (HasPassed self.new (front ++ line.now ∷ [])) result }
        ensures begins { (front : List (List ℕ)) → HasPassed self.old front
            → OnOk result (BeginsGood (judged_form self.old) (judged_plans self.old)
            (judged_work self.old) (front ++ line.now ∷ [])) }
    {
        self.pass_line(line)
    }

    /// Passes the next line, or tells that no good report begins with it.
    fn pass_line(&mut self, line: &[u8]) -> Result<(), Fault>
        requires { (front : List (List ℕ)) × HasPassed self.old front }
        ensures same { IsOfSame self.old self.new }
        ensures judged { (front : List (List ℕ)) → HasPassed self.old front
            → Judges (judged_form self.old) (judged_plans self.old) (judged_work self.old) front
            line.now (HasPassed self.new (front ++ line.now ∷ [])) result }
    {
        match &mut self.stage {
            Stage::Opening(opening) => {
                if opening.meet_line(line)? {
                    self.stage = self.stage_from(0, 0)?;
                }
                Ok(())
            }
            Stage::Entries(entries) => {
                entries.judge_line(
                    self.alloc,
                    self.compiled,
                    self.work,
                    &mut self.relation,
                    line,
                )?;
                if !entries.has_more(self.work) {
                    let next = entries.round + 1;
                    let place = entries.place;
                    self.stage = self.stage_from(next, place)?;
                }
                Ok(())
            }
            Stage::Closing(closing) => {
                closing.judge_line(self.alloc, self.compiled, self.work, line)
            }
        }
    }

    /// How many entries the report has that the lines so far are, if they are a good one.
    pub fn entries(&self) -> Option<u64>
        requires { (front : List (List ℕ)) × HasPassed self.now front }
        ensures { (front : List (List ℕ)) → HasPassed self.now front
            → HasEntries (judged_form self.now) (judged_plans self.now) (judged_work self.now) front
            result }
    {
        match &self.stage {
            Stage::Opening(_) | Stage::Entries(_) => None,
            Stage::Closing(closing) => closing.entries(self.compiled, self.work),
        }
    }

    /// The stage behind so many entries, before the round of this number: in the first round from
    /// there on that has a turn, or behind all entries.
    fn stage_from(&self, number: usize, place: u64) -> Result<Stage, Memory>
        requires judgeable { IsJudgeable (judged_plans self.now).spec (judged_work self.now) }
        requires before { (front : List (List ℕ))
            × IsBefore (judged_form self.now) (judged_plans self.now) (judged_work self.now)
            self.now.relation number place front }
        ensures { IfOk result (λ stage. (front : List (List ℕ))
            → IsBefore (judged_form self.now) (judged_plans self.now) (judged_work self.now)
            self.now.relation number place front
            → IsAtStage (judged_form self.now) (judged_plans self.now) (judged_work self.now)
            self.now.relation stage front) }
    {
        let rounds = self.work.rounds.list();
        let round = first_filled(rounds, number);
        if round < rounds.len() {
            return Ok(Stage::Entries(Entries {
                round,
                cursors: first_cursors(self.alloc, rounds[round].list(), self.work.threads)?,
                place,
                lines: TextLines::new(self.alloc),
                met: 0,
            }));
        }
        Ok(Stage::Closing(Closing {
            tail: self.tail()?,
            met: 0,
            entries: place,
        }))
    }

    /// The lines behind all entries. Where the relation stands among them, costs the rows of each
    /// edge.
    fn tail(&self) -> Result<Tail, Memory>
        requires { (r : List Pairs) × Keeps (judged_plans self.now).spec self.now.relation r }
        ensures { IfOk result (λ tail. (r : List Pairs)
            → Keeps (judged_plans self.now).spec self.now.relation r
            → tail_lines (judged_plans self.now).spec (judged_work self.now).ranks tail
            ≡ lines_after (judged_form self.now) (judged_plans self.now).spec
            (judged_work self.now).ranks r) }
    {
        match self.form {
            Form::Run | Form::Group => {
                let accepted = self.compiled.accepted();
                let tuples = self.relation.tuples(self.alloc, self.seed, accepted)?;
                Ok(Tail::Relation(tuples))
            }
            Form::Journal => Ok(Tail::End),
        }
    }
}

/// The number of the first round from this one on that has a turn, or the number of rounds.
fn first_filled(rounds: &[Round], from: usize) -> usize
    requires { from ≤ length rounds.now }
    ensures { IsFirstFilled rounds.now from result }
{
    for number in from..rounds.len() {
        if !rounds[number].list().is_empty() {
            return number;
        }
    }
    rounds.len()
}

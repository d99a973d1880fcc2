//! The lines of entries.

ghost use Rattle.std.specs.Prelude.{◌≡◌, ◌⊎◌, ℕ, ◌+◌, ◌<◌, ◌≤◌, ◌^◌, ◌↔◌, List, [], ◌∷◌, ◌++◌, length, true, false, IfOk, IsTrue};
ghost use Rattle.std.specs.List.{AllByRecursion};
ghost use Rattle.std.specs.Result.{result_map_both};
ghost use Rattle.rc_tuple.specs.Tuple.{Pairs};
ghost use Rattle.rc_spec.specs.Calls.{Fits};
ghost use Rattle.rc_spec.specs.Plain.{plain};
ghost use Rattle.rc_work.specs.Report.{group_head};
ghost use Rattle.rc_audit.specs.declared.form.Form.{Form};
ghost use Rattle.rc_audit.specs.Judged.{IsJudgeable, turn_head};
ghost use Rattle.rc_audit.specs.Judging.{HasMore, HasPending, HasPrinted, HasSomeLeft, HaveBeenPrinted, IsAmong, Judges};
ghost use Rattle.rc_audit.specs.Keeping.{Keeps};

use crate::cursors::{go_on, has_left, thread_of};
use crate::fault::Fault;
use crate::meeting::{TextLines, meet_at};
use crate::relation::Relation;
use rc_plan::Compiled;
use rc_rel::Step;
use rc_spec::Call;
use rc_tuple::{Memory, SmallList};
use rc_work::{Work, push_step_line};
use std::alloc::Global;

/// Where the judge stands among the entries.
#[derive(Debug, Drop)]
pub(crate) struct Entries {
    /// The round whose entries come, counted from 0.
    pub(crate) round: usize,
    /// For each thread the index in the round of its next turn, or the round's length.
    pub(crate) cursors: Vec<usize>,
    /// How many entries came.
    pub(crate) place: u64,
    /// The lines of the last of them.
    pub(crate) lines: TextLines,
    /// How many of its lines came.
    pub(crate) met: usize,
}

impl Entries {
    /// Passes the next line of an entry whose first came, or else the first line of the next turn of a
    /// thread that has one left, and makes its calls. After a fault neither this nor the relation is
    /// of any use.
    pub(crate) fn judge_line(
        &mut self,
        alloc: Global,
        compiled: &Compiled,
        work: &Work,
        relation: &mut Relation,
        line: &[u8],
    ) -> Result<(), Fault>
        requires judgeable { IsJudgeable compiled.now.spec work.now }
        requires at { (form : Form) × (front : List (List ℕ))
            × IsAmong form compiled.now work.now relation.old self.old front }
        requires more { HasMore work.now self.old }
        ensures { (form : Form) (front : List (List ℕ))
            → IsAmong form compiled.now work.now relation.old self.old front
            → Judges form compiled.now work.now front line.now
            (IsAmong form compiled.now work.now relation.new self.new (front ++ line.now ∷ [])) result }
    {
        if self.has_pending() {
            meet_at(line, &self.lines, self.met)?;
            self.met += 1;
            return Ok(());
        }
        self.begin_entry(alloc, compiled, work, relation, line)
    }

    /// Passes the first line of an entry, which is that of the next turn of a thread that has one left, and
    /// makes its calls.
    fn begin_entry(
        &mut self,
        alloc: Global,
        compiled: &Compiled,
        work: &Work,
        relation: &mut Relation,
        line: &[u8],
    ) -> Result<(), Fault>
        requires judgeable { IsJudgeable compiled.now.spec work.now }
        requires at { (form : Form) × (front : List (List ℕ))
            × IsAmong form compiled.now work.now relation.old self.old front }
        requires none { length self.old.lines ≤ self.old.met }
        requires some { HasSomeLeft work.now self.old }
        ensures { (form : Form) (front : List (List ℕ))
            → IsAmong form compiled.now work.now relation.old self.old front
            → Judges form compiled.now work.now front line.now
            (IsAmong form compiled.now work.now relation.new self.new (front ++ line.now ∷ [])) result }
    {
        let round = work.rounds.list()[self.round].list();
        let Some(thread) = thread_of(alloc, round, &self.cursors, self.place, line)? else {
            return Err(Fault::Bad);
        };
        let calls = round[self.cursors[thread as usize]].calls.list();
        let lines = print_made(alloc, compiled, work, relation, self.place, thread, calls)?;
        meet_at(line, &lines, 0)?;
        go_on(&mut self.cursors, round, thread);
        self.place += 1;
        self.lines = lines;
        self.met = 1;
        Ok(())
    }

    /// Whether some lines of the last entry are to come.
    fn has_pending(&self) -> bool
        ensures { IsTrue result ↔ HasPending self.now }
    {
        self.met < self.lines.list().len()
    }

    /// Whether lines of the round are to come.
    pub(crate) fn has_more(&self, work: &Work) -> bool
        requires { self.now.round < length work.now.rounds }
        ensures yes { result ≡ true → HasMore work.now self.now }
        ensures no { result ≡ false → HasMore work.now self.now → ⊥ }
    {
        self.has_pending() || has_left(&self.cursors, work.rounds.list()[self.round].list())
    }
}

/// Makes the calls of a turn, and prints the lines of their entry.
fn print_made(
    alloc: Global,
    compiled: &Compiled,
    work: &Work,
    relation: &mut Relation,
    place: u64,
    thread: u32,
    calls: &[Call],
) -> Result<TextLines, Memory>
    requires fit { AllByRecursion (Fits compiled.now.spec) calls.now }
    requires kept { (r : List Pairs) × Keeps compiled.now.spec relation.old r × (length r + length calls.now < 2 ^ 63) }
    ensures { IfOk result (λ lines. (r : List Pairs) → Keeps compiled.now.spec relation.old r
        → length r + length calls.now < 2 ^ 63
        → HaveBeenPrinted compiled.now.spec work.now.ranks place thread r calls.now relation.new lines) }
{
    let mut lines = print_head(alloc, place, thread, calls.len())?;
    for call in calls {
        let line = print_call(alloc, compiled, work, relation, place, thread, call)?;
        lines.push(SmallList::from_vec(line))?;
    }
    Ok(lines)
}

/// The line that says of how many calls an entry is, where they are two or more.
fn print_head(alloc: Global, place: u64, thread: u32, count: usize) -> Result<TextLines, Memory>
    ensures { IfOk result (λ lines. lines ≡ turn_head place thread count) }
{
    let mut lines = TextLines::new(alloc);
    if count >= 2 {
        lines.push(SmallList::from_vec(head_line(alloc, place, thread, count)?))?;
    }
    Ok(lines)
}

/// That line.
fn head_line(alloc: Global, place: u64, thread: u32, count: usize) -> Result<Vec<u8>, Memory>
    ensures { IfOk result (λ line. line.items ≡ group_head place thread count) }
{
    Ok(format!(in alloc; "{place} {thread} & {count}")?.into_bytes())
}

/// Makes a call, and prints the line of its step.
fn print_call(
    alloc: Global,
    compiled: &Compiled,
    work: &Work,
    relation: &mut Relation,
    place: u64,
    thread: u32,
    call: &Call,
) -> Result<Vec<u8>, Memory>
    requires fits { Fits compiled.now.spec call.now }
    requires kept { (r : List Pairs) × Keeps compiled.now.spec relation.old r }
    ensures { (r : List Pairs) → Keeps compiled.now.spec relation.old r
        → length (plain compiled.now.spec r call.now).relation < 2 ^ 63
        → HasPrinted compiled.now.spec work.now.ranks place thread r call.now relation.new
        (result_map_both (λ line. line.items) (λ fault. fault) result) }
{
    let reply = relation.make(compiled, call)?;
    let step = Step {
        call: call.copy()?,
        reply,
    };
    let mut line = Vec::new(alloc);
    let spec = compiled.accepted().spec();
    push_step_line(&mut line, spec, &work.ranks, place, thread, &step)?;
    Ok(line)
}

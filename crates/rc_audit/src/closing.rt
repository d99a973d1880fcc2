//! The closing lines of a report.

ghost use Rattle.std.specs.Prelude.{◌≡◌, ◌+◌, ℕ, List, [], ◌∷◌, ◌++◌};
ghost use Rattle.rc_audit.specs.declared.form.Form.{Form};
ghost use Rattle.rc_audit.specs.Judged.{IsJudgeable};
ghost use Rattle.rc_audit.specs.Judging.{IsClosing, HasEntries, Judges};

use crate::fault::Fault;
use crate::meeting::meet;
use crate::tail::Tail;
use rc_plan::Compiled;
use rc_work::Work;
use std::alloc::Global;

/// The closing lines, of which some came.
#[derive(Debug, Drop)]
pub(crate) struct Closing {
    pub(crate) tail: Tail,
    /// How many of the lines came.
    pub(crate) met: usize,
    /// How many entries came before.
    pub(crate) entries: u64,
}

impl Closing {
    /// Passes the next of the lines.
    pub(crate) fn judge_line(
        &mut self,
        alloc: Global,
        compiled: &Compiled,
        work: &Work,
        line: &[u8],
    ) -> Result<(), Fault>
        requires { IsJudgeable compiled.now.spec work.now }
        ensures { (form : Form) (front : List (List ℕ))
            → IsClosing form compiled.now work.now self.old front
            → Judges form compiled.now work.now front line.now
            (IsClosing form compiled.now work.now self.new (front ++ line.now ∷ [])) result }
    {
        let spec = compiled.accepted().spec();
        let Some(wanted) = self.tail.print_line(alloc, spec, &work.ranks, self.met)? else {
            return Err(Fault::Bad);
        };
        meet(line, &wanted)?;
        self.met += 1;
        Ok(())
    }

    /// How many entries the report has, if all of the lines came.
    pub(crate) fn entries(&self, compiled: &Compiled, work: &Work) -> Option<u64>
        requires { IsJudgeable compiled.now.spec work.now }
        ensures { (form : Form) (front : List (List ℕ))
            → IsClosing form compiled.now work.now self.now front
            → HasEntries form compiled.now work.now front result }
    {
        if self.met == self.tail.count() {
            Some(self.entries)
        } else {
            None
        }
    }
}

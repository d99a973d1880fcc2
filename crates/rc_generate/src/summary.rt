//! The summary of a history.

ghost use Rattle.std.specs.Prelude.{◌≡◌, ◌<◌, ◌^◌, ◌∷◌, [], length};
ghost use Rattle.rc_rel.specs.History.{steps_of};
ghost use Rattle.rc_generate.specs.Summary.{counted, rows_in, no_steps, plus_steps, summary, IsSmall};

use rc_rel::{Entry, Step};
use rc_spec::Reply;
use rc_tuple::Tuple;

/// The summary of a history: how many replies there are of each kind. For updates that found a tuple it has no count.
#[derive(Clone, Copy, Debug, PartialEq, Eq)]
pub struct Summary {
    /// All calls.
    pub calls: u64,
    /// Inserts that added their tuple.
    pub inserted: u64,
    /// Inserts that found a tuple with the same pattern values.
    pub present: u64,
    /// Inserts and updates that would have broken a dependency.
    pub conflict: u64,
    /// Removes that took a tuple out.
    pub removed: u64,
    /// Removes and updates that found no tuple.
    pub absent: u64,
    /// Queries.
    pub queries: u64,
    /// The rows that the queries' replies list, in all.
    pub rows: u64,
    /// Queries with so many rows that their reply has only the number of them.
    pub many: u64,
    /// The tuples of the last relation.
    pub tuples: u64,
}

impl Summary {
    /// The summary of no step.
    fn no_steps(tuples: u64) -> Self
        ensures { result ≡ no_steps tuples }
    {
        Summary {
            calls: 0,
            inserted: 0,
            present: 0,
            conflict: 0,
            removed: 0,
            absent: 0,
            queries: 0,
            rows: 0,
            many: 0,
            tuples,
        }
    }

    /// Counts a step's reply in.
    fn count(&mut self, step: &Step)
        requires { IsSmall (plus_steps self.old (step.now ∷ [])) }
        ensures { self.new ≡ plus_steps self.old (step.now ∷ []) }
    {
        self.calls += 1;
        match &step.reply {
            Reply::Rows(rows) => {
                self.queries += 1;
                self.rows += rows.len() as u64;
            }
            Reply::Many(_) => {
                self.queries += 1;
                self.many += 1;
            }
            Reply::Inserted => self.inserted += 1,
            Reply::Present => self.present += 1,
            Reply::Conflict(_) => self.conflict += 1,
            Reply::Removed(_) => self.removed += 1,
            // An update adds to the calls alone.
            Reply::Updated(_) => {}
            Reply::Absent => self.absent += 1,
        }
    }

    /// Counts the replies of some steps in.
    fn count_all(&mut self, steps: &[Step])
        requires { IsSmall (plus_steps self.old steps.now) }
        ensures { self.new ≡ plus_steps self.old steps.now }
    {
        for step in steps {
            self.count(step);
        }
    }
}

/// The summary of a history, and of the tuples of the last relation. Goes through the history once, and takes no memory.
pub fn summarise(history: &[Entry], tuples: &[Tuple]) -> Summary
    requires calls { length (steps_of history.now) < 2 ^ 64 }
    requires rows { counted rows_in (steps_of history.now) < 2 ^ 64 }
    ensures { result ≡ summary history.now tuples.now }
{
    let mut summary = Summary::no_steps(tuples.len() as u64);
    for entry in history {
        summary.count_all(entry.steps.list());
    }
    summary
}

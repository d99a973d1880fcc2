//! Whether what a store left that was closed is one legal history.

ghost use Rattle.std.specs.Prelude.{OnOk};
ghost use Rattle.rc_spec.specs.Calls.{all_columns};
ghost use Rattle.rc_rel.specs.Over.{AreOver};

use rc_maps::Seed;
use rc_rel::{Entry, PlainRel, Step};
use rc_spec::{Accepted, fits};
use rc_store::Closed;
use rc_tuple::{Memory, Tuple};
use std::alloc::Global;
use std::cmp::Ordering;

/// Whether the calls of a journal, made in order on the plain relation, are answered as it says, and leave these rows.
pub(crate) fn is_legal(alloc: Global, closed: &Closed) -> Result<bool, Memory> {
    let Some(journal) = closed.journal() else {
        return Ok(false);
    };
    let mut plain = PlainRel::empty(alloc);
    let accepted = closed.compiled().accepted();
    Ok(agree_all(accepted, journal.entries(), &mut plain)? && leaves(alloc, closed, &plain)?)
}

/// Whether the plain relation answers the calls of all entries so.
fn agree_all(accepted: &Accepted, entries: &[Entry], plain: &mut PlainRel) -> Result<bool, Memory>
    requires { AreOver (all_columns accepted.now) plain.old }
{
    for entry in entries {
        if !agree(accepted, entry.steps.list(), plain)? {
            return Ok(false);
        }
    }
    Ok(true)
}

/// Whether it answers these calls so.
fn agree(accepted: &Accepted, steps: &[Step], plain: &mut PlainRel) -> Result<bool, Memory>
    requires { AreOver (all_columns accepted.now) plain.old }
    ensures { OnOk result (AreOver (all_columns accepted.now) plain.new) }
{
    for step in steps {
        if !fits(accepted.spec(), &step.call) {
            return Ok(false);
        }
        if !plain.run(accepted.spec(), &step.call)?.equals(&step.reply) {
            return Ok(false);
        }
    }
    Ok(true)
}

/// Whether the store left the rows of the plain relation.
fn leaves(alloc: Global, closed: &Closed, plain: &PlainRel) -> Result<bool, Memory> {
    let left = closed.rows(alloc, Seed::fixed())?;
    Ok(are_same(plain.rows(), left.list()))
}

/// Whether the tuples are the same, in the same order.
fn are_same(one: &[Tuple], other: &[Tuple]) -> bool {
    one.len() == other.len()
        && one
            .iter()
            .zip(other)
            .all(|(a, b)| a.order(b) == Ordering::Equal)
}

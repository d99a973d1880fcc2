//! The rows of a query's reply, gathered one by one.

ghost use Rattle.std.specs.Prelude.{◌≡◌, [], IfOk, OnOk, OnErr};
ghost use Rattle.rc_tuple.specs.RisingSet.{put};
ghost use Rattle.rc_tuple.specs.Tuple.{pick};
ghost use Rattle.rc_spec.specs.Plain.{at_most, row_cmp};
ghost use Rattle.rc_spec.specs.Rows.{rows_in};

use crate::{Reply, RowList};
use rc_tuple::{Cols, Memory, Tuple};
use std::alloc::Global;
use std::collections::BTreeSet;
use std::marker::Model;

/// Distinct rows of a query's outputs, rising by their values in the outputs' order.
#[derive(Debug, Drop)]
pub struct QueryRows {
    rows: BTreeSet<Vec<u64>>,
}

impl Model for QueryRows {
    ghost use Rattle.std.specs.Prelude.{ℕ, List};
    ghost use Rattle.rc_spec.specs.Rows.{rows_in};

    ghost Value = { List (List ℕ) };

    ghost view = { λ a. rows_in a.rows };
}

impl QueryRows {
    /// No row yet, which takes no memory.
    pub fn new(alloc: Global) -> QueryRows
        ensures { result ≡ [] }
    {
        QueryRows {
            rows: BTreeSet::new(alloc),
        }
    }

    /// Adds the tuple's values of the outputs, where they aren't there yet. Where memory is wanted the rows stay.
    pub fn add(&mut self, outs: &Cols, tuple: &Tuple) -> Result<(), Memory>
        ensures ok { OnOk result (self.new ≡ put row_cmp (pick outs.now tuple.now) self.old) }
        ensures err { OnErr result (self.new ≡ self.old) }
    {
        let row = tuple.pick(outs)?;
        self.rows.insert(row.into_vec())?;
        Ok(())
    }

    /// The reply: the rows where there are so many at most, else their number.
    pub fn reply(self, alloc: Global, most: u64) -> Result<Reply, Memory>
        ensures { IfOk result (λ reply. reply ≡ at_most most self) }
    {
        let QueryRows { rows } = self;
        if rows.len() as u64 > most {
            return Ok(Reply::Many(rows.len() as u64));
        }
        Ok(Reply::Rows(row_list(alloc, rows)?))
    }
}

/// The rows as a list.
fn row_list(alloc: Global, rows: BTreeSet<Vec<u64>>) -> Result<RowList, Memory>
    ensures { IfOk result (λ list. list ≡ rows_in rows) }
{
    let mut list = RowList::new(alloc);
    for row in rows {
        list.push(&row)?;
    }
    Ok(list)
}

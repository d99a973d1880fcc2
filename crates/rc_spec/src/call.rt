//! Calls and replies.

ghost use Rattle.std.specs.Prelude.{◌≡◌, ◌↔◌, IfOk, IsTrue};

use crate::{Ranges, RowList};
use rc_tuple::{Memory, Tuple};

/// A call of an operation, by its number, with its arguments. A call that fits a specification gives
/// an insert or an update a value for every column, and a query or a remove one for every pattern column, and a
/// query bounds for every range column.
#[derive(Debug, Drop)]
pub struct Call {
    /// The place of the operation in its specification's list, from 0.
    pub op: u8,
    /// A value for each column that the call gives.
    pub args: Tuple,
    /// Bounds for each range column of a query, in their written order.
    pub ranges: Ranges,
}

impl Call {
    /// Another call of the same operation with the same arguments.
    pub fn copy(&self) -> Result<Call, Memory>
        ensures { IfOk result (λ call. call ≡ self.now) }
    {
        Ok(Call {
            op: self.op,
            args: self.args.copy()?,
            ranges: self.ranges.copy()?,
        })
    }
}

/// What a call answers.
#[derive(Debug, Drop)]
pub enum Reply {
    /// The distinct rows of a query, rising, at most as many as the specification says.
    Rows(RowList),
    /// The number of a query's distinct rows, above what the specification says.
    Many(u64),
    /// The tuple was added.
    Inserted,
    /// A tuple with the same pattern values is there.
    Present,
    /// The tuple would break the dependency with this number, counted from 1, and no earlier one.
    Conflict(u32),
    /// The matching tuple, which was taken out.
    Removed(Tuple),
    /// The tuple that was there before, in whose place the new one is.
    Updated(Tuple),
    /// No tuple matches.
    Absent,
}

impl Reply {
    /// Another reply that says the same.
    pub fn copy(&self) -> Result<Reply, Memory>
        ensures { IfOk result (λ reply. reply ≡ self.now) }
    {
        match self {
            Reply::Rows(rows) => Ok(Reply::Rows(rows.copy()?)),
            Reply::Many(count) => Ok(Reply::Many(*count)),
            Reply::Inserted => Ok(Reply::Inserted),
            Reply::Present => Ok(Reply::Present),
            Reply::Conflict(dep) => Ok(Reply::Conflict(*dep)),
            Reply::Removed(tuple) => Ok(Reply::Removed(tuple.copy()?)),
            Reply::Updated(tuple) => Ok(Reply::Updated(tuple.copy()?)),
            Reply::Absent => Ok(Reply::Absent),
        }
    }

    /// Whether both say the same.
    pub fn equals(&self, other: &Reply) -> bool
        ensures { IsTrue result ↔ (self.now ≡ other.now) }
    {
        match (self, other) {
            (Reply::Rows(rows), Reply::Rows(others)) => rows.equals(others),
            (Reply::Many(count), Reply::Many(other)) => count == other,
            (Reply::Inserted, Reply::Inserted) => true,
            (Reply::Present, Reply::Present) => true,
            (Reply::Conflict(dep), Reply::Conflict(other)) => dep == other,
            (Reply::Removed(tuple), Reply::Removed(other)) => tuple.order(other).is_eq(),
            (Reply::Updated(tuple), Reply::Updated(other)) => tuple.order(other).is_eq(),
            (Reply::Absent, Reply::Absent) => true,
            _ => false,
        }
    }
}

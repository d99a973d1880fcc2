//! A history that contracts alone have.

ghost use Rattle.std.specs.Prelude.{◌≡◌, []};
ghost use Rattle.rc_row.specs.HistoryMade.{made_by};

use crate::law::View;
use crate::slot::Slot;
use atomic_table::Seat;
use std::marker::Model;
use std::snapshot::Snapshot;

/// The history that a row leaves, and from which another may go on. Contracts alone have it: it keeps no entry, and no code
/// reads it.
#[derive(Drop)]
pub struct History {
    /// The seat that had all passes when the row was closed, which have all entries; none where nothing has happened.
    seat: Option<Snapshot<Seat<Slot, View>>>,
}

impl Model for History {
    ghost use Rattle.std.specs.Prelude.{List};
    ghost use Rattle.rc_rel.specs.declared.entry.Entry.{Entry};

    ghost Value = { List Entry };

    ghost use Rattle.rc_row.specs.HistoryInside.{history_seen};

    ghost view = { history_seen };
}

impl History {
    /// The history in which nothing has happened.
    pub fn none() -> History
        ensures { result ≡ [] }
    {
        History { seat: None }
    }

    /// The history of the entries that the passes of a seat have made.
    pub(crate) fn of(seat: &Seat<Slot, View>) -> History
        ensures { result ≡ made_by seat.now.me.0.passes }
    {
        History {
            seat: Some(Snapshot::of(seat)),
        }
    }
}

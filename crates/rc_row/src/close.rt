//! How a row is closed.

ghost use Rattle.std.specs.Prelude.{◌≡◌, ℕ, ◌<◌, ◌≤◌, Bool, [], All, IfErr, IfOk, None, Some, length, map, vec_capacity};
ghost use mathlib.Core.Option.{some};
ghost use lib.ListN.{get_elem?};
ghost use Rattle.std.specs.List.{slice_get};
ghost use Rattle.std.specs.Slots.{IsFull, slots_items, slots_len};
ghost use Rattle.rc_fragment.specs.Keep.{KeptRows};
ghost use Rattle.rc_row.specs.Ended.{AreEnded, HasHistory, IsEndedPass};
ghost use Rattle.rc_rel.specs.History.{IsPrefix};
ghost use Rattle.rc_row.specs.Law.{history_by, kept_in, pass_view, passes_view, slot_place};
ghost use Rattle.rc_row.specs.Passes.{AreIdlePasses, core_of, spec_of};

use crate::history::History;
use crate::law::View;
use crate::pass::Pass;
use crate::row::{Row, is_of_stripe};
use crate::slot::Slot;
use atomic_table::{Closed, Seat};
use rc_fragment::Keep;
use rc_journal::Part;
use std::alloc::Global;

/// A row and its passes, all as they were, since memory was wanted.
#[derive(Drop)]
pub struct RowBack {
    /// The row.
    pub row: Row,
    /// Its passes.
    pub passes: Vec<Pass>,
}

/// What a pass leaves.
#[derive(Drop, Debug)]
pub struct EndedPass {
    /// How many entries it committed.
    pub made: u64,
    /// Its entries with their places, where it kept them.
    pub entries: Option<Part>,
}

/// What a row leaves.
#[derive(Drop)]
pub struct EndedRow {
    /// The fragments of its stripes, by number.
    pub fragments: Vec<Keep>,
    /// What its passes leave, by number.
    pub passes: Vec<EndedPass>,
    /// The one history of all entries.
    pub history: History,
}

impl Row {
    /// Ends the row. The entries of its passes are those of one legal history, which begins with that from which the row went
    /// on, and its fragments have the rows that the history leaves. All passes come with it, by number, and hold nothing. Where memory is wanted for the lists, all comes back. Costs
    /// the stripes and the passes.
    pub fn close(self, passes: Vec<Pass>) -> Result<EndedRow, RowBack>
        requires { AreIdlePasses self passes.items }
        ensures history { IfOk result (λ ended. HasHistory (spec_of self) passes.items ended.fragments.items) }
        ensures begins { IfOk result (λ ended. IsPrefix (history_by self.key) ended.history) }
        ensures named { IfOk result (λ ended. (h : HasHistory (spec_of self) passes.items ended.fragments.items) → ended.history ≡ h.history) }
        ensures passes { IfOk result (λ ended. AreEnded passes.items ended.passes.items) }
        ensures err { IfErr result (λ back. (back.row ≡ self) × (back.passes.items ≡ passes.items)) }
    {
        let stripes = self.stripe_count();
        let (Ok(mut fragments), Ok(mut ended)) = (
            Vec::with_capacity(self.alloc, stripes),
            Vec::with_capacity(self.alloc, passes.len()),
        ) else {
            return Err(RowBack { row: self, passes });
        };
        let seat = self.gather(passes, &mut ended);
        let history = History::of(&seat);
        let Row {
            table,
            waiting: _,
            keeping: _,
            alloc: _,
        } = self;
        take_all(table.close_with(seat), stripes, &mut fragments);
        Ok(EndedRow {
            fragments,
            passes: ended,
            history,
        })
    }

    /// Ends the row, and answers nothing. Takes no memory.
    pub fn discard(self, passes: Vec<Pass>)
        requires { All (λ pass. pass.held ≡ []) passes.items }
    {
        drop(passes);
        drop(self);
    }

    /// One seat with all passes, and what they leave.
    fn gather(&self, mut passes: Vec<Pass>, ended: &mut Vec<EndedPass>) -> Seat<Slot, View>
        requires passes { AreIdlePasses self.now passes.items × (0 < length passes.items) }
        requires room { (ended.old.items ≡ []) × (length passes.items ≤ vec_capacity ended.old) }
        ensures row { result.table_id ≡ self.now.table }
        ensures seat { result.me.0 ≡ passes_view (map (λ pass. pass.standing) passes.items) }
        ensures idle { All (λ pass. ((core_of pass).held ≡ []) × ((core_of pass).turning ≡ None)) passes.items }
        ensures ended { AreEnded passes.items ended.new.items }
    {
        let (first, mut seat) = unpack(passes.remove(0));
        ended.push_reserved(first);
        while passes.len() > 0 {
            let (next, other) = unpack(passes.remove(0));
            ended.push_reserved(next);
            self.gather_step(&mut seat, other);
        }
        passes.destroy_empty();
        seat
    }
}

/// What a pass that holds nothing leaves, and its seat.
fn unpack(pass: Pass) -> (EndedPass, Seat<Slot, View>)
    requires { pass.held ≡ [] }
    ensures ended { IsEndedPass (core_of pass).own pass.kept result.0 }
    ensures row { result.1.table_id ≡ pass.table }
    ensures seat { result.1.me ≡ (pass_view pass.standing, []) }
    ensures idle { ((core_of pass).held ≡ []) × ((core_of pass).turning ≡ None) }
{
    let Pass {
        number: _,
        seen: _,
        made,
        held,
        entries,
        space: _,
        alloc: _,
        seat,
    } = pass;
    held.destroy_empty();
    (EndedPass { made, entries }, seat)
}

/// The fragments of a closed table, of so many stripes. The pointers that passes have kept are dropped, and all other slots are empty.
fn take_all(closed: Closed<Slot, Global>, stripes: usize, fragments: &mut Vec<Keep>)
    requires full { IsFull closed.slots }
    requires inside { slot_place stripes ≤ slots_len closed.slots }
    requires some { (p : ℕ) → p < stripes → (handed : Bool) × (keep : KeptRows) × (get_elem? (slots_items closed.slots) (slot_place p) ≡ some (kept_in handed keep)) }
    requires room { (fragments.old.items ≡ []) × (stripes ≤ vec_capacity fragments.old) }
    ensures count { length fragments.new.items ≡ stripes }
    ensures items { (p : ℕ) (handed : Bool) (keep : KeptRows) → p < stripes → get_elem? (slots_items closed.slots) (slot_place p) ≡ some (kept_in handed keep) → slice_get fragments.new.items p ≡ Some keep }
{
    let mut closed = closed;
    let count = closed.slot_count();
    for i in 0..count {
        let slot = closed.take(i);
        if !is_of_stripe(i, stripes) {
            continue;
        }
        fragments.push_reserved(slot.into_keep());
    }
    closed.free();
}

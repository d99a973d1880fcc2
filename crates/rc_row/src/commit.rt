//! Commits, and what passes tell each other.

ghost use Rattle.std.specs.Prelude.{◌≡◌, ◌*◌, ◌<◌, ◌≤◌, ◌^◌, [], ◌∷◌, None, Some, length};
ghost use Rattle.rc_core.specs.Passes.{MayCommit, committed, next_of};
ghost use Rattle.rc_fragment.specs.FragmentRows.{settled};
ghost use Rattle.rc_row.specs.Law.{pass_view, standing_of};
ghost use Rattle.rc_row.specs.Passes.{HasAdded, HasLookedAt, HasSpare, IsPassOf, all_with, compiled_of, core_of, holds_now, note_of, with_entry, with_note};
ghost use Rattle.rc_row.specs.Told.{HasCommitted};
ghost use Rattle.rc_rel.specs.History.{with_replies};

use crate::held::HeldFragment;
use crate::law::View;
use crate::pass::{Note, Pass};
use crate::plays::Carries;
use crate::row::Row;
use crate::slot::Slot;
use atomic_table::Seat;
use rc_journal::Part;
use rc_rel::{Entry, Placed};
use rc_spec::{Call, Reply};
use std::marker::Brand;

impl Row {
    /// Commits the entry, and answers its place in the history. The entry is the pass's next, evaluation over what it holds
    /// gives its replies, and the fragments have the rows that it leaves. Those count as taken from now on. Costs one
    /// atomic step and the changes, and takes no memory. (PLDI 2012, serializable transactions.)
    pub fn commit(&self, pass: &mut Pass, entry: Entry) -> u64
        requires pass { IsPassOf self.now pass.old }
        requires room { HasSpare pass.old.kept }
        requires allowed { MayCommit (compiled_of self.now) (core_of pass.old) entry }
        requires left { holds_now pass.old.held ≡ (committed (compiled_of self.now) (core_of pass.old) 0 entry).held }
        ensures pass { IsPassOf self.now pass.new }
        ensures added { HasAdded self.now entry pass.old pass.new result }
    {
        let place = self.commit_entry::<Brand>(&mut pass.seat, &entry);
        settle_all(&mut pass.held);
        pass.seen = place + 1;
        pass.made += 1;
        keep_entry(&mut pass.entries, Placed { place, entry });
        place
    }

    /// Commits calls with their replies as one entry, where entries aren't kept, and answers its place. It does what `commit`
    /// does, and neither moves nor copies the calls and the replies.
    pub fn commit_calls(&self, pass: &mut Pass, calls: &[Call], replies: &[Reply]) -> u64
        requires pass { IsPassOf self.now pass.old }
        requires counts { pass.old.kept ≡ None }
        requires allowed { MayCommit (compiled_of self.now) (core_of pass.old) (next_of (core_of pass.old) (with_replies calls.now replies.now)) }
        requires left { holds_now pass.old.held ≡ (committed (compiled_of self.now) (core_of pass.old) 0 (next_of (core_of pass.old) (with_replies calls.now replies.now))).held }
        ensures pass { IsPassOf self.now pass.new }
        ensures added { HasAdded self.now (next_of (core_of pass.old) (with_replies calls.now replies.now)) pass.old pass.new result }
    {
        let place = self.commit_next::<Brand>(&mut pass.seat, calls, replies);
        settle_all(&mut pass.held);
        pass.seen = place + 1;
        pass.made += 1;
        place
    }

    /// The step that commits this entry, which a call picks by it.
    fn commit_entry<E: Carries>(&self, seat: &mut Seat<Slot, View>, entry: &Entry) -> u64
        requires entry { E.entry ≡ entry.now }
        requires key { E.told ≡ Some self.now.key }
        requires row { seat.old.table_id ≡ self.now.table }
        requires pass { seat.old.me.0 ≡ pass_view (standing_of seat.old.me.0) }
        requires allowed { MayCommit (compiled_of self.now) (standing_of seat.old.me.0).core entry.now }
        ensures seat { (seat.new.table_id ≡ seat.old.table_id) × (seat.new.id ≡ seat.old.id) }
        ensures told { HasCommitted self.now.key entry.now seat.old.me result seat.new.me }
    {
        let _ = entry;
        self.commit_step::<E>(seat)
    }

    /// The step that commits these calls with their replies as the pass's next entry, which a call picks by them.
    fn commit_next<E: Carries>(
        &self,
        seat: &mut Seat<Slot, View>,
        calls: &[Call],
        replies: &[Reply],
    ) -> u64
        requires entry { E.entry ≡ next_of (standing_of seat.old.me.0).core (with_replies calls.now replies.now) }
        requires key { E.told ≡ Some self.now.key }
        requires row { seat.old.table_id ≡ self.now.table }
        requires pass { seat.old.me.0 ≡ pass_view (standing_of seat.old.me.0) }
        requires allowed { MayCommit (compiled_of self.now) (standing_of seat.old.me.0).core (next_of (standing_of seat.old.me.0).core (with_replies calls.now replies.now)) }
        ensures seat { (seat.new.table_id ≡ seat.old.table_id) × (seat.new.id ≡ seat.old.id) }
        ensures told { HasCommitted self.now.key (next_of (standing_of seat.old.me.0).core (with_replies calls.now replies.now)) seat.old.me result seat.new.me }
    {
        let _ = calls;
        let _ = replies;
        self.commit_step::<E>(seat)
    }

    /// Reads from the commit word how long the history is, and answers it: the pass has seen so much of it, which is no less
    /// than it had seen. Takes no memory.
    pub fn look(&self, pass: &mut Pass) -> u64
        requires { IsPassOf self.now pass.old }
        ensures pass { IsPassOf self.now pass.new }
        ensures looked { HasLookedAt self.now pass.old pass.new result }
    {
        let length = self.look_step::<Brand>(&mut pass.seat);
        pass.seen = pass.seen.max(length);
        length
    }

    /// Notes what the pass has seen, for another pass to learn. Takes no memory.
    pub fn note(&self, pass: &mut Pass) -> Note
        requires { IsPassOf self.now pass.old }
        ensures same { pass.new ≡ pass.old }
        ensures note { result ≡ note_of pass.old }
    {
        let seat = self.note_step(&mut pass.seat);
        Note {
            told: pass.seen,
            seat,
        }
    }

    /// The pass has seen what the note's pass had seen. Takes no memory.
    pub fn learn(&self, pass: &mut Pass, note: Note)
        requires pass { IsPassOf self.now pass.old }
        requires note { note.table ≡ self.now.table }
        ensures pass { IsPassOf self.now pass.new }
        ensures value { pass.new ≡ with_note note pass.old }
    {
        let Note { told, seat } = note;
        self.learn_step(&mut pass.seat, seat);
        pass.seen = pass.seen.max(told);
    }
}

/// Makes the rows of all that is held count as taken.
fn settle_all(held: &mut Vec<HeldFragment>)
    ensures items { held.new.items ≡ all_with settled held.old.items }
    ensures room { held.new.cap ≡ held.old.cap }
{
    for i in 0..held.len() {
        held[i].fragment.settle();
    }
}

/// Keeps the entry, where entries are kept.
fn keep_entry(entries: &mut Option<Part>, placed: Placed)
    requires { HasSpare entries.old }
    ensures { entries.new ≡ with_entry entries.old placed }
{
    if let Some(part) = entries {
        part.push(placed);
    }
}

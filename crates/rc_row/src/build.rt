//! How a row is made: with no history, or from that of a row that was closed.

ghost use Rattle.std.specs.Prelude.{◌≡◌, ◌-◌, ℕ, suc, ◌+◌, ◌*◌, ◌<◌, ◌≤◌, ◌^◌, ◌++◌, [], IfErr, IfOk, Some, length, map, min, replicate, slice_set, vec_capacity};
ghost use Rattle.std.specs.List.{filter_map, flat_map, slice_get, sum};
ghost use Rattle.atomic_table.specs.Table.{opening};
ghost use Rattle.rc_spec.specs.Stripes.{stripe_total};
ghost use Rattle.rc_rel.specs.History.{own_placed};
ghost use Rattle.rc_row.specs.declared.slot.Slot.TheVariants.{Empty};
ghost use Rattle.rc_row.specs.declared.close.EndedPass.{EndedPass};
ghost use Rattle.rc_row.specs.Ended.{IsEndedOf, IsLeftOf, no_entries, resumed_from};
ghost use Rattle.rc_row.specs.Law.{IsKept, history_by, kept_of, opener, passes_view, starts};
ghost use Rattle.rc_row.specs.Passes.{new_passes, resumed_pass, stripes_of};
ghost use Rattle.rc_row.specs.Rooms.{AreRooms, spaced};
ghost use Rattle.rc_row.specs.Slots.{kept_at};

use crate::close::{EndedPass, EndedRow};
use crate::held::HeldFragment;
use crate::history::History;
use crate::keeping::Keeping;
use crate::law::{Key, View};
use crate::pass::Pass;
use crate::row::{COMMIT_WORD, FIRST_OWN, Row, SLOTS_OF_A_LINE, SLOTS_OF_A_PASS, WORDS_OF_A_LINE};
use crate::slot::Slot;
use crate::waiting::Waiting;
use atomic_table::{Refused, Seat, Table};
use rc_fragment::{Fragment, Keep};
use rc_journal::Part;
use rc_maps::Seed;
use rc_plan::Compiled;
use rc_spec::{Accepted, stripe_total};
use rc_tuple::Memory;
use std::alloc::Global;
use std::snapshot::Snapshot;

/// The memory of a row and its passes.
#[derive(Drop)]
struct RowRoom {
    held: Vec<Vec<HeldFragment>>,
    dealt: Vec<Pass>,
    waiting: Waiting,
    words: Vec<u64>,
    slots: Vec<Slot>,
    back: Vec<Keep>,
}

impl Row {
    /// Makes a row of a specification with its plans, all of whose stripes are free and have no row, with its passes by
    /// number, 1 to 255 of them, which keep of their entries what is said. The seed is that of its hash tables. Only want of
    /// memory refuses it. Costs the stripes and, for each pass, room for a fragment of each stripe.
    pub fn build(
        alloc: Global,
        seed: Seed,
        compiled: &Compiled,
        passes: u32,
        keeping: Keeping,
    ) -> Result<(Row, Vec<Pass>), Memory>
        requires { (1 ≤ passes) × (passes ≤ 255) }
        ensures compiled { IfOk result (λ r. r.0.key.compiled.value ≡ compiled.now) }
        ensures row { IfOk result (λ r. (r.0.key.passes ≡ passes) × (r.0.key.seed ≡ seed) × (r.0.keeping ≡ keeping)) }
        ensures history { IfOk result (λ r. history_by r.0.key ≡ []) }
        ensures passes { IfOk result (λ r. r.1.items ≡ new_passes r.0) }
    {
        let new = EndedRow {
            fragments: empty_fragments(alloc, seed, compiled.accepted())?,
            passes: without_entries(alloc, passes, keeping)?,
            history: History::none(),
        };
        match Row::resume(alloc, seed, compiled, keeping, new) {
            Ok(made) => Ok(made),
            Err(_) => Err(Memory),
        }
    }

    /// Makes a row that goes on from what another has left, over its specification or one with further operations: its
    /// fragments have the rows that the history leaves, its passes, by number, have made the entries that those made, keep
    /// them where they were kept, have seen the history and were told of it, and hold nothing. The seed is that of hash tables
    /// that are made from now on. Where memory is wanted all comes back. Costs the stripes and, for each pass, room for a
    /// fragment of each stripe; no row is copied.
    pub fn resume(
        alloc: Global,
        seed: Seed,
        compiled: &Compiled,
        keeping: Keeping,
        left: EndedRow,
    ) -> Result<(Row, Vec<Pass>), EndedRow>
        requires { IsLeftOf compiled.now.spec keeping left.history left.fragments.items left.passes.items }
        ensures compiled { IfOk result (λ r. r.0.key.compiled.value ≡ compiled.now) }
        ensures row { IfOk result (λ r. (r.0.key.passes ≡ length left.passes.items) × (r.0.key.seed ≡ seed) × (r.0.keeping ≡ keeping)) }
        ensures history { IfOk result (λ r. history_by r.0.key ≡ left.history) }
        ensures passes { IfOk result (λ r. r.1.items ≡ resumed_from r.0 0 left.passes.items) }
        ensures err { IfErr result (λ back. (back.fragments.items ≡ left.fragments.items) × (back.passes.items ≡ left.passes.items) × (back.history ≡ left.history)) }
    {
        let stripes = stripe_total(compiled.accepted().spec()) as usize;
        let Ok(room) = RowRoom::new(alloc, stripes, left.passes.len()) else {
            return Err(left);
        };
        let EndedRow {
            fragments,
            passes: ended,
            history,
        } = left;
        let key = Key {
            compiled: Snapshot::of(compiled),
            passes: ended.len() as u32,
            seed,
            history: Snapshot::of(&history),
        };
        let seen = made_in_all(&ended);
        let words = words_of(room.words, seen);
        let slots = slots_of(room.slots, fragments, key.passes);
        match open(alloc, &key, &words, slots, room.waiting, keeping) {
            Ok((row, seat)) => {
                let dealt = row.deal_all(seat, ended, room.held, room.dealt, seen);
                Ok((row, dealt))
            }
            Err(slots) => Err(EndedRow {
                fragments: taken_back(slots, room.back),
                passes: ended,
                history,
            }),
        }
    }

    /// All passes, each with what it has made and with room for what it may hold.
    fn deal_all(
        &self,
        mut seat: Seat<Slot, View>,
        ended: Vec<EndedPass>,
        mut held: Vec<Vec<HeldFragment>>,
        mut dealt: Vec<Pass>,
        seen: u64,
    ) -> Vec<Pass>
        requires row { (seat.table_id ≡ self.now.table) × (seat.me ≡ (opener self.now.key, [])) }
        requires passes { (length ended.items ≡ self.now.key.passes) × (length ended.items ≤ 255) }
        requires made { (k : ℕ) (e : EndedPass) → slice_get ended.items k ≡ Some e → IsEndedOf (own_placed (history_by self.now.key) k) e }
        requires seen { seen ≡ length (history_by self.now.key) }
        requires held { (length held.items ≡ length ended.items) × AreRooms (stripes_of self.now) held.items }
        requires dealt { (dealt.items ≡ []) × (length ended.items ≤ vec_capacity dealt) }
        ensures { result.items ≡ resumed_from self.now 0 ended.items }
    {
        for one in ended {
            let Some(room) = held.pop() else {
                unreachable!();
            };
            let pass = self.deal(&mut seat, dealt.len() as u32, room, one, seen);
            dealt.push_reserved(pass);
        }
        dealt
    }

    /// The next pass.
    fn deal(
        &self,
        seat: &mut Seat<Slot, View>,
        number: u32,
        held: Vec<HeldFragment>,
        ended: EndedPass,
        seen: u64,
    ) -> Pass
        requires row { seat.old.table_id ≡ self.now.table }
        requires number { number < 255 }
        requires some { (n : ℕ) × (seat.old.me.0 ≡ passes_view (starts (history_by self.now.key) number (suc n))) }
        requires room { (held.items ≡ []) × (stripes_of self.now ≤ held.cap) }
        requires ended { IsEndedOf (own_placed (history_by self.now.key) number) ended }
        requires seen { seen ≡ length (history_by self.now.key) }
        ensures seat { (seat.new.table_id ≡ seat.old.table_id) × (seat.new.id ≡ seat.old.id) × (seat.new.me.1 ≡ seat.old.me.1) }
        ensures left { (n : ℕ) → seat.old.me.0 ≡ passes_view (starts (history_by self.now.key) number (suc n)) → seat.new.me.0 ≡ passes_view (starts (history_by self.now.key) (suc number) n) }
        ensures pass { result ≡ resumed_pass self.now number ended.entries }
    {
        let dealt = self.deal_step(seat);
        Pass {
            number,
            seen,
            made: ended.made,
            held,
            entries: ended.entries,
            space: None,
            alloc: self.alloc,
            seat: dealt,
        }
    }
}

impl RowRoom {
    /// The memory of a row with so many stripes and passes.
    fn new(alloc: Global, stripes: usize, passes: usize) -> Result<RowRoom, Memory>
        requires { (stripes ≤ 256) × (passes ≤ 255) }
        ensures held { IfOk result (λ room. (length room.held.items ≡ passes) × AreRooms stripes room.held.items) }
        ensures dealt { IfOk result (λ room. (room.dealt.items ≡ []) × (passes ≤ vec_capacity room.dealt)) }
        ensures words { IfOk result (λ room. room.words.items ≡ replicate (8 * (2 * stripes + 1)) 0) }
        ensures slots { IfOk result (λ room. (room.slots.items ≡ []) × (1024 + 260 * passes ≤ vec_capacity room.slots)) }
        ensures back { IfOk result (λ room. (room.back.items ≡ []) × (stripes ≤ vec_capacity room.back)) }
    {
        Ok(RowRoom {
            held: rooms(alloc, passes, stripes)?,
            dealt: Vec::with_capacity(alloc, passes)?,
            waiting: Waiting::new(alloc, stripes)?,
            words: vec![in alloc; 0u64; WORDS_OF_A_LINE * (2 * stripes + 1)]?,
            slots: Vec::with_capacity(alloc, FIRST_OWN + SLOTS_OF_A_PASS * passes)?,
            back: Vec::with_capacity(alloc, stripes)?,
        })
    }
}

/// A row with its opener, who deals the passes. The slots come back where memory is wanted.
fn open(
    alloc: Global,
    key: &Key,
    words: &[u64],
    slots: Vec<Slot>,
    waiting: Waiting,
    keeping: Keeping,
) -> Result<(Row, Seat<Slot, View>), Vec<Slot>>
    requires { IsKept key.now (opening words.now slots.items (opener key.now)) }
    ensures row { IfOk result (λ r. (r.0.key ≡ key.now) × (r.0.keeping ≡ keeping)) }
    ensures seat { IfOk result (λ r. (r.1.table_id ≡ r.0.table) × (r.1.me ≡ (opener key.now, []))) }
    ensures err { IfErr result (λ back. back.items ≡ slots.items) }
{
    match Table::new(alloc, words, slots, key) {
        Ok((table, seat)) => Ok((
            Row {
                table,
                waiting,
                keeping,
                alloc,
            },
            seat,
        )),
        Err(Refused { slots }) => Err(slots),
    }
}

/// The words before the first step: nobody has a stripe or a latch, and the history is so long.
fn words_of(mut words: Vec<u64>, seen: u64) -> Vec<u64>
    requires { 0 < length words.items }
    ensures { result.items ≡ slice_set words.items 0 seen }
{
    words[COMMIT_WORD] = seen;
    words
}

/// The slots before the first step, in room for them: that of each stripe has its fragment, and all others have nothing.
fn slots_of(slots: Vec<Slot>, fragments: Vec<Keep>, passes: u32) -> Vec<Slot>
    requires room { (slots.items ≡ []) × (1024 + 260 * passes ≤ vec_capacity slots) }
    requires few { (length fragments.items ≤ 256) × (passes ≤ 255) }
    ensures { result.items ≡ flat_map spaced fragments.items ++ replicate (1024 + 260 * passes - 4 * length fragments.items) Empty }
{
    let empty = FIRST_OWN + SLOTS_OF_A_PASS * passes as usize - SLOTS_OF_A_LINE * fragments.len();
    let mut slots = put_home(slots, fragments);
    for _ in 0..empty {
        slots.push_reserved(Slot::Empty);
    }
    slots
}

/// Puts each fragment into the slot of its stripe, with nothing between it and the next.
fn put_home(mut slots: Vec<Slot>, fragments: Vec<Keep>) -> Vec<Slot>
    requires { (slots.items ≡ []) × (4 * length fragments.items ≤ vec_capacity slots) }
    ensures items { result.items ≡ flat_map spaced fragments.items }
    ensures room { vec_capacity result ≡ vec_capacity slots }
{
    for keep in fragments {
        slots.push_reserved(Slot::Apart(keep));
        slots.push_reserved(Slot::Empty);
        slots.push_reserved(Slot::Empty);
        slots.push_reserved(Slot::Empty);
    }
    slots
}

/// The fragments that lie in slots, in room for them.
fn taken_back(slots: Vec<Slot>, mut back: Vec<Keep>) -> Vec<Keep>
    requires { (back.items ≡ []) × (length (filter_map kept_at slots.items) ≤ vec_capacity back) }
    ensures { result.items ≡ filter_map kept_at slots.items }
{
    for slot in slots {
        if let Some(keep) = slot.kept() {
            back.push_reserved(keep);
        }
    }
    back
}

/// How many entries the passes have made, or the largest number where it is above that.
fn made_in_all(ended: &[EndedPass]) -> u64
    ensures { result ≡ min (sum (map (λ e. e.made) ended.now)) (2 ^ 64 - 1) }
{
    let mut total = 0u64;
    for one in ended {
        total = total.saturating_add(one.made);
    }
    total
}

/// A fragment without rows for each stripe.
fn empty_fragments(alloc: Global, seed: Seed, accepted: &Accepted) -> Result<Vec<Keep>, Memory>
    ensures { IfOk result (λ fragments. fragments.items ≡ replicate (stripe_total accepted.now) (kept_of accepted.now [])) }
{
    let stripes = stripe_total(accepted.spec());
    let mut fragments = Vec::with_capacity(alloc, stripes as usize)?;
    for _ in 0..stripes {
        let fragment = Fragment::empty(alloc, seed, accepted)?;
        fragments.push(Keep::of(fragment))?;
    }
    Ok(fragments)
}

/// What so many passes leave that have made no entry.
fn without_entries(alloc: Global, passes: u32, keeping: Keeping) -> Result<Vec<EndedPass>, Memory>
    ensures { IfOk result (λ ended. ended.items ≡ replicate passes (no_entries keeping)) }
{
    let mut ended = Vec::with_capacity(alloc, passes as usize)?;
    for _ in 0..passes {
        let entries = match keeping {
            Keeping::Entries => Some(Part::empty(alloc)),
            Keeping::Counts => None,
        };
        ended.push(EndedPass { made: 0, entries })?;
    }
    Ok(ended)
}

/// Room for the fragments that each pass may hold.
fn rooms(alloc: Global, passes: usize, stripes: usize) -> Result<Vec<Vec<HeldFragment>>, Memory>
    ensures { IfOk result (λ rooms. (length rooms.items ≡ passes) × AreRooms stripes rooms.items) }
{
    let mut rooms = Vec::with_capacity(alloc, passes)?;
    for _ in 0..passes {
        rooms.push(Vec::with_capacity(alloc, stripes)?)?;
    }
    Ok(rooms)
}

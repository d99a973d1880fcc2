//! Which slot a seat can reach, and where a pass has the fragment of a stripe.

ghost use Rattle.std.specs.Prelude.{◌≡◌, ℕ, suc, ◌/◌, ◌%◌, ◌<◌, ◌≤◌, ◌^◌, ◌==◌, cond, drop, length, take, vec_capacity};
ghost use Rattle.std.specs.List.{remove, slice_index_or};
ghost use Rattle.std.specs.Ordering.{nat_cmp};
ghost use Rattle.rc_tuple.specs.RisingSet.{In, IsRising};
ghost use Rattle.rc_core.specs.State.{stripes_in};
ghost use Rattle.rc_row.specs.Own.{hands_out, turned_times};
ghost use Rattle.rc_row.specs.Passes.{holds_taken};
ghost use Rattle.rc_row.specs.Told.{found_in_word};
ghost use Rattle.rc_row.specs.Turns.{IsHeldAt};

use crate::held::HeldFragment;
use crate::law::View;
use crate::slot::Slot;
use atomic_table::Seat;
use rc_spec::{Found, Mode};

/// Puts so many of the slots that were taken last behind the others. It costs nothing at run time.
pub(crate) fn turn_by(seat: &mut Seat<Slot, View>, count: usize)
    ensures { (seat.new.table_id ≡ seat.old.table_id) × (seat.new.id ≡ seat.old.id) × (seat.new.me ≡ (seat.old.me.0, turned_times count seat.old.me.1)) }
{
    for _ in 0..count {
        seat.turn();
    }
}

/// Where the fragment of a held stripe is. It is looked for from the end, since what was taken last is given back first.
pub(crate) fn place_of(held: &Vec<HeldFragment>, stripe: u32) -> usize
    requires there { In stripe (stripes_in (holds_taken held.now.items)) }
    requires rising { IsRising nat_cmp (stripes_in (holds_taken held.now.items)) }
    ensures { IsHeldAt held.now.items stripe result }
{
    for i in (0..held.len()).rev() {
        if held[i].stripe == stripe {
            return i;
        }
    }
    unreachable!()
}

/// Takes out the fragment at a place. The last one, which is mostly wanted, moves no other.
pub(crate) fn take_at(held: &mut Vec<HeldFragment>, at: usize) -> HeldFragment
    requires { at < length held.old.items }
    ensures value { result ≡ slice_index_or held.old.items at result }
    ensures items { held.new.items ≡ remove held.old.items at }
    ensures capacity { vec_capacity held.new ≡ vec_capacity held.old }
{
    if at + 1 < held.len() {
        return held.remove(at);
    }
    let Some(last) = held.pop() else {
        unreachable!();
    };
    last
}

/// By how many turns the slots of a stripe come to the front of those that a seat has out, where there are so many passes, and by how
/// many the others then come back into their order. What was taken last, and is nearly always given back first, is in front: no turn,
/// and nothing is counted.
pub(crate) fn turns_for(held: &Vec<HeldFragment>, at: usize, passes: u32) -> (usize, usize)
    requires there { at < length held.now.items }
    requires few { (length held.now.items ≤ 256) × (passes ≤ 255) }
    ensures front { (k : ℕ) → result.0 ≡ length (hands_out passes k (drop (suc at) held.now.items)) }
    ensures back { (k : ℕ) → result.1 ≡ cond (result.0 == 0) 0 (length (hands_out passes k (take at held.now.items))) }
{
    let held = held.as_slice();
    let above = slots_out(&held[at + 1..], passes);
    let below = if above == 0 {
        0
    } else {
        slots_out(&held[..at], passes)
    };
    (above, below)
}

/// How many slots a pass has out for these, where there are so many passes: for a stripe that it writes its slot and all own slots there,
/// for one that it shares its own.
pub(crate) fn slots_out(held: &[HeldFragment], passes: u32) -> usize
    requires { (length held.now ≤ 256) × (passes ≤ 255) }
    ensures { (k : ℕ) → result ≡ length (hands_out passes k held.now) }
{
    let mut count = 0;
    for one in held {
        count += match one.mode {
            Mode::Exclusive => 1 + passes as usize,
            Mode::Shared => 1,
        };
    }
    count
}

/// What a stripe's word says, where it isn't 0.
pub(crate) fn found_in(word: u64) -> Found
    requires { word % 65536 ≡ 0 → word / 65536 < 2 ^ 32 }
    ensures { result ≡ found_in_word word }
{
    if word % 65536 == 0 {
        Found::Readers((word / 65536) as u32)
    } else {
        Found::Pass((word % 65536 - 1) as u32)
    }
}

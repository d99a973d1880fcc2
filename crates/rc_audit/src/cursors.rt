//! Where threads stand in a round: of each the index of its next turn, or the round's length.

ghost use Rattle.std.specs.Prelude.{◌≡◌, ◌≤◌, ◌<◌, ◌+◌, ℕ, length, true, false, IfOk};
ghost use Rattle.rc_audit.specs.Cursors.{AreCursors, HasGoneOn, HasLeft, HaveBegun, IsTurnOf, turns_from};
ghost use Rattle.rc_audit.specs.Judged.{IsOfThread};
ghost use Rattle.rc_audit.specs.Judging.{IsChosen};

use rc_text::push_u64;
use rc_tuple::Memory;
use rc_work::Turn;
use std::alloc::Global;

/// The index of the thread's first turn from an index of the round on, or the round's length.
fn first_turn(round: &[Turn], thread: u32, from: usize) -> usize
    requires { from ≤ length round.now }
    ensures from { from ≤ result }
    ensures within { result ≤ length round.now }
    ensures turn { IsTurnOf round.now thread result }
    ensures turns { turns_from round.now thread from ≡ turns_from round.now thread result }
{
    for at in from..round.len() {
        if round[at].thread == thread {
            return at;
        }
    }
    round.len()
}

/// The indices of the threads' first turns in a round. Costs a walk over the round for each thread.
pub(crate) fn first_cursors(
    alloc: Global,
    round: &[Turn],
    threads: u32,
) -> Result<Vec<usize>, Memory>
    ensures { IfOk result (λ cursors. HaveBegun round.now threads cursors.items) }
{
    let mut cursors = Vec::new(alloc);
    for thread in 0..threads {
        cursors.push(first_turn(round, thread, 0))?;
    }
    Ok(cursors)
}

/// The thread's index goes on to its next turn.
pub(crate) fn go_on(cursors: &mut [usize], round: &[Turn], thread: u32)
    requires left { HasLeft round.now cursors.old thread }
    requires cursors { AreCursors round.now cursors.old }
    ensures { HasGoneOn round.now cursors.old cursors.new thread }
{
    let at = cursors[thread as usize];
    cursors[thread as usize] = first_turn(round, thread, at + 1);
}

/// Whether some thread has a turn left in the round.
pub(crate) fn has_left(cursors: &[usize], round: &[Turn]) -> bool
    ensures yes { result ≡ true → (thread : ℕ) × HasLeft round.now cursors.now thread }
    ensures no { result ≡ false → (thread : ℕ) → HasLeft round.now cursors.now thread → ⊥ }
{
    cursors.iter().any(|cursor| *cursor < round.len())
}

/// Whether the line begins with the place of an entry and the thread, each with a space behind it.
fn is_of_thread(alloc: Global, place: u64, line: &[u8], thread: u32) -> Result<bool, Memory>
    ensures yes { IfOk result (λ yes. yes ≡ true → IsOfThread place line.now thread) }
    ensures no { IfOk result (λ yes. yes ≡ false → IsOfThread place line.now thread → ⊥) }
{
    let mut head = Vec::new(alloc);
    push_u64(&mut head, place)?;
    head.push(b' ')?;
    push_u64(&mut head, u64::from(thread))?;
    head.push(b' ')?;
    Ok(line.starts_with(&head))
}

/// The thread whose entry with this place the line tells, among those that have a turn left in the
/// round.
pub(crate) fn thread_of(
    alloc: Global,
    round: &[Turn],
    cursors: &[usize],
    place: u64,
    line: &[u8],
) -> Result<Option<u32>, Memory>
    requires few { length cursors.now ≤ 8 }
    ensures { IfOk result (IsChosen round.now cursors.now place line.now) }
{
    for (thread, cursor) in cursors.iter().enumerate() {
        if *cursor < round.len() && is_of_thread(alloc, place, line, thread as u32)? {
            return Ok(Some(thread as u32));
        }
    }
    Ok(None)
}

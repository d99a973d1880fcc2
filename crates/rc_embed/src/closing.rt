//! How a store takes sessions back, and how it is closed.

ghost use Rattle.std.specs.Prelude.{◌≡◌, ◌≤◌, ◌↔◌, IfErr, IfOk, IsTrue, None, OnOk, length, map};
ghost use Rattle.std.specs.List.{range_with_len};
ghost use Rattle.rc_row.specs.Passes.{AreIdlePasses};
ghost use Rattle.rc_store.specs.Closed.{HasClosed};
ghost use Rattle.rc_embed.specs.Closing.{HasAllPasses, HasTakenBack, IsBackOf, IsPlaceOf};
ghost use Rattle.rc_embed.specs.Closing.{number_of, pass_count};
ghost use Rattle.rc_embed.specs.Session.{IsIdle};

use crate::hold::Hold;
use crate::opening::OpenStore;
use crate::session::{Session, State};
use crate::shared::Shared;
use rc_row::Pass;
use rc_store::{Closed, StoreBack};

/// Why a store isn't closed, with what comes back of it.
#[derive(Drop)]
pub enum CloseBack {
    /// Some pass isn't the store's: a session has it, or was dropped with it. The store is as it
    /// was.
    Outside(OpenStore),
    /// All passes are the store's, and somebody holds yet what it shares with its sessions. The
    /// store is as it was. (This doesn't come: a session gives its hold up before its pass is the
    /// store's. But `Arc` has no clause that says when a value is held by one alone.)
    Shared(OpenStore),
    /// All passes are the store's, and memory was wanted. The store is as it was.
    Memory(OpenStore),
}

impl OpenStore {
    /// Takes a session of this store back: its pass is the store's again, among the others by its
    /// number, and serves the next session that begins. Its last reply is gone. Takes no memory.
    ///
    /// `Err`, with session and store as they were, exactly where the session has prepared a call or
    /// a group, or has opened one, or the store has as many passes as it was opened with. Where a
    /// session of it is outside it has fewer (`passes_come_back`), so an idle session is taken back.
    pub fn take_back(&mut self, session: Session) -> Result<(), Session>
        requires { session.store ≡ self.old.store }
        ensures taken { OnOk result (HasTakenBack self.old self.new session) }
        ensures back { IfErr result (λ back. (back ≡ session) × (self.new ≡ self.old)) }
        ensures cause { IfErr result
            (λ _. IsIdle session.state → pass_count self.old ≤ length self.old.passes) }
    {
        let State::Idle(pass) = &session.state else {
            return Err(session);
        };
        if self.passes.len() >= self.count as usize {
            return Err(session);
        }
        let at = place_of(&self.passes, pass.number());
        let Ok(()) = self.passes.insert(at, session.into_pass()) else {
            unreachable!()
        };
        Ok(())
    }

    /// Whether all passes of the store are its own: whether no session has one.
    pub(crate) fn has_all_passes(&self) -> bool
        ensures { IsTrue result ↔ HasAllPasses self.now }
    {
        are_all(&self.passes, self.count)
    }

    /// Ends the store, all of whose passes are its own: the calls of all sessions that it ever had
    /// are one legal history, in which each pass's entries are its own, and the relation that the
    /// history leaves comes with it. (PLDI 2012, serializable transactions.)
    ///
    /// `Outside` comes exactly where some pass isn't the store's, which is where a session that has
    /// begun hasn't been taken back (`passes_come_back`). Where all are, it is `Memory` that may
    /// come, or `Shared`, which is built never to come. Costs the stripes and the passes.
    pub fn close(self) -> Result<Closed, CloseBack>
        ensures all { IfOk result (λ _. HasAllPasses self) }
        ensures closed { IfOk result (HasClosed self.store self.passes) }
        ensures counts { IfOk result (λ closed. closed.journal ≡ None) }
        ensures back { IfErr result (IsBackOf self) }
    {
        if !self.has_all_passes() {
            return Err(CloseBack::Outside(self));
        }
        let OpenStore {
            hold,
            alloc,
            passes,
            count,
        } = self;
        match hold.into_alone() {
            Ok(shared) => match shared.close(passes) {
                Ok(closed) => Ok(closed),
                Err(SharedBack { shared, passes }) => Err(CloseBack::Memory(OpenStore {
                    hold: Hold::Alone(shared),
                    alloc,
                    passes,
                    count,
                })),
            },
            Err(hold) => Err(CloseBack::Shared(OpenStore {
                hold,
                alloc,
                passes,
                count,
            })),
        }
    }
}

/// What a store shared with its sessions, and all passes, both as they were, since memory was wanted.
#[derive(Drop)]
struct SharedBack {
    shared: Shared,
    passes: Vec<Pass>,
}

impl Shared {
    /// Ends the store, all of whose passes these are.
    fn close(self, passes: Vec<Pass>) -> Result<Closed, SharedBack>
        requires { AreIdlePasses self.row passes.items }
        ensures closed { IfOk result (HasClosed self passes.items) }
        ensures counts { IfOk result (λ closed. closed.journal ≡ None) }
        ensures back { IfErr result
            (λ back. (back.shared ≡ self) × (back.passes.items ≡ passes.items)) }
    {
        let Shared {
            store,
            columns,
            limit,
        } = self;
        match store.close(passes) {
            Ok(closed) => Ok(closed),
            Err(StoreBack { store, passes }) => Err(SharedBack {
                shared: Shared {
                    store,
                    columns,
                    limit,
                },
                passes,
            }),
        }
    }
}

/// The place of a number among passes: behind the first ones that have lower numbers.
fn place_of(passes: &[Pass], number: u32) -> usize
    ensures { IsPlaceOf number passes.now result }
{
    passes
        .iter()
        .position(|pass| pass.number() >= number)
        .unwrap_or(passes.len())
}

/// Whether these are so many passes, by number.
fn are_all(passes: &[Pass], count: u32) -> bool
    ensures { IsTrue result ↔ (map number_of passes.now ≡ range_with_len 0 count) }
{
    if passes.len() != count as usize {
        return false;
    }
    for (at, pass) in passes.iter().enumerate() {
        if pass.number() as usize != at {
            return false;
        }
    }
    true
}

//! Stores that are closed, and go on, for callers in other languages.

ghost use Rattle.std.specs.Prelude.{◌≡◌, ◌↔◌, ◌∷◌, [], IfErr, IfOk, IsSome, IsTrue, None, Some};
ghost use Rattle.rc_embed.specs.Closing.{HasAllPasses, IsBackOf};
ghost use Rattle.rc_embed.specs.OpenFrames.{KeepsAsked};
ghost use Rattle.rc_embed.specs.Opened.{OpenSeen};
ghost use Rattle.rc_embed.specs.ResumedFrames.{HasClosedInto, HasItemOf, HaveResumedFrom};
ghost use Rattle.rc_embed.specs.ResumedFrames.{IsUnclosedFor, IsUnresumedFrom, TellsResumeFault};

use crate::closing::CloseBack;
use crate::codes::{LIMIT, MEMORY, OTHER, OUTSIDE, SESSIONS, SHARED};
use crate::fault::ResumeFault;
use crate::open_frame::OpenFrame;
use crate::opening::OpenStore;
use crate::resuming::{ResumeBack, resume_into};
use crate::session::put;
use rc_store::Closed;
use std::alloc::Global;
use std::marker::Model;
use std::mem;

/// A store that isn't closed, as it was, and the code that tells why not.
#[derive(Drop)]
pub struct NotClosed {
    /// The store.
    pub store: OpenStore,
    /// `OUTSIDE` exactly where some session isn't given back, else `MEMORY`.
    pub code: u32,
}

/// The place of a closed store that kept no entries. It is empty once the store goes on.
#[derive(Drop)]
pub struct ClosedPlace {
    closed: Option<Closed>,
    alloc: Global,
}

impl Model for ClosedPlace {
    ghost use Rattle.std.specs.Prelude.{Option};
    ghost use Rattle.rc_store.specs.Closed.{ClosedSeen};

    ghost Value = { Option ClosedSeen };

    ghost use Rattle.rc_embed.specs.PlaceInside.{keeps_none};

    ghost view = { λ place. place.closed };

    ghost invariant = { keeps_none };
}

impl OpenStore {
    /// Ends the store, as `close` does, all of whose sessions have been given back, and puts what is left into a place of its
    /// own on the heap, whose memory is taken before.
    pub fn close_by(self) -> Result<Box<ClosedPlace, Global>, NotClosed>
        ensures all { IfOk result (λ _. HasAllPasses self) }
        ensures closed { IfOk result (λ place. HasClosedInto self place.value) }
        ensures same { IfErr result (λ back. back.store ≡ self) }
        ensures code { IfErr result (λ back. IsUnclosedFor self back.code) }
    {
        if !self.has_all_passes() {
            return Err(NotClosed {
                store: self,
                code: OUTSIDE,
            });
        }
        let alloc = self.alloc;
        let closed = None;
        match Box::new(alloc, ClosedPlace { closed, alloc }) {
            Ok(place) => self.close_into(place),
            Err(_) => Err(NotClosed {
                store: self,
                code: MEMORY,
            }),
        }
    }

    /// Ends it so, and puts what is left into the place.
    fn close_into(
        self,
        mut place: Box<ClosedPlace, Global>,
    ) -> Result<Box<ClosedPlace, Global>, NotClosed>
        ensures all { IfOk result (λ _. HasAllPasses self) }
        ensures closed { IfOk result (λ place. HasClosedInto self place.value) }
        ensures same { IfErr result (λ back. back.store ≡ self) }
        ensures code { IfErr result (λ back. IsUnclosedFor self back.code) }
    {
        let alloc = self.alloc;
        match self.close() {
            Ok(closed) => {
                let closed = Some(closed);
                drop(Box::replace(&mut place, ClosedPlace { closed, alloc }));
                Ok(place)
            }
            Err(back) => Err(not_closed(back)),
        }
    }
}

/// The store that comes back, with the code that tells why it isn't closed.
fn not_closed(back: CloseBack) -> NotClosed
    ensures { (opened : OpenSeen) → IsBackOf opened back
        → (result.store ≡ opened) × IsUnclosedFor opened result.code }
{
    let (store, code) = match back {
        CloseBack::Outside(store) => (store, OUTSIDE),
        CloseBack::Shared(store) => (store, SHARED),
        CloseBack::Memory(store) => (store, MEMORY),
    };
    NotClosed { store, code }
}

impl ClosedPlace {
    /// Opens the closed store again by the texts, as `resume` does and as the frame asks, in a list that has room for it alone;
    /// the place is empty then. Else it is as it was, and the frame is told why not, and the code is answered. Where memory is
    /// wanted for the refusal, that is the code.
    pub fn resume_by(
        &mut self,
        text: &[u8],
        shapes: &[u8],
        plans: &[u8],
        frame: &mut OpenFrame,
    ) -> Result<Vec<OpenStore>, u32>
        requires { IsSome self.old }
        ensures resumed { IfOk result (λ stores.
            HaveResumedFrom self.old text.now shapes.now plans.now frame.old stores.items) }
        ensures none { IfOk result (λ _. (self.new ≡ None) × (frame.new.length ≡ 0)) }
        ensures same { IfErr result (λ _. self.new ≡ self.old) }
        ensures refused { IfErr result
            (IsUnresumedFrom self.old text.now shapes.now plans.now frame.old frame.new) }
        ensures asked { KeepsAsked frame.old frame.new }
    {
        frame.length = 0;
        let Some(closed) = mem::replace(&mut self.closed, None) else {
            unreachable!()
        };
        match resume_into(self.alloc, closed, text, shapes, plans, frame.options()) {
            Ok(stores) => Ok(stores),
            Err(ResumeBack { closed, fault }) => {
                put(&mut self.closed, Some(closed));
                Err(frame.tell_resume_fault(self.alloc, fault))
            }
        }
    }
}

impl OpenFrame {
    /// Tells why a closed store doesn't go on, and answers the code.
    fn tell_resume_fault(&mut self, alloc: Global, fault: ResumeFault) -> u32
        requires item { HasItemOf fault }
        requires none { self.old.length ≡ 0 }
        ensures told { TellsResumeFault fault self.new result }
        ensures asked { KeepsAsked self.old self.new }
    {
        match fault {
            ResumeFault::Refused(fault) => self.tell_fault(alloc, fault),
            ResumeFault::Sessions => SESSIONS,
            ResumeFault::Limit => LIMIT,
            ResumeFault::Other => OTHER,
        }
    }
}

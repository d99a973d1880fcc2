//! How a group is opened, how it goes on, and what it gives back.

ghost use Rattle.std.specs.Prelude.{◌≡◌, ◌<◌, ◌≤◌, ◌↔◌, IfErr, IfOk, IsTrue, List, false, length};
ghost use Rattle.std.specs.Ordering.{nat_cmp};
ghost use Rattle.rc_tuple.specs.RisingSet.{In, IsRising};
ghost use Rattle.rc_tuple.specs.Tuple.{Pairs};
ghost use Rattle.rc_spec.specs.Calls.{Fits};
ghost use Rattle.rc_plan.specs.Compiled.{plan_at};
ghost use Rattle.rc_plan.specs.StripeLocks.{stripes_of as lock_stripes};
ghost use Rattle.rc_rel.specs.History.{StepsFit};
ghost use Rattle.rc_machine.specs.Machine.{locks_of, stripes_held};
ghost use Rattle.rc_multi.specs.Group.{AreNowOf, Covers};
ghost use Rattle.rc_multi.specs.Laws.{IsUsedBy};
ghost use Rattle.rc_row.specs.Passes.{IsPassOf, PassSeen, compiled_of, core_of, spec_of};
ghost use Rattle.rc_row.specs.Standings.{HaveOneRelation};
ghost use Rattle.rc_store.specs.Busy.{IsLockBusy};
ghost use Rattle.rc_store.specs.Lending.{IsOnTheWay, IsUnrefused, held_stripes};
ghost use Rattle.rc_store.specs.OpenGroups.{AreUnchangedBut, HasGivenBack, HasGoneOver, HasHeldDeclared, HasMadeOpenGroup, HasOpened, IsNeeded, IsNotOpened, IsOpenOn, MayDeclare, declared_locks, open_group};
ghost use Rattle.rc_store.specs.Running.{IsFaultOf, calls_of};
ghost use Rattle.rc_store.specs.RunningInside.{HasReplyEach, IsOfPass, steps_in};
ghost use Rattle.rc_store.specs.Runs.{IsStoppedBy};
ghost use Rattle.rc_store.specs.Store.{IsAsBefore};
ghost use Rattle.rc_store.specs.declared.receipt.TryFault.TheVariants as fault;

use crate::locking::take_locks;
use crate::open_group::OpenGroup;
use crate::open_run::run_on;
use crate::receipt::{BeginBack, GroupReceipt, TryFault};
use crate::running_group::PreparedGroup;
use crate::store::Store;
use crate::taking::AtOnce;
use crate::wakes::Wakes;
use rc_fragment::Held;
use rc_machine::Stop;
use rc_multi::{covers, group_locks, uses};
use rc_row::Pass;
use rc_spec::{Call, Mode};
use rc_tuple::Memory;
use std::snapshot::Snapshot;

impl<W: Wakes> Store<W> {
    /// Opens a group of calls that aren't known yet, and waits for nobody: it takes the stripes that a group of two or more
    /// such calls would (`group_locks`), also for one declaration, in rising order. (PLDI 2012, serializable transactions by
    /// two-phase locks.) A declaration has an operation and the values of some of its columns: of a class that these don't
    /// choose a stripe of, and that the operation's plan locks, all are taken. Ranges that it has don't matter.
    ///
    /// It is refused as `try_group` is, and hands the pass back then: `Busy` names a declared stripe. Costs a few atomic steps
    /// a stripe, and the list of locks.
    pub fn open_group(&self, pass: Pass, declared: &[Call]) -> Result<OpenGroup, BeginBack>
        requires { MayDeclare self.now pass declared.now }
        ensures opened { IfOk result (HasOpened self.now declared.now pass) }
        ensures back { IfErr result (IsNotOpened self.now declared.now pass) }
        ensures spent { IsFaultOf fault.Spent result ↔ length (core_of pass).own ≡ self.now.limit }
    {
        let mut pass = pass;
        pass.held_agrees();
        let begun = Snapshot::of(&pass);
        if self.is_spent(&pass) {
            return Err(BeginBack {
                pass,
                fault: TryFault::Spent,
            });
        }
        match self.hold_declared(&mut pass, declared) {
            Ok(locks) => {
                let prepared = PreparedGroup::none(self.alloc, self.row.keeping(), &pass);
                Ok(OpenGroup {
                    pass,
                    locks,
                    took: Vec::new(self.alloc),
                    prepared,
                    begun,
                })
            }
            Err(Stop::Memory) => Err(BeginBack {
                pass,
                fault: TryFault::Memory,
            }),
            Err(Stop::Held(Held { stripe, found })) => Err(BeginBack {
                pass,
                fault: TryFault::Busy { stripe, found },
            }),
        }
    }

    /// Makes room for an entry, and takes what is declared for a pass that isn't spent. After a stop the pass holds nothing,
    /// and all is as before.
    fn hold_declared(&self, pass: &mut Pass, declared: &[Call]) -> Result<Vec<(u32, Mode)>, Stop>
        requires may { MayDeclare self.now pass.old declared.now }
        requires left { length (core_of pass.old).own < self.now.limit }
        ensures pass { IsPassOf self.now.row pass.new }
        ensures held { IfOk result (λ locks. HasHeldDeclared self.now.row declared.now
            pass.old pass.new locks.items) }
        ensures before { IfErr result (λ _. IsAsBefore pass.old pass.new) }
        ensures cause { IfErr result (IsStoppedBy false (IsLockBusy self.now.row
            (declared_locks self.now.row declared.now) pass.old pass.new) pass.old pass.new) }
    {
        pass.held_agrees();
        let _ = self.compiled.accepted();
        let mut locks = Vec::new(self.alloc);
        group_locks(&self.compiled, declared, &mut locks)?;
        pass.reserve()?;
        let taking = AtOnce { wakes: &self.wakes };
        match take_locks(&self.row, &locks, pass, &taking) {
            Ok(()) => Ok(locks),
            Err(stop) => {
                self.give_back(pass);
                Err(stop)
            }
        }
    }

    /// Runs one call more over what the pass holds, and hands out what its plan took and what is to be committed then. After a
    /// stop the pass has changes of no use.
    pub(crate) fn call_on(
        &self,
        pass: &mut Pass,
        call: &Call,
        took: Vec<(u32, Mode)>,
        prepared: PreparedGroup,
    ) -> Result<(Vec<(u32, Mode)>, PreparedGroup), Memory>
        requires pass { IsPassOf self.now.row pass.old }
        requires one { HaveOneRelation (spec_of self.now.row) (core_of pass.old).held }
        requires fits { Fits (spec_of self.now.row) call.now }
        requires covered { Covers (compiled_of self.now.row) call.now
            (locks_of (held_stripes pass.old.held)) }
        requires rising { IsRising nat_cmp (stripes_held (held_stripes pass.old.held)) }
        requires now { (r : List Pairs)
            × AreNowOf (spec_of self.now.row) (held_stripes pass.old.held) r }
        requires whole { IsOfPass pass.old prepared }
        ensures pass { IsPassOf self.now.row pass.new }
        ensures way { IsOnTheWay self.now.row pass.old pass.new }
        ensures unrefused { IsUnrefused false pass.old pass.new }
        ensures whole { IfOk result (λ r. IsOfPass pass.new r.1) }
        ensures ran { IfOk result (λ r. HasGoneOver self.now.row call.now (steps_in prepared)
            pass.old pass.new r.0.items (steps_in r.1)) }
    {
        let mut took = took;
        let taking = AtOnce { wakes: &self.wakes };
        let reply = run_on(
            self.alloc,
            &self.row,
            &self.compiled,
            call,
            &mut took,
            pass,
            &taking,
        )?;
        let prepared = prepared.with(call.copy()?, reply)?;
        Ok((took, prepared))
    }

    /// Whether the locks suffice for the call.
    pub(crate) fn covers(&self, call: &Call, locks: &[(u32, Mode)]) -> bool
        requires { Fits (spec_of self.now.row) call.now }
        ensures { IsTrue result ↔ Covers (compiled_of self.now.row) call.now locks.now }
    {
        covers(&self.compiled, call, locks)
    }

    /// Commits what was prepared of a group that is open, with the stripes that it needs of those that it holds, and gives all
    /// back. It takes no memory.
    pub(crate) fn commit_open(
        &self,
        pass: &mut Pass,
        locks: &[(u32, Mode)],
        took: &[(u32, Mode)],
        prepared: PreparedGroup,
    ) -> GroupReceipt
        requires whole { IsOfPass pass.old prepared }
        requires some { 1 ≤ length (steps_in prepared) }
        requires open { (begun : PassSeen) × IsOpenOn self.now
            (open_group begun pass.old locks.now took.now (steps_in prepared)) }
        ensures pass { IsPassOf self.now.row pass.new }
        ensures made { (begun : PassSeen) → IsOpenOn self.now
            (open_group begun pass.old locks.now took.now (steps_in prepared))
            → HasMadeOpenGroup self.now (steps_in prepared) locks.now begun pass.new result }
    {
        let _ = self.compiled.accepted();
        self.release_unneeded(pass, locks, took, &prepared);
        self.commit_group(pass, prepared)
    }

    /// Gives the stripes back that the commit of the calls doesn't need, and wakes those who wait for them.
    pub(crate) fn release_unneeded(
        &self,
        pass: &mut Pass,
        locks: &[(u32, Mode)],
        took: &[(u32, Mode)],
        prepared: &PreparedGroup,
    )
        requires pass { IsPassOf self.now.row pass.old }
        requires each { HasReplyEach prepared.now }
        requires fit { StepsFit (spec_of self.now.row) (steps_in prepared.now) }
        requires locks { locks_of (held_stripes pass.old.held) ≡ locks.now }
        requires rising { IsRising nat_cmp (lock_stripes locks.now) }
        requires unchanged { AreUnchangedBut
            (IsNeeded (compiled_of self.now.row) (steps_in prepared.now) took.now) pass.old.held }
        ensures pass { IsPassOf self.now.row pass.new }
        ensures kept { HasGivenBack
            (IsNeeded (compiled_of self.now.row) (steps_in prepared.now) took.now)
            pass.old pass.new }
    {
        pass.held_agrees();
        for lock in locks {
            let (stripe, mode) = *lock;
            if !self.is_needed(stripe, took, prepared) {
                self.row.release_unchanged(pass, stripe, mode);
                self.wakes.wake(&self.row, stripe);
            }
        }
    }

    /// Whether the commit of the calls needs the stripe.
    fn is_needed(&self, stripe: u32, took: &[(u32, Mode)], prepared: &PreparedGroup) -> bool
        requires each { HasReplyEach prepared.now }
        requires fit { StepsFit (spec_of self.now.row) (steps_in prepared.now) }
        ensures { IsTrue result
            ↔ IsNeeded (compiled_of self.now.row) (steps_in prepared.now) took.now stripe }
    {
        if prepared.count() == 1 {
            is_listed(took, stripe)
        } else {
            self.is_used(stripe, prepared)
        }
    }

    /// Whether the plan of some call locks the class of the stripe.
    fn is_used(&self, stripe: u32, prepared: &PreparedGroup) -> bool
        requires each { HasReplyEach prepared.now }
        requires fit { StepsFit (spec_of self.now.row) (steps_in prepared.now) }
        ensures { IsTrue result
            ↔ IsUsedBy (compiled_of self.now.row) (calls_of (steps_in prepared.now)) stripe }
    {
        for at in 0..prepared.count() {
            if uses(&self.compiled, prepared.call(at), stripe) {
                return true;
            }
        }
        false
    }
}

/// Whether the stripe is among those of the locks.
fn is_listed(locks: &[(u32, Mode)], stripe: u32) -> bool
    ensures { IsTrue result ↔ In stripe (lock_stripes locks.now) }
{
    locks.iter().any(|lock| lock.0 == stripe)
}

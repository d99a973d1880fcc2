//! Prepared calls: a caller may stop between the reply and the commit.

ghost use Rattle.std.specs.Prelude.{◌≡◌, ◌<◌, ◌↔◌, [], ◌∷◌, IfErr, IfOk, false, length};
ghost use Rattle.rc_rel.specs.declared.entry.Step.{Step};
ghost use Rattle.rc_row.specs.Passes.{IsPassOf, KeepsAs, compiled_of, core_of};
ghost use Rattle.rc_store.specs.Prepared.{IsPrepared, IsReady};
ghost use Rattle.rc_store.specs.Running.{HasBegun, IsFaultOf, IsHandedBack, IsRunningOn};
ghost use Rattle.rc_store.specs.RunningInside.{IsOfStep};
ghost use Rattle.rc_store.specs.Runs.{IsStoppedFor};
ghost use Rattle.rc_store.specs.Store.{HasMade, HoldsExactly, IsAsBefore, IsCallFinished, IsFree, MayCall, one_step};
ghost use Rattle.rc_store.specs.declared.receipt.TryFault.TheVariants as fault;

use crate::finish::entry_of_step;
use crate::gate::OpenGate;
use crate::receipt::{BeginBack, Receipt, TryFault};
use crate::store::Store;
use crate::taking::AtOnce;
use crate::wakes::Wakes;
use rc_fragment::Held;
use rc_machine::Stop;
use rc_rel::{Entry, Step};
use rc_row::{Keeping, Pass};
use rc_spec::{Call, Reply};
use rc_tuple::Memory;
use std::marker::Model;
use std::snapshot::Snapshot;

/// What is to be committed of a call. It is made before, so that the commit takes no memory.
#[derive(Drop)]
pub(crate) enum Prepared {
    /// Its entry, where the pass keeps its entries.
    Entry(Entry),
    /// The call with its reply, where it keeps none.
    Counted(Step),
}

/// A call that holds its stripes and has its reply, and waits for its commit. It has the pass with which it was begun, and
/// borrows nothing. One that is dropped keeps its stripes, as a pass does.
#[derive(Drop)]
pub struct Running {
    pub(crate) pass: Pass,
    pub(crate) prepared: Prepared,
    /// The pass as it was before. Contracts alone see it.
    pub(crate) begun: Snapshot<Pass>,
    /// The call and its reply. Contracts alone see it.
    pub(crate) step: Snapshot<Step>,
}

impl Model for Running {
    ghost use Rattle.rc_store.specs.Running.{RunningSeen};

    ghost Value = { RunningSeen };

    ghost use Rattle.rc_store.specs.RunningInside.{IsOfItsStep, running_seen};

    ghost view = { running_seen };

    ghost invariant = { IsOfItsStep };
}

impl Running {
    /// The reply that the call has if it is committed.
    pub fn reply(&self) -> &Reply
        ensures { result.now ≡ self.now.reply }
    {
        match &self.prepared {
            Prepared::Entry(entry) => &entry.steps.list()[0].reply,
            Prepared::Counted(step) => &step.reply,
        }
    }

    /// Commits the call, gives all back, and hands out the pass with the receipt. It takes no memory and isn't refused.
    pub fn commit<W: Wakes>(self, store: &Store<W>) -> (Pass, Receipt)
        requires { IsRunningOn store.now self }
        ensures free { IsFree store.now result.0 }
        ensures made { HasMade store.now self.call self.reply self.begun result.0 result.1 }
    {
        let Running {
            mut pass,
            prepared,
            begun: _,
            step: _,
        } = self;
        let receipt = store.commit_prepared(&mut pass, prepared);
        (pass, receipt)
    }

    /// Takes back what the call changed, gives all back, and hands out the pass. It holds nothing, and its entries and what it
    /// has seen are as before. Takes no memory.
    pub fn cancel<W: Wakes>(self, store: &Store<W>) -> Pass
        requires { IsRunningOn store.now self }
        ensures free { IsFree store.now result }
        ensures before { IsAsBefore self.begun result }
        ensures unrefused { result.standing.refusals ≡ self.pass.standing.refusals }
    {
        let Running {
            mut pass,
            prepared: _,
            begun: _,
            step: _,
        } = self;
        store.give_back(&mut pass);
        pass
    }
}

impl<W: Wakes> Store<W> {
    /// Begins a call, and waits for nobody: it takes its stripes, changes them and has its reply, and can be committed or
    /// cancelled then. It is refused as `try_call` is, and hands the pass back then. Costs what `try_call`
    /// does up to the commit, and a copy of the call.
    pub fn begin(&self, pass: Pass, call: &Call) -> Result<Running, BeginBack>
        requires { MayCall self.now pass call.now }
        ensures begun { IfOk result (HasBegun self.now call.now pass) }
        ensures back { IfErr result (IsHandedBack self.now (call.now ∷ []) pass) }
        ensures spent { IsFaultOf fault.Spent result ↔ length (core_of pass).own ≡ self.now.limit }
    {
        let mut pass = pass;
        pass.held_agrees();
        let begun = Snapshot::of(&pass);
        if self.is_spent(&pass) {
            return Err(BeginBack {
                pass,
                fault: TryFault::Spent,
            });
        }
        match self.hold(&mut pass, call) {
            Ok((prepared, step)) => Ok(Running {
                pass,
                prepared,
                begun,
                step,
            }),
            Err(Stop::Memory) => Err(BeginBack {
                pass,
                fault: TryFault::Memory,
            }),
            Err(Stop::Held(Held { stripe, found })) => Err(BeginBack {
                pass,
                fault: TryFault::Busy { stripe, found },
            }),
        }
    }

    /// Prepares a call of a pass that isn't spent, and makes what is to be committed.
    fn hold(&self, pass: &mut Pass, call: &Call) -> Result<(Prepared, Snapshot<Step>), Stop>
        requires may { MayCall self.now pass.old call.now }
        requires left { length (core_of pass.old).own < self.now.limit }
        ensures pass { IsPassOf self.now.row pass.new }
        ensures step { IfOk result (λ r. (r.1.value.call ≡ call.now) × IsOfStep pass.new r.1.value r.0) }
        ensures prepared { IfOk result (λ r. IsPrepared self.now.row (one_step call.now r.1.value.reply) pass.old pass.new) }
        ensures exact { IfOk result (λ r. HoldsExactly (compiled_of self.now.row) (core_of pass.new) (one_step call.now r.1.value.reply)) }
        ensures before { IfErr result (λ _. IsAsBefore pass.old pass.new) }
        ensures cause { IfErr result (IsStoppedFor false self.now.row (call.now ∷ []) pass.old pass.new) }
    {
        pass.held_agrees();
        let taking = AtOnce { wakes: &self.wakes };
        let mut reply = Reply::Absent;
        self.prepare(pass, call, &taking, &mut reply)?;
        match prepared_of(self.row.keeping(), pass, call, reply) {
            Ok(prepared) => Ok(prepared),
            Err(Memory) => {
                self.give_back(pass);
                Err(Stop::Memory)
            }
        }
    }

    /// Commits what was prepared, and gives all back that the pass holds.
    fn commit_prepared(&self, pass: &mut Pass, prepared: Prepared) -> Receipt
        requires pass { IsPassOf self.now.row pass.old }
        requires ready { (step : Step) × IsOfStep pass.old step prepared
            × IsReady self.now.row (one_step step.call step.reply) pass.old }
        ensures pass { IsPassOf self.now.row pass.new }
        ensures finished { (step : Step) → IsOfStep pass.old step prepared
            → IsCallFinished self.now.row step.call pass.old pass.new step.reply result }
    {
        match prepared {
            Prepared::Entry(entry) => {
                let at = self.commit_entry(pass, entry, &OpenGate);
                Receipt {
                    place: at.place,
                    nth: at.nth,
                    reply: None,
                }
            }
            Prepared::Counted(Step { call, reply }) => {
                self.finish_counted(pass, &call, reply, &OpenGate)
            }
        }
    }
}

/// What is to be committed of the call with its reply, and the step that it makes.
fn prepared_of(
    keeping: Keeping,
    pass: &Pass,
    call: &Call,
    reply: Reply,
) -> Result<(Prepared, Snapshot<Step>), Memory>
    requires { KeepsAs keeping pass.now.kept }
    ensures step { IfOk result (λ r. r.1.value ≡ record { call = call.now; reply = reply }) }
    ensures prepared { IfOk result (λ r. IsOfStep pass.now r.1.value r.0) }
{
    let call = call.copy()?;
    let step = Step { call, reply };
    let seen = Snapshot::of(&step);
    let prepared = match keeping {
        Keeping::Entries => Prepared::Entry(entry_of_step(pass, step)),
        Keeping::Counts => Prepared::Counted(step),
    };
    Ok((prepared, seen))
}

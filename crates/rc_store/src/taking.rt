//! How a call takes stripes.

ghost use Rattle.std.specs.Prelude.{◌≡◌, ◌<◌, Bool, List, false, IfNone, IfOk, IfSome, OnErr};
ghost use Rattle.rc_core.specs.Passes.{IsAbove};
ghost use Rattle.rc_spec.specs.Fragments.{EdgeRow};
ghost use Rattle.rc_spec.specs.declared.lock.Mode.TheVariants.{Shared};
ghost use Rattle.rc_row.specs.Passes.{IsPassOf, core_of, spec_of, stripes_of, with_standing, with_taken};
ghost use Rattle.rc_row.specs.Standings.{HaveOneRelation, KeepsOut, turned_away, without_wish};
ghost use Rattle.rc_store.specs.Taking.{HasGivenUp, HasTakenStripe};

use crate::wakes::Wakes;
use rc_row::{Pass, Row};
use rc_spec::{Found, Mode};
use rc_tuple::Memory;
use std::sync::Wait;

/// Takes stripes of a row for a pass.
pub(crate) trait Takes {
    /// Whether it waits where something is in the way, and so is never refused.
    ghost waits: { Bool };

    /// Takes the stripe, or answers what was in the way. Where it is refused, and where memory is wanted, the pass holds what
    /// it held.
    fn take(
        &self,
        row: &Row,
        pass: &mut Pass,
        stripe: u32,
        mode: Mode,
    ) -> Result<Option<Found>, Memory>
        requires pass { IsPassOf row.now pass.old }
        requires stripe { stripe < stripes_of row.now }
        requires above { IsAbove (core_of pass.old) stripe }
        ensures pass { IsPassOf row.now pass.new }
        ensures taken { IfOk result (λ o. IfNone o (HasTakenStripe waits row.now mode stripe pass.old pass.new)) }
        ensures one { IfOk result (λ o. IfNone o (HaveOneRelation (spec_of row.now) (core_of pass.new).held)) }
        ensures found { IfOk result (λ o. IfSome o (KeepsOut mode row.now.key.passes (core_of pass.old).number)) }
        ensures refused { IfOk result (λ o. IfSome o (λ found. (waits ≡ false)
            × (pass.new ≡ with_standing (turned_away mode pass.old.standing stripe found) pass.old))) }
        ensures memory { OnErr result (HasGivenUp waits row.now mode stripe pass.old pass.new) };
}

/// Waits for nobody.
#[derive(Drop)]
pub(crate) struct AtOnce<'a, W> {
    /// Wakes those that it may have sent to sleep.
    pub(crate) wakes: &'a W,
}

impl<'a, W: Wakes> Takes for AtOnce<'a, W> {
    ghost waits = { false };

    fn take(
        &self,
        row: &Row,
        pass: &mut Pass,
        stripe: u32,
        mode: Mode,
    ) -> Result<Option<Found>, Memory> {
        match mode {
            Mode::Exclusive => Ok(row.try_lock(pass, stripe)),
            Mode::Shared => share(self.wakes, row, pass, stripe),
        }
    }
}

/// Shares the stripe, or answers what was in the way. A pass that doesn't share it was counted in for a moment, which may
/// have sent a waiting writer to sleep: so the stripe is woken then.
fn share<W: Wakes>(
    wakes: &W,
    row: &Row,
    pass: &mut Pass,
    stripe: u32,
) -> Result<Option<Found>, Memory>
    requires pass { IsPassOf row.now pass.old }
    requires stripe { stripe < stripes_of row.now }
    requires above { IsAbove (core_of pass.old) stripe }
    ensures pass { IsPassOf row.now pass.new }
    ensures taken { IfOk result (λ o. IfNone o ((rows : List EdgeRow)
        × (pass.new ≡ with_taken (spec_of row.now) Shared stripe rows pass.old))) }
    ensures one { IfOk result (λ o. IfNone o (HaveOneRelation (spec_of row.now) (core_of pass.new).held)) }
    ensures found { IfOk result (λ o. IfSome o (KeepsOut Shared row.now.key.passes (core_of pass.old).number)) }
    ensures refused { IfOk result (λ o. IfSome o (λ found.
        pass.new ≡ with_standing (turned_away Shared pass.old.standing stripe found) pass.old)) }
    ensures memory { OnErr result (pass.new ≡ with_standing (without_wish pass.old.standing) pass.old) }
{
    match row.try_share(pass, stripe) {
        Ok(None) => Ok(None),
        Ok(Some(found)) => {
            wakes.wake(row, stripe);
            Ok(Some(found))
        }
        Err(Memory) => {
            wakes.wake(row, stripe);
            Err(Memory)
        }
    }
}

/// Waits where something is in the way.
#[derive(Drop)]
pub(crate) struct Patiently<'a, R> {
    /// By whose leave it waits.
    pub(crate) rt: &'a R,
}

impl<'a, R: Wait> Takes for Patiently<'a, R> {
    ghost use Rattle.std.specs.Prelude.{true};

    ghost waits = { true };

    fn take(
        &self,
        row: &Row,
        pass: &mut Pass,
        stripe: u32,
        mode: Mode,
    ) -> Result<Option<Found>, Memory> {
        match mode {
            Mode::Exclusive => row.wait_lock(self.rt, pass, stripe),
            Mode::Shared => row.wait_share(self.rt, pass, stripe)?,
        }
        Ok(None)
    }
}

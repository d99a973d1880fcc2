//! Giving all back.

ghost use Rattle.std.specs.Prelude.{◌≡◌, ◌<◌, [], IfNone, IfSome, length};
ghost use Rattle.rc_row.specs.Passes.{AreAtRest, IsPassOf, OfHeld, idle, stripes_of, without_stripe};
ghost use Rattle.rc_row.specs.Released.{IsHeldSo, IsUnchanged};

use crate::pass::Pass;
use crate::row::Row;
use rc_spec::Mode;

impl Pass {
    /// The stripe that was taken last, and how.
    fn last(&self) -> Option<(u32, Mode)>
        ensures none { IfNone result (self.now ≡ idle self.now) }
        ensures some { IfSome result (λ last. IsHeldSo self.now.held last.0 last.1) }
    {
        let held = self.held.last()?;
        Some((held.stripe, held.mode))
    }
}

impl Row {
    /// Gives one stripe back.
    fn release(&self, pass: &mut Pass, stripe: u32, mode: Mode)
        requires pass { IsPassOf self.now pass.old }
        requires held { IsHeldSo pass.old.held stripe mode }
        requires rest { AreAtRest pass.old.held }
        ensures pass { IsPassOf self.now pass.new }
        ensures value { pass.new ≡ without_stripe stripe pass.old }
        ensures rest { AreAtRest pass.new.held }
        ensures fewer { length pass.new.held < length pass.old.held }
    {
        pass.held_agrees();
        match mode {
            Mode::Exclusive => self.unlock(pass, stripe),
            Mode::Shared => self.unshare(pass, stripe),
        }
    }

    /// Gives a held stripe back whose rows are what they were as taken: changes of it that came to nothing are taken back.
    /// Costs these and what `unlock` or `unshare` does, takes no memory, and wakes nobody.
    pub fn release_unchanged(&self, pass: &mut Pass, stripe: u32, mode: Mode)
        requires pass { IsPassOf self.now pass.old }
        requires held { IsHeldSo pass.old.held stripe mode }
        requires unchanged { OfHeld pass.old.held stripe IsUnchanged }
        ensures pass { IsPassOf self.now pass.new }
        ensures value { pass.new ≡ without_stripe stripe pass.old }
        ensures inside { stripe < stripes_of self.now }
    {
        pass.held_agrees();
        pass.revert_stripe(stripe);
        match mode {
            Mode::Exclusive => self.unlock(pass, stripe),
            Mode::Shared => self.unshare(pass, stripe),
        }
    }

    /// Gives the stripe back that was taken last, and answers which it was, so that it can be woken; `None` where the pass
    /// holds nothing. What it changed is committed or taken back. Costs what `unlock` or `unshare` does, and takes no memory.
    pub fn release_last(&self, pass: &mut Pass) -> Option<u32>
        requires pass { IsPassOf self.now pass.old }
        requires rest { AreAtRest pass.old.held }
        ensures pass { IsPassOf self.now pass.new }
        ensures none { IfNone result ((pass.old.held ≡ []) × (pass.new ≡ pass.old)) }
        ensures given { IfSome result (λ stripe. pass.new ≡ without_stripe stripe pass.old) }
        ensures inside { IfSome result (λ stripe. stripe < stripes_of self.now) }
        ensures rest { AreAtRest pass.new.held }
        ensures fewer { IfSome result (λ _. length pass.new.held < length pass.old.held) }
    {
        let (stripe, mode) = pass.last()?;
        self.release(pass, stripe, mode);
        Some(stripe)
    }

    /// Gives all stripes back that the pass holds, the last first. What it changed is committed or taken back. Takes no
    /// memory and wakes nobody.
    pub fn release_all(&self, pass: &mut Pass)
        requires pass { IsPassOf self.now pass.old }
        requires rest { AreAtRest pass.old.held }
        ensures pass { IsPassOf self.now pass.new }
        ensures value { pass.new ≡ idle pass.old }
    {
        while let Some((stripe, mode)) = pass.last() {
            self.release(pass, stripe, mode);
        }
    }
}

//! The holder of a plan in a group: it lends what the group holds.

ghost use Rattle.std.specs.Prelude.{◌≡◌};
ghost use Rattle.rc_fragment.specs.Holder.{held_of};
ghost use Rattle.rc_machine.specs.Apply.{IsSameButLent};
ghost use Rattle.rc_multi.specs.OfferedLaws.{offered_once, lent_once};
ghost use Rattle.rc_multi.specs.Offering.{IsOffered};

use rc_fragment::{AddStop, Fragment, Holder, TakeStop};
use rc_spec::Mode;
use rc_tuple::{Memory, Tuple};
use std::marker::{Brand, PhantomData};
use std::snapshot::Snapshot;

/// Where a plan of a group starts. Each run of a plan picks it, so that what the plan leaves is said of that very holder.
pub(crate) trait Starts {
    ghost use Rattle.std.specs.Prelude.{Option};
    ghost use Rattle.rc_multi.specs.Offered.{Start};

    ghost start: { Option Start };
}

impl Starts for Brand {
    ghost use Rattle.std.specs.Prelude.{None};

    ghost start = { None };
}

/// Lends a plan the stripes of a group, as they are now. The plan has none at first. A take is one more place of a list:
/// the group holds the stripe, so it takes no step, and is never refused.
pub(crate) struct Offered<'a, O: Starts, H: Holder> {
    pub(crate) holder: &'a mut H,
    /// What the plan took, in a place of its own.
    pub(crate) taken: &'a mut Vec<(u32, Mode)>,
    /// The holder at the plan's start, in a place of its own. Contracts alone see it.
    pub(crate) begun: &'a Snapshot<H>,
    pub(crate) start: PhantomData<O>,
    ghost kept: { IsOffered (held_of (H.seen begun.now.value)) (H.seen holder.now) taken.now.items } by { offered_once (held_of (H.seen begun.now.value)) (H.seen holder.now) taken.now.items },
    ghost steady: { IsSameButLent (H.seen begun.now.value) (H.seen holder.now) } by { lent_once (H.seen begun.now.value) (H.seen holder.now) },
}

impl<'a, O: Starts, H: Holder> Holder for Offered<'a, O, H> {
    ghost use Rattle.rc_multi.specs.Offered.{IsFromSo};
    ghost use Rattle.rc_multi.specs.Offering.{offering};

    ghost seen = { λ o. offering (held_of (H.seen o.begun.now.value)) (H.seen o.holder.now) o.taken.now.items o.holder.ghost_name };

    ghost is_sound = { λ o spec. H.is_sound o.holder.now spec
        × IsFromSo O.start (H.seen o.begun.now.value) spec };

    ghost use Rattle.rc_multi.specs.OfferedLaws.{from_rows};
    ghost use Rattle.rc_multi.specs.OfferingLaws.{offered_table};

    ghost sound_table = { λ o spec s.
        offered_table spec (held_of (H.seen o.begun.now.value)) (H.seen o.holder.now) o.taken.now.items o.holder.ghost_name
        (H.sound_table o.holder.now spec s.0) };

    ghost sound_rows = { λ o spec s.
        from_rows O.start (H.seen o.begun.now.value) (H.seen o.holder.now) o.taken.now.items o.holder.ghost_name
        spec o.kept s.1 };

    fn take(&mut self, stripe: u32, mode: Mode) -> Result<(), TakeStop> {
        match self.taken.push((stripe, mode)) {
            Ok(()) => Ok(()),
            Err(_) => Err(TakeStop::Memory),
        }
    }

    fn own(&mut self, stripe: u32, changes: u16) -> Result<(), Memory> {
        self.holder.own(stripe, changes)
    }

    fn fragment(&self, stripe: u32) -> &Fragment {
        self.holder.fragment(stripe)
    }

    fn add_tuple(&mut self, stripe: u32, class: u8, tuple: &Tuple) -> Result<(), Memory> {
        self.holder.add_tuple(stripe, class, tuple)
    }

    fn add_new_tuple(
        &mut self,
        stripe: u32,
        class: u8,
        edge: u8,
        tuple: &Tuple,
    ) -> Result<(), AddStop> {
        self.holder.add_new_tuple(stripe, class, edge, tuple)
    }

    fn sub_tuple(&mut self, stripe: u32, class: u8, tuple: &Tuple) {
        self.holder.sub_tuple(stripe, class, tuple);
    }
}

//! The holder of a call.

ghost use Rattle.rc_row.specs.Passes.{IsPassOf};
ghost use Rattle.rc_store.specs.OfRowLaws.{of_row_once};

use crate::taking::Takes;
use rc_fragment::{AddStop, Fragment, Held, Holder, TakeStop};
use rc_row::{Pass, Row};
use rc_spec::Mode;
use rc_tuple::{Memory, Tuple};
use std::marker::{Brand, PhantomData};
use std::snapshot::Snapshot;

/// A refused take.
#[derive(Drop)]
pub(crate) struct Refused {
    /// What it answered.
    pub(crate) answer: Held,
    /// How the stripe was asked for.
    pub(crate) mode: Mode,
    /// The pass after it, which holds what it held. Contracts alone see it.
    pub(crate) pass: Snapshot<Pass>,
}

/// The row and the pass that a call has lent to the holder of its plan. Each call picks them, so that what the plan leaves
/// of the pass is said of that very pass.
pub(crate) trait Lends {
    ghost use Rattle.std.specs.Prelude.{Option};
    ghost use Rattle.rc_store.specs.Lending.{Lent};

    ghost lent: { Option Lent };
}

impl Lends for Brand {
    ghost use Rattle.std.specs.Prelude.{None};

    ghost lent = { None };
}

/// Lends a plan the stripes of a row, through a pass that takes them. (PLDI 2012, two-phase plans.)
pub(crate) struct Lender<'a, L: Lends, T> {
    pub(crate) row: &'a Row,
    pub(crate) pass: &'a mut Pass,
    pub(crate) taking: &'a T,
    /// In a place of its own: what is lent is known at the end only where the holder itself owns no memory.
    pub(crate) refused: &'a mut Option<Refused>,
    pub(crate) lends: PhantomData<L>,
    ghost of_row: { IsPassOf row.now pass.now } by { of_row_once row.now pass.now },
}

impl<'a, L: Lends, T: Takes> Holder for Lender<'a, L, T> {
    ghost use Rattle.rc_store.specs.Lending.{IsLentSo, lending};

    ghost seen = { λ l. lending l.row.now l.pass.now l.refused.now l.pass.ghost_name };

    ghost is_sound = { λ l spec. IsLentSo T.waits L.lent l.row.now l.pass.now l.refused.now spec };

    ghost use Rattle.rc_store.specs.LendingLaws.{lent_rows, lent_table};

    ghost sound_table = { λ l spec s.
        lent_table T.waits L.lent l.row.now l.pass.now l.refused.now l.pass.ghost_name spec s };

    ghost sound_rows = { λ l spec s.
        lent_rows T.waits L.lent l.row.now l.pass.now l.refused.now l.pass.ghost_name spec s };

    fn take(&mut self, stripe: u32, mode: Mode) -> Result<(), TakeStop> {
        self.pass.held_agrees();
        match self.taking.take(self.row, self.pass, stripe, mode) {
            Ok(None) => Ok(()),
            Ok(Some(found)) => {
                let answer = Held { stripe, found };
                *self.refused = Some(Refused {
                    answer,
                    mode,
                    pass: Snapshot::of(self.pass),
                });
                Err(TakeStop::Held(answer))
            }
            Err(Memory) => Err(TakeStop::Memory),
        }
    }

    fn own(&mut self, stripe: u32, changes: u16) -> Result<(), Memory> {
        self.pass.held_agrees();
        self.pass.own(stripe, changes)
    }

    fn fragment(&self, stripe: u32) -> &Fragment {
        self.pass.held_agrees();
        self.pass.fragment(stripe)
    }

    fn add_tuple(&mut self, stripe: u32, class: u8, tuple: &Tuple) -> Result<(), Memory> {
        self.pass.held_agrees();
        self.pass.add_tuple(stripe, class, tuple)
    }

    fn add_new_tuple(
        &mut self,
        stripe: u32,
        class: u8,
        edge: u8,
        tuple: &Tuple,
    ) -> Result<(), AddStop> {
        self.pass.held_agrees();
        self.pass.add_new_tuple(stripe, class, edge, tuple)
    }

    fn sub_tuple(&mut self, stripe: u32, class: u8, tuple: &Tuple) {
        self.pass.held_agrees();
        self.pass.sub_tuple(stripe, class, tuple);
    }
}

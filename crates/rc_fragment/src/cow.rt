//! A fragment that is copied before the first change, where others may have it.

ghost use Rattle.std.specs.Prelude.{◌≡◌, ◌<◌, ◌≤◌, Err, IfOk, IfSome, OnErr, OnOk, length};
ghost use Rattle.rc_fragment.specs.Fragment.{HasColumns, HasNoRowOf, HasRowOf, edge_row};
ghost use Rattle.rc_fragment.specs.FragmentRows.{rolled_back, settled, with_promise};
ghost use Rattle.rc_fragment.specs.Keep.{IsAtRest, at_rest, kept_rows};
ghost use Rattle.rc_fragment.specs.Tuples.{CanAddTuple, HasTuple, IsFirstKept, IsPartlyAdded, changes_of_class, with_tuple, without_tuple};
ghost use Rattle.rc_fragment.specs.declared.held.AddStop.TheVariants as stop;

use crate::{AddStop, Fragment, Keep};
use rc_tuple::{Memory, Tuple};
use std::alloc::Global;
use std::marker::Model;

/// Who has the fragment.
#[derive(Drop, Debug)]
enum Possession {
    /// Its one owner, who may change it in place.
    Alone(Fragment),
    /// Others may have it too: it is read.
    Kept(Keep),
}

/// A fragment to be read, and to be changed after `own`, which copies it where others may have it (copy on write, as std's
/// `Cow`). Contracts see the fragment as it is.
#[derive(Drop, Debug)]
pub struct CowFragment {
    possession: Possession,
}

impl Model for CowFragment {
    ghost use Rattle.rc_fragment.specs.FragmentRows.{FragmentRows};

    ghost Value = { FragmentRows };

    ghost use Rattle.rc_fragment.specs.Cow.{cow_seen};

    ghost view = { cow_seen };
}

impl CowFragment {
    /// A kept fragment, for a reader. Takes no memory.
    pub fn kept(keep: Keep) -> CowFragment
        ensures { result ≡ at_rest keep }
    {
        CowFragment {
            possession: Possession::Kept(keep),
        }
    }

    /// A kept fragment, for a writer: where nobody else has it, no change will copy it. Takes no memory.
    pub fn alone_or_kept(keep: Keep) -> CowFragment
        ensures { result ≡ at_rest keep }
    {
        let possession = match keep.try_alone() {
            Ok(fragment) => Possession::Alone(fragment),
            Err(keep) => Possession::Kept(keep),
        };
        CowFragment { possession }
    }

    /// The fragment, for a reader.
    pub fn fragment(&self) -> &Fragment
        ensures { result.now ≡ self.now }
    {
        match &self.possession {
            Possession::Alone(fragment) => fragment,
            Possession::Kept(keep) => keep.fragment(),
        }
    }

    /// Makes room for at least so many further changes in all, as `Fragment::own` does. Takes memory for the notes of the
    /// changes, and for a copy of all rows where somebody else may have the fragment. Where memory is wanted nothing changes.
    pub fn own(&mut self, alloc: Global, changes: u16) -> Result<(), Memory>
        ensures ok { OnOk result (self.new ≡ with_promise changes self.old) }
        ensures err { OnErr result (self.new ≡ self.old) }
    {
        match &mut self.possession {
            Possession::Alone(fragment) => fragment.own(changes),
            Possession::Kept(keep) => {
                let copy = owned_copy(keep, alloc, changes)?;
                self.possession = Possession::Alone(copy);
                Ok(())
            }
        }
    }

    /// Does on the fragment what `Fragment::add_tuple` does.
    pub fn add_tuple(&mut self, class: u8, tuple: &Tuple) -> Result<(), Memory>
        requires owned { changes_of_class self.old.table class ≤ self.old.room }
        requires some { 0 < self.old.room }
        requires can { CanAddTuple self.old.table self.old.now class tuple.now }
        ensures ok { OnOk result (self.new ≡ with_tuple class tuple.now self.old) }
        ensures err { OnErr result (IsPartlyAdded class tuple.now self.old self.new) }
    {
        match &mut self.possession {
            Possession::Alone(fragment) => fragment.add_tuple(class, tuple),
            Possession::Kept(_) => unreachable!(),
        }
    }

    /// Does on the fragment what `Fragment::add_new_tuple` does.
    pub fn add_new_tuple(&mut self, class: u8, edge: u8, tuple: &Tuple) -> Result<(), AddStop>
        requires known { edge < length self.old.table }
        requires first { IsFirstKept self.old.table class edge }
        requires owned { changes_of_class self.old.table class ≤ self.old.room }
        requires some { 0 < self.old.room }
        requires columns { HasColumns self.old.table edge (edge_row self.old.table edge tuple.now) }
        requires can { HasNoRowOf self.old.table self.old.now edge tuple.now → CanAddTuple self.old.table self.old.now class tuple.now }
        ensures ok { OnOk result (self.new ≡ with_tuple class tuple.now self.old) }
        ensures none { OnOk result (HasNoRowOf self.old.table self.old.now edge tuple.now) }
        ensures err { OnErr result (IsPartlyAdded class tuple.now self.old self.new) }
        ensures there { result ≡ Err stop.There → HasRowOf self.old.table self.old.now edge tuple.now × (self.new ≡ self.old) }
    {
        match &mut self.possession {
            Possession::Alone(fragment) => fragment.add_new_tuple(class, edge, tuple),
            Possession::Kept(_) => unreachable!(),
        }
    }

    /// Does on the fragment what `Fragment::sub_tuple` does.
    pub fn sub_tuple(&mut self, class: u8, tuple: &Tuple)
        requires owned { changes_of_class self.old.table class ≤ self.old.room }
        requires some { 0 < self.old.room }
        requires there { HasTuple self.old.table self.old.now class tuple.now }
        ensures { self.new ≡ without_tuple class tuple.now self.old }
    {
        match &mut self.possession {
            Possession::Alone(fragment) => fragment.sub_tuple(class, tuple),
            Possession::Kept(_) => unreachable!(),
        }
    }

    /// Makes the rows what they were as taken. Costs the changes.
    pub fn revert(&mut self)
        ensures { self.new ≡ rolled_back self.old }
    {
        if let Possession::Alone(fragment) = &mut self.possession {
            fragment.revert();
        }
    }

    /// Makes the rows now count as taken. Costs the changes.
    pub fn settle(&mut self)
        ensures { self.new ≡ settled self.old }
    {
        if let Possession::Alone(fragment) = &mut self.possession {
            fragment.settle();
        }
    }

    /// The kept fragment of a reader, as it was handed out; `None` where the fragment is had by value. Takes no memory.
    pub fn into_kept(self) -> Option<Keep>
        ensures { IfSome result (λ keep. self ≡ at_rest keep) }
    {
        match self.possession {
            Possession::Alone(_) => None,
            Possession::Kept(keep) => Some(keep),
        }
    }

    /// The fragment as a slot keeps it, where no change is pending. Takes no memory.
    pub fn into_keep(self) -> Keep
        requires { IsAtRest self }
        ensures { result ≡ kept_rows self }
    {
        match self.possession {
            Possession::Alone(fragment) => Keep::of(fragment),
            Possession::Kept(keep) => keep,
        }
    }
}

/// A copy of the kept fragment with room for at least so many changes.
// It stands apart, so that a writer's way, which is to have the fragment, stays small.
#[inline(never)]
fn owned_copy(keep: &Keep, alloc: Global, changes: u16) -> Result<Fragment, Memory>
    ensures { IfOk result (λ copy. copy ≡ with_promise changes (at_rest keep.now)) }
{
    let mut copy = keep.fragment().copy(alloc)?;
    copy.own(changes)?;
    Ok(copy)
}

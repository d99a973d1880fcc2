//! The containers of an edge, by the values of their sources.

ghost use Rattle.std.specs.Prelude.{◌≡◌, ◌==◌, length, map, option_copied, OnOk, OnErr, IfOk};
ghost use Rattle.std.specs.Borrow.{sem};
ghost use Rattle.std.specs.Option.{option_copied_mut};
ghost use Rattle.std.specs.FinMap as fin;
ghost use Rattle.rc_maps.specs.HashTable.{entries_of, has_one_column};
ghost use Rattle.rc_maps.specs.Keyed.{AreApart, pair_of};
ghost use Rattle.rc_fragment.specs.Sources.{AreSeenAlike};
ghost use Rattle.rc_fragment.specs.SourceTable.{containers_of, lends_container, width_for, width_of};

use crate::container::Container;
use rc_maps::{HashTable, Keyed, Seed};
use rc_tuple::Memory;
use std::alloc::Global;

/// The containers of an edge, one for each row of its source that has some.
///
/// An edge whose source has no columns, as one from the root, has one source: its container stands in
/// place, and is found without a hash.
#[derive(Drop, Debug)]
pub enum SourceTable {
    /// Of sources without columns.
    Root(Option<Container>),
    /// Of any others.
    Keyed(HashTable<Container>),
}

impl SourceTable {
    /// No container of an edge whose source has so many columns. Takes no memory.
    pub fn new(alloc: Global, seed: Seed, columns: u32) -> SourceTable
        ensures empty { containers_of result ≡ fin.empty }
        ensures width { width_of result ≡ width_for columns }
    {
        if columns == 0 {
            SourceTable::Root(None)
        } else {
            SourceTable::Keyed(HashTable::new(alloc, seed, columns == 1))
        }
    }

    /// The container of the source, if it has one.
    pub fn get(&self, source: &[u64]) -> Option<&Container>
        ensures { option_copied result ≡ fin.get (containers_of self.now) source.now }
    {
        match self {
            SourceTable::Root(place) => {
                if source.is_empty() {
                    place.as_ref()
                } else {
                    None
                }
            }
            SourceTable::Keyed(table) => table.get(source),
        }
    }

    /// The container of the source, if it has one, to be changed.
    pub fn get_mut(&mut self, source: &[u64]) -> Option<&mut Container>
        ensures* writes_back { sem 𝓛 (lends_container self.entry source.now result) }
        ensures value { option_copied_mut result ≡ fin.get (containers_of self.old) source.now }
    {
        match self {
            SourceTable::Root(place) => {
                if source.is_empty() {
                    place.as_mut()
                } else {
                    None
                }
            }
            SourceTable::Keyed(table) => table.get_mut(source),
        }
    }

    /// Gives the source this container, in place of one that it has. Where memory is wanted nothing
    /// changes.
    pub fn insert(&mut self, source: &[u64], container: Container) -> Result<(), Memory>
        requires { width_of self.old ≡ width_for (length source.now) }
        ensures ok { OnOk result (containers_of self.new ≡ fin.insert (containers_of self.old) source.now container) }
        ensures err { OnErr result (containers_of self.new ≡ containers_of self.old) }
        ensures width { width_of self.new ≡ width_of self.old }
    {
        match self {
            SourceTable::Root(place) => {
                *place = Some(container);
                Ok(())
            }
            SourceTable::Keyed(table) => table.insert(source, container),
        }
    }

    /// Takes the source's container out, if it has one.
    // A source is left by its last row alone: it stands apart, so that a change of another row stays small.
    #[inline(never)]
    pub fn remove(&mut self, source: &[u64])
        ensures containers { containers_of self.new ≡ fin.remove (containers_of self.old) source.now }
        ensures width { width_of self.new ≡ width_of self.old }
    {
        match self {
            SourceTable::Root(place) => {
                if source.is_empty() {
                    *place = None;
                }
            }
            SourceTable::Keyed(table) => {
                let _ = table.remove(source);
            }
        }
    }

    /// Each container with its source, in the table's order. Takes a list of all, and no look-up.
    pub fn keyed(&self, alloc: Global) -> Result<Vec<Keyed<'_, Container>>, Memory>
        ensures apart { IfOk result (λ all. AreApart (map pair_of all.items)) }
        ensures entries { IfOk result (λ all. fin.from_entries (map pair_of all.items) ≡ containers_of self.now) }
    {
        match self {
            SourceTable::Root(place) => {
                let mut all = Vec::new(alloc);
                if let Some(container) = place {
                    all.push(Keyed {
                        key: &[],
                        value: container,
                    })?;
                }
                Ok(all)
            }
            SourceTable::Keyed(table) => table.keyed(alloc),
        }
    }

    /// The same containers once more, by the same sources.
    pub fn copy(&self, alloc: Global, seed: Seed, columns: u32) -> Result<SourceTable, Memory>
        requires { width_of self.now ≡ width_for columns }
        ensures seen { IfOk result (λ copy. AreSeenAlike (containers_of self.now) (containers_of copy)) }
        ensures width { IfOk result (λ copy. width_of copy ≡ width_of self.now) }
    {
        match self {
            SourceTable::Root(place) => {
                let copy = match place {
                    Some(container) => Some(container.copy()?),
                    None => None,
                };
                Ok(SourceTable::Root(copy))
            }
            SourceTable::Keyed(table) => {
                let copy = copy_of(alloc, seed, columns == 1, table)?;
                Ok(SourceTable::Keyed(copy))
            }
        }
    }
}

/// The same containers once more, by the same sources.
fn copy_of(
    alloc: Global,
    seed: Seed,
    one_column: bool,
    sources: &HashTable<Container>,
) -> Result<HashTable<Container>, Memory>
    requires { has_one_column sources.now ≡ one_column }
    ensures seen { IfOk result (λ copy. AreSeenAlike (entries_of sources.now) (entries_of copy)) }
    ensures width { IfOk result (λ copy. has_one_column copy ≡ one_column) }
{
    let keyed = sources.keyed(alloc)?;
    let mut copy = HashTable::new(alloc, seed, one_column);
    for source in &keyed {
        copy.insert(source.key, source.value.copy()?)?;
    }
    Ok(copy)
}

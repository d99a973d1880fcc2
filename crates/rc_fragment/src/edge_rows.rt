//! The rows of one edge.

ghost use Rattle.std.specs.Prelude.{◌≡◌, ◌+◌, ◌<◌, ◌^◌, ◌++◌, ◌↔◌, IsTrue, false, None, Some, OnOk, OnErr, IfOk, IsSome, length, option_copied, take};
ghost use Rattle.std.specs.List.{flat_map};
ghost use Rattle.std.specs.FinMap as fin;
ghost use Rattle.rc_tuple.specs.RisingSet.{In};
ghost use Rattle.rc_tuple.specs.Tuple.{Pairs};
ghost use Rattle.rc_edges.specs.EdgeMap.{HasAsMany, HasExtra, count_of, extra_of, one_less};
ghost use Rattle.rc_fragment.specs.Container.{now_in};
ghost use Rattle.rc_fragment.specs.Listing.{IsFiled};
ghost use Rattle.rc_fragment.specs.RowValues.{IsParted};
ghost use Rattle.rc_fragment.specs.Sources.{AreOfShape, AreOfWidth, AreSame, Becomes, HasPushed, HasRowAt, IsClean, IsNewAt, IsStoredRow, IsSingle, kept_at, sources_of, listed_in, now_at, shown_sources};

use crate::EdgeShape;
use crate::container::Container;
use crate::rows::push_rows;
use crate::source_table::SourceTable;
use rc_maps::{Keyed, Seed};
use rc_tuple::{Memory, Tuples};
use std::alloc::Global;

/// The rows of one edge in containers of the edge's kind, one for each row of the edge's source that
/// has some. A look-up takes one of the key, and one of the source where that has columns, each by its
/// values in the order of the columns, and no memory.
#[derive(Drop, Debug)]
pub struct EdgeRows {
    pub shape: EdgeShape,
    pub sources: SourceTable,
    pub seed: Seed,
    pub alloc: Global,
}

impl EdgeRows {
    /// No row of an edge of this shape.
    pub fn new(alloc: Global, seed: Seed, shape: EdgeShape) -> Self
        ensures shape { result.shape ≡ shape }
        ensures empty { sources_of result ≡ fin.empty }
        ensures form { AreOfShape result }
    {
        EdgeRows {
            shape,
            sources: SourceTable::new(alloc, seed, shape.source.len()),
            seed,
            alloc,
        }
    }

    /// Adds the row with the count 1, or raises its count by 1, and answers the count before.
    pub fn add(&mut self, source: &[u64], key: &[u64], extra: &[u64]) -> Result<u64, Memory>
        requires forms { AreOfShape self.old }
        requires width { AreOfWidth self.old.shape source.now key.now }
        requires room { count_of (kept_at self.old source.now key.now) < 2 ^ 63 }
        requires same { HasExtra (now_at self.old source.now key.now) extra.now }
        requires single { IsSingle self.old source.now key.now }
        ensures ok { OnOk result (Becomes self.old self.new source.now key.now (Some (extra.now, count_of (kept_at self.old source.now key.now) + 1))) }
        ensures before { IfOk result (λ before. before ≡ count_of (kept_at self.old source.now key.now)) }
        ensures err { OnErr result (AreSame self.old self.new) }
    {
        if let Some(container) = self.sources.get_mut(source) {
            return container.add(key, extra);
        }
        let mut container = Container::new(
            self.alloc,
            self.seed,
            self.shape.kind,
            key.len() == 1,
            extra.len(),
        )?;
        let before = container.add(key, extra)?;
        self.sources.insert(source, container)?;
        Ok(before)
    }

    /// Adds the row with the count 1, where none is there at the source and the key, and answers whether
    /// it did. Looks each of them up once.
    pub fn add_new(&mut self, source: &[u64], key: &[u64], extra: &[u64]) -> Result<bool, Memory>
        requires forms { AreOfShape self.old }
        requires width { AreOfWidth self.old.shape source.now key.now }
        requires single { now_at self.old source.now key.now ≡ None → IsSingle self.old source.now key.now }
        ensures ok { IfOk result (IsNewAt self.old self.new source.now key.now extra.now) }
        ensures err { OnErr result (AreSame self.old self.new) }
    {
        if let Some(container) = self.sources.get_mut(source) {
            return container.add_new(key, extra);
        }
        let mut container = Container::new(
            self.alloc,
            self.seed,
            self.shape.kind,
            key.len() == 1,
            extra.len(),
        )?;
        container.add(key, extra)?;
        self.sources.insert(source, container)?;
        Ok(true)
    }

    /// Lowers the count at the source and the key by 1, and answers the count before.
    pub fn sub(&mut self, source: &[u64], key: &[u64]) -> u64
        requires forms { AreOfShape self.old }
        requires there { IsSome (now_at self.old source.now key.now) }
        ensures becomes { Becomes self.old self.new source.now key.now (one_less (kept_at self.old source.now key.now)) }
        ensures before { result ≡ count_of (kept_at self.old source.now key.now) }
    {
        let Some(container) = self.sources.get_mut(source) else {
            unreachable!();
        };
        container.sub(key)
    }

    /// Makes the row or tombstone at the source and the key the row with these extra values and this
    /// count.
    pub fn put_back(&mut self, source: &[u64], key: &[u64], extra: &[u64], count: u64)
        requires forms { AreOfShape self.old }
        requires kept { HasAsMany (kept_at self.old source.now key.now) extra.now }
        ensures { Becomes self.old self.new source.now key.now (Some (extra.now, count)) }
    {
        let Some(container) = self.sources.get_mut(source) else {
            unreachable!();
        };
        container.put_back(key, extra, count);
    }

    /// Lets a tombstone at the source and the key go. A container that keeps nothing then is freed.
    pub fn sweep(&mut self, source: &[u64], key: &[u64])
        requires forms { AreOfShape self.old }
        ensures { Becomes self.old self.new source.now key.now (now_at self.old source.now key.now) }
    {
        let Some(container) = self.sources.get_mut(source) else {
            return;
        };
        container.sweep(key);
        if container.is_gone() {
            self.sources.remove(source);
        }
    }

    /// The extra values of the row at the source and the key, if it is there.
    pub fn get(&self, source: &[u64], key: &[u64]) -> Option<&[u64]>
        ensures { option_copied result ≡ extra_of (now_at self.now source.now key.now) }
    {
        match self.sources.get(source) {
            Some(container) => container.get(key),
            None => None,
        }
    }

    /// Adds of each row that is there at the source its key and then its extra values at the end of the list, rising
    /// by the keys. Where memory is wanted the list stays as it was.
    pub fn scan(&self, source: &[u64], out: &mut Vec<u64>) -> Result<(), Memory>
        ensures ok { OnOk result (out.new.items ≡ out.old.items ++ listed_in (fin.get (sources_of self.now) source.now)) }
        ensures err { OnErr result (out.new.items ≡ out.old.items) }
    {
        match self.sources.get(source) {
            Some(container) => container.scan(out),
            None => Ok(()),
        }
    }

    /// Whether the source has a row. Costs a look-up, and where tombstones may be kept a step for each of
    /// those that is met before a row.
    pub fn has_source(&self, source: &[u64], tombstones: bool) -> bool
        requires clean { tombstones ≡ false → IsClean self.now }
        ensures { IsTrue result ↔ HasRowAt self.now source.now }
    {
        match self.sources.get(source) {
            Some(container) => !tombstones || container.has_row(),
            None => false,
        }
    }

    /// Adds the values of each source that has a row at the end of the list, rising. Costs a list of all sources, which is
    /// sorted, and where tombstones may be kept a step for each of those. Where memory is wanted the list stays as it was.
    pub fn push_sources(&self, tombstones: bool, out: &mut Vec<u64>) -> Result<(), Memory>
        requires clean { tombstones ≡ false → IsClean self.now }
        ensures ok { OnOk result (HasPushed self.now out.old.items out.new.items) }
        ensures err { OnErr result (out.new.items ≡ out.old.items) }
    {
        let mut all = self.sources.keyed(self.alloc)?;
        all.sort_unstable_by(|keyed, other| keyed.key.cmp(&other.key));
        let len = out.len();
        match push_shown(&all, tombstones, out) {
            Ok(()) => Ok(()),
            Err(memory) => {
                out.truncate(len);
                Err(memory)
            }
        }
    }

    /// All rows, in no particular order.
    pub fn all(&self) -> Result<Tuples, Memory>
        requires filed { IsFiled now_in self.now }
        requires parted { IsParted self.now.shape }
        ensures only { IfOk result (λ rows. (t : Pairs) → In t rows → IsStoredRow self.now t) }
        ensures each { IfOk result (λ rows. (t : Pairs) → IsStoredRow self.now t → In t rows) }
    {
        let sources = self.sources.keyed(self.alloc)?;
        let mut values = Vec::new(self.alloc);
        let mut rows = Tuples::new(self.alloc);
        for source in &sources {
            push_rows(
                &self.shape,
                source.key,
                source.value,
                &mut values,
                &mut rows,
            )?;
        }
        Ok(rows)
    }

    /// The same rows once more, with their tombstones. Costs all rows.
    pub fn copy(&self) -> Result<Self, Memory>
        requires { AreOfShape self.now }
        ensures { IfOk result (λ copy. AreSame self.now copy) }
    {
        let columns = self.shape.source.len();
        Ok(EdgeRows {
            shape: self.shape,
            sources: self.sources.copy(self.alloc, self.seed, columns)?,
            seed: self.seed,
            alloc: self.alloc,
        })
    }
}

/// Adds the values of each source whose container has a row at the end of the list, in their order, and where no tombstones
/// are kept those of all. Where memory is wanted some may have been added.
fn push_shown(
    all: &[Keyed<'_, Container>],
    tombstones: bool,
    out: &mut Vec<u64>,
) -> Result<(), Memory>
    ensures ok { OnOk result (out.new.items ≡ out.old.items ++ flat_map (λ s. s) (shown_sources tombstones all.now)) }
    ensures err { OnErr result (take (length out.old.items) out.new.items ≡ out.old.items) }
{
    for keyed in all {
        if !tombstones || keyed.value.has_row() {
            out.extend_from_slice(keyed.key)?;
        }
    }
    Ok(())
}

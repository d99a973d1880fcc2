//! A Read: the bindings joined with the rows of an edge on held stripes.

ghost use Rattle.std.specs.Prelude.{◌≡◌, ℕ, ◌<◌, ◌++◌, [], ◌∷◌, length, OnOk};
ghost use Rattle.rc_tuple.specs.ColSet.{union};
ghost use Rattle.rc_tuple.specs.RisingSet.{In};
ghost use Rattle.rc_tuple.specs.Tuple.{IsTuple, cols_of};
ghost use Rattle.rc_spec.specs.Acceptance.{IsSealed};
ghost use Rattle.rc_spec.specs.Contents.{join};
ghost use Rattle.rc_spec.specs.Decomposition.{bound, edge_at};
ghost use Rattle.rc_spec.specs.Fragments.{EdgeRow, tuples_of_edge};
ghost use Rattle.rc_spec.specs.Placement.{class_of};
ghost use Rattle.rc_fragment.specs.Fragment.{edge_table};
ghost use Rattle.rc_fragment.specs.Holder.{held_of};
ghost use Rattle.rc_plan.specs.StripeLocks.{band};
ghost use Rattle.rc_plan.specs.declared.statement.ReadMode.TheVariants as read_mode;
ghost use Rattle.rc_machine.specs.EdgeRead.{IsReadOver};
ghost use Rattle.rc_machine.specs.Machine.{rows_now, stripes_held};
ghost use Rattle.rc_machine.specs.Read.{AreGood, AreReaders, HasMerged, HasMergedAll, HasMergedOn, IsCovered, IsReader, TakesMerges};
ghost use Rattle.rc_machine.specs.Workspace.{AreWide, HasMoreTuples};

use crate::edge_read::EdgeRead;
use crate::workspace::{Finder, Workspace};
use rc_bindings::{Binding, Bindings};
use rc_fragment::{Fragment, Holder};
use rc_plan::{Compiled, ReadMode};
use rc_tuple::{ColSet, Memory};
use std::alloc::Global;
use std::mem;

/// The join of the bindings with the rows of an edge on the held stripes. A row that agrees with a binding is found by
/// its source and key, or among the rows of its source, on the stripes on which it may fall. (PLDI 2011, query plans;
/// PLDI 2012, lock striping.)
pub(crate) fn read<H: Holder>(
    alloc: Global,
    holder: &H,
    compiled: &Compiled,
    edge: u8,
    mode: ReadMode,
    space: &mut Workspace,
) -> Result<(), Memory>
    requires sealed { IsSealed compiled.now.spec }
    requires known { edge < length compiled.now.spec.edges }
    requires wide { AreWide compiled.now.spec space.old }
    requires table { (H.seen holder.now).table ≡ edge_table compiled.now.spec }
    requires good { AreGood compiled.now.spec (held_of (H.seen holder.now)) }
    requires readers { AreReaders compiled.now.spec edge mode (held_of (H.seen holder.now)) space.old.bindings.tuples }
    ensures joined { OnOk result (space.new.bindings.tuples ≡ join space.old.bindings.tuples (tuples_of_edge edge (rows_now (held_of (H.seen holder.now))))) }
    ensures wide { OnOk result (AreWide compiled.now.spec space.new) }
    ensures old { OnOk result (space.new.old_tuple ≡ space.old.old_tuple) }
{
    let read = EdgeRead::of(compiled, edge, mode);
    space
        .found
        .begin(space.bindings.cols().union(read.resolved.target));
    for at in 0..space.bindings.len() {
        let binding = space.bindings.get(at);
        push_joined(&mut space.found, &mut space.finder, holder, &read, &binding)?;
    }
    space.found.sort(alloc)?;
    mem::swap(&mut space.bindings, &mut space.found);
    Ok(())
}

/// Appends the merges of a binding with the rows that agree with it on the held stripes.
fn push_joined<H: Holder>(
    found: &mut Bindings,
    finder: &mut Finder,
    holder: &H,
    read: &EdgeRead,
    binding: &Binding,
) -> Result<(), Memory>
    requires read { IsReadOver (H.seen holder.now).table read.now }
    requires good { AreGood read.now.spec.now (held_of (H.seen holder.now)) }
    requires takes { TakesMerges read.now.spec.now read.now.edge binding.now found.old }
    requires wide { binding.now.width ≡ length read.now.spec.now.columns }
    requires reader { IsReader read.now.spec.now read.now.edge read.now.mode binding.now.tuple }
    requires covered { IsCovered read.now.spec.now (class_of read.now.spec.now read.now.edge) (stripes_held (held_of (H.seen holder.now))) binding.now.tuple }
    ensures merged { OnOk result (HasMergedAll binding.now.tuple read.now.edge (held_of (H.seen holder.now)) found.old.tuples found.new.tuples) }
    ensures same { OnOk result (HasMoreTuples found.old found.new) }
{
    if read.class.cols.within(binding.cols()) {
        let stripe = read.stripe_of(binding);
        return push_found(found, finder, holder, stripe, read, binding);
    }
    push_from_band(found, finder, holder, read, binding)
}

/// Appends the merges with the rows on all stripes of the edge's class.
fn push_from_band<H: Holder>(
    found: &mut Bindings,
    finder: &mut Finder,
    holder: &H,
    read: &EdgeRead,
    binding: &Binding,
) -> Result<(), Memory>
    requires read { IsReadOver (H.seen holder.now).table read.now }
    requires good { AreGood read.now.spec.now (held_of (H.seen holder.now)) }
    requires takes { TakesMerges read.now.spec.now read.now.edge binding.now found.old }
    requires own { cols_of binding.now.tuple ≡ binding.now.columns }
    requires tuple { IsTuple binding.now.tuple }
    requires reader { IsReader read.now.spec.now read.now.edge read.now.mode binding.now.tuple }
    requires held { (stripe : ℕ) → In stripe (band read.now.spec.now (class_of read.now.spec.now read.now.edge)) → In stripe (stripes_held (held_of (H.seen holder.now))) }
    ensures merged { OnOk result (HasMergedOn binding.now.tuple read.now.edge (held_of (H.seen holder.now)) (band read.now.spec.now (class_of read.now.spec.now read.now.edge)) found.old.tuples found.new.tuples) }
    ensures same { OnOk result (HasMoreTuples found.old found.new) }
{
    let start = read.resolved.start;
    for place in 0..read.class.stripes {
        push_found(found, finder, holder, start + place, read, binding)?;
    }
    Ok(())
}

/// Appends the merges with the rows on one stripe.
fn push_found<H: Holder>(
    found: &mut Bindings,
    finder: &mut Finder,
    holder: &H,
    stripe: u32,
    read: &EdgeRead,
    binding: &Binding,
) -> Result<(), Memory>
    requires read { IsReadOver (H.seen holder.now).table read.now }
    requires good { AreGood read.now.spec.now (held_of (H.seen holder.now)) }
    requires takes { TakesMerges read.now.spec.now read.now.edge binding.now found.old }
    requires held { In stripe (stripes_held (held_of (H.seen holder.now))) }
    requires own { cols_of binding.now.tuple ≡ binding.now.columns }
    requires tuple { IsTuple binding.now.tuple }
    requires reader { IsReader read.now.spec.now read.now.edge read.now.mode binding.now.tuple }
    ensures merged { OnOk result (HasMergedOn binding.now.tuple read.now.edge (held_of (H.seen holder.now)) (stripe ∷ []) found.old.tuples found.new.tuples) }
    ensures same { OnOk result (HasMoreTuples found.old found.new) }
{
    let fragment = holder.fragment(stripe);
    match read.mode {
        ReadMode::Lookup => push_looked_up(found, finder, fragment, read, binding),
        // Without a key a source has one row, which a scan's list may not tell.
        ReadMode::Scan if read.resolved.key.is_empty() => {
            push_looked_up(found, finder, fragment, read, binding)
        }
        ReadMode::Scan => push_scanned(found, finder, fragment, read, binding),
    }
}

/// Appends the merge with the row that has the binding's values of source and key.
fn push_looked_up(
    found: &mut Bindings,
    finder: &mut Finder,
    fragment: &Fragment,
    read: &EdgeRead,
    binding: &Binding,
) -> Result<(), Memory>
    requires read { IsReadOver fragment.now.table read.now }
    requires columns { (w : EdgeRow) → In w fragment.now.now → cols_of w.1 ≡ bound read.now.spec.now (edge_at read.now.spec.now w.0).to }
    requires takes { TakesMerges read.now.spec.now read.now.edge binding.now found.old }
    requires own { cols_of binding.now.tuple ≡ binding.now.columns }
    requires tuple { IsTuple binding.now.tuple }
    requires reader { IsReader read.now.spec.now read.now.edge read_mode.Lookup binding.now.tuple }
    ensures merged { OnOk result (HasMerged binding.now.tuple read.now.edge fragment.now.now found.old.tuples found.new.tuples) }
    ensures same { OnOk result (HasMoreTuples found.old found.new) }
{
    finder.source.clear();
    binding.push_values(read.resolved.source, &mut finder.source)?;
    finder.key.clear();
    binding.push_values(read.resolved.key, &mut finder.key)?;
    match fragment.lookup(read.edge, &finder.source, &finder.key) {
        Some(values) => found.push_row(binding, ColSet::empty(), &[], read.resolved.extra, values),
        None => Ok(()),
    }
}

/// Appends the merges with the rows that have the binding's values of the source.
fn push_scanned(
    found: &mut Bindings,
    finder: &mut Finder,
    fragment: &Fragment,
    read: &EdgeRead,
    binding: &Binding,
) -> Result<(), Memory>
    requires read { IsReadOver fragment.now.table read.now }
    requires columns { (w : EdgeRow) → In w fragment.now.now → cols_of w.1 ≡ bound read.now.spec.now (edge_at read.now.spec.now w.0).to }
    requires takes { TakesMerges read.now.spec.now read.now.edge binding.now found.old }
    requires own { cols_of binding.now.tuple ≡ binding.now.columns }
    requires tuple { IsTuple binding.now.tuple }
    requires reader { IsReader read.now.spec.now read.now.edge read_mode.Scan binding.now.tuple }
    requires keyed { read.now.resolved.now.key ≡ [] → ⊥ }
    ensures merged { OnOk result (HasMerged binding.now.tuple read.now.edge fragment.now.now found.old.tuples found.new.tuples) }
    ensures same { OnOk result (HasMoreTuples found.old found.new) }
{
    finder.source.clear();
    binding.push_values(read.resolved.source, &mut finder.source)?;
    finder.rows.clear();
    fragment.scan(read.edge, &finder.source, &mut finder.rows)?;
    found.push_rows(
        binding,
        read.resolved.key,
        read.resolved.keys,
        read.resolved.extra,
        read.resolved.extras,
        &finder.rows,
    )
}

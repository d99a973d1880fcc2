//! A list of bindings.

ghost use Rattle.std.specs.Prelude.{◌≡◌, ℕ, List, ◌+◌, ◌<◌, ◌≤◌, ◌-◌, ◌*◌, ◌^◌, ◌==◌, ◌++◌, [], ◌∷◌, length, get_or, set, filter, take, drop, IsTrue, OnOk, OnErr, IfOk, ◌↔◌};
ghost use Rattle.std.specs.List.{flat_map};
ghost use Rattle.std.specs.Vec.{vec_capacity, vec_len};
ghost use Rattle.rc_tuple.specs.ColSet.{Within};
ghost use Rattle.rc_tuple.specs.RisingSet.{In, IsRising, gather};
ghost use Rattle.rc_tuple.specs.Tuple.{Pairs, cols_of, merges_of, project, tuple_cmp};
ghost use Rattle.rc_spec.specs.InRange.{AreBelow, IsSetBelow};
ghost use Rattle.rc_spec.specs.Ranges.{in_ranges};
ghost use Rattle.rc_bindings.specs.Bindings.{HasMore, IsGivenBy, IsRowWith, TakesRows, given, key_and_extra, no_binding, with_tuples};
ghost use Rattle.rc_bindings.specs.Registers.{all_written};

use crate::Binding;
use crate::binding::{compare, fits_values};
use rc_spec::Range;
use rc_tuple::{ColSet, Memory, Tuple, distinct};
use std::alloc::Global;
use std::marker::Model;

/// Tuples over the same columns, each in registers for all columns below a width, one behind the other.
#[derive(Drop, Debug)]
pub struct Bindings {
    cols: ColSet,
    width: usize,
    count: usize,
    registers: Vec<u64>,
}

impl Model for Bindings {
    ghost use Rattle.rc_bindings.specs.Bindings.{AreBindings, BindingList, seen_list};

    ghost Value = { BindingList };

    ghost view = { λ b. seen_list b.cols b.width b.count b.registers.items };

    ghost invariant = { λ b. AreBindings b.cols b.width b.count b.registers.items };
}

impl Bindings {
    /// No binding, over no column, which takes no memory.
    pub fn new(alloc: Global, width: usize) -> Bindings
        requires some { 0 < width }
        requires few { width ≤ 32 }
        ensures { result ≡ no_binding [] width }
    {
        Bindings {
            cols: ColSet::empty(),
            width,
            count: 0,
            registers: Vec::new(alloc),
        }
    }

    /// Forgets the bindings and their columns, and takes this width. The memory stays.
    pub fn reset(&mut self, width: usize)
        requires some { 0 < width }
        requires few { width ≤ 32 }
        ensures { self.new ≡ no_binding [] width }
    {
        self.cols = ColSet::empty();
        self.width = width;
        self.count = 0;
        self.registers.clear();
    }

    /// The columns of the bindings.
    pub fn cols(&self) -> ColSet
        ensures columns { result ≡ self.now.columns }
        ensures below { IsSetBelow self.now.width self.now.columns }
        ensures tuples { (t : Pairs) → In t self.now.tuples → cols_of t ≡ self.now.columns }
    {
        self.cols
    }

    /// How many bindings there are.
    pub fn len(&self) -> usize
        ensures { result ≡ length self.now.tuples }
    {
        self.count
    }

    /// Whether there is none.
    pub fn is_empty(&self) -> bool
        ensures { result ≡ (length self.now.tuples == 0) }
    {
        self.count == 0
    }

    /// The binding at a place.
    pub fn get(&self, at: usize) -> Binding<'_>
        requires { at < length self.now.tuples }
        ensures tuple { result.tuple ≡ get_or self.now.tuples at [] }
        ensures columns { result.columns ≡ self.now.columns }
        ensures width { result.width ≡ self.now.width }
    {
        let start = at * self.width;
        let end = start + self.width;
        Binding {
            cols: self.cols,
            registers: part(&self.registers, start, end),
        }
    }

    /// Forgets the bindings and takes these columns. The memory stays.
    pub fn begin(&mut self, cols: ColSet)
        requires { AreBelow self.old.width cols }
        ensures { self.new ≡ no_binding cols self.old.width }
    {
        // A call of a set tells the check what holds of every set.
        let _ = cols.within(cols);
        self.cols = cols;
        self.count = 0;
        self.registers.clear();
    }

    /// Adds the tuple's projection on the columns. Where memory is wanted the bindings stay.
    pub fn push_projection(&mut self, tuple: &Tuple) -> Result<(), Memory>
        requires { Within self.old.columns (cols_of tuple.now) }
        ensures ok { OnOk result (self.new ≡ with_tuples self.old (self.old.tuples ++ project self.old.columns tuple.now ∷ [])) }
        ensures err { OnErr result (self.new ≡ self.old) }
    {
        let start = self.registers.len();
        push_zeros(&mut self.registers, self.width)?;
        write(&mut self.registers, start, self.cols, tuple.pairs());
        self.count += 1;
        Ok(())
    }

    /// Adds the merge of a binding with a row, if they agree. The row is given by its values at the columns of its key and at
    /// extra ones, in column order; its other pairs are the binding's. Where memory is wanted the bindings stay.
    pub fn push_row(
        &mut self,
        binding: &Binding,
        key: ColSet,
        key_values: &[u64],
        extra: ColSet,
        extra_values: &[u64],
    ) -> Result<(), Memory>
        requires takes { TakesRows binding.now key extra self.old }
        requires keys { length key_values.now ≡ length key }
        requires extras { length extra_values.now ≡ length extra }
        ensures ok { OnOk result ((row : Pairs) → IsRowWith binding.now.tuple (given key key_values.now extra extra_values.now) row
            → self.new ≡ with_tuples self.old (self.old.tuples ++ merges_of binding.now.tuple (row ∷ []))) }
        ensures same { self.new ≡ with_tuples self.old self.new.tuples }
        ensures err { OnErr result (self.new ≡ self.old) }
    {
        let width = self.width;
        if !fits_values(binding.cols, binding.registers, key, key_values) {
            return Ok(());
        }
        if !fits_values(binding.cols, binding.registers, extra, extra_values) {
            return Ok(());
        }
        self.registers.reserve(width)?;
        push_merged(
            &mut self.registers,
            binding.registers,
            key,
            key_values,
            extra,
            extra_values,
        );
        self.count += 1;
        Ok(())
    }

    /// Adds the merges of a binding with those of some rows that agree with it, in their order. The rows are given one behind
    /// the other, each by its values at the columns of its key (`keys` of them) and then at extra ones (`extras`), one value at
    /// least of both together. Of a list that isn't a whole number of rows nothing is said, nor of the tuples where memory is wanted.
    pub fn push_rows(
        &mut self,
        binding: &Binding,
        key: ColSet,
        keys: usize,
        extra: ColSet,
        extras: usize,
        values: &[u64],
    ) -> Result<(), Memory>
        requires takes { TakesRows binding.now key extra self.old }
        requires keys { keys ≡ length key }
        requires extras { extras ≡ length extra }
        requires some { 0 < keys + extras }
        requires few { keys + extras ≤ 64 }
        ensures ok { OnOk result ((rows : List Pairs) → values.now ≡ flat_map (key_and_extra key extra) rows
            → ((row : Pairs) → In row rows → IsGivenBy binding.now.tuple key extra row)
            → self.new ≡ with_tuples self.old (self.old.tuples ++ merges_of binding.now.tuple rows)) }
        ensures same { self.new ≡ with_tuples self.old self.new.tuples }
    {
        // Where none of the columns is held all rows agree, so that no row has to be tested or to ask for its own room.
        if binding.cols.inter(key.union(extra)).is_empty() {
            return self.push_all(binding, key, keys, extra, extras, values);
        }
        for row in values.chunks_exact(keys + extras) {
            let (key_values, extra_values) = row.split_at(keys);
            self.push_row(binding, key, key_values, extra, extra_values)?;
        }
        Ok(())
    }

    /// Adds the merges of a binding with some rows that are given as for `push_rows`, and makes room for all of them at first.
    /// The binding holds none of the columns of their values, so that all agree with it.
    fn push_all(
        &mut self,
        binding: &Binding,
        key: ColSet,
        keys: usize,
        extra: ColSet,
        extras: usize,
        values: &[u64],
    ) -> Result<(), Memory>
        requires takes { TakesRows binding.now key extra self.old }
        requires free { (c : ℕ) → In c binding.now.columns → In c (key ++ extra) → ⊥ }
        requires keys { keys ≡ length key }
        requires extras { extras ≡ length extra }
        requires some { 0 < keys + extras }
        requires few { keys + extras ≤ 64 }
        ensures ok { OnOk result ((rows : List Pairs) → values.now ≡ flat_map (key_and_extra key extra) rows
            → ((row : Pairs) → In row rows → IsGivenBy binding.now.tuple key extra row)
            → self.new ≡ with_tuples self.old (self.old.tuples ++ merges_of binding.now.tuple rows)) }
        ensures same { self.new ≡ with_tuples self.old self.new.tuples }
    {
        // A call of a set tells the check what holds of every set.
        let _ = (key.within(key), extra.within(extra));
        let rows = values.len() / (keys + extras);
        self.registers.reserve(rows.saturating_mul(self.width))?;
        for row in values.chunks_exact(keys + extras) {
            let (key_values, extra_values) = row.split_at(keys);
            push_merged(
                &mut self.registers,
                binding.registers,
                key,
                key_values,
                extra,
                extra_values,
            );
            self.count += 1;
        }
        Ok(())
    }

    /// Puts the bindings in their order, each once. Costs one comparison a binding where they rise already. Where memory is
    /// wanted bindings may be gone.
    pub fn sort(&mut self, alloc: Global) -> Result<(), Memory>
        ensures same { self.new ≡ with_tuples self.old self.new.tuples }
        ensures ok { OnOk result (self.new ≡ with_tuples self.old (gather tuple_cmp self.old.tuples)) }
    {
        // Mostly there is one, which needs no walk.
        if self.len() < 2 || self.rises() {
            return Ok(());
        }
        let tuples = distinct(self.tuples(alloc)?);
        self.begin(self.cols);
        for tuple in &tuples {
            self.push_projection(tuple)?;
        }
        Ok(())
    }

    /// Keeps the bindings that are between the bounds, in their order. One walk, in which the rows that stay move down: no
    /// memory is taken.
    pub fn keep_in_ranges(&mut self, ranges: &[Range])
        ensures { self.new ≡ with_tuples self.old (filter (in_ranges ranges.now) self.old.tuples) }
    {
        let mut kept = 0;
        for at in 0..self.len() {
            if self.get(at).is_in_ranges(ranges) {
                self.copy_row(at, kept);
                kept += 1;
            }
        }
        self.truncate(kept);
    }

    /// Lays the row at a place over that at another one, which isn't behind it.
    fn copy_row(&mut self, from: usize, to: usize)
        requires order { to ≤ from }
        requires within { from < length self.old.tuples }
        ensures { self.new ≡ with_tuples self.old (set self.old.tuples to (get_or self.old.tuples from [])) }
    {
        let start = from * self.width;
        self.registers
            .copy_within(start..start + self.width, to * self.width);
    }

    /// Forgets the bindings behind the first so many.
    fn truncate(&mut self, count: usize)
        requires { count ≤ length self.old.tuples }
        ensures { self.new ≡ with_tuples self.old (take count self.old.tuples) }
    {
        self.registers.truncate(count * self.width);
        self.count = count;
    }

    /// Whether each binding is below the next.
    fn rises(&self) -> bool
        ensures { IsTrue result ↔ IsRising tuple_cmp self.now.tuples }
    {
        // The rows lie side by side, so neighbours are compared where they lie.
        let mut rows = self.registers.chunks_exact(self.width);
        let Some(mut earlier) = rows.next() else {
            return true;
        };
        for later in rows {
            if !compare(self.cols, earlier, later).is_lt() {
                return false;
            }
            earlier = later;
        }
        true
    }

    /// The bindings as tuples.
    pub fn tuples(&self, alloc: Global) -> Result<Vec<Tuple>, Memory>
        ensures { IfOk result (λ tuples. tuples.items ≡ self.now.tuples) }
    {
        let mut tuples = Vec::with_capacity(alloc, self.count)?;
        for at in 0..self.count {
            tuples.push(self.get(at).tuple(alloc)?)?;
        }
        Ok(tuples)
    }
}

/// The registers from one place up to another.
fn part(registers: &[u64], start: usize, end: usize) -> &[u64]
    requires order { start ≤ end }
    requires within { end ≤ length registers.now }
    ensures value { result.now ≡ take (end - start) (drop start registers.now) }
    ensures words { (v : ℕ) → In v result.now → v < 2 ^ 64 }
{
    &registers[start..end]
}

/// Adds registers of a tuple without columns at the end. Where memory is wanted nothing is added.
fn push_zeros(registers: &mut Vec<u64>, width: usize) -> Result<(), Memory>
    ensures ok { OnOk result (HasMore width registers.old.items registers.new.items) }
    ensures err { OnErr result (registers.new.items ≡ registers.old.items) }
{
    registers.reserve(width)?;
    for _ in 0..width {
        registers.push_reserved(0);
    }
    Ok(())
}

/// Writes those of the pairs whose columns the set has, each value in its column's register of the row that starts there.
fn write(registers: &mut [u64], start: usize, cols: ColSet, pairs: &[(u8, u64)])
    requires columns { IsSetBelow (length (drop start registers.old)) cols }
    requires few { length registers.old * 8 < 2 ^ 63 }
    ensures { registers.new ≡ take start registers.old ++ all_written (project cols pairs.now) (drop start registers.old) }
{
    for pair in pairs {
        if cols.has(pair.0) {
            let index = start + pair.0 as usize;
            registers[index] = pair.1;
        }
    }
}

/// Adds the registers of a row, for which there is room: at the columns of the key and at the extra ones the values that are
/// given, in column order, and elsewhere the held registers.
fn push_merged(
    registers: &mut Vec<u64>,
    held: &[u64],
    key: ColSet,
    key_values: &[u64],
    extra: ColSet,
    extra_values: &[u64],
)
    requires room { vec_len registers.old + length held.now ≤ vec_capacity registers.old }
    requires narrow { length held.now ≤ 32 }
    requires key_below { AreBelow (length held.now) key }
    requires extra_below { AreBelow (length held.now) extra }
    requires keys { length key_values.now ≡ length key }
    requires extras { length extra_values.now ≡ length extra }
    requires apart { (c : ℕ) → In c key → In c extra → ⊥ }
    ensures items { registers.new.items ≡ registers.old.items ++ all_written (given key key_values.now extra extra_values.now) held.now }
    ensures capacity { vec_capacity registers.new ≡ vec_capacity registers.old }
{
    // One walk: to copy the held registers and then write over them would take three.
    let mut keys = 0;
    let mut extras = 0;
    for col in 0..held.len() as u8 {
        if key.has(col) {
            registers.push_reserved(key_values[keys]);
            keys += 1;
        } else if extra.has(col) {
            registers.push_reserved(extra_values[extras]);
            extras += 1;
        } else {
            registers.push_reserved(held[col as usize]);
        }
    }
}

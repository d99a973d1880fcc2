//! One binding.

ghost use Rattle.std.specs.Prelude.{◌≡◌, ◌<◌, ◌≤◌, ◌++◌, length, map, OnOk, IfOk};
ghost use Rattle.std.specs.List.{zip};
ghost use Rattle.rc_tuple.specs.ColSet.{IsColSet};
ghost use Rattle.rc_tuple.specs.Tuple.{IsTuple, agree_on, cols_of, get, pick, project, tuple_cmp, value};
ghost use Rattle.rc_spec.specs.InRange.{AreBelow, IsSetBelow};
ghost use Rattle.rc_spec.specs.Plain.{row_cmp};
ghost use Rattle.rc_spec.specs.Ranges.{in_ranges, is_within_range};
ghost use Rattle.rc_spec.specs.Stripes.{hash_of, stripe_of};
ghost use Rattle.rc_bindings.specs.Registers.{fits_all, register, tuple_in, values_of};

use rc_spec::{Class, Range, mix};
use rc_tuple::{ColSet, Cols, Memory, Tuple, Vals};
use std::alloc::Global;
use std::cmp::Ordering;
use std::marker::Model;

/// A tuple in registers: a value for each column below the width, and the columns that count.
#[derive(Debug, Drop)]
pub struct Binding<'a> {
    pub(crate) cols: ColSet,
    pub(crate) registers: &'a [u64],
}

impl<'a> Model for Binding<'a> {
    ghost use Rattle.rc_bindings.specs.Bindings.{IsBinding, OneBinding, seen_one};

    ghost Value = { OneBinding };

    ghost view = { λ b. seen_one b.cols b.registers.now };

    ghost invariant = { λ b. IsBinding b.cols b.registers.now };
}

impl<'a> Binding<'a> {
    /// The columns that have a value.
    pub fn cols(&self) -> ColSet
        ensures columns { result ≡ self.now.columns }
        ensures of_tuple { cols_of self.now.tuple ≡ self.now.columns }
        ensures tuple { IsTuple self.now.tuple }
        ensures below { IsSetBelow self.now.width self.now.columns }
    {
        self.cols
    }

    /// The value at a column; `None` exactly where the column is none of the tuple's.
    pub fn get(&self, col: u8) -> Option<u64>
        ensures { result ≡ get self.now.tuple col }
    {
        if self.cols.has(col) {
            Some(self.registers[col as usize])
        } else {
            None
        }
    }

    /// The value at a column, or 0 where the column is none of the tuple's.
    pub fn value(&self, col: u8) -> u64
        ensures { result ≡ value self.now.tuple col }
    {
        // Not by way of `get`, since this is asked once a row and column: no option is made to be taken apart.
        if self.cols.has(col) {
            self.registers[col as usize]
        } else {
            0
        }
    }

    /// Whether the value at each range's column is between its bounds, where a column that the tuple hasn't counts as 0.
    pub(crate) fn is_in_ranges(&self, ranges: &[Range]) -> bool
        ensures { result ≡ in_ranges ranges.now self.now.tuple }
    {
        ranges.iter().all(|range| self.is_within(*range))
    }

    /// Whether the value at the range's column is between its bounds.
    fn is_within(&self, range: Range) -> bool
        ensures { result ≡ is_within_range self.now.tuple range }
    {
        let value = self.value(range.col);
        range.lo <= value && value <= range.hi
    }

    /// The stripe of the class on which the tuple falls, from 0, where the class has a stripe. A column that the tuple
    /// hasn't counts as 0.
    pub fn stripe_of(&self, class: &Class) -> u32
        requires some { 0 < class.now.stripes }
        requires within { IsSetBelow self.now.width class.now.cols }
        ensures value { result ≡ stripe_of class.now self.now.tuple }
        ensures below { result < class.now.stripes }
    {
        self.hash_of(class.cols) % class.stripes
    }

    /// The hash of the values at the columns, where a column that the tuple hasn't counts as 0.
    fn hash_of(&self, cols: ColSet) -> u32
        requires { IsSetBelow self.now.width cols }
        ensures { result ≡ hash_of cols self.now.tuple }
    {
        let mut hash = 7;
        for col in 0..self.registers.len() as u8 {
            if cols.has(col) {
                hash = mix(hash, self.value(col));
            }
        }
        hash
    }

    /// Whether both have the same projection on the columns.
    pub fn agrees_on(&self, cols: ColSet, other: &Tuple) -> bool
        requires columns { IsSetBelow self.now.width cols }
        requires tuple { IsTuple other.now }
        ensures { result ≡ agree_on cols self.now.tuple other.now }
    {
        for col in 0..self.registers.len() as u8 {
            if cols.has(col) && self.get(col) != other.get(col) {
                return false;
            }
        }
        true
    }

    /// Adds the values at the columns, in the order of the list, and 0 at a column that the tuple hasn't. Where memory is
    /// wanted some of them may have been added.
    pub fn push_picked(&self, outs: &Cols, values: &mut Vec<u64>) -> Result<(), Memory>
        ensures { OnOk result (values.new.items ≡ values.old.items ++ pick outs.now self.now.tuple) }
    {
        // Room for all at once, so that no value has to ask for its own.
        values.reserve(outs.list().len())?;
        for col in outs.list() {
            values.push_reserved(self.value(*col));
        }
        Ok(())
    }

    /// Compares the values at the columns, in the order of the list.
    pub fn order_by(&self, outs: &Cols, other: &Binding) -> Ordering
        ensures { result ≡ row_cmp (pick outs.now self.now.tuple) (pick outs.now other.now.tuple) }
    {
        for col in outs.list() {
            match self.value(*col).cmp(&other.value(*col)) {
                Ordering::Equal => {}
                unequal => return unequal,
            }
        }
        Ordering::Equal
    }

    /// How the tuple compares with another over the same columns.
    pub fn cmp(&self, other: &Binding) -> Ordering
        requires { other.now.columns ≡ self.now.columns }
        ensures { result ≡ tuple_cmp self.now.tuple other.now.tuple }
    {
        compare(self.cols, self.registers, other.registers)
    }

    /// Adds the tuple's values at the columns, in column order, at the end of a list.
    pub fn push_values(&self, cols: ColSet, values: &mut Vec<u64>) -> Result<(), Memory>
        ensures { OnOk result (values.new.items ≡ values.old.items ++ values_of (project cols self.now.tuple)) }
    {
        push_registers(self.cols.inter(cols), self.registers, values)
    }

    /// The tuple.
    pub fn tuple(&self, alloc: Global) -> Result<Tuple, Memory>
        ensures { IfOk result (λ tuple. tuple ≡ self.now.tuple) }
    {
        Tuple::new(self.cols, values_at(alloc, self.cols, self.registers)?)
    }
}

/// Adds the values in the registers of the columns, in their order, at the end of a list.
fn push_registers(cols: ColSet, registers: &[u64], values: &mut Vec<u64>) -> Result<(), Memory>
    requires below { IsSetBelow (length registers.now) cols }
    requires few { length registers.now ≤ 32 }
    ensures { OnOk result (values.new.items ≡ values.old.items ++ map (register registers.now) cols) }
{
    // Room for all at once, so that no value has to ask for its own.
    values.reserve(cols.len() as usize)?;
    for col in 0..registers.len() as u8 {
        if cols.has(col) {
            values.push_reserved(registers[col as usize]);
        }
    }
    Ok(())
}

/// The values in the registers of the columns, in their order.
fn values_at(alloc: Global, cols: ColSet, registers: &[u64]) -> Result<Vals, Memory>
    requires below { IsSetBelow (length registers.now) cols }
    requires few { length registers.now ≤ 32 }
    ensures { IfOk result (λ values. values ≡ map (register registers.now) cols) }
{
    let mut values = Vec::with_capacity(alloc, cols.len() as usize)?;
    push_registers(cols, registers, &mut values)?;
    Ok(Vals::from_vec(values))
}

/// How the registers compare at the first of the columns at which they differ.
pub(crate) fn compare(cols: ColSet, registers: &[u64], others: &[u64]) -> Ordering
    requires below { IsSetBelow (length registers.now) cols }
    requires too { IsSetBelow (length others.now) cols }
    requires few { length registers.now ≤ 32 }
    ensures { result ≡ tuple_cmp (tuple_in cols registers.now) (tuple_in cols others.now) }
{
    for col in 0..registers.len() as u8 {
        if !cols.has(col) {
            continue;
        }
        match registers[col as usize].cmp(&others[col as usize]) {
            Ordering::Equal => {}
            unequal => return unequal,
        }
    }
    Ordering::Equal
}

/// Whether the registers have no other values at those of the columns that are held. The values are the columns', in their
/// order.
pub(crate) fn fits_values(held: ColSet, registers: &[u64], cols: ColSet, values: &[u64]) -> bool
    requires below { AreBelow (length registers.now) cols }
    requires few { length registers.now ≤ 32 }
    requires count { length values.now ≡ length cols }
    ensures value { result ≡ fits_all held registers.now (zip cols values.now) }
    ensures set { IsColSet cols }
{
    // A call of a set tells the check what holds of every set.
    let _ = cols.within(cols);
    if held.inter(cols).is_empty() {
        return true;
    }
    let mut place = 0;
    for col in 0..registers.len() as u8 {
        if !cols.has(col) {
            continue;
        }
        if held.has(col) && registers[col as usize] != values[place] {
            return false;
        }
        place += 1;
    }
    true
}

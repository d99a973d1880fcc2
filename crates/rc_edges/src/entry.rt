//! What a container keeps at a key.

ghost use Rattle.std.specs.Prelude.{◌≡◌, ◌+◌, ◌-◌, ◌<◌, ◌≤◌, ◌^◌, ◌++◌, ◌∷◌, [], length, OnOk, OnErr, IfOk, option_copied};
ghost use Rattle.std.specs.Vec.{vec_len, vec_capacity};
ghost use Rattle.rc_edges.specs.EdgeMap.{HasExtra, extra_of, present};
ghost use Rattle.rc_edges.specs.Entry.{IsStarted, is_tombstone};
ghost use Rattle.rc_edges.specs.ListMap.{values_in};

use crate::extra::Extra;
use rc_tuple::Memory;
use std::alloc::Global;
use std::marker::Model;

/// A row's extra values and its count. A count of 0 says that the row isn't there any more: the entry
/// is a tombstone, which stays until it is swept, so that a row can be put back in its place without
/// memory. A row with at most one extra value takes no memory.
#[derive(Drop, Debug)]
pub struct Entry {
    extra: Extra,
    count: u64,
}

impl Model for Entry {
    ghost use Rattle.rc_edges.specs.EdgeMap.{Counted};

    ghost Value = { Counted };

    ghost view = { λ e. (e.extra, e.count) };
}

impl Entry {
    /// The row with the count 1.
    pub fn new(alloc: Global, extra: &[u64]) -> Result<Entry, Memory>
        ensures { IfOk result (λ entry. entry ≡ (extra.now, 1)) }
    {
        Ok(Entry {
            extra: Extra::from_slice(alloc, extra)?,
            count: 1,
        })
    }

    /// Raises the count by 1, and answers what it was; from 0 on it is that of the row with these
    /// extra values.
    pub fn raise(&mut self, alloc: Global, extra: &[u64]) -> Result<u64, Memory>
        requires room { self.old.1 < 2 ^ 63 }
        requires same { HasExtra (present self.old) extra.now }
        ensures ok { OnOk result (self.new ≡ (extra.now, self.old.1 + 1)) }
        ensures before { IfOk result (λ before. before ≡ self.old.1) }
        ensures err { OnErr result (self.new ≡ self.old) }
    {
        let before = self.count;
        if before == 0 {
            self.extra.replace(alloc, extra)?;
        }
        self.count = before + 1;
        Ok(before)
    }

    /// Makes the entry that of the row with these extra values and the count 1, where its row isn't
    /// there, and answers whether it wasn't. Where memory is wanted nothing changes.
    pub fn start(&mut self, alloc: Global, extra: &[u64]) -> Result<bool, Memory>
        ensures ok { IfOk result (IsStarted self.old self.new extra.now) }
        ensures err { OnErr result (self.new ≡ self.old) }
    {
        if self.count > 0 {
            return Ok(false);
        }
        self.extra.replace(alloc, extra)?;
        self.count = 1;
        Ok(true)
    }

    /// Lowers the count by 1, and answers what it was.
    pub fn lower(&mut self) -> u64
        requires { 0 < self.old.1 }
        ensures now { self.new ≡ (self.old.0, self.old.1 - 1) }
        ensures before { result ≡ self.old.1 }
    {
        let before = self.count;
        self.count = before - 1;
        before
    }

    /// Makes the entry that of the row with these extra values, as many as there are, and this count.
    /// Takes no memory.
    pub fn put_back(&mut self, extra: &[u64], count: u64)
        requires { length self.old.0 ≡ length extra.now }
        ensures { self.new ≡ (extra.now, count) }
    {
        self.extra.set(extra);
        self.count = count;
    }

    /// The extra values of the row, if it is there.
    pub fn extra(&self) -> Option<&[u64]>
        ensures { option_copied result ≡ extra_of (present self.now) }
    {
        if self.count > 0 {
            Some(self.extra.as_slice())
        } else {
            None
        }
    }

    /// Adds the key and then the row's extra values at the end of the list, if the row is there.
    /// Room is made once for both, so that where memory is wanted the list stays as it was.
    pub fn push_row(&self, key: &[u64], out: &mut Vec<u64>) -> Result<(), Memory>
        ensures ok { OnOk result (out.new.items ≡ out.old.items ++ values_in ((key.now, self.now) ∷ [])) }
        ensures err { OnErr result (out.new.items ≡ out.old.items) }
    {
        let Some(extra) = self.extra() else {
            return Ok(());
        };
        out.reserve(key.len() + extra.len())?;
        push_values(key, out);
        push_values(extra, out);
        Ok(())
    }

    /// Whether the row isn't there any more.
    pub fn is_tombstone(&self) -> bool
        ensures { result ≡ is_tombstone self.now }
    {
        self.count == 0
    }

    /// Another entry with the same extra values and count.
    pub fn copy(&self) -> Result<Entry, Memory>
        ensures { IfOk result (λ entry. entry ≡ self.now) }
    {
        Ok(Entry {
            extra: self.extra.copy()?,
            count: self.count,
        })
    }
}

/// Adds the values at the end of the list, where there is room for them. They are one or none in
/// most calls, for which a loop costs less than a copy of a block.
fn push_values(values: &[u64], out: &mut Vec<u64>)
    requires { vec_len out.old + length values.now ≤ vec_capacity out.old }
    ensures items { out.new.items ≡ out.old.items ++ values.now }
    ensures len { vec_len out.new ≡ vec_len out.old + length values.now }
    ensures capacity { vec_capacity out.new ≡ vec_capacity out.old }
{
    for value in values {
        out.push_reserved(*value);
    }
}

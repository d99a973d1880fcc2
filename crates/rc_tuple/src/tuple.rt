ghost use Rattle.std.specs.Prelude.{◌≡◌, ℕ, ◌<◌, ◌≤◌, ◌+◌, ◌||◌, ◌==◌, ◌++◌, ◌∷◌, [], not, length, IsTrue};
ghost use Rattle.std.specs.Prelude.{IfOk, OnOk, OnErr, vec_capacity, vec_len};
ghost use Rattle.std.specs.Ordering.{nat_cmp};
ghost use Rattle.std.specs.List.{list_all, zip};
ghost use Rattle.rc_tuple.specs.RisingSet.{In, IsRising, AreDistinct, IsPlace, put, gather};
ghost use Rattle.rc_tuple.specs.ColSet.{IsColSet};
ghost use Rattle.rc_tuple.specs.Tuple.{IsTuple, cols_of, get, project, pick, agrees, pair_cmp, tuple_cmp, agree_on, matches, merge, merged, tuple_of, has_pair, same_at};

use crate::{ColSet, Cols, MAX_COLS, Memory, Vals};
use std::alloc::Global;
use std::cmp::Ordering;
use std::marker::Model;

/// A tuple: one value of 64 bits for each column of a column set. Contracts see it as the list of
/// its pairs, each a column and its value, rising by the columns.
#[derive(Drop, Debug)]
pub struct Tuple {
    pairs: Vec<(u8, u64)>,
}

impl Model for Tuple {
    ghost use Rattle.rc_tuple.specs.Tuple.{Pairs, IsTuple};

    ghost Value = { Pairs };

    ghost view = { λ t. t.pairs.items };

    ghost invariant = { λ t. IsTuple t.pairs.items };
}

impl Tuple {
    /// The tuple that gives the columns, rising, these values.
    pub fn new(cols: ColSet, vals: Vals) -> Result<Tuple, Memory>
        requires { length vals ≡ length cols }
        ensures { IfOk result (λ t. t ≡ zip cols vals) }
    {
        zipped(vals.alloc(), cols, vals.list())
    }

    /// The tuple without columns, which takes no memory.
    pub fn empty(alloc: Global) -> Tuple
        ensures { result ≡ [] }
    {
        Tuple {
            pairs: Vec::new(alloc),
        }
    }

    /// The tuple that gives each of the columns, in any order, the value beside it. Costs one block, with room for all
    /// of them, and for each column a search among those before it.
    pub fn from_columns(alloc: Global, cols: &[u8], vals: &[u64]) -> Result<Tuple, Memory>
        requires fits { length vals.now ≡ length cols.now }
        requires below { (c : ℕ) → In c cols.now → c < 32 }
        requires distinct { AreDistinct cols.now }
        ensures { IfOk result (λ t. t ≡ tuple_of cols.now vals.now) }
    {
        let mut tuple = Tuple::empty(alloc);
        tuple.refill(cols, vals)?;
        Ok(tuple)
    }

    /// Becomes the tuple that gives each of the columns, in any order, the value beside it, in the memory that it has:
    /// memory is taken only where it had room for fewer pairs than there are columns, and then for all of them at
    /// once. Where memory is wanted, it has no pair. Costs for each column a search among those before it.
    pub fn refill(&mut self, cols: &[u8], vals: &[u64]) -> Result<(), Memory>
        requires fits { length vals.now ≡ length cols.now }
        requires below { (c : ℕ) → In c cols.now → c < 32 }
        requires distinct { AreDistinct cols.now }
        ensures ok { OnOk result (self.new ≡ tuple_of cols.now vals.now) }
        ensures err { OnErr result (self.new ≡ []) }
    {
        self.pairs.clear();
        self.pairs.reserve(cols.len())?;
        for (place, col) in cols.iter().enumerate() {
            put_reserved(&mut self.pairs, (*col, vals[place]));
        }
        Ok(())
    }

    /// Becomes the tuple of the other's values at those of its columns that the first set has, and of these values at the
    /// columns of the second, rising, in the memory that it has: memory is taken only where it had room for fewer pairs
    /// than the other has and values come, together, and then at once. Where memory is wanted, it has no pair. Costs a walk
    /// over the other and one over the columns, and for a value a search only where a later column is kept of the other.
    pub fn refill_with(
        &mut self,
        other: &Tuple,
        kept: ColSet,
        cols: ColSet,
        vals: &[u64],
    ) -> Result<(), Memory>
        requires fits { length vals.now ≡ length cols }
        requires apart { (c : ℕ) → In c kept → In c cols → ⊥ }
        ensures ok { OnOk result (self.new ≡ merge (project kept other.now) (zip cols vals.now)) }
        ensures err { OnErr result (self.new ≡ []) }
    {
        self.pairs.clear();
        self.pairs.reserve(other.pairs.len() + vals.len())?;
        push_projected(&mut self.pairs, kept, &other.pairs);
        put_columns(&mut self.pairs, cols, vals);
        Ok(())
    }

    /// The pairs, rising by their columns.
    pub fn pairs(&self) -> &[(u8, u64)]
        ensures pairs { result.now ≡ self.now }
        ensures tuple { IsTuple self.now }
    {
        &self.pairs
    }

    /// The allocator that the tuple keeps.
    pub fn alloc(&self) -> Global {
        *self.pairs.allocator()
    }

    /// The columns that have a value.
    pub fn cols(&self) -> ColSet
        ensures cols { result ≡ cols_of self.now }
        ensures tuple { IsTuple self.now }
    {
        columns_of(&self.pairs)
    }

    /// The value at a column; `None` exactly where the column is none of the tuple's.
    pub fn get(&self, col: u8) -> Option<u64>
        ensures { result ≡ get self.now col }
    {
        get_pair(&self.pairs, col)
    }

    /// The tuple over those of its columns that the set has. Costs one block, with room for as many pairs as this
    /// tuple has.
    pub fn project(&self, cols: ColSet) -> Result<Tuple, Memory>
        ensures { IfOk result (λ t. t ≡ project cols self.now) }
    {
        let mut out = Tuple::empty(self.alloc());
        self.project_into(cols, &mut out)?;
        Ok(out)
    }

    /// Makes the other tuple the one over those of this one's columns that the set has. Memory is taken only where the
    /// other had room for fewer pairs than this one has; where it is wanted, the other has no pair.
    pub fn project_into(&self, cols: ColSet, out: &mut Tuple) -> Result<(), Memory>
        ensures ok { OnOk result (out.new ≡ project cols self.now) }
        ensures err { OnErr result (out.new ≡ []) }
    {
        out.pairs.clear();
        out.pairs.reserve(self.pairs.len())?;
        push_projected(&mut out.pairs, cols, &self.pairs);
        Ok(())
    }

    /// The values at the columns, in the order of the list, and 0 at a column that the tuple has not.
    pub fn pick(&self, outs: &Cols) -> Result<Vals, Memory>
        ensures { IfOk result (λ vals. vals ≡ pick outs.now self.now) }
    {
        let mut vals = Vals::new(self.alloc());
        for col in outs.list() {
            vals.push(self.get(*col).unwrap_or(0))?;
        }
        Ok(vals)
    }

    /// Whether both have the same value at each column that both have.
    pub fn agrees(&self, other: &Tuple) -> bool
        ensures { result ≡ agrees self.now other.now }
    {
        all_fit(&self.pairs, &other.pairs)
    }

    /// Whether both, over the same columns, have the same value at each column of the set.
    pub fn agrees_on(&self, other: &Tuple, cols: ColSet) -> bool
        requires { cols_of self.now ≡ cols_of other.now }
        ensures { result ≡ agree_on cols self.now other.now }
    {
        same_at(&self.pairs, &other.pairs, cols)
    }

    /// Whether the tuple has the pattern's value at each column of the pattern.
    pub fn matches(&self, pattern: &Tuple) -> bool
        ensures { result ≡ matches pattern.now self.now }
    {
        has_pairs(&self.pairs, &pattern.pairs)
    }

    /// The tuple over the columns of both; `None` exactly where they disagree on a common column.
    pub fn merge(&self, other: &Tuple) -> Result<Option<Tuple>, Memory>
        ensures { IfOk result (λ t. t ≡ merged self.now other.now) }
    {
        if !self.agrees(other) {
            return Ok(None);
        }
        let pairs = merged_pairs(self.alloc(), &self.pairs, &other.pairs)?;
        Ok(Some(Tuple { pairs }))
    }

    /// Compares by the columns and then by the values, so at equal columns by the values in column
    /// order.
    pub fn order(&self, other: &Tuple) -> Ordering
        ensures { result ≡ tuple_cmp self.now other.now }
    {
        self.pairs.as_slice().cmp(&other.pairs.as_slice())
    }

    /// Another tuple with the same pairs.
    pub fn copy(&self) -> Result<Tuple, Memory>
        ensures { IfOk result (λ t. t ≡ self.now) }
    {
        Ok(Tuple {
            pairs: Vec::from_slice(self.alloc(), &self.pairs)?,
        })
    }
}

/// The tuple that gives the columns, rising, these values.
fn zipped(alloc: Global, cols: ColSet, vals: &[u64]) -> Result<Tuple, Memory>
    requires { length vals.now ≡ length cols }
    ensures { IfOk result (λ t. t ≡ zip cols vals.now) }
{
    let mut pairs = Vec::with_capacity(alloc, cols.len() as usize)?;
    for col in 0..MAX_COLS {
        if cols.has(col) {
            pairs.push((col, vals[pairs.len()]))?;
        }
    }
    Ok(Tuple { pairs })
}

/// The value beside the column.
fn get_pair(pairs: &[(u8, u64)], col: u8) -> Option<u64>
    ensures { result ≡ get pairs.now col }
{
    for pair in pairs {
        if pair.0 == col {
            return Some(pair.1);
        }
    }
    None
}

/// Whether the pairs give the pair's column no other value.
fn fits(pair: &(u8, u64), others: &[(u8, u64)]) -> bool
    ensures { result ≡ list_all (λ q. not (pair.now.0 == q.0) || pair.now.1 == q.1) others.now }
{
    others.iter().all(|q| pair.0 != q.0 || pair.1 == q.1)
}

fn all_fit(pairs: &[(u8, u64)], others: &[(u8, u64)]) -> bool
    ensures { result ≡ agrees pairs.now others.now }
{
    for pair in pairs {
        if !fits(pair, others) {
            return false;
        }
    }
    true
}

/// Whether all the pairs of the pattern are among the pairs.
fn has_pairs(pairs: &[(u8, u64)], pattern: &[(u8, u64)]) -> bool
    ensures { result ≡ list_all (has_pair pairs.now) pattern.now }
{
    for pair in pattern {
        if !has_pair(pairs, pair) {
            return false;
        }
    }
    true
}

fn has_pair(pairs: &[(u8, u64)], pair: &(u8, u64)) -> bool
    ensures { result ≡ has_pair pairs.now pair.now }
{
    pairs
        .iter()
        .any(|other| other.0 == pair.0 && other.1 == pair.1)
}

/// Adds those of the others that stand at columns of the set, in their order. There is room for all of them.
#[inline(always)]
fn push_projected(pairs: &mut Vec<(u8, u64)>, cols: ColSet, others: &[(u8, u64)])
    requires { vec_len pairs.old + length others.now ≤ vec_capacity pairs.old }
    ensures items { pairs.new.items ≡ pairs.old.items ++ project cols others.now }
    ensures len { vec_len pairs.new ≤ vec_len pairs.old + length others.now }
    ensures capacity { vec_capacity pairs.new ≡ vec_capacity pairs.old }
{
    for pair in others {
        if cols.has(pair.0) {
            pairs.push_reserved(*pair);
        }
    }
}

/// Puts each of these values at its column among the pairs. There is room for all of them.
#[inline(always)]
fn put_columns(pairs: &mut Vec<(u8, u64)>, cols: ColSet, vals: &[u64])
    requires rising { IsRising pair_cmp pairs.old.items }
    requires fits { length vals.now ≡ length cols }
    requires room { vec_len pairs.old + length vals.now ≤ vec_capacity pairs.old }
    ensures items { pairs.new.items ≡ merge pairs.old.items (zip cols vals.now) }
    ensures set { IsColSet cols }
{
    // A call of a set tells the check what holds of every set.
    let _ = cols.within(cols);
    let mut place = 0;
    for col in 0..MAX_COLS {
        if place == vals.len() {
            return;
        }
        if cols.has(col) {
            put_reserved(pairs, (col, vals[place]));
            place += 1;
        }
    }
}

/// The columns of the pairs.
fn columns_of(pairs: &[(u8, u64)]) -> ColSet
    requires { (p : ℕ × ℕ) → In p pairs.now → p.0 < 32 }
    ensures { result ≡ gather nat_cmp (cols_of pairs.now) }
{
    let mut cols = ColSet::empty();
    for pair in pairs {
        cols = cols.with(pair.0);
    }
    cols
}

/// Whether each pair at a column of the set has the value of its counterpart.
fn same_at(pairs: &[(u8, u64)], others: &[(u8, u64)], cols: ColSet) -> bool
    requires { length others.now ≡ length pairs.now }
    ensures { result ≡ list_all (same_at cols) (zip pairs.now others.now) }
{
    for (at, pair) in pairs.iter().enumerate() {
        if !same_pair_at(pair, &others[at], cols) {
            return false;
        }
    }
    true
}

fn same_pair_at(pair: &(u8, u64), other: &(u8, u64), cols: ColSet) -> bool
    ensures { result ≡ same_at cols (pair.now, other.now) }
{
    !cols.has(pair.0) || pair.1 == other.1
}

/// The pairs of both, rising, where the first rise.
fn merged_pairs(
    alloc: Global,
    pairs: &[(u8, u64)],
    others: &[(u8, u64)],
) -> Result<Vec<(u8, u64)>, Memory>
    requires { IsRising pair_cmp pairs.now }
    ensures { IfOk result (λ all. all.items ≡ gather pair_cmp (pairs.now ++ others.now)) }
{
    let mut all = Vec::from_slice(alloc, pairs)?;
    for pair in others {
        put_pair(&mut all, *pair)?;
    }
    Ok(all)
}

/// Where the pair goes among rising pairs; `None` where it is there.
fn place_of_pair(pairs: &[(u8, u64)], pair: &(u8, u64)) -> Option<usize>
    requires { IsRising pair_cmp pairs.now }
    ensures { IsPlace pair_cmp pair.now pairs.now result }
{
    // Columns mostly come in their order: then the pair goes behind all others.
    if let Some(last) = pairs.last() {
        if let Ordering::Greater = pair.cmp(last) {
            return Some(pairs.len());
        }
    }
    for (at, other) in pairs.iter().enumerate() {
        match pair.cmp(other) {
            Ordering::Less => return Some(at),
            Ordering::Equal => return None,
            Ordering::Greater => {}
        }
    }
    Some(pairs.len())
}

/// Puts the pair at its place, for which there is room.
// Columns mostly come in their order: then the pair goes behind all others, with no search.
#[inline(always)]
fn put_reserved(pairs: &mut Vec<(u8, u64)>, pair: (u8, u64))
    requires rising { IsRising pair_cmp pairs.old.items }
    requires room { vec_len pairs.old < vec_capacity pairs.old }
    ensures items { pairs.new.items ≡ put pair_cmp pair pairs.old.items }
    ensures len { vec_len pairs.new ≤ vec_len pairs.old + 1 }
    ensures capacity { vec_capacity pairs.old ≤ vec_capacity pairs.new }
{
    if is_behind(pairs, pair.0) {
        pairs.push_reserved(pair);
    } else {
        put_among(pairs, pair);
    }
}

/// Whether the column is above those of all pairs.
fn is_behind(pairs: &[(u8, u64)], col: u8) -> bool
    requires { IsRising pair_cmp pairs.now }
    ensures { IsTrue result → (val : ℕ) → put pair_cmp (col, val) pairs.now ≡ pairs.now ++ (col, val) ∷ [] }
{
    match pairs.last() {
        Some(last) => last.0 < col,
        None => true,
    }
}

/// Puts the pair at its place, for which there is room, wherever that is.
#[inline(never)]
fn put_among(pairs: &mut Vec<(u8, u64)>, pair: (u8, u64))
    requires rising { IsRising pair_cmp pairs.old.items }
    requires room { vec_len pairs.old < vec_capacity pairs.old }
    ensures items { pairs.new.items ≡ put pair_cmp pair pairs.old.items }
    ensures len { vec_len pairs.new ≤ vec_len pairs.old + 1 }
    ensures capacity { vec_capacity pairs.old ≤ vec_capacity pairs.new }
{
    let Ok(()) = put_pair(pairs, pair) else {
        unreachable!()
    };
}

/// Puts the pair at its place. Memory is taken, and wanted, only where there is no room for one more.
fn put_pair(pairs: &mut Vec<(u8, u64)>, pair: (u8, u64)) -> Result<(), Memory>
    requires { IsRising pair_cmp pairs.old.items }
    ensures ok { OnOk result (pairs.new.items ≡ put pair_cmp pair pairs.old.items) }
    ensures err { OnErr result (pairs.new.items ≡ pairs.old.items) }
    ensures len { vec_len pairs.new ≤ vec_len pairs.old + 1 }
    ensures capacity { vec_capacity pairs.old ≤ vec_capacity pairs.new }
    ensures full { OnErr result (vec_capacity pairs.old ≤ vec_len pairs.old) }
{
    match place_of_pair(pairs, &pair) {
        Some(at) if at == pairs.len() => pairs.push(pair)?,
        Some(at) => pairs.insert(at, pair)?,
        None => {}
    }
    Ok(())
}

//! Rows of one width in several blocks.

ghost use Rattle.std.specs.Prelude.{◌≡◌, ◌+◌, ◌*◌, ◌<◌, ◌≤◌, ◌^◌, ◌++◌, ◌↔◌, IsTrue, None, true, drop, length, slice_index_or, take, OnOk, OnErr, IfOk, IsSome, option_copied};
ghost use Rattle.std.specs.FinMap as fin;
ghost use Rattle.rc_edges.specs.EdgeMap.{HasAsMany, IsAddedNew, Rows, count_at, current, extra_of, found, listed, once_less, once_more, swept};
ghost use Rattle.rc_edges.specs.ListMap.{IsKeyed, rows_in};
ghost use Rattle.rc_maps.specs.Blocks.{AreBlocks, HasRoom, IsOwn, begins_by, items_in};

use crate::{Block, TreeEdge};
use rc_tuple::Memory;
use std::alloc::Global;
use std::fmt;
use std::fmt::{Debug, Formatter, Write};
use std::marker::Model;

/// The most blocks that rows are added to. A split moves the headers of the blocks behind, of three words
/// each: with as many that comes to some 12 KB for a new row, and a search tree costs less.
const FEW_BLOCKS: usize = 65_536;

/// More blocks than memory holds: their headers alone take more than an exbibyte. So the rows of all
/// can be counted.
const MOST_BLOCKS: usize = 1 << 56;

/// Rows at keys of one column with so many extra values each, rising by their keys, in blocks of at
/// most 128 rows: the leaves of a B+ tree, in a list in the place of the tree (an unrolled list).
///
/// A look-up searches the blocks by their first keys, and then in one of them, and takes no memory. A
/// new row moves those behind its place in its block. One whose block is full, tombstones counted, splits
/// that into two of 64 before it looks for its place there: it copies the rows, and moves the headers of
/// the blocks behind, of which there are as many as 64th parts of the rows at most while none is removed,
/// once for 64 new rows. With a million rows that comes to some 3 KB for a new row, where its block moves
/// 1 KB. The call that splits moves them at once, and may have to grow the list of headers.
///
/// A block whose last row or tombstone goes is let go, which moves the headers behind, but for the
/// first. Blocks aren't joined, and each keeps its memory while it has a row; the list of headers keeps
/// its own. A listing takes a step for each row, for each tombstone and for each block; none but the
/// first is empty.
#[derive(Drop)]
pub struct Blocks<const EXTRA: usize> {
    blocks: Vec<Block<EXTRA>>,
}

impl<const EXTRA: usize> Model for Blocks<EXTRA> {
    ghost use Rattle.rc_edges.specs.EdgeMap.{Rows, rows_code};

    ghost Value = { Rows };

    ghost coded = { rows_code };

    ghost use Rattle.rc_edges.specs.ListMap.{rows_in};
    ghost use Rattle.rc_maps.specs.Blocks.{AreBlocks, items_in};

    ghost view = { λ a. rows_in (items_in a.blocks.items) };

    ghost invariant = { λ a. AreBlocks a.blocks.items };
}

impl<const EXTRA: usize> Blocks<EXTRA> {
    /// Blocks with the rows and tombstones of one, which are at most 128.
    pub fn over(block: &Block<EXTRA>) -> Result<Self, Memory>
        requires { fin.len block.now ≤ 128 }
        ensures { IfOk result (λ blocks. blocks ≡ block.now) }
    {
        let mut blocks = Vec::new(block.allocator());
        blocks.push(block.copy()?)?;
        Ok(Blocks { blocks })
    }

    /// Whether a row with these extra values has a place here: they are as many as each row has. Where
    /// there are 65,536 blocks it is better placed in a search tree, and the answer is no.
    pub fn takes(&self, extra: &[u64]) -> bool
        ensures { IsTrue result → length extra.now ≡ EXTRA }
    {
        extra.len() == EXTRA && self.blocks.len() < FEW_BLOCKS
    }

    /// Adds the row at the key with the count 1, or raises its count by 1, and answers the count
    /// before. Where memory is wanted nothing changes.
    pub fn add(&mut self, key: &[u64], extra: &[u64]) -> Result<u64, Memory>
        requires one { length key.now ≡ 1 }
        requires width { length extra.now ≡ EXTRA }
        requires room { count_at self.old key.now < 2 ^ 63 }
        ensures ok { OnOk result (self.new ≡ once_more self.old key.now extra.now) }
        ensures before { IfOk result (λ before. before ≡ count_at self.old key.now) }
        ensures err { OnErr result (self.new ≡ self.old) }
    {
        let at = make_place(&mut self.blocks, key)?;
        self.blocks[at].add(key, extra)
    }

    /// Adds the row at the key with the count 1, where no row is there, and answers whether it did.
    /// Where one is there, or memory is wanted, nothing changes.
    pub fn add_new(&mut self, key: &[u64], extra: &[u64]) -> Result<bool, Memory>
        requires one { found self.old key.now ≡ None → length key.now ≡ 1 }
        requires width { length extra.now ≡ EXTRA }
        ensures ok { IfOk result (IsAddedNew self.old self.new key.now extra.now) }
        ensures err { OnErr result (self.new ≡ self.old) }
    {
        let at = make_place(&mut self.blocks, key)?;
        self.blocks[at].add_new(key, extra)
    }

    /// Lowers the count of the row that is there at the key by 1, and answers the count before.
    pub fn sub(&mut self, key: &[u64]) -> u64
        requires { IsSome (found self.old key.now) }
        ensures now { self.new ≡ once_less self.old key.now }
        ensures before { result ≡ count_at self.old key.now }
    {
        let at = place(&self.blocks, key);
        self.blocks[at].sub(key)
    }

    /// Makes the row or tombstone at the key the row with these extra values, as many as it has, and
    /// this count.
    pub fn put_back(&mut self, key: &[u64], extra: &[u64], count: u64)
        requires { HasAsMany (fin.get self.old key.now) extra.now }
        ensures { self.new ≡ fin.insert self.old key.now (extra.now, count) }
    {
        let at = place(&self.blocks, key);
        self.blocks[at].put_back(key, extra, count);
    }

    /// Lets a tombstone at the key go, and with it its block, if nothing else is in that and it isn't
    /// the first.
    pub fn sweep(&mut self, key: &[u64])
        ensures { self.new ≡ swept self.old key.now }
    {
        let at = place(&self.blocks, key);
        self.blocks[at].sweep(key);
        if at > 0 && self.blocks[at].is_gone() {
            self.blocks.remove(at);
        }
    }

    /// The extra values of the row at the key, if it is there.
    pub fn get(&self, key: &[u64]) -> Option<&[u64]>
        ensures { option_copied result ≡ extra_of (found self.now key.now) }
    {
        self.blocks[place(&self.blocks, key)].get(key)
    }

    /// Adds for each row that is there its key and then its extra values at the end of the list,
    /// rising by the keys. Where memory is wanted the list stays as it was.
    pub fn scan(&self, out: &mut Vec<u64>) -> Result<(), Memory>
        ensures ok { OnOk result (out.new.items ≡ out.old.items ++ listed self.now) }
        ensures err { OnErr result (out.new.items ≡ out.old.items) }
    {
        out.reserve(most_values(&self.blocks))?;
        let len = out.len();
        match push_blocks(&self.blocks, out) {
            Ok(()) => Ok(()),
            Err(memory) => {
                out.truncate(len);
                Err(memory)
            }
        }
    }

    /// How many rows are there. Costs a step for each, and for each tombstone.
    pub fn len(&self) -> u64
        ensures { result ≡ fin.len (current self.now) }
    {
        self.blocks.iter().map(Block::len).sum()
    }

    /// Whether a row is there. Costs a step for each tombstone before one.
    pub fn has_row(&self) -> bool
        ensures { IsTrue result ↔ (0 < fin.len (current self.now)) }
    {
        self.blocks.iter().any(Block::has_row)
    }

    /// Whether nothing is kept, not even a tombstone.
    pub fn is_gone(&self) -> bool
        ensures { IsTrue result ↔ (self.now ≡ fin.empty) }
    {
        self.blocks.len() == 1 && self.blocks[0].is_gone()
    }

    /// Other blocks with the same rows and tombstones.
    pub fn copy(&self) -> Result<Self, Memory>
        ensures { IfOk result (λ copy. copy ≡ self.now) }
    {
        let alloc = *self.blocks.allocator();
        let blocks = copies(alloc, &self.blocks)?;
        Ok(Blocks { blocks })
    }

    /// A container over a search tree with the same rows and tombstones. Takes a list of all, which it
    /// lets go.
    pub fn tree(&self) -> Result<TreeEdge, Memory>
        ensures rows { IfOk result (λ tree. tree.rows ≡ self.now) }
        ensures width { IfOk result (λ tree. tree.one_column ≡ true) }
    {
        joined(&self.blocks)?.tree()
    }
}

impl<const EXTRA: usize> Debug for Blocks<EXTRA> {
    fn fmt<W: Write>(&self, f: &mut Formatter<W>) -> fmt::Result {
        f.debug_struct("Blocks").finish_non_exhaustive()
    }
}

/// The place of the key's own block: the last one that begins at or below it, and else the first.
fn place<const EXTRA: usize>(blocks: &[Block<EXTRA>], key: &[u64]) -> usize
    requires { AreBlocks blocks.now }
    ensures own { IsOwn key.now blocks.now result }
    ensures within { result < length blocks.now }
{
    blocks[1..].partition_point(
        |block| -> bool
            ensures { result ≡ begins_by block.now key.entry.now }
        { block.begins_by(key) },
    )
}

/// The place of the key's own block, which isn't full: one that is, is split before.
fn make_place<const EXTRA: usize>(
    blocks: &mut Vec<Block<EXTRA>>,
    key: &[u64],
) -> Result<usize, Memory>
    requires { AreBlocks blocks.old.items }
    ensures blocks { AreBlocks blocks.new.items }
    ensures items { items_in blocks.new.items ≡ items_in blocks.old.items }
    ensures place { IfOk result (λ at. HasRoom key.now blocks.new.items at) }
{
    let at = place(blocks, key);
    if blocks[at].is_full() {
        return split(blocks, at, key);
    }
    Ok(at)
}

/// Splits the key's own block, which is full, into two halves, and answers the place of the half that
/// is its own then. Where memory is wanted, as it is for more blocks than memory holds, nothing changes.
fn split<const EXTRA: usize>(
    blocks: &mut Vec<Block<EXTRA>>,
    at: usize,
    key: &[u64],
) -> Result<usize, Memory>
    requires blocks { AreBlocks blocks.old.items }
    requires own { IsOwn key.now blocks.old.items at }
    requires within { at < length blocks.old.items }
    requires full { (d : Rows) → fin.len (slice_index_or blocks.old.items at d) ≡ 128 }
    ensures blocks { AreBlocks blocks.new.items }
    ensures items { items_in blocks.new.items ≡ items_in blocks.old.items }
    ensures place { IfOk result (λ own. HasRoom key.now blocks.new.items own) }
{
    if blocks.len() == MOST_BLOCKS {
        return Err(Memory);
    }
    let (lower, upper) = blocks[at].halves()?;
    let behind = upper.begins_by(key);
    blocks.insert(at + 1, upper)?;
    blocks[at] = lower;
    Ok(if behind { at + 1 } else { at })
}

/// How many values the blocks' rows have, and their tombstones would have.
fn most_values<const EXTRA: usize>(blocks: &[Block<EXTRA>]) -> usize {
    let rows = blocks
        .iter()
        .fold(0_usize, |rows, block| rows.saturating_add(block.kept()));
    rows.saturating_mul(EXTRA.saturating_add(1))
}

/// Adds the rows of each block at the end; where memory is wanted some may have been added.
fn push_blocks<const EXTRA: usize>(
    blocks: &[Block<EXTRA>],
    out: &mut Vec<u64>,
) -> Result<(), Memory>
    requires { IsKeyed (items_in blocks.now) }
    ensures ok { OnOk result (out.new.items ≡ out.old.items ++ listed (rows_in (items_in blocks.now))) }
    ensures err { OnErr result (take (length out.old.items) out.new.items ≡ out.old.items) }
{
    for block in blocks {
        block.scan(out)?;
    }
    Ok(())
}

/// A copy of each block.
fn copies<const EXTRA: usize>(
    alloc: Global,
    blocks: &[Block<EXTRA>],
) -> Result<Vec<Block<EXTRA>>, Memory>
    ensures { IfOk result (λ copies. copies.items ≡ blocks.now) }
{
    let mut copies = Vec::with_capacity(alloc, blocks.len())?;
    for block in blocks {
        copies.push(block.copy()?)?;
    }
    Ok(copies)
}

/// One block with the rows and tombstones of all, as many as they are.
fn joined<const EXTRA: usize>(blocks: &[Block<EXTRA>]) -> Result<Block<EXTRA>, Memory>
    requires some { 0 < length blocks.now }
    requires keyed { IsKeyed (items_in blocks.now) }
    ensures { IfOk result (λ block. block ≡ rows_in (items_in blocks.now)) }
{
    let mut joined = blocks[0].copy()?;
    for block in &blocks[1..] {
        joined.append(block)?;
    }
    Ok(joined)
}

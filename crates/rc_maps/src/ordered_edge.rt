//! The container of the kind ordered.

ghost use Rattle.std.specs.Prelude.{◌≡◌, IsTrue, length, IfOk, OnOk};
ghost use Rattle.std.specs.FinMap as fin;
ghost use Rattle.rc_edges.specs.EdgeMap.{HasWidth};
ghost use Rattle.rc_maps.specs.OrderedEdge.{Fits, IsMoved, has_one_column, rows_of};

use crate::{Block, Blocks, TreeEdge};
use rc_edges::EdgeMap;
use rc_tuple::Memory;
use std::alloc::Global;

/// A container in the order of keys. It suits an edge with many keys at a row of its source whose
/// rows are often listed: `scan` walks the rows, and takes no memory but the list's.
///
/// Rows at keys of one column stand side by side, where they have at most two extra values each: up
/// to 128 in one block, tombstones counted, and more in several. Any others stand in a search tree, and
/// so do rows that take 65,536 blocks, some four million or more if none is removed. Rows of an edge are
/// all of one width; a container that was made for another moves to the tree with the first row that
/// doesn't fit. None moves back. A move copies all rows at once, and takes memory for them.
#[derive(Drop, Debug)]
pub enum OrderedEdge {
    /// Up to 128 rows without extra values.
    Bare(Block<0>),
    /// Up to 128 rows with one extra value.
    One(Block<1>),
    /// Up to 128 rows with two extra values.
    Two(Block<2>),
    /// Rows without extra values.
    ManyBare(Blocks<0>),
    /// Rows with one extra value.
    ManyOne(Blocks<1>),
    /// Rows with two extra values.
    ManyTwo(Blocks<2>),
    /// Any rows.
    Tree(TreeEdge),
}

impl OrderedEdge {
    /// The container with no row, which takes no memory: it takes keys of one column alone, or any,
    /// and is made for rows with so many extra values.
    pub fn new(alloc: Global, one_column: bool, extra: usize) -> Self
        ensures empty { rows_of result ≡ fin.empty }
        ensures width { has_one_column result ≡ one_column }
    {
        if !one_column {
            return OrderedEdge::Tree(TreeEdge::new(alloc, false));
        }
        match extra {
            0 => OrderedEdge::Bare(Block::new(alloc)),
            1 => OrderedEdge::One(Block::new(alloc)),
            2 => OrderedEdge::Two(Block::new(alloc)),
            _ => OrderedEdge::Tree(TreeEdge::new(alloc, true)),
        }
    }

    /// Moves the rows to blocks or to the tree, if a row with these extra values has no place beside
    /// them. Where memory is wanted nothing changes.
    fn make_place(&mut self, extra: &[u64]) -> Result<(), Memory>
        ensures fits { OnOk result (Fits self.new (length extra.now)) }
        ensures rows { rows_of self.new ≡ rows_of self.old }
        ensures width { has_one_column self.new ≡ has_one_column self.old }
    {
        if self.takes(extra) {
            return Ok(());
        }
        if let Some(moved) = self.moved(extra)? {
            *self = moved;
        }
        Ok(())
    }

    /// Whether a row with these extra values has a place beside the others.
    #[inline(always)]
    fn takes(&self, extra: &[u64]) -> bool
        ensures { IsTrue result → Fits self.now (length extra.now) }
    {
        match self {
            OrderedEdge::Bare(block) => block.takes(extra),
            OrderedEdge::One(block) => block.takes(extra),
            OrderedEdge::Two(block) => block.takes(extra),
            OrderedEdge::ManyBare(blocks) => blocks.takes(extra),
            OrderedEdge::ManyOne(blocks) => blocks.takes(extra),
            OrderedEdge::ManyTwo(blocks) => blocks.takes(extra),
            OrderedEdge::Tree(_) => true,
        }
    }

    /// The container that the rows move to: blocks, where one is full of rows with as many extra
    /// values, and else a tree. A tree takes any row, and isn't moved.
    // It stands apart, since most rows find a place.
    #[inline(never)]
    fn moved(&self, extra: &[u64]) -> Result<Option<Self>, Memory>
        ensures { IfOk result (λ moved. IsMoved self.now moved (length extra.now)) }
    {
        match self {
            OrderedEdge::Bare(block) if block.is_full_of(extra) => {
                Ok(Some(OrderedEdge::ManyBare(Blocks::over(block)?)))
            }
            OrderedEdge::One(block) if block.is_full_of(extra) => {
                Ok(Some(OrderedEdge::ManyOne(Blocks::over(block)?)))
            }
            OrderedEdge::Two(block) if block.is_full_of(extra) => {
                Ok(Some(OrderedEdge::ManyTwo(Blocks::over(block)?)))
            }
            OrderedEdge::Bare(block) => Ok(Some(OrderedEdge::Tree(block.tree()?))),
            OrderedEdge::One(block) => Ok(Some(OrderedEdge::Tree(block.tree()?))),
            OrderedEdge::Two(block) => Ok(Some(OrderedEdge::Tree(block.tree()?))),
            OrderedEdge::ManyBare(blocks) => Ok(Some(OrderedEdge::Tree(blocks.tree()?))),
            OrderedEdge::ManyOne(blocks) => Ok(Some(OrderedEdge::Tree(blocks.tree()?))),
            OrderedEdge::ManyTwo(blocks) => Ok(Some(OrderedEdge::Tree(blocks.tree()?))),
            OrderedEdge::Tree(_) => Ok(None),
        }
    }
}

impl EdgeMap for OrderedEdge {
    ghost rows = { rows_of };

    ghost one_column = { has_one_column };

    ghost may_take = { λ map key. HasWidth (has_one_column map) key };

    fn add(&mut self, key: &[u64], extra: &[u64]) -> Result<u64, Memory> {
        self.make_place(extra)?;
        match self {
            OrderedEdge::Bare(block) => block.add(key, extra),
            OrderedEdge::One(block) => block.add(key, extra),
            OrderedEdge::Two(block) => block.add(key, extra),
            OrderedEdge::ManyBare(blocks) => blocks.add(key, extra),
            OrderedEdge::ManyOne(blocks) => blocks.add(key, extra),
            OrderedEdge::ManyTwo(blocks) => blocks.add(key, extra),
            OrderedEdge::Tree(tree) => tree.add(key, extra),
        }
    }

    fn add_new(&mut self, key: &[u64], extra: &[u64]) -> Result<bool, Memory> {
        self.make_place(extra)?;
        match self {
            OrderedEdge::Bare(block) => block.add_new(key, extra),
            OrderedEdge::One(block) => block.add_new(key, extra),
            OrderedEdge::Two(block) => block.add_new(key, extra),
            OrderedEdge::ManyBare(blocks) => blocks.add_new(key, extra),
            OrderedEdge::ManyOne(blocks) => blocks.add_new(key, extra),
            OrderedEdge::ManyTwo(blocks) => blocks.add_new(key, extra),
            OrderedEdge::Tree(tree) => tree.add_new(key, extra),
        }
    }

    fn sub(&mut self, key: &[u64]) -> u64 {
        match self {
            OrderedEdge::Bare(block) => block.sub(key),
            OrderedEdge::One(block) => block.sub(key),
            OrderedEdge::Two(block) => block.sub(key),
            OrderedEdge::ManyBare(blocks) => blocks.sub(key),
            OrderedEdge::ManyOne(blocks) => blocks.sub(key),
            OrderedEdge::ManyTwo(blocks) => blocks.sub(key),
            OrderedEdge::Tree(tree) => tree.sub(key),
        }
    }

    fn put_back(&mut self, key: &[u64], extra: &[u64], count: u64) {
        match self {
            OrderedEdge::Bare(block) => block.put_back(key, extra, count),
            OrderedEdge::One(block) => block.put_back(key, extra, count),
            OrderedEdge::Two(block) => block.put_back(key, extra, count),
            OrderedEdge::ManyBare(blocks) => blocks.put_back(key, extra, count),
            OrderedEdge::ManyOne(blocks) => blocks.put_back(key, extra, count),
            OrderedEdge::ManyTwo(blocks) => blocks.put_back(key, extra, count),
            OrderedEdge::Tree(tree) => tree.put_back(key, extra, count),
        }
    }

    fn sweep(&mut self, key: &[u64]) {
        match self {
            OrderedEdge::Bare(block) => block.sweep(key),
            OrderedEdge::One(block) => block.sweep(key),
            OrderedEdge::Two(block) => block.sweep(key),
            OrderedEdge::ManyBare(blocks) => blocks.sweep(key),
            OrderedEdge::ManyOne(blocks) => blocks.sweep(key),
            OrderedEdge::ManyTwo(blocks) => blocks.sweep(key),
            OrderedEdge::Tree(tree) => tree.sweep(key),
        }
    }

    fn get(&self, key: &[u64]) -> Option<&[u64]> {
        match self {
            OrderedEdge::Bare(block) => block.get(key),
            OrderedEdge::One(block) => block.get(key),
            OrderedEdge::Two(block) => block.get(key),
            OrderedEdge::ManyBare(blocks) => blocks.get(key),
            OrderedEdge::ManyOne(blocks) => blocks.get(key),
            OrderedEdge::ManyTwo(blocks) => blocks.get(key),
            OrderedEdge::Tree(tree) => tree.get(key),
        }
    }

    fn scan(&self, out: &mut Vec<u64>) -> Result<(), Memory> {
        match self {
            OrderedEdge::Bare(block) => block.scan(out),
            OrderedEdge::One(block) => block.scan(out),
            OrderedEdge::Two(block) => block.scan(out),
            OrderedEdge::ManyBare(blocks) => blocks.scan(out),
            OrderedEdge::ManyOne(blocks) => blocks.scan(out),
            OrderedEdge::ManyTwo(blocks) => blocks.scan(out),
            OrderedEdge::Tree(tree) => tree.scan(out),
        }
    }

    fn len(&self) -> u64 {
        match self {
            OrderedEdge::Bare(block) => block.len(),
            OrderedEdge::One(block) => block.len(),
            OrderedEdge::Two(block) => block.len(),
            OrderedEdge::ManyBare(blocks) => blocks.len(),
            OrderedEdge::ManyOne(blocks) => blocks.len(),
            OrderedEdge::ManyTwo(blocks) => blocks.len(),
            OrderedEdge::Tree(tree) => tree.len(),
        }
    }

    fn has_row(&self) -> bool {
        match self {
            OrderedEdge::Bare(block) => block.has_row(),
            OrderedEdge::One(block) => block.has_row(),
            OrderedEdge::Two(block) => block.has_row(),
            OrderedEdge::ManyBare(blocks) => blocks.has_row(),
            OrderedEdge::ManyOne(blocks) => blocks.has_row(),
            OrderedEdge::ManyTwo(blocks) => blocks.has_row(),
            OrderedEdge::Tree(tree) => tree.has_row(),
        }
    }

    fn is_gone(&self) -> bool {
        match self {
            OrderedEdge::Bare(block) => block.is_gone(),
            OrderedEdge::One(block) => block.is_gone(),
            OrderedEdge::Two(block) => block.is_gone(),
            OrderedEdge::ManyBare(blocks) => blocks.is_gone(),
            OrderedEdge::ManyOne(blocks) => blocks.is_gone(),
            OrderedEdge::ManyTwo(blocks) => blocks.is_gone(),
            OrderedEdge::Tree(tree) => tree.is_gone(),
        }
    }

    fn copy(&self) -> Result<Self, Memory> {
        match self {
            OrderedEdge::Bare(block) => Ok(OrderedEdge::Bare(block.copy()?)),
            OrderedEdge::One(block) => Ok(OrderedEdge::One(block.copy()?)),
            OrderedEdge::Two(block) => Ok(OrderedEdge::Two(block.copy()?)),
            OrderedEdge::ManyBare(blocks) => Ok(OrderedEdge::ManyBare(blocks.copy()?)),
            OrderedEdge::ManyOne(blocks) => Ok(OrderedEdge::ManyOne(blocks.copy()?)),
            OrderedEdge::ManyTwo(blocks) => Ok(OrderedEdge::ManyTwo(blocks.copy()?)),
            OrderedEdge::Tree(tree) => Ok(OrderedEdge::Tree(tree.copy()?)),
        }
    }
}

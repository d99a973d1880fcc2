ghost use Rattle.std.specs.Prelude.{◌≡◌, [], ◌∷◌, ◌++◌, OnOk, OnErr, IfOk};

use crate::Memory;
use std::alloc::Global;
use std::marker::Model;

/// A list that keeps its allocator, and that contracts see as the list of its items.
#[derive(Drop, Debug)]
pub struct SmallList<T> {
    items: Vec<T>,
}

impl<T> Model for SmallList<T> {
    ghost use Rattle.std.specs.Prelude.{List};

    ghost Value = { List T };

    ghost view = { λ a. a.items.items };
}

impl<T> SmallList<T> {
    /// The empty list, which takes no memory.
    pub fn new(alloc: Global) -> Self
        ensures { result ≡ [] }
    {
        SmallList {
            items: Vec::new(alloc),
        }
    }

    /// Adds an item at the end. Where memory is wanted the list stays and the item is dropped.
    pub fn push(&mut self, item: T) -> Result<(), Memory>
    where
        T: Drop,
        ensures ok { OnOk result (self.new ≡ self.old ++ item ∷ []) }
        ensures err { OnErr result (self.new ≡ self.old) }
    {
        self.items.push(item)?;
        Ok(())
    }

    /// Takes all items out, and keeps their memory.
    pub fn clear(&mut self)
    where
        T: Drop,
        ensures { self.new ≡ [] }
    {
        self.items.clear();
    }

    /// The items, in order.
    pub fn list(&self) -> &[T]
        ensures { result.now ≡ self.now }
    {
        &self.items
    }

    /// The list of a vector's items. Takes no memory.
    pub fn from_vec(items: Vec<T>) -> Self
        ensures { result ≡ items.items }
    {
        SmallList { items }
    }

    /// The items as a vector. Takes no memory.
    pub fn into_vec(self) -> Vec<T>
        ensures { result.items ≡ self }
    {
        let SmallList { items } = self;
        items
    }

    /// The allocator that the list keeps.
    pub fn alloc(&self) -> Global {
        *self.items.allocator()
    }
}

impl<T: Copy> SmallList<T> {
    /// A list of the slice's items.
    pub fn from_slice(alloc: Global, items: &[T]) -> Result<Self, Memory>
        ensures { IfOk result (λ list. list ≡ items.now) }
    {
        let items = Vec::from_slice(alloc, items)?;
        Ok(SmallList { items })
    }

    /// Another list of the same items.
    pub fn copy(&self) -> Result<Self, Memory>
        ensures { IfOk result (λ list. list ≡ self.now) }
    {
        SmallList::from_slice(self.alloc(), &self.items)
    }
}

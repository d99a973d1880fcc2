//! A key of a container that is a list.

ghost use Rattle.std.specs.Prelude.{◌≡◌, IfOk};

use rc_tuple::{Memory, Vals};
use std::alloc::Global;
use std::marker::Model;
use std::slice;

/// The values of a key. One value alone takes no memory.
#[derive(Drop, Debug)]
pub struct Key {
    values: KeyValues,
}

#[derive(Drop, Debug)]
enum KeyValues {
    One(u64),
    Many(Vals),
}

impl Model for Key {
    ghost use Rattle.rc_edges.specs.Values.{Values};
    ghost use Rattle.rc_edges.specs.Key.{values_of};

    ghost Value = { Values };

    ghost view = { λ k. values_of k.values };
}

impl Key {
    /// The key with these values.
    pub fn new(alloc: Global, values: &[u64]) -> Result<Key, Memory>
        ensures { IfOk result (λ key. key ≡ values.now) }
    {
        let values = match values {
            [value] => KeyValues::One(*value),
            _ => KeyValues::Many(Vals::from_slice(alloc, values)?),
        };
        Ok(Key { values })
    }

    /// The values, in the order of their columns.
    pub fn values(&self) -> &[u64]
        ensures { result.now ≡ self.now }
    {
        match &self.values {
            KeyValues::One(value) => slice::from_ref(value),
            KeyValues::Many(values) => values.list(),
        }
    }

    /// Another key with the same values.
    pub fn copy(&self) -> Result<Key, Memory>
        ensures { IfOk result (λ key. key ≡ self.now) }
    {
        let values = match &self.values {
            KeyValues::One(value) => KeyValues::One(*value),
            KeyValues::Many(values) => KeyValues::Many(values.copy()?),
        };
        Ok(Key { values })
    }
}

//! The container of a singleton.

ghost use Rattle.std.specs.Prelude.{◌≡◌, false};
ghost use Rattle.std.specs.FinMap as fin;
ghost use Rattle.rc_edges.specs.EdgeMap.{HasNoOther};
ghost use Rattle.rc_edges.specs.OneMap.{rows_at};

use crate::{EdgeMap, Entry, Key, ListMap};
use rc_tuple::Memory;
use std::alloc::Global;
use std::marker::Model;

/// At most one row that is there, whose entry stands in place: it takes no second one.
///
/// Where another key comes while a tombstone isn't swept yet, they stand in a list until one entry is
/// left.
#[derive(Drop, Debug)]
pub struct OneMap {
    place: Place,
    alloc: Global,
}

/// Where the entries stand.
#[derive(Drop, Debug)]
enum Place {
    One(Option<(Key, Entry)>),
    Several(ListMap),
}

impl Model for OneMap {
    ghost use Rattle.rc_edges.specs.EdgeMap.{Rows, rows_code};

    ghost Value = { Rows };

    ghost coded = { rows_code };

    ghost use Rattle.rc_edges.specs.OneMap.{rows_at};

    ghost view = { λ a. rows_at a.place };
}

impl OneMap {
    /// The container with no row, which takes no memory.
    pub fn new(alloc: Global) -> Self
        ensures { result ≡ fin.empty }
    {
        OneMap {
            place: Place::One(None),
            alloc,
        }
    }
}

impl EdgeMap for OneMap {
    ghost rows = { λ map. map };

    ghost one_column = { λ _. false };

    ghost may_take = { λ map key. HasNoOther map key };

    fn add(&mut self, key: &[u64], extra: &[u64]) -> Result<u64, Memory> {
        match &mut self.place {
            Place::Several(list) => list.add(key, extra),
            Place::One(one) => {
                let Some((own, entry)) = one else {
                    let entry = Entry::new(self.alloc, extra)?;
                    *one = Some((Key::new(self.alloc, key)?, entry));
                    return Ok(0);
                };
                if own.values() == key {
                    return entry.raise(self.alloc, extra);
                }
                let mut list = ListMap::alone(self.alloc, own, entry)?;
                let before = list.add(key, extra)?;
                self.place = Place::Several(list);
                Ok(before)
            }
        }
    }

    fn add_new(&mut self, key: &[u64], extra: &[u64]) -> Result<bool, Memory> {
        match &mut self.place {
            Place::Several(list) => list.add_new(key, extra),
            Place::One(one) => {
                let Some((own, entry)) = one else {
                    let entry = Entry::new(self.alloc, extra)?;
                    *one = Some((Key::new(self.alloc, key)?, entry));
                    return Ok(true);
                };
                if own.values() == key {
                    return entry.start(self.alloc, extra);
                }
                let mut list = ListMap::alone(self.alloc, own, entry)?;
                let added = list.add_new(key, extra)?;
                self.place = Place::Several(list);
                Ok(added)
            }
        }
    }

    fn sub(&mut self, key: &[u64]) -> u64 {
        match &mut self.place {
            Place::Several(list) => list.sub(key),
            Place::One(one) => {
                let Some((_, entry)) = one else {
                    unreachable!();
                };
                entry.lower()
            }
        }
    }

    fn put_back(&mut self, key: &[u64], extra: &[u64], count: u64) {
        match &mut self.place {
            Place::Several(list) => list.put_back(key, extra, count),
            Place::One(one) => {
                let Some((_, entry)) = one else {
                    unreachable!();
                };
                entry.put_back(extra, count);
            }
        }
    }

    fn sweep(&mut self, key: &[u64]) {
        match &mut self.place {
            Place::Several(list) => {
                list.sweep(key);
                if let Some(item) = list.take_only() {
                    self.place = Place::One(Some(item));
                }
            }
            Place::One(one) => {
                let Some((own, entry)) = one else {
                    return;
                };
                if own.values() == key && entry.is_tombstone() {
                    *one = None;
                }
            }
        }
    }

    fn get(&self, key: &[u64]) -> Option<&[u64]> {
        match &self.place {
            Place::Several(list) => list.get(key),
            Place::One(one) => {
                let Some((own, entry)) = one else {
                    return None;
                };
                if own.values() == key {
                    entry.extra()
                } else {
                    None
                }
            }
        }
    }

    fn scan(&self, out: &mut Vec<u64>) -> Result<(), Memory> {
        match &self.place {
            Place::Several(list) => list.scan(out),
            Place::One(one) => {
                let Some((key, entry)) = one else {
                    return Ok(());
                };
                entry.push_row(key.values(), out)
            }
        }
    }

    fn len(&self) -> u64 {
        match &self.place {
            Place::Several(list) => list.len(),
            Place::One(one) => {
                let Some((_, entry)) = one else {
                    return 0;
                };
                match entry.extra() {
                    Some(_) => 1,
                    None => 0,
                }
            }
        }
    }

    fn has_row(&self) -> bool {
        match &self.place {
            Place::Several(list) => list.has_row(),
            Place::One(one) => match one {
                Some((_, entry)) => !entry.is_tombstone(),
                None => false,
            },
        }
    }

    fn is_gone(&self) -> bool {
        match &self.place {
            Place::Several(list) => list.is_gone(),
            Place::One(one) => {
                let Some(_) = one else {
                    return true;
                };
                false
            }
        }
    }

    fn copy(&self) -> Result<Self, Memory> {
        let place = match &self.place {
            Place::Several(list) => Place::Several(list.copy()?),
            Place::One(Some((key, entry))) => Place::One(Some((key.copy()?, entry.copy()?))),
            Place::One(None) => Place::One(None),
        };
        Ok(OneMap {
            place,
            alloc: self.alloc,
        })
    }
}

//! How a store is closed.

ghost use Rattle.std.specs.Prelude.{◌≡◌, ◌-◌, ◌≤◌, ◌^◌, List, [], All, IfErr, IfOk, IfSome, None, Some, length, min, vec_capacity};
ghost use Rattle.std.specs.List.{filter_map, sum};
ghost use Rattle.rc_spec.specs.Acceptance.{IsSealed};
ghost use Rattle.rc_rel.specs.declared.entry.Entry.{Entry};
ghost use Rattle.rc_row.specs.Passes.{AreIdlePasses, spec_of, stripes_of};
ghost use Rattle.rc_store.specs.Closed.{AreKeptOf, HasClosed, made_by, where_kept};

use crate::closed::Closed;
use crate::store::Store;
use crate::wakes::Wakes;
use rc_instance::{Instance, InstanceRoom};
use rc_journal::{Journal, Part, Room, merge};
use rc_row::{EndedPass, Keeping, Pass, RowBack};
use rc_spec::stripe_total;
use rc_tuple::Memory;
use std::alloc::Global;

/// A store and its passes, all as they were, since memory was wanted.
#[derive(Drop)]
pub struct StoreBack<W> {
    /// The store.
    pub store: Store<W>,
    /// Its passes.
    pub passes: Vec<Pass>,
}

/// The memory of what a closed store leaves, taken before its row is closed.
#[derive(Drop)]
struct ClosingRoom {
    instance: InstanceRoom,
    journal: Option<Room>,
    parts: Vec<Part>,
    made: Vec<u64>,
}

impl<W: Wakes> Store<W> {
    /// Ends the store: its calls are one legal history, which has the entries of all passes, and its fragments have the rows
    /// that the history leaves. All passes come with it, by number, and hold nothing. Where memory is wanted, all comes back as
    /// it was. Costs the stripes and the passes, and a move of each entry that was kept. (PLDI 2012, serializable transactions.)
    pub fn close(self, passes: Vec<Pass>) -> Result<Closed, StoreBack<W>>
        requires { AreIdlePasses self.row passes.items }
        ensures closed { IfOk result (HasClosed self passes.items) }
        ensures err { IfErr result (λ back. (back.store ≡ self) × (back.passes.items ≡ passes.items)) }
    {
        let Ok(room) = self.closing_room(&passes) else {
            return Err(StoreBack {
                store: self,
                passes,
            });
        };
        let Store {
            row,
            compiled,
            limit,
            alloc,
            wakes,
        } = self;
        match row.close(passes) {
            Ok(ended) => Ok(Closed {
                compiled,
                instance: Instance::from_kept(room.instance, ended.fragments),
                journal: journal_of(room.journal, room.parts, ended.passes),
                made: room.made,
                history: ended.history,
            }),
            Err(RowBack { row, passes }) => Err(StoreBack {
                store: Store {
                    row,
                    compiled,
                    limit,
                    alloc,
                    wakes,
                },
                passes,
            }),
        }
    }

    /// Ends the store, and answers nothing. Takes no memory.
    pub fn discard(self, passes: Vec<Pass>)
        requires { All (λ pass. pass.held ≡ []) passes.items }
    {
        self.row.discard(passes);
    }

    /// All memory of a close but that of the row's own.
    fn closing_room(&self, passes: &[Pass]) -> Result<ClosingRoom, Memory>
        ensures sealed { IsSealed (spec_of self.now.row) }
        ensures instance { IfOk result (λ room. room.instance ≡ stripes_of self.now.row) }
        ensures journal { IfOk result (λ room. room.journal ≡ where_kept self.now.row.keeping (min (sum (made_by passes.now)) (2 ^ 64 - 1))) }
        ensures parts { IfOk result (λ room. (room.parts.items ≡ []) × (length passes.now ≤ vec_capacity room.parts)) }
        ensures made { IfOk result (λ room. room.made.items ≡ made_by passes.now) }
    {
        let stripes = stripe_total(self.compiled.accepted().spec());
        let made = counts(self.alloc, passes)?;
        Ok(ClosingRoom {
            instance: InstanceRoom::new(self.alloc, stripes)?,
            journal: self.journal_room(total(&made))?,
            parts: Vec::with_capacity(self.alloc, passes.len())?,
            made,
        })
    }

    /// Room for so many entries, where they are kept.
    fn journal_room(&self, entries: u64) -> Result<Option<Room>, Memory>
        ensures { IfOk result (λ room. room ≡ where_kept self.now.row.keeping entries) }
    {
        match self.row.keeping() {
            Keeping::Entries => Ok(Some(Room::for_entries(self.alloc, entries)?)),
            Keeping::Counts => Ok(None),
        }
    }
}

/// How many entries each pass committed.
fn counts(alloc: Global, passes: &[Pass]) -> Result<Vec<u64>, Memory>
    ensures { IfOk result (λ made. made.items ≡ made_by passes.now) }
{
    let mut made = Vec::with_capacity(alloc, passes.len())?;
    for pass in passes {
        made.push_reserved(pass.made());
    }
    Ok(made)
}

/// The sum of the counts, or the largest number where it is above that.
fn total(counts: &[u64]) -> u64
    ensures { result ≡ min (sum counts.now) (2 ^ 64 - 1) }
{
    let mut total = 0u64;
    for count in counts {
        total = total.saturating_add(*count);
    }
    total
}

/// The history whose entries the passes kept, where there is room for one.
pub(crate) fn journal_of(
    room: Option<Room>,
    parts: Vec<Part>,
    ended: Vec<EndedPass>,
) -> Option<Journal>
    requires parts { (parts.items ≡ []) × (length ended.items ≤ vec_capacity parts) }
    requires room { IfSome room (λ room. (history : List Entry) × AreKeptOf history ended.items × (length history ≡ room)) }
    ensures none { room ≡ None → result ≡ None }
    ensures some { IfSome room (λ _. (history : List Entry) → AreKeptOf history ended.items → result ≡ Some history) }
{
    match room {
        Some(room) => Some(merge(room, kept_parts(ended, parts))),
        None => None,
    }
}

/// What the passes kept, by pass.
fn kept_parts(ended: Vec<EndedPass>, mut parts: Vec<Part>) -> Vec<Part>
    requires { (parts.items ≡ []) × (length ended.items ≤ vec_capacity parts) }
    ensures { result.items ≡ filter_map (λ pass. pass.entries) ended.items }
{
    for pass in ended {
        if let Some(part) = pass.entries {
            parts.push_reserved(part);
        }
    }
    parts
}

//! How a store goes on that was closed.

ghost use Rattle.std.specs.Prelude.{◌≡◌, ◌≤◌, ◌^◌, [], IfErr, IfOk, IfSome, List, None, length, map, vec_capacity};
ghost use Rattle.std.specs.List.{AllByRecursion};
ghost use Rattle.std.specs.Option.{option_map};
ghost use Rattle.rc_rel.specs.Further.{Extends};
ghost use Rattle.rc_rel.specs.declared.entry.Entry.{Entry};
ghost use Rattle.rc_spec.specs.Stripes.{stripe_total};
ghost use Rattle.rc_row.specs.Passes.{compiled_of};
ghost use Rattle.rc_store.specs.Resumed.{AreFreePasses, AreKeptParts, HasResumed, HaveRoomFor, HavePasses};
ghost use Rattle.rc_store.specs.Resumed.{counted_passes, keeping_of, kept_pass, made_by_pass};

use crate::close::journal_of;
use crate::closed::Closed;
use crate::store::Store;
use crate::wakes::Wakes;
use rc_fragment::Keep;
use rc_instance::{Instance, InstanceRoom};
use rc_journal::{Journal, Part, Room, part_again};
use rc_maps::Seed;
use rc_plan::Compiled;
use rc_row::{EndedPass, EndedRow, Keeping, Pass, Row};
use rc_spec::stripe_total;
use rc_tuple::Memory;
use std::alloc::Global;

/// A closed store, and what it was to go on with, all as they were, since memory was wanted.
#[derive(Drop)]
pub struct ResumeBack<W> {
    /// The closed store.
    pub closed: Closed,
    /// The specification with its plans.
    pub compiled: Compiled,
    /// Who wakes.
    pub wakes: W,
}

/// The memory of a store that goes on, but that of the row's own.
#[derive(Drop)]
struct ResumingRoom {
    instance: InstanceRoom,
    fragments: Vec<Keep>,
    ended: Vec<EndedPass>,
    /// Where entries were kept, a part for each pass, with room for the entries that it made.
    parts: Vec<Part>,
    /// Where entries were kept, the memory in which they are a journal again, and that of the list of their parts.
    journal: Option<Room>,
    back: Vec<Part>,
}

impl<W: Wakes> Store<W> {
    /// Makes a store that goes on from a closed one. The specification is the closed store's, or that with further operations
    /// behind its own; plans, seed and limit may be others. The tuples are those of the closed store, and its history goes on:
    /// the passes are new ones, by number, at least as many as before and at most 255, each of which has made what the pass of
    /// its number had made, has seen the history and was told of it. Each may make so many entries in all, those of before
    /// among them. Where the closed store has its journal, each pass keeps its entries, those of before too, and else none
    /// does. The seed is that of hash tables that are made from now on.
    ///
    /// Where memory is wanted all comes back as it was. Costs the stripes, for each pass room for a fragment of each stripe,
    /// and where entries were kept a move of each; no row is copied, and no call is made again. (PLDI 2012, serializable
    /// transactions.)
    pub fn resume(
        alloc: Global,
        seed: Seed,
        closed: Closed,
        compiled: Compiled,
        passes: u32,
        limit: u64,
        wakes: W,
    ) -> Result<(Store<W>, Vec<Pass>), ResumeBack<W>>
        requires further { Extends closed.compiled.spec compiled.spec }
        requires passes { (length closed.made ≤ passes) × (passes ≤ 255) }
        requires limit { limit ≤ 2 ^ 48 }
        requires made { AllByRecursion (λ n. n ≤ limit) closed.made }
        ensures compiled { IfOk result (λ r. compiled_of r.0.row ≡ compiled) }
        ensures limit { IfOk result (λ r. r.0.limit ≡ limit) }
        ensures seed { IfOk result (λ r. r.0.row.key.seed ≡ seed) }
        ensures passes { IfOk result (λ r. r.0.row.key.passes ≡ passes) }
        ensures keeping { IfOk result (λ r. r.0.row.keeping ≡ keeping_of closed.journal) }
        ensures resumed { IfOk result (λ r. HasResumed closed r.0 r.1.items) }
        ensures free { IfOk result (λ r. AreFreePasses r.0 r.1.items) }
        ensures err { IfErr result (λ back. (back.closed ≡ closed) × (back.compiled ≡ compiled)) }
    {
        let Ok(room) = ResumingRoom::new(alloc, &closed, passes) else {
            return Err(ResumeBack {
                closed,
                compiled,
                wakes,
            });
        };
        let Closed {
            compiled: earlier,
            instance,
            journal,
            made,
            history,
        } = closed;
        let keeping = keeping_of(&journal);
        let left = EndedRow {
            fragments: instance.into_kept(room.fragments),
            passes: ended_passes(room.ended, room.parts, journal, &made, passes),
            history,
        };
        match Row::resume(alloc, seed, &compiled, keeping, left) {
            Ok((row, dealt)) => Ok((
                Store {
                    row,
                    compiled,
                    limit,
                    alloc,
                    wakes,
                },
                dealt,
            )),
            Err(back) => Err(ResumeBack {
                closed: Closed {
                    compiled: earlier,
                    instance: Instance::from_kept(room.instance, back.fragments),
                    journal: journal_of(room.journal, room.back, back.passes),
                    made,
                    history: back.history,
                },
                compiled,
                wakes,
            }),
        }
    }
}

impl ResumingRoom {
    /// The memory for what a closed store leaves to so many passes.
    fn new(alloc: Global, closed: &Closed, passes: u32) -> Result<ResumingRoom, Memory>
        ensures instance { IfOk result (λ room. room.instance ≡ stripe_total closed.now.compiled.spec) }
        ensures fragments { IfOk result (λ room. (room.fragments.items ≡ []) × (stripe_total closed.now.compiled.spec ≤ vec_capacity room.fragments)) }
        ensures ended { IfOk result (λ room. (room.ended.items ≡ []) × (passes ≤ vec_capacity room.ended)) }
        ensures parts { IfOk result (λ room. IfSome closed.now.journal (λ _. HaveRoomFor closed.now.made passes room.parts.items)) }
        ensures journal { IfOk result (λ room. room.journal ≡ option_map length closed.now.journal) }
        ensures back { IfOk result (λ room. (room.back.items ≡ []) × (passes ≤ vec_capacity room.back)) }
    {
        let stripes = stripe_total(closed.compiled.accepted().spec());
        let (journal, parts) = match &closed.journal {
            Some(journal) => (
                Some(Room::for_entries(alloc, journal.entries().len() as u64)?),
                rooms(alloc, &closed.made, passes)?,
            ),
            None => (None, Vec::new(alloc)),
        };
        Ok(ResumingRoom {
            instance: InstanceRoom::new(alloc, stripes)?,
            fragments: Vec::with_capacity(alloc, stripes as usize)?,
            ended: Vec::with_capacity(alloc, passes as usize)?,
            parts,
            journal,
            back: Vec::with_capacity(alloc, passes as usize)?,
        })
    }
}

/// A part for each of so many passes, without entries and with room for as many as the pass has made.
fn rooms(alloc: Global, made: &[u64], passes: u32) -> Result<Vec<Part>, Memory>
    ensures { IfOk result (λ parts. HaveRoomFor made.now passes parts.items) }
{
    let mut parts = Vec::with_capacity(alloc, passes as usize)?;
    for number in 0..passes {
        parts.push_reserved(Part::with_room(alloc, made_by_pass(made, number))?);
    }
    Ok(parts)
}

/// How many entries the pass of this number has made; a further pass has made none.
fn made_by_pass(made: &[u64], number: u32) -> u64
    ensures { result ≡ made_by_pass made.now number }
{
    made.get(number as usize).copied().unwrap_or(0)
}

/// How much passes keep that go on: their entries, where those were kept on which they go on.
fn keeping_of(journal: &Option<Journal>) -> Keeping
    ensures { result ≡ keeping_of journal.now }
{
    match journal {
        Some(_) => Keeping::Entries,
        None => Keeping::Counts,
    }
}

/// What so many passes leave, as far as there are, in room for them: how many entries each has made, with the entries where
/// there is a journal of them.
fn ended_passes(
    ended: Vec<EndedPass>,
    parts: Vec<Part>,
    journal: Option<Journal>,
    made: &[u64],
    passes: u32,
) -> Vec<EndedPass>
    requires room { (ended.items ≡ []) × (passes ≤ vec_capacity ended) }
    requires parts { IfSome journal (λ _. HaveRoomFor made.now passes parts.items) }
    requires made { IfSome journal (HavePasses made.now passes) }
    ensures counted { journal ≡ None → result.items ≡ counted_passes made.now passes }
    ensures kept { IfSome journal (λ history. AreKeptParts history passes result.items) }
{
    match journal {
        Some(journal) => with_entries(ended, part_again(journal, parts)),
        None => with_counts(ended, made, passes),
    }
}

/// What passes leave that kept these entries.
fn with_entries(mut ended: Vec<EndedPass>, parts: Vec<Part>) -> Vec<EndedPass>
    requires { (ended.items ≡ []) × (length parts.items ≤ vec_capacity ended) }
    ensures { result.items ≡ map kept_pass parts.items }
{
    for part in parts {
        let made = part.list().len() as u64;
        ended.push_reserved(EndedPass {
            made,
            entries: Some(part),
        });
    }
    ended
}

/// What so many passes leave that made so many entries and kept none.
fn with_counts(mut ended: Vec<EndedPass>, made: &[u64], passes: u32) -> Vec<EndedPass>
    requires { (ended.items ≡ []) × (passes ≤ vec_capacity ended) }
    ensures { result.items ≡ counted_passes made.now passes }
{
    for number in 0..passes {
        ended.push_reserved(EndedPass {
            made: made_by_pass(made, number),
            entries: None,
        });
    }
    ended
}

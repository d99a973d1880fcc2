//! What a run of a plan works with.

ghost use Rattle.std.specs.Prelude.{◌≡◌, ◌<◌, ◌≤◌, [], ◌∷◌, None, OnErr, OnOk};
ghost use Rattle.rc_bindings.specs.Bindings.{no_binding};
ghost use Rattle.rc_spec.specs.declared.call.Reply.TheVariants.{Rows};

use crate::stripe::ClassStripe;
use rc_bindings::Bindings;
use rc_spec::{Reply, RowList};
use rc_tuple::{Memory, Tuple};
use std::alloc::Global;
use std::mem;

/// What runs of plans work with, one run after another: the bindings, the tuple that an update found, and space that
/// statements use, for the bindings that a Read finds, for the values by which it looks up, for the stripes that a Lock
/// takes and those on which a tuple falls, for the classes whose rows an Apply changes, and for what is told. What a run
/// leaves in it the next one forgets; its memory the next one uses again.
#[derive(Debug, Drop)]
pub struct Workspace {
    pub(crate) bindings: Bindings,
    /// The tuple that an update is to take the place of, from CheckFound to Apply.
    pub(crate) old_tuple: Option<Tuple>,
    pub(crate) found: Bindings,
    pub(crate) finder: Finder,
    pub(crate) stripes: Vec<u32>,
    /// Stripes on which the call's tuple, or one that it changes, falls.
    pub(crate) class_stripes: Vec<ClassStripe>,
    /// The classes whose rows an Apply changes, with the stripes on which its tuple falls.
    pub(crate) places: Vec<ClassStripe>,
}

/// The values by which rows are looked up, those of rows that are found, and memory for what is told of them.
#[derive(Debug, Drop)]
pub(crate) struct Finder {
    pub(crate) source: Vec<u64>,
    pub(crate) key: Vec<u64>,
    pub(crate) rows: Vec<u64>,
    pub(crate) spare: Spare,
}

/// Memory of replies in whose places later ones were told, for those that follow.
#[derive(Debug, Drop)]
pub(crate) struct Spare {
    /// The next tuple that is found takes its memory. A run that stops behind that lets it go.
    pub(crate) tuple: Tuple,
    /// The next list of rows takes it. It has room for `MOST_KEPT` values at most.
    pub(crate) block: Vec<u64>,
}

/// The most values of a block that waits for the next list of rows, so that one long list doesn't hold its memory for good:
/// 8 kilobytes, in which most lists stand.
const MOST_KEPT: usize = 1024;

impl Spare {
    /// Tells the reply in the place of the one before it, of which it keeps the tuple, if it has one, or the block in which
    /// its rows stand, unless that is large. Takes no memory.
    // In its callers' places stands no more than what tells a reply in the place of one without memory.
    #[inline(always)]
    pub(crate) fn tell(&mut self, reply: &mut Reply, told: Reply)
        ensures { reply.new ≡ told }
    {
        if matches!(
            reply,
            Reply::Rows(_) | Reply::Removed(_) | Reply::Updated(_)
        ) {
            self.tell_in_memory(reply, told);
        } else {
            *reply = told;
        }
    }

    /// Does so in the place of a reply that may have memory.
    #[inline(never)]
    fn tell_in_memory(&mut self, reply: &mut Reply, told: Reply)
        ensures { reply.new ≡ told }
    {
        match reply {
            Reply::Removed(tuple) | Reply::Updated(tuple) => mem::swap(tuple, &mut self.tuple),
            Reply::Rows(rows) => {
                if let Some(block) = rows.take_block() {
                    self.keep(block);
                }
            }
            _ => {}
        }
        *reply = told;
    }

    /// Tells the one row in the place of the reply before it, and of a row of few values in its very place: most queries
    /// ask for such a row, one after another. Takes memory where the row has more than three values. Where memory is
    /// wanted the reply stays.
    #[inline(always)]
    pub(crate) fn tell_row(&mut self, reply: &mut Reply, row: &[u64]) -> Result<(), Memory>
        ensures told { OnOk result (reply.new ≡ Rows (row.now ∷ [])) }
        ensures kept { OnErr result (reply.new ≡ reply.old) }
    {
        if let Reply::Rows(rows) = reply {
            if rows.refill_row(row) {
                return Ok(());
            }
        }
        let told = RowList::of_row(*self.block.allocator(), row)?;
        self.tell(reply, Reply::Rows(told));
        Ok(())
    }

    /// Keeps the block for the next list of rows, unless it is large, or smaller than the one that is there.
    pub(crate) fn keep(&mut self, block: Vec<u64>) {
        if block.capacity() <= MOST_KEPT && block.capacity() > self.block.capacity() {
            self.block = block;
        }
    }
}

impl Workspace {
    /// For plans of any specification: of one column, until a run takes its specification's. Takes no memory.
    pub fn new(alloc: Global) -> Workspace {
        Workspace {
            bindings: Bindings::new(alloc, 1),
            old_tuple: None,
            found: Bindings::new(alloc, 1),
            finder: Finder {
                source: Vec::new(alloc),
                key: Vec::new(alloc),
                rows: Vec::new(alloc),
                spare: Spare {
                    tuple: Tuple::empty(alloc),
                    block: Vec::new(alloc),
                },
            },
            stripes: Vec::new(alloc),
            class_stripes: Vec::new(alloc),
            places: Vec::new(alloc),
        }
    }

    /// Where its memory is taken.
    pub(crate) fn alloc(&self) -> Global {
        *self.stripes.allocator()
    }

    /// Forgets the bindings and the old tuple, and takes so many columns.
    pub(crate) fn clear_for(&mut self, width: usize)
        requires some { 0 < width }
        requires few { width ≤ 32 }
        ensures bindings { self.new.bindings ≡ no_binding [] width }
        ensures old { self.new.old_tuple ≡ None }
        ensures found { self.new.found ≡ no_binding [] width }
    {
        self.bindings.reset(width);
        self.old_tuple = None;
        self.found.reset(width);
    }
}

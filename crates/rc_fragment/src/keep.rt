//! A fragment in a slot: its one owner has it by value, or its readers share it.

ghost use Rattle.std.specs.Prelude.{◌≡◌, IfErr, IfOk};
ghost use Rattle.std.specs.Arc.{arc_value};
ghost use Rattle.rc_fragment.specs.Keep.{IsAtRest, IsKeptFragment, at_rest, kept_rows};

use crate::Fragment;
use std::alloc::Global;
use std::marker::Model;
use std::sync::Arc;

/// Who has a kept fragment.
#[derive(Drop, Debug)]
enum Ownership {
    /// One owner, by value.
    Sole(Fragment),
    /// All who have the counted pointer.
    Shared(Arc<Fragment>),
}

/// A fragment in a slot, with no change pending (PLDI 2012: a shared lock lets its readers work on one
/// container). Its one owner has it by value and may change it, or readers share it behind a counted
/// pointer, std's `Arc`.
///
/// Contracts see the edge table and the rows, and not who else has the fragment. It may be moved to
/// other threads and read in them.
#[derive(Drop, Debug)]
pub struct Keep {
    ownership: Ownership,
}

impl Model for Keep {
    ghost use Rattle.rc_fragment.specs.Keep.{KeepsAtRest, KeptRows, kept_seen};

    ghost Value = { KeptRows };

    ghost view = { kept_seen };

    ghost invariant = { KeepsAtRest };
}

impl Keep {
    /// Keeps a fragment that has no change pending, by value. Promised room is given up. Takes no memory.
    pub fn of(mut fragment: Fragment) -> Keep
        requires { IsAtRest fragment }
        ensures { result ≡ kept_rows fragment }
    {
        fragment.disown();
        Keep {
            ownership: Ownership::Sole(fragment),
        }
    }

    /// The fragment, for a reader. Takes no memory.
    pub fn fragment(&self) -> &Fragment
        ensures { result.now ≡ at_rest self.now }
    {
        match &self.ownership {
            Ownership::Sole(fragment) => fragment,
            Ownership::Shared(pointer) => pointer,
        }
    }

    /// The same once more, for a reader, who may read it as long as it has it. Where that is refused
    /// the fragment comes back. Takes the memory of a pointer's target where the fragment lay by value,
    /// and else none; a pointer's count that is full refuses too. Costs no row.
    pub fn share(self, alloc: Global) -> Result<(Keep, Keep), Keep>
        ensures kept { IfOk result (λ both. both.0 ≡ self) }
        ensures shared { IfOk result (λ both. both.1 ≡ self) }
        ensures err { IfErr result (λ back. back ≡ self) }
    {
        match self.ownership {
            Ownership::Shared(pointer) => twice(pointer),
            Ownership::Sole(fragment) => match Arc::new(alloc, fragment) {
                Ok(pointer) => twice(pointer),
                Err(refused) => Err(Keep {
                    ownership: Ownership::Sole(refused.value),
                }),
            },
        }
    }

    /// The fragment by value, for a writer, where nobody else has it; it comes back where somebody may
    /// have it. (Who else has it no contract sees.) Takes no memory and costs no row.
    pub fn try_alone(self) -> Result<Fragment, Keep>
        ensures ok { IfOk result (λ fragment. fragment ≡ at_rest self) }
        ensures err { IfErr result (λ back. back ≡ self) }
    {
        match self.ownership {
            Ownership::Sole(fragment) => Ok(fragment),
            Ownership::Shared(pointer) => match Arc::try_unwrap(pointer) {
                Ok(fragment) => Ok(fragment),
                Err(pointer) => Err(Keep {
                    ownership: Ownership::Shared(pointer),
                }),
            },
        }
    }

    /// The fragment by value, for a writer: itself where `try_alone` gives it, at no cost, and else a copy
    /// of all its rows. Where memory for the copy is wanted the fragment comes
    /// back, shared as it was.
    pub fn alone(self, alloc: Global) -> Result<Fragment, Keep>
        ensures ok { IfOk result (λ fragment. fragment ≡ at_rest self) }
        ensures err { IfErr result (λ back. back ≡ self) }
    {
        match self.try_alone() {
            Ok(fragment) => Ok(fragment),
            Err(back) => match back.fragment().copy(alloc) {
                Ok(fragment) => Ok(fragment),
                Err(_) => Err(back),
            },
        }
    }
}

/// Both the fragment and a second pointer to it.
fn twice(pointer: Arc<Fragment>) -> Result<(Keep, Keep), Keep>
    requires { IsKeptFragment (arc_value pointer) }
    ensures kept { IfOk result (λ both. both.0 ≡ kept_rows (arc_value pointer)) }
    ensures shared { IfOk result (λ both. both.1 ≡ kept_rows (arc_value pointer)) }
    ensures err { IfErr result (λ back. back ≡ kept_rows (arc_value pointer)) }
{
    match Arc::try_clone(&pointer) {
        Ok(other) => Ok((
            Keep {
                ownership: Ownership::Shared(pointer),
            },
            Keep {
                ownership: Ownership::Shared(other),
            },
        )),
        Err(_) => Err(Keep {
            ownership: Ownership::Shared(pointer),
        }),
    }
}

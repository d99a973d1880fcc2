//! The memory of an instance.

ghost use Rattle.std.specs.Prelude.{◌≡◌, ◌≤◌, [], IfOk, length, map, vec_capacity};
ghost use Rattle.std.specs.List.{AllByRecursion};
ghost use Rattle.rc_fragment.specs.Keep.{IsAtRest, at_rest, kept_rows};

use rc_fragment::{CowFragment, Keep};
use rc_tuple::Memory;
use std::alloc::Global;
use std::marker::Model;

/// The memory of an instance, taken before its fragments are there. Contracts see it as the number of stripes for which it
/// is.
#[derive(Drop, Debug)]
pub struct InstanceRoom {
    pub(crate) fragments: Vec<CowFragment>,
    pub(crate) stripes: u32,
    pub(crate) alloc: Global,
}

impl Model for InstanceRoom {
    ghost use Rattle.std.specs.Prelude.{ℕ};

    ghost Value = { ℕ };

    ghost view = { λ a. a.stripes };

    ghost use Rattle.rc_instance.specs.Room.{IsRoom};

    ghost invariant = { IsRoom };
}

impl InstanceRoom {
    /// The room for so many stripes, at most 256.
    pub fn new(alloc: Global, stripes: u32) -> Result<InstanceRoom, Memory>
        requires { stripes ≤ 256 }
        ensures { IfOk result (λ room. room ≡ stripes) }
    {
        Ok(InstanceRoom {
            fragments: Vec::with_capacity(alloc, stripes as usize)?,
            stripes,
            alloc,
        })
    }
}

/// Puts kept fragments into room that was made before.
pub(crate) fn with_kept(mut fragments: Vec<CowFragment>, kept: Vec<Keep>) -> Vec<CowFragment>
    requires empty { fragments.items ≡ [] }
    requires room { length kept.items ≤ vec_capacity fragments }
    ensures { result.items ≡ map at_rest kept.items }
{
    for keep in kept {
        fragments.push_reserved(CowFragment::alone_or_kept(keep));
    }
    fragments
}

/// Puts fragments of which no change is pending into room for them, as slots keep them.
pub(crate) fn kept_in(fragments: Vec<CowFragment>, mut room: Vec<Keep>) -> Vec<Keep>
    requires rest { AllByRecursion IsAtRest fragments.items }
    requires room { (room.items ≡ []) × (length fragments.items ≤ vec_capacity room) }
    ensures { result.items ≡ map kept_rows fragments.items }
{
    for fragment in fragments {
        room.push_reserved(fragment.into_keep());
    }
    room
}

//! All fragments of an instance at once.

ghost use Rattle.std.specs.Prelude.{◌≡◌, ◌≤◌, None, IfOk, length};
ghost use Rattle.rc_tuple.specs.RisingSet.{In};
ghost use Rattle.rc_spec.specs.InRange.{AreBelow};
ghost use Rattle.rc_spec.specs.Stripes.{stripe_total};
ghost use Rattle.rc_fragment.specs.Fragment.{edge_table};
ghost use Rattle.rc_fragment.specs.FragmentRows.{FragmentRows, rolled_back, settled};
ghost use Rattle.rc_instance.specs.Fragments.{IsEmptyFragment, each_at};
ghost use Rattle.rc_instance.specs.Instance.{table_of_fragments};

use rc_fragment::{CowFragment, Fragment, Keep};
use rc_maps::Seed;
use rc_spec::{Accepted, Mode, stripe_total};
use rc_tuple::Memory;
use std::alloc::Global;

/// A fragment with no row for each stripe of an accepted specification.
pub(crate) fn empty_fragments(
    alloc: Global,
    seed: Seed,
    accepted: &Accepted,
) -> Result<Vec<CowFragment>, Memory>
    ensures stripes { IfOk result (λ fragments. length fragments.items ≡ stripe_total accepted.now) }
    ensures few { IfOk result (λ fragments. length fragments.items ≤ 256) }
    ensures table { IfOk result (λ fragments. table_of_fragments fragments.items ≡ edge_table accepted.now) }
    ensures empty { IfOk result (λ fragments. (f : FragmentRows) → In f fragments.items → IsEmptyFragment (edge_table accepted.now) f) }
{
    let mut fragments = Vec::new(alloc);
    for _ in 0..stripe_total(accepted.spec()) {
        let fragment = Fragment::empty(alloc, seed, accepted)?;
        fragments.push(CowFragment::alone_or_kept(Keep::of(fragment)))?;
    }
    Ok(fragments)
}

/// Makes the rows of these stripes' fragments count as taken. Costs their changes.
pub(crate) fn settle_held(fragments: &mut [CowFragment], stripes: &[u32])
    requires { AreBelow (length fragments.old) stripes.now }
    ensures { fragments.new ≡ each_at settled stripes.now fragments.old }
{
    for stripe in stripes {
        let held = &mut fragments[*stripe as usize];
        held.settle();
    }
}

/// Makes the rows of these stripes' fragments what they were as taken. Costs their changes.
pub(crate) fn revert_held(fragments: &mut [CowFragment], stripes: &[u32])
    requires { AreBelow (length fragments.old) stripes.now }
    ensures { fragments.new ≡ each_at rolled_back stripes.now fragments.old }
{
    for stripe in stripes {
        let fragment = &mut fragments[*stripe as usize];
        fragment.revert();
    }
}

/// Notes of these stripes that they are held no more.
pub(crate) fn free_held(held: &mut [Option<Mode>], stripes: &[u32])
    requires { AreBelow (length held.old) stripes.now }
    ensures { held.new ≡ each_at (λ _. None) stripes.now held.old }
{
    for stripe in stripes {
        held[*stripe as usize] = None;
    }
}

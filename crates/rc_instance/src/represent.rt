//! The relation that fragments represent.

ghost use Rattle.std.specs.Prelude.{◌≡◌, ◌<◌, length, IfOk};
ghost use Rattle.rc_tuple.specs.RisingSet.{In};
ghost use Rattle.rc_spec.specs.Fragments.{represented_by};
ghost use Rattle.rc_spec.specs.InRange.{IsInRange};
ghost use Rattle.rc_fragment.specs.Fragment.{AreAllRows, edge_table};
ghost use Rattle.rc_fragment.specs.FragmentRows.{FragmentRows};
ghost use Rattle.rc_instance.specs.Instance.{rows_of_fragments};

use crate::hash_join::join;
use rc_fragment::CowFragment;
use rc_maps::Seed;
use rc_spec::Spec;
use rc_tuple::{ColSet, Memory, Tuple, Tuples, Vals};
use std::alloc::Global;

/// The join of the rows of all edges over all fragments, begun with the one tuple without columns.
pub(crate) fn joined_rows(
    alloc: Global,
    seed: Seed,
    fragments: &[CowFragment],
    spec: &Spec,
) -> Result<Tuples, Memory>
    requires range { IsInRange spec.now }
    requires table { (f : FragmentRows) → In f fragments.now → f.table ≡ edge_table spec.now }
    ensures { IfOk result (λ tuples. tuples ≡ represented_by spec.now (rows_of_fragments fragments.now)) }
{
    let mut joined = Tuples::new(alloc);
    joined.push(Tuple::new(ColSet::empty(), Vals::new(alloc))?)?;
    for edge in 0..spec.edges.list().len() as u8 {
        let rows = rows_of_edge(alloc, fragments, edge)?;
        joined = join(alloc, seed, joined.list(), rows.list())?;
    }
    Ok(joined)
}

/// The rows of an edge in all fragments, in no particular order.
fn rows_of_edge(alloc: Global, fragments: &[CowFragment], edge: u8) -> Result<Tuples, Memory>
    requires { (f : FragmentRows) → In f fragments.now → edge < length f.table }
    ensures { IfOk result (λ rows. AreAllRows (rows_of_fragments fragments.now) edge rows) }
{
    let mut rows = Vec::new(alloc);
    for fragment in fragments {
        let mut more = fragment.fragment().rows(edge)?.into_vec();
        rows.append(&mut more)?;
    }
    Ok(Tuples::from_vec(rows))
}

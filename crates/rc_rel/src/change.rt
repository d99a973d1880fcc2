ghost use Rattle.std.specs.Prelude.{◌≡◌, IfOk, OnOk, OnErr};
ghost use Rattle.rc_tuple.specs.RisingSet.{IsPlace, put};
ghost use Rattle.rc_tuple.specs.Tuple.{cols_of, tuple_cmp};
ghost use Rattle.rc_rel.specs.Match.{IsFirstAgreeing, IsFirstMatch};
ghost use Rattle.rc_rel.specs.Over.{AreOver};

use rc_tuple::{ColSet, Memory, Tuple};
use std::alloc::Global;
use std::cmp::Ordering;

/// Where the tuple goes among rising tuples; `None` where it is there.
fn place_of(tuples: &[Tuple], tuple: &Tuple) -> Option<usize>
    ensures { IsPlace tuple_cmp tuple.now tuples.now result }
{
    for (at, other) in tuples.iter().enumerate() {
        match tuple.order(other) {
            Ordering::Less => return Some(at),
            Ordering::Equal => return None,
            Ordering::Greater => {}
        }
    }
    Some(tuples.len())
}

/// Puts the tuple at its place.
pub(crate) fn put_tuple(tuples: &mut Vec<Tuple>, tuple: Tuple) -> Result<(), Memory>
    ensures ok { OnOk result (tuples.new.items ≡ put tuple_cmp tuple tuples.old.items) }
    ensures err { OnErr result (tuples.new.items ≡ tuples.old.items) }
{
    if let Some(at) = place_of(tuples, &tuple) {
        tuples.insert(at, tuple)?;
    }
    Ok(())
}

/// The place of the first tuple that has the same values at the columns.
pub(crate) fn first_agreeing(tuples: &[Tuple], tuple: &Tuple, cols: ColSet) -> Option<usize>
    requires { AreOver (cols_of tuple.now) tuples.now }
    ensures { IsFirstAgreeing cols tuple.now tuples.now result }
{
    tuples.iter().position(|other| tuple.agrees_on(other, cols))
}

/// Another list of the same tuples.
pub(crate) fn copy_tuples(alloc: Global, tuples: &[Tuple]) -> Result<Vec<Tuple>, Memory>
    ensures { IfOk result (λ copy. copy.items ≡ tuples.now) }
{
    let mut copy = Vec::new(alloc);
    for tuple in tuples {
        copy.push(tuple.copy()?)?;
    }
    Ok(copy)
}

/// The place of the first tuple that matches.
pub(crate) fn first_match(tuples: &[Tuple], pattern: &Tuple) -> Option<usize>
    ensures { IsFirstMatch pattern.now tuples.now result }
{
    tuples.iter().position(|tuple| tuple.matches(pattern))
}

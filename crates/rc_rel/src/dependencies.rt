ghost use Rattle.std.specs.Prelude.{◌≡◌, ◌≤◌, true, length};
ghost use Rattle.std.specs.List.{list_any};
ghost use Rattle.rc_tuple.specs.RisingSet.{In, put};
ghost use Rattle.rc_tuple.specs.Tuple.{Pairs, agree_on, tuple_cmp, cols_of};
ghost use Rattle.rc_tuple.specs.Relation.{breaks, breaks_pair, breaks_with, Satisfies, SatisfiesOne};
ghost use Rattle.rc_spec.specs.Plain.{first_broken_dependency};
ghost use Rattle.rc_rel.specs.Over.{AreOver};

use rc_tuple::{ColSet, Dep, Tuple};

/// Whether some tuple has the same values at the columns.
pub(crate) fn any_agrees(tuples: &[Tuple], tuple: &Tuple, cols: ColSet) -> bool
    requires { AreOver (cols_of tuple.now) tuples.now }
    ensures { result ≡ list_any (agree_on cols tuple.now) tuples.now }
{
    tuples.iter().any(|other| tuple.agrees_on(other, cols))
}

/// Whether the two agree on the left side and differ on the right.
fn breaks_pair(dep: &Dep, tuple: &Tuple, other: &Tuple) -> bool
    requires { cols_of tuple.now ≡ cols_of other.now }
    ensures { result ≡ breaks_pair dep.now tuple.now other.now }
{
    tuple.agrees_on(other, dep.left) && !tuple.agrees_on(other, dep.right)
}

/// Whether the tuple breaks the dependency with some tuple of the list.
fn breaks_with(dep: &Dep, tuple: &Tuple, tuples: &[Tuple]) -> bool
    requires { AreOver (cols_of tuple.now) tuples.now }
    ensures { result ≡ breaks_with dep.now tuple.now tuples.now }
{
    tuples.iter().any(|other| breaks_pair(dep, tuple, other))
}

/// Whether some two tuples of the list break the dependency.
fn breaks(tuples: &[Tuple], dep: &Dep) -> bool
    requires { (t u : Pairs) → In t tuples.now → In u tuples.now → cols_of t ≡ cols_of u }
    ensures { result ≡ breaks tuples.now dep.now }
{
    tuples.iter().any(|tuple| breaks_with(dep, tuple, tuples))
}

/// Whether the tuples with one more break the dependency. Where they are known to satisfy it, only the
/// new tuple is compared with the others.
fn breaks_with_one_more(tuples: &[Tuple], tuple: &Tuple, dep: &Dep, is_satisfied: bool) -> bool
    requires over { AreOver (cols_of tuple.now) tuples.now }
    requires satisfied { is_satisfied ≡ true → SatisfiesOne tuples.now dep.now.left dep.now.right }
    ensures { result ≡ breaks (put tuple_cmp tuple.now tuples.now) dep.now }
{
    breaks_with(dep, tuple, tuples) || (!is_satisfied && breaks(tuples, dep))
}

/// The number, counted from 1, of the first dependency that the tuples with one more break.
pub(crate) fn first_broken_dependency(
    tuples: &[Tuple],
    tuple: &Tuple,
    deps: &[Dep],
    is_satisfied: bool,
) -> Option<u32>
    requires few { length deps.now ≤ 32 }
    requires over { AreOver (cols_of tuple.now) tuples.now }
    requires satisfied { is_satisfied ≡ true → Satisfies tuples.now deps.now }
    ensures { result ≡ first_broken_dependency 1 deps.now (put tuple_cmp tuple.now tuples.now) }
{
    for (at, dep) in deps.iter().enumerate() {
        if breaks_with_one_more(tuples, tuple, dep, is_satisfied) {
            return Some(at as u32 + 1);
        }
    }
    None
}

/// Whether both lists have the same dependencies.
pub(crate) fn same_deps(deps: &[Dep], others: &[Dep]) -> bool
    ensures { result ≡ true → deps.now ≡ others.now }
{
    if deps.len() != others.len() {
        return false;
    }
    for (at, dep) in deps.iter().enumerate() {
        if !dep.equals(&others[at]) {
            return false;
        }
    }
    true
}

ghost use Rattle.std.specs.Prelude.{◌↔◌, ◌⊎◌, ℕ, List, [], ◌∷◌, IsTrue};
ghost use Rattle.rc_tuple.specs.RisingSet.{In};
ghost use Rattle.rc_tuple.specs.ColSet.{IsColSet, Within, inter};
ghost use Rattle.rc_tuple.specs.Relation.{Follows};
ghost use Rattle.rc_tuple.specs.declared.dep.Dep.{Dep};

use rc_tuple::{ColSet, Dep};

/// Whether the left side of the dependency lies in the set.
#[tactic(auto, using(rc_tuple::specs::ColSetLaws::within_from_test, rc_tuple::specs::ColSetLaws::test_from_within))]
fn applies(dep: &Dep, set: ColSet) -> bool
    ensures { IsTrue result ↔ Within dep.now.left set }
{
    dep.left.within(set)
}

/// The set with the right side of each dependency that applies to it.
fn with_determined(deps: &[Dep], set: ColSet) -> ColSet
    ensures holds { Within set result }
    ensures follows { Follows deps.now set result }
    ensures takes { (d : Dep) → In d deps.now → Within d.left set → Within d.right result }
{
    let mut all = set;
    for dep in deps {
        if applies(dep, set) {
            all = all.union(dep.right);
        }
    }
    all
}

/// The closure of a column set: all columns that the dependencies determine from it. It is grown
/// by right sides until nothing is new (the textbook's attribute closure).
pub fn closure(deps: &[Dep], from: ColSet) -> ColSet
    ensures implied { (c : ℕ) → In c result ↔ Follows deps.now from (c ∷ []) }
    ensures implied_sets { (ys : List ℕ) → Within ys result ↔ Follows deps.now from ys }
    ensures follows { Follows deps.now from result }
    ensures holds { Within from result }
    ensures set { IsColSet result }
{
    let mut all = from;
    loop {
        let more = with_determined(deps, all);
        if more.within(all) {
            return more;
        }
        all = more;
    }
}

/// Whether the dependencies imply `x -> y`: tuples that agree on `x` agree on `y`, in each
/// relation that satisfies the dependencies.
pub fn determines(deps: &[Dep], x: ColSet, y: ColSet) -> bool
    ensures { IsTrue result ↔ Follows deps.now x y }
{
    y.within(closure(deps, x))
}

/// Whether `x` is a key of the columns `all` (a superkey, maybe with columns to spare): the
/// dependencies imply `x -> all`.
pub fn is_key(deps: &[Dep], all: ColSet, x: ColSet) -> bool
    ensures { IsTrue result ↔ Follows deps.now x all }
{
    determines(deps, x, all)
}

/// Whether the common columns of both sets determine one of them: then joining the projections onto
/// the two of a relation that satisfies the dependencies gives it back (Heath's theorem).
pub fn is_lossless(deps: &[Dep], left: ColSet, right: ColSet) -> bool
    ensures { IsTrue result ↔ (Follows deps.now (inter left right) left ⊎ Follows deps.now (inter left right) right) }
{
    let common = left.inter(right);
    determines(deps, common, left) || determines(deps, common, right)
}

//! Lock stripes, numbered class by class (PLDI 2012, lock striping).

ghost use Rattle.std.specs.Prelude.{◌≡◌, ◌<◌, ◌≤◌, length};
ghost use Rattle.std.specs.List.{sum_by};
ghost use Rattle.rc_spec.specs.Placement.{IsPlaced};
ghost use Rattle.rc_spec.specs.Stripes.{mix, hash_of, stripe_of, band_start, physical_stripe, stripe_total};

use crate::{Class, Spec};
use rc_tuple::{ColSet, Tuple};

/// The hash of the tuple's values at the columns, where a column that it hasn't counts as 0.
fn hash_of(cols: ColSet, tuple: &Tuple) -> u32
    ensures { result ≡ hash_of cols tuple.now }
{
    let mut hash = 7;
    for place in 0..cols.len() {
        if let Some(col) = cols.nth(place) {
            hash = mix(hash, tuple.get(col).unwrap_or(0));
        }
    }
    hash
}

/// The stripe of the class on which the tuple falls, from 0, where the class has a stripe. A column that the tuple hasn't
/// counts as 0.
pub fn stripe_of(class: &Class, tuple: &Tuple) -> u32
    requires some { 0 < class.now.stripes }
    ensures value { result ≡ stripe_of class.now tuple.now }
    ensures below { result < class.now.stripes }
{
    hash_of(class.cols, tuple) % class.stripes
}

/// The hash with one more value, of which the low 32 bits count. A tuple's hash begins with 7 and takes the values at its
/// columns in turn, so that a caller who keeps tuples in another form finds the same stripes.
#[tactic(auto, unfolding(crate::specs::Stripes::mix))]
pub fn mix(hash: u32, value: u64) -> u32
    ensures { result ≡ mix hash value }
{
    ((u64::from(hash) * 31 + value % (1 << 32)) % (1 << 32)) as u32
}

/// How many stripes the classes have.
fn total_of(classes: &[Class]) -> u32
    requires { sum_by (λ class. class.stripes) classes.now ≤ 256 }
    ensures { result ≡ sum_by (λ class. class.stripes) classes.now }
{
    let mut count = 0;
    for class in classes {
        count += class.stripes;
    }
    count
}

/// The number of the class's first stripe among all stripes. The classes have at most 256 stripes together.
pub fn band_start(spec: &Spec, class: u8) -> u32
    requires known { class < length spec.now.classes }
    requires few { stripe_total spec.now ≤ 256 }
    ensures { result ≡ band_start spec.now class }
{
    total_of(&spec.classes.list()[..class as usize])
}

/// How many stripes all classes have together, at most 256.
pub fn stripe_total(spec: &Spec) -> u32
    requires few { stripe_total spec.now ≤ 256 }
    ensures { result ≡ stripe_total spec.now }
{
    total_of(spec.classes.list())
}

/// The number, among all stripes, of the class's stripe on which the tuple falls.
pub fn physical_stripe(spec: &Spec, class: u8, tuple: &Tuple) -> u32
    requires known { class < length spec.now.classes }
    requires placed { IsPlaced spec.now }
    ensures value { result ≡ physical_stripe spec.now class tuple.now }
    ensures below { result < stripe_total spec.now }
{
    band_start(spec, class) + stripe_of(spec.class(class), tuple)
}

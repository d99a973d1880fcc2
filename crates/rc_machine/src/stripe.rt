//! The stripe of a class on which a tuple falls.

ghost use Rattle.std.specs.Prelude.{◌≡◌, ◌<◌, ◌%◌, IfOk, IfSome, length};
ghost use Rattle.rc_tuple.specs.RisingSet.{In};
ghost use Rattle.rc_tuple.specs.ColSet.{Within};
ghost use Rattle.rc_tuple.specs.Tuple.{cols_of};
ghost use Rattle.rc_spec.specs.Acceptance.{IsSealed};
ghost use Rattle.rc_spec.specs.Placement.{class_at};
ghost use Rattle.rc_spec.specs.Stripes.{hash_of, physical_stripe};
ghost use Rattle.rc_machine.specs.Stripes.{AreStripesOf};
ghost use Rattle.rc_machine.specs.declared.stripe.ClassStripe.{ClassStripe};

use rc_plan::Compiled;
use rc_spec::mix;
use rc_tuple::{ColSet, Memory, Tuple};

/// A class, and the number, among all stripes, of its stripe on which a tuple falls.
#[derive(Clone, Copy, Debug)]
pub(crate) struct ClassStripe {
    pub(crate) class: u8,
    pub(crate) stripe: u32,
}

/// The number, among all stripes, of the class's stripe on which the tuple falls, which has the class's columns. The list
/// has those that were found of the tuple before, and keeps this one: a class is hashed once.
// A call asks for the same stripe several times, of a list of one or two: what is found is told with no call.
#[inline(always)]
pub(crate) fn find_stripe(
    compiled: &Compiled,
    class: u8,
    tuple: &Tuple,
    stripes: &mut Vec<ClassStripe>,
) -> Result<u32, Memory>
    requires sealed { IsSealed compiled.now.spec }
    requires known { class < length compiled.now.spec.classes }
    requires within { Within (class_at compiled.now.spec class).cols (cols_of tuple.now) }
    requires stripes { AreStripesOf compiled.now.spec tuple.now stripes.old.items }
    ensures stripe { IfOk result (λ stripe. stripe ≡ physical_stripe compiled.now.spec class tuple.now) }
    ensures stripes { AreStripesOf compiled.now.spec tuple.now stripes.new.items }
{
    if let Some(stripe) = stripe_in(stripes, class) {
        return Ok(stripe);
    }
    add_stripe(compiled, class, tuple, stripes)
}

/// Does so for a class of which no stripe was found.
// It stands apart, so that what asks for a stripe stays small.
#[inline(never)]
fn add_stripe(
    compiled: &Compiled,
    class: u8,
    tuple: &Tuple,
    stripes: &mut Vec<ClassStripe>,
) -> Result<u32, Memory>
    requires sealed { IsSealed compiled.now.spec }
    requires known { class < length compiled.now.spec.classes }
    requires within { Within (class_at compiled.now.spec class).cols (cols_of tuple.now) }
    requires stripes { AreStripesOf compiled.now.spec tuple.now stripes.old.items }
    ensures stripe { IfOk result (λ stripe. stripe ≡ physical_stripe compiled.now.spec class tuple.now) }
    ensures stripes { AreStripesOf compiled.now.spec tuple.now stripes.new.items }
{
    let stripe = tuple_stripe(compiled, class, tuple);
    stripes.push(ClassStripe { class, stripe })?;
    Ok(stripe)
}

/// The stripe of the class that the list has, if it has one.
fn stripe_in(stripes: &[ClassStripe], class: u8) -> Option<u32>
    ensures { IfSome result (λ stripe. (s : ClassStripe) × In s stripes.now × (s.class ≡ class) × (s.stripe ≡ stripe)) }
{
    for found in stripes {
        if found.class == class {
            return Some(found.stripe);
        }
    }
    None
}

/// The number, among all stripes, of the class's stripe on which the tuple falls, which has the class's columns.
fn tuple_stripe(compiled: &Compiled, class: u8, tuple: &Tuple) -> u32
    requires sealed { IsSealed compiled.now.spec }
    requires known { class < length compiled.now.spec.classes }
    requires within { Within (class_at compiled.now.spec class).cols (cols_of tuple.now) }
    ensures { result ≡ physical_stripe compiled.now.spec class tuple.now }
{
    let named = compiled.class(class);
    compiled.band_start(class) + remainder(hash_of(named.cols, tuple), named.stripes)
}

/// The remainder of a hash by a number of stripes.
// Most classes have a power of two of them: there a mask tells it, and spares a division, which takes some twenty cycles.
#[inline(always)]
fn remainder(hash: u32, stripes: u32) -> u32
    requires { 0 < stripes }
    ensures { result ≡ hash % stripes }
{
    if stripes.is_power_of_two() {
        hash & (stripes - 1)
    } else {
        hash % stripes
    }
}

/// The hash of the tuple's values at columns that it has.
fn hash_of(cols: ColSet, tuple: &Tuple) -> u32
    requires { Within cols (cols_of tuple.now) }
    ensures { result ≡ hash_of cols tuple.now }
{
    // A call of a set tells the check what holds of every set.
    let _ = cols.within(cols);
    // One walk over the pairs, which rise as the columns do.
    let mut hash = 7;
    for pair in tuple.pairs() {
        if cols.has(pair.0) {
            hash = mix(hash, pair.1);
        }
    }
    hash
}

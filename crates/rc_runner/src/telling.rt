//! What the passes have seen of the history, told among them between two rounds.

ghost use Rattle.std.specs.Prelude.{◌≡◌, All};
ghost use Rattle.rc_runner.specs.Rounds.{HasHeard, HasHeardAll, HaveHeard, HaveLearnt};
ghost use Rattle.rc_store.specs.Store.{IsFree};
ghost use Rattle.rc_runner.specs.Running.{number_of, numbers_of, stand_of, stands_of};

use rc_row::Pass;
use rc_store::{Store, Waking};

/// A pass learns what another has seen.
fn hear(store: &Store<Waking>, pass: &mut Pass, other: &mut Pass)
    requires free { IsFree store.now pass.old }
    requires other_free { IsFree store.now other.old }
    ensures free { IsFree store.now pass.new }
    ensures number { number_of pass.new ≡ number_of pass.old }
    ensures heard { HasHeard (stand_of other.old) (stand_of pass.old) (stand_of pass.new) }
    ensures other { other.new ≡ other.old }
{
    let note = store.note(other);
    store.learn(pass, note);
}

/// A pass learns what each of the others has seen.
fn hear_all(store: &Store<Waking>, pass: &mut Pass, others: &mut [Pass])
    requires free { IsFree store.now pass.old }
    requires others_free { All (IsFree store.now) others.old }
    ensures free { IsFree store.now pass.new }
    ensures number { number_of pass.new ≡ number_of pass.old }
    ensures heard { HasHeardAll (stands_of others.old) (stand_of pass.old) (stand_of pass.new) }
    ensures others { others.new ≡ others.old }
{
    for other in others.iter_mut() {
        hear(store, pass, other);
    }
}

/// Each of the others learns what a pass has seen.
fn tell_all(store: &Store<Waking>, pass: &mut Pass, others: &mut [Pass])
    requires free { IsFree store.now pass.old }
    requires others_free { All (IsFree store.now) others.old }
    ensures pass { pass.new ≡ pass.old }
    ensures free { All (IsFree store.now) others.new }
    ensures numbers { numbers_of others.new ≡ numbers_of others.old }
    ensures heard { HaveHeard (stand_of pass.old) (stands_of others.old) (stands_of others.new) }
{
    for other in others.iter_mut() {
        hear(store, other, pass);
    }
}

/// All passes learn what any has seen: one learns from each other, and then all from it. Costs two notes a pass.
pub(crate) fn tell(store: &Store<Waking>, passes: &mut [Pass])
    requires { All (IsFree store.now) passes.old }
    ensures free { All (IsFree store.now) passes.new }
    ensures numbers { numbers_of passes.new ≡ numbers_of passes.old }
    ensures learnt { HaveLearnt (stands_of passes.old) (stands_of passes.new) }
{
    if let Some((first, others)) = passes.split_first_mut() {
        hear_all(store, first, others);
        tell_all(store, first, others);
    }
}

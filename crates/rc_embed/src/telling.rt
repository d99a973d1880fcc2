//! What sessions tell each other.

ghost use Rattle.std.specs.Prelude.{◌≡◌, ◌↔◌, Err, IfOk, OnErr, OnOk};
ghost use Rattle.rc_embed.specs.Session.{HasHeard, HasLearned, IsIdle, IsUnseenBy};
ghost use Rattle.rc_embed.specs.declared.fault.LearnFault.TheVariants as faults;

use crate::fault::{LearnFault, NotIdle};
use crate::session::{Session, State};

impl Session {
    /// Learns that another session of the store has seen so much: later calls stand after all of
    /// it. `Ok(length)`: this session has seen `length`, at least `seen`. Takes no memory. (PLDI
    /// 2012, serializable transactions.)
    ///
    /// `Prepared` comes exactly while a call or a group is prepared, or a group is open. `Unseen`:
    /// the session has looked, and the history has a length that is below `seen`. The length is
    /// that of a good history of that moment, which goes on from all that the session was told of;
    /// that what another session of the store told is never refused is how it is built.
    pub fn learn(&mut self, seen: u64) -> Result<u64, LearnFault>
        ensures store { self.new.store ≡ self.old.store }
        ensures learned { IfOk result (HasLearned self.old seen self.new) }
        ensures prepared { result ≡ Err faults.Prepared ↔ (IsIdle self.old.state → ⊥) }
        ensures same { result ≡ Err faults.Prepared → self.new ≡ self.old }
        ensures unseen { result ≡ Err faults.Unseen → IsUnseenBy self.old seen self.new }
    {
        let State::Idle(pass) = &mut self.state else {
            return Err(LearnFault::Prepared);
        };
        let length = self.shared.store.look(pass);
        if length < seen {
            return Err(LearnFault::Unseen);
        }
        Ok(length)
    }

    /// Tells another session of the store all that this one was told of the history: its own calls,
    /// and what others told it. The next receipt of the other goes on from it. Takes no memory.
    /// (PLDI 2012, serializable transactions.)
    ///
    /// It isn't done exactly while one of the two has a call or a group prepared, or a group open.
    pub fn tell(&mut self, other: &mut Session) -> Result<(), NotIdle>
        requires { other.old.store ≡ self.old.store }
        ensures same { self.new ≡ self.old }
        ensures store { other.new.store ≡ other.old.store }
        ensures heard { OnOk result (HasHeard self.old other.old other.new) }
        ensures refused { OnErr result ((IsIdle self.old.state → IsIdle other.old.state → ⊥) × (other.new ≡ other.old)) }
    {
        let State::Idle(pass) = &mut self.state else {
            return Err(NotIdle);
        };
        let State::Idle(told) = &mut other.state else {
            return Err(NotIdle);
        };
        let note = self.shared.store.note(pass);
        other.shared.store.learn(told, note);
        Ok(())
    }
}

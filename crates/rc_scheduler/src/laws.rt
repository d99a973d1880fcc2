//! Laws of the scheduler.

ghost use Rattle.rc_scheduler.specs.Left.{ChangesStand, ProcessesAreLeft, SpawnsStand};

/// A call that spawned a process stands among the entries of its session, as the insert of that
/// process that was answered `Inserted`. There it stays, and the store has it once the session is
/// taken back (`entries_stay` of `rc_embed`).
pub fn spawns_stand()
    ensures { SpawnsStand }
{}

/// A call that changed a process stands among them too, as the update to that process that was answered
/// `Updated`.
pub fn changes_stand()
    ensures { ChangesStand }
{}

/// A process that a call spawned, or to which one changed another, and that no later call of the history
/// took out or changed, is among those that are left. (PLDI 2012, serializable transactions.)
pub fn processes_are_left()
    ensures { ProcessesAreLeft }
{}

//! What is true of groups, as laws. The proofs stand in `specs/`.

ghost use Rattle.rc_multi.specs.Laws.{CallsThatFitHaveOperations, GroupLocksAreLocked, GroupLocksLieInside, GroupLocksRise, GroupLocksSuffice, GroupsHoldNoMore, GroupsKeepWhatTheyUse, GroupsLeaveWhatIsCommitted, GroupsMayCommit, OneCallKeepsWhatItTook};

/// Calls that fit have operations of the specification, which is all that `group_locks` and `uses` ask of a call.
pub fn calls_that_fit_have_operations()
    ensures { CallsThatFitHaveOperations }
{}

/// Whatever a plan of one of a group's calls may name, on any rows, is among the group's locks, in a mode that suffices.
/// (PLDI 2012, well-locked query plans.)
pub fn group_locks_suffice()
    ensures { GroupLocksSuffice }
{}

/// Each stripe that a group locks is of a class that the plan of one of its calls locks.
pub fn group_locks_are_locked()
    ensures { GroupLocksAreLocked }
{}

/// The locks of a group rise over all classes, so passes that take them one after another never wait for each other in a
/// circle. (PLDI 2012, lock order.)
pub fn group_locks_rise()
    ensures { GroupLocksRise }
{}

/// The locks of a group are of stripes that the specification has.
pub fn group_locks_lie_inside()
    ensures { GroupLocksLieInside }
{}

/// A pass whose holds have served some calls, and suffice for them, may commit them as one entry, its next, where it holds
/// no more than they need; of several calls it does where it holds the group's stripes. (PLDI 2012, serializable
/// transactions by two-phase locks.)
pub fn groups_may_commit()
    ensures commit { GroupsMayCommit }
    ensures no_more { GroupsHoldNoMore }
{}

/// What is held then, with its rows now, is what the commit of that entry leaves.
pub fn groups_leave_what_is_committed()
    ensures { GroupsLeaveWhatIsCommitted }
{}

/// A group that declared more stripes than it used keeps for its commit, of several calls, those of classes that their
/// plans lock, and of one call those that its plan took: it may commit what it made, and what it gives back before has the
/// rows as it took them.
pub fn groups_keep_what_they_use()
    ensures several { GroupsKeepWhatTheyUse }
    ensures one { OneCallKeepsWhatItTook }
{}

//! What is true of words, slots and views at every moment. The proofs stand in `specs/`.

ghost use Rattle.rc_row.specs.Laws.{HeldAreOfTheState, KnownAreBeginnings, NoCircleIsShown, OneStateIsShown, RefusalsHaveMoments, RowsAreRuns};
ghost use Rattle.rc_row.specs.EventLaws.{LocksAreEvents, StepsAreEvents};

/// Words, slots and views show one state of the core.
pub fn one_state_is_shown()
    ensures { OneStateIsShown }
{}

/// At no moment do passes of a row wait for each other in a circle. (PLDI 2012, lock order.)
pub fn no_circle_is_shown()
    ensures { NoCircleIsShown }
{}

/// The row is a run of the core: its events so far were each allowed in its turn, and lead to the state that is shown.
pub fn rows_are_runs()
    ensures { RowsAreRuns }
{}

/// Each refused step that a pass counts is a step of that run, with what the state of that moment had in the way.
pub fn refusals_have_moments()
    ensures { RefusalsHaveMoments }
{}

/// The fragments that a pass holds have, as it took them, the rows that the history leaves on their stripes.
pub fn held_are_of_the_state()
    ensures { HeldAreOfTheState }
{}

/// All that passes were told of are beginnings of the one history that is shown.
pub fn known_are_beginnings()
    ensures { KnownAreBeginnings }
{}

/// A step that changes a pass as an allowed event does is that event.
pub fn steps_are_events()
    ensures { StepsAreEvents }
{}

/// A step by which a pass has a stripe to write it, of which the word was 0, is the event Lock.
pub fn locks_are_events()
    ensures { LocksAreEvents }
{}

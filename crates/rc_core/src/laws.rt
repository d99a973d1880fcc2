//! What is proved of all lists of events. The proofs stand in `specs/`, where the row of locks cites them.

ghost use Rattle.rc_core.specs.Laws.{StartsAreGood, EventsKeepGoodness, FewAreCounted, HistoriesAreShort, NoCircleOfWaits, OwnAreOfHistory, PassesDetermineState, ReplaysAreSmall, RunsAreSound, SharesAreHome};
ghost use Rattle.rc_core.specs.Resumed.{EventsAddToHistory, GoesOnWithMore, ResumedAreGood, ResumedRunsAreSound, StartsAreResumed};

/// At the start nobody holds anything, and the state is good.
pub fn starts_are_good()
    ensures { StartsAreGood }
{}

/// Every allowed event leads from a good state to a good one. (PLDI 2012, two-phase locking.)
pub fn events_keep_goodness()
    ensures { EventsKeepGoodness }
{}

/// After every list of allowed events the history is legal, each of its states satisfies the dependencies, and stripes
/// that nobody writes have the rows that the history leaves on them.
pub fn runs_are_sound()
    ensures { RunsAreSound }
{}

/// No good state has passes that wait for each other in a circle, since each wants a stripe above all that it holds.
/// (PLDI 2012, lock order.)
pub fn no_circle_of_waits()
    ensures { NoCircleOfWaits }
{}

/// What a pass shares has the rows that lie at home.
pub fn shares_are_home()
    ensures { SharesAreHome }
{}

/// The own entries of a pass, without their places, are those of the history.
pub fn own_are_of_history()
    ensures { OwnAreOfHistory }
{}

/// Two good states of one specification with the same passes are one: stripes and history follow from the passes.
pub fn passes_determine_state()
    ensures { PassesDetermineState }
{}

/// In a good state a history has at most 255 * 2^48 entries, the relation after it fewer than 2^60 tuples, and at most
/// 255 passes are counted in at a stripe.
pub fn states_are_small()
    ensures short { HistoriesAreShort }
    ensures small { ReplaysAreSmall }
    ensures few { FewAreCounted }
{}

/// A state that goes on from a good history is good, and the start is one that goes on from none. After every list of
/// allowed events from it all is sound, as after `runs_are_sound`, and the history begins with that history. What may go
/// on may do so over a specification with further operations.
pub fn histories_go_on()
    ensures good { ResumedAreGood }
    ensures start { StartsAreResumed }
    ensures sound { ResumedRunsAreSound }
    ensures begins { EventsAddToHistory }
    ensures more { GoesOnWithMore }
{}

//! What is proved of stores that are opened by a text, of their sessions and of what they leave;
//! and that handles may go to other threads.

ghost use Rattle.std.specs.Prelude.{◌≡◌};
ghost use Rattle.rc_embed.specs.DeclaringLaws.{DeclaredCallsAreCovered};
ghost use Rattle.rc_embed.specs.EntriesLaws.{CallsKeepPasses, CallsStand, CancelsKeepPasses};
ghost use Rattle.rc_embed.specs.EntriesLaws.{CommitsKeepPasses, CommitsStand, DealingKeepsEntries};
ghost use Rattle.rc_embed.specs.EntriesLaws.{FaultsKeepPasses, LooksKeepPasses, PicksKeepPasses};
ghost use Rattle.rc_embed.specs.EntriesLaws.{PassesAreHandedOn, PreparingKeepsPasses, TakingBackKeepsEntries};
ghost use Rattle.rc_embed.specs.OpenGroupLaws.{NoDeclaredCallIsUncovered, OpenCallsKeepPasses};
ghost use Rattle.rc_embed.specs.OpenGroupLaws.{OpenGroupsKeepTheirLocks, OpenRepliesArePlain};
ghost use Rattle.rc_embed.specs.OpenGroupLaws.{OpeningKeepsPasses};
ghost use Rattle.rc_embed.specs.OpenedLaws.{HistoriesAreOfTheText, OpenedCalls, OpenedDeclared};
ghost use Rattle.rc_embed.specs.OpenedLaws.{OpenedFits, OpenedOperations, OpenedPlain};
ghost use Rattle.rc_embed.specs.OpenedLaws.{OpenedPlans, OpenedRows, OpenedSchema};
ghost use Rattle.rc_embed.specs.OutsideLaws.{AllAreInside, DealtGoOutside, NoneOutsideAgain};
ghost use Rattle.rc_embed.specs.OutsideLaws.{NoneOutsideAtFirst};
ghost use Rattle.rc_embed.specs.OutsideLaws.{SomeOutsideLeaveRoom, TakenBackComeInside};
ghost use Rattle.rc_embed.specs.ReceiptsOfText.{ReceiptsAreOfTheText};
ghost use Rattle.rc_embed.specs.ResumedLaws.{ClosedHistoriesGoOn, ReceiptsGoOnFromClosed};
ghost use Rattle.rc_embed.specs.ToldLaws.{ClosedIsOfTheText, CommittedRepliesArePlain};
ghost use Rattle.rc_embed.specs.ToldLaws.{EntriesArePlain, HistoriesOfTextAreOne};
ghost use Rattle.rc_embed.specs.ToldLaws.{ToldRepliesArePlain};

use crate::opening::OpenStore;
use crate::session::Session;

/// A store of texts, whether it was opened by them or goes on from a closed one (`IsStoreOfTexts`, which is all that these laws,
/// and those below of texts, want of it), has the calls and the histories of the specification that its text gives, with the
/// most rows of a reply that were asked for: an operation's number and values make one call by
/// both, it fits both alike, has the same reply and leaves the same relation on each relation; so a
/// good history of the store is one of the text's specification. So it is whichever plans are written;
/// where none is, each operation has its planned plan. Where a text of shapes gives further operations,
/// the specification is that of the text with them behind its own, whose numbers don't change; without
/// one it is that of the text, and names are kept apart. (PLDI 2011, a decomposition represents a relation.)
pub fn opened_stores_are_of_the_text()
    ensures rows { OpenedRows }
    ensures schema { OpenedSchema }
    ensures calls { OpenedCalls }
    ensures fits { OpenedFits }
    ensures plain { OpenedPlain }
    ensures histories { HistoriesAreOfTheText }
    ensures plans { OpenedPlans }
    ensures operations { OpenedOperations }
    ensures declared { OpenedDeclared }
{}

/// A receipt means one history, of a call or of a group, whether the store is ever closed or not:
/// behind its calls stands one history, good for the specification that the text gives, of as many
/// entries as the place says, with all of its session's earlier ones, which goes on from all that the
/// session was told of; and the replies are in turn the plain relation's after it. (PLDI 2012,
/// serializable transactions.)
pub fn receipts_are_of_the_text()
    ensures { ReceiptsAreOfTheText }
{}

/// A store that was opened by a text, or goes on by one, and is closed, leaves one history of the text's
/// specification, in which the entries of each pass are its own, and the rows of the relation that
/// this history leaves; there is no other such history. (PLDI 2012, serializable transactions.)
pub fn closed_stores_are_of_the_text()
    ensures history { ClosedIsOfTheText }
    ensures one { HistoriesOfTextAreOne }
{}

/// The one history goes on where a closed store does, by the specification that the later texts give: behind the calls of each
/// receipt stands a history that begins with that which was closed, and is good for that specification, where the receipt's pass
/// knows what one of the passes knew that the store began with (as those of a session do that began with it: `entries_stay`);
/// and where the store is closed again, the one history that it leaves begins with that which was closed before. (PLDI 2012,
/// serializable transactions.)
pub fn resumed_stores_go_on()
    ensures receipts { ReceiptsGoOnFromClosed }
    ensures closed { ClosedHistoriesGoOn }
{}

/// Calls that a session has made as one, and those that it has prepared, or made of an open group, and
/// committed, stand at their position among the entries of the session's pass, with the replies that the
/// session tells.
pub fn calls_stand()
    ensures calls { CallsStand }
    ensures commits { CommitsStand }
{}

/// A session keeps its pass, the entries of that, and all that it was told of, through all that it does:
/// calls, prepared ones that are committed or cancelled, looks at the history, picks of a reply, and calls
/// that are refused; and so of groups, also of those that are opened, and of their calls. So its later
/// passes know what its first one knew. One that is taken back gives its pass to the store, with its entries
/// and all that it was told of, and the store keeps its passes as they are until a session begins with one.
pub fn entries_stay()
    ensures calls { CallsKeepPasses }
    ensures preparing { PreparingKeepsPasses }
    ensures opening { OpeningKeepsPasses }
    ensures open_calls { OpenCallsKeepPasses }
    ensures commits { CommitsKeepPasses }
    ensures cancels { CancelsKeepPasses }
    ensures looks { LooksKeepPasses }
    ensures picks { PicksKeepPasses }
    ensures faults { FaultsKeepPasses }
    ensures taking_back { TakingBackKeepsEntries }
    ensures dealing { DealingKeepsEntries }
    ensures passes { PassesAreHandedOn }
{}

/// A new store has all of its passes, and so has one that goes on; one goes outside with each session that
/// begins, and comes back with that session. So a store has all of its passes exactly where each session that began
/// has been taken back, and where one hasn't, the store has room for it.
pub fn passes_come_back()
    ensures first { NoneOutsideAtFirst }
    ensures again { NoneOutsideAgain }
    ensures dealt { DealtGoOutside }
    ensures taken_back { TakenBackComeInside }
    ensures all { AllAreInside }
    ensures room { SomeOutsideLeaveRoom }
{}

/// The replies that a session was told, of a call or of a group whose entry has come back to the store
/// that is closed, are in turn the plain relation's, by the specification that the text gives, from
/// the entry's place of the one history that the closed store leaves; and the last call leaves the
/// relation of the next place. So it is of an open group's calls, in the order in which they were made,
/// and of each entry of the passes. (PLDI 2012, serializable transactions; PLDI 2011, the relation's
/// operations.)
pub fn told_replies_are_plain()
    ensures entries { EntriesArePlain }
    ensures calls { ToldRepliesArePlain }
    ensures commits { CommittedRepliesArePlain }
    ensures open_calls { OpenRepliesArePlain }
{}

/// What is declared of a group suffices for the calls that are declared: whatever the plan of such a call
/// may want, on any rows, is among the stripes that the group takes, in a mode that suffices. The group
/// has the locks of these, whatever calls it has made, and so none of the calls that it declared is ever
/// answered `Uncovered`. (PLDI 2012, well-locked query plans.)
pub fn declared_calls_are_covered()
    ensures covered { DeclaredCallsAreCovered }
    ensures locks { OpenGroupsKeepTheirLocks }
    ensures answered { NoDeclaredCallIsUncovered }
{}

/// What may go to another thread.
fn sent<T: Send>(value: T) -> T
    ensures { result ≡ value }
{
    value
}

/// A session may go to another thread.
pub fn sessions_are_send(session: Session) -> Session
    ensures { result ≡ session }
{
    sent(session)
}

/// An open store may go to another thread.
pub fn stores_are_send(store: OpenStore) -> OpenStore
    ensures { result ≡ store }
{
    sent(store)
}

ghost use Rattle.rc_rel.specs.Further.{HistoriesStay};
ghost use Rattle.rc_rel.specs.HistoryLaws.{StatesSatisfy, StatesAreRelations};
ghost use Rattle.rc_rel.specs.OwnLaws.{NumberedGoesOn, OwnAreFew, OwnEntriesAreTheHistory, OwnEntriesStand, PlacedAreOwn, ReplaysAreFew};
ghost use Rattle.rc_rel.specs.PlaceLaws.{PlainAtEachPlace};
ghost use Rattle.rc_rel.specs.SharesLaws.{SharesAddUp};

/// Every state of a history satisfies the dependencies of its specification.
pub fn states_satisfy()
    ensures { StatesSatisfy }
{}

/// Every state of a history whose calls fit is a set of tuples over all columns of its specification.
pub fn states_are_relations()
    ensures { StatesAreRelations }
{}

/// In a legal history an entry of one call has the reply of the plain relation at its place, and leaves that of the next.
/// (PLDI 2011, the relation's operations.)
pub fn plain_at_each_place()
    ensures { PlainAtEachPlace }
{}

/// A numbered history stays so with one more entry that has its pass's next number.
pub fn numbered_goes_on()
    ensures { NumberedGoesOn }
{}

/// Without their places, the entries that a pass has with their places are its own entries.
pub fn placed_are_own()
    ensures { PlacedAreOwn }
{}

/// An entry is one of a pass's own with its place exactly where the history has it at that place and it is of that pass.
pub fn own_entries_stand()
    ensures { OwnEntriesStand }
{}

/// A history is determined by the own entries of all passes, with their places.
pub fn own_entries_are_the_history()
    ensures { OwnEntriesAreTheHistory }
{}

/// A pass has at most as many entries as the history, and a replay at most as many tuples as the history has steps.
pub fn histories_are_few()
    ensures own { OwnAreFew }
    ensures replay { ReplaysAreFew }
{}

/// The own entries of some passes are together as many as those of a history that has no other pass.
pub fn shares_add_up()
    ensures { SharesAddUp }
{}

/// Where a specification gets further operations behind its own, each history of calls that fit stays so: it is legal where it
/// was, and leaves the same relation, with the same fragments on the same stripes.
pub fn histories_stay()
    ensures { HistoriesStay }
{}

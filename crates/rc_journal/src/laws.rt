ghost use Rattle.rc_journal.specs.HistoryWith.{OwnMakeTheHistory};
ghost use Rattle.rc_journal.specs.OwnPlaces.{MergedPartsAreOwn, OwnPartsAreOfHistory, OwnPlacesAreNumbers};

/// The places of the own entries of all passes of a history are the numbers below its length, each once.
pub fn own_places_are_numbers()
    ensures { OwnPlacesAreNumbers }
{}

/// Parts that are each of one pass, in the order of their places, are the own entries of the journal into which they are merged.
pub fn merged_parts_are_own()
    ensures { MergedPartsAreOwn }
{}

/// Parts that each have the own entries of the pass with their number are those of the history, where it has no other pass.
pub fn own_parts_are_of_history()
    ensures { OwnPartsAreOfHistory }
{}

/// The own entries of a history's passes, with their places, make the history.
pub fn own_entries_make_the_history()
    ensures { OwnMakeTheHistory }
{}

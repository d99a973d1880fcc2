//! What receipts mean, as laws. The proofs stand in `specs/`.

ghost use Rattle.rc_store.specs.Headline.{ReceiptsMeanOneHistory};
ghost use Rattle.rc_store.specs.Resumed.{ResumedHistoriesAreOne};
ghost use Rattle.rc_store.specs.Receipts.{ReceiptsAreOfTheClosed, ReceiptsArePlain, ReceiptsGoOn, TellingGoesOn};

/// THE HEADLINE OF A STORE: behind each receipt stands one good history, whose next call is the receipt's, with the plain
/// relation's reply at the receipt's place; it goes on from all that the pass was told of; and where the store is closed, it
/// begins the one history of all calls. (PLDI 2012, serializable transactions.)
pub fn receipts_mean_one_history()
    ensures { ReceiptsMeanOneHistory }
{}

/// A receipt's reply is the plain relation's after the calls before its place, the relation goes on as the plain one does, and
/// what was held at the commit are exactly the stripes that the call touches there, each in its mode.
pub fn receipts_are_plain()
    ensures { ReceiptsArePlain }
{}

/// A receipt goes on from every receipt that its pass was told of.
pub fn receipts_go_on()
    ensures { ReceiptsGoOn }
{}

/// A pass was told of its own receipts and of what it looked at, learns what a note tells, and stays told.
pub fn telling_goes_on()
    ensures { TellingGoesOn }
{}

/// Where a store is closed, each receipt that a pass of it was told of stands in the one history, at its place.
pub fn receipts_are_of_the_closed()
    ensures { ReceiptsAreOfTheClosed }
{}

/// The one history goes on where a closed store does: it begins with each receipt of the closed store that a pass was told
/// of; each receipt of the later store stands behind it, of a pass that knows what one that was handed out knew; and what the
/// later store leaves begins with it.
pub fn resumed_histories_are_one()
    ensures { ResumedHistoriesAreOne }
{}

//! What the functions over frames answer: 0, or the number of a fault. `bindings/c/relc.h` has the
//! same numbers.

/// It is done.
pub const DONE: u32 = 0;
/// Memory was wanted.
pub const MEMORY: u32 = 1;
/// Something stood in the way of a stripe.
pub const BUSY: u32 = 2;
/// The session has made as many calls as its store lets it.
pub const SPENT: u32 = 3;
/// No operation has the number, or the name, or asks as the line does.
pub const OPERATION: u32 = 4;
/// The operation takes another number of values.
pub const VALUE_COUNT: u32 = 5;
/// A call is prepared, or a group is open.
pub const PREPARED: u32 = 6;
/// There is nothing to commit, or to cancel.
pub const NOT_PREPARED: u32 = 7;
/// The reply has no such row, or the frame no room for it.
pub const NO_ROW: u32 = 8;
/// The options are out of their ranges.
pub const OPTIONS: u32 = 9;
/// One of the texts is longer than 2^24 bytes.
pub const TOO_LONG: u32 = 10;
/// The text breaks a line rule.
pub const LINE: u32 = 11;
/// The specification breaks a rule of acceptance.
pub const RULE: u32 = 12;
/// No pass is left.
pub const NONE_LEFT: u32 = 13;
/// The session has seen less than what was to be learned.
pub const UNSEEN: u32 = 14;
/// No call, or more than there may be in a group.
pub const COUNT: u32 = 15;
/// No group is open.
pub const NOT_OPEN: u32 = 16;
/// What an open group declared doesn't suffice for the call.
pub const UNCOVERED: u32 = 17;
/// An open group had no call to commit, and is over.
pub const NO_CALL: u32 = 18;
/// The text of the plans breaks a rule of their lines.
pub const PLAN_LINE: u32 = 19;
/// A plan that is written breaks a rule of plans.
pub const PLAN: u32 = 20;
/// The text of the shapes breaks a line rule.
pub const SHAPE_LINE: u32 = 21;
/// Fewer sessions are asked for than the closed store had.
pub const SESSIONS: u32 = 22;
/// A session of the closed store had made more calls than the limit.
pub const LIMIT: u32 = 23;
/// The texts don't give the closed store's specification, nor that with further operations behind its own.
pub const OTHER: u32 = 24;
/// Some session of the store isn't given back.
pub const OUTSIDE: u32 = 25;
/// All are, and somebody holds yet what the store shared with them, which is built never to come.
pub const SHARED: u32 = 26;

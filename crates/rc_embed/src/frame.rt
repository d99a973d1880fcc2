//! Frames, by which callers in other languages ask and are told.

ghost use Rattle.std.specs.Prelude.{◌≡◌, length, map};
ghost use Rattle.rc_embed.specs.Frames.{AnswersBegin, AnswersBeginGroup, AnswersCall, AnswersCancel};
ghost use Rattle.rc_embed.specs.Frames.{AnswersCommit, AnswersGroup, AnswersLearn, AnswersPick};
ghost use Rattle.rc_embed.specs.Frames.{AnswersRow, AnswersRows, call_code, kind_code, number_in};
ghost use Rattle.rc_embed.specs.Frames.{with_fault, with_fault_first, with_picked_reply, with_place};
ghost use Rattle.rc_embed.specs.Frames.{with_replies, with_reply};
ghost use Rattle.rc_embed.specs.OpenGroupFrames.{AnswersCallOpen, AnswersOpenGroup, open_call_code};
ghost use Rattle.rc_embed.specs.Session.{replies_of, reply_of};

use crate::codes::{
    BUSY, COUNT, DONE, MEMORY, NO_CALL, NO_ROW, NOT_OPEN, NOT_PREPARED, OPERATION, PREPARED, SPENT,
    UNCOVERED, UNSEEN, VALUE_COUNT,
};
use crate::fault::{CallFault, LearnFault, NotPrepared, OpenCallFault};
use crate::group::Asks;
use crate::session::Session;
use rc_spec::{Found, Reply};
use rc_store::Position;

/// The most values of a call: of a query those of its pattern, and a lower and an upper bound of
/// each range column, which are 32 columns at most.
pub const MAX_VALUES: usize = 64;

/// The most values of a row: one of each column.
pub const MAX_CELLS: usize = 32;

/// What a caller asks of a session, and what it is told. The caller owns it, and may use it again
/// and again.
#[repr(C)]
#[derive(Drop)]
pub struct Frame {
    /// Asked: the number of the operation.
    pub op: u32,
    /// Asked: how many values there are.
    pub count: u32,
    /// Asked: the values, in the order of the operation's columns, with two for a range column.
    pub values: [u64; MAX_VALUES],
    /// Told: the kind of the reply.
    pub kind: u32,
    /// Told with a busy stripe: what was found there.
    pub found: u32,
    /// Told with a busy stripe: its number, over all classes.
    pub stripe: u32,
    /// Told with a busy stripe: the number of the pass that was found, or how many readers.
    pub who: u32,
    /// Told: the number of rows, or of the dependency that would be broken.
    pub number: u64,
    /// Told of a call that was made: its place in the history.
    pub place: u64,
    /// Told of a call that was made: its number among the calls of its session.
    pub nth: u64,
    /// Asked, and told: the length of a history that a session has seen.
    pub seen: u64,
    /// Asked: which row of the reply; or whose reply is to be picked.
    pub row: u64,
    /// Told: how many values the row has.
    pub width: u64,
    /// Told: the row's values.
    pub cells: [u64; MAX_CELLS],
}

/// The most values of several rows that are told at once.
pub const MAX_PAGE: usize = 1024;

/// Several rows of a reply at once. The caller owns it, and may use it again and again.
#[repr(C)]
#[derive(Drop)]
pub struct Page {
    /// Asked: the first of the rows.
    pub row: u64,
    /// Told: how many rows were copied.
    pub rows: u64,
    /// Told: the rows' values, one row behind the other.
    pub cells: [u64; MAX_PAGE],
}

/// The code of a fault.
fn call_code(fault: CallFault) -> u32
    ensures { result ≡ call_code fault }
{
    match fault {
        CallFault::Memory => MEMORY,
        CallFault::Busy {
            stripe: _,
            found: _,
        } => BUSY,
        CallFault::Spent => SPENT,
        CallFault::UnknownOperation => OPERATION,
        CallFault::Values => VALUE_COUNT,
        CallFault::Prepared => PREPARED,
        CallFault::Count => COUNT,
    }
}

/// The code of a fault of a call of an open group.
fn open_call_code(fault: OpenCallFault) -> u32
    ensures { result ≡ open_call_code fault }
{
    match fault {
        OpenCallFault::NotOpen => NOT_OPEN,
        OpenCallFault::UnknownOperation => OPERATION,
        OpenCallFault::Values => VALUE_COUNT,
        OpenCallFault::Full => COUNT,
        OpenCallFault::Uncovered => UNCOVERED,
        OpenCallFault::Memory => MEMORY,
    }
}

/// The code of a reply's kind.
fn kind_of(reply: &Reply) -> u32
    ensures { result ≡ kind_code reply.now }
{
    match reply {
        Reply::Rows(_) => 0,
        Reply::Many(_) => 1,
        Reply::Inserted => 2,
        Reply::Present => 3,
        Reply::Conflict(_) => 4,
        Reply::Removed(_) => 5,
        Reply::Absent => 6,
        Reply::Updated(_) => 7,
    }
}

/// The number of a reply's rows, or of the dependency that would be broken.
fn number_of(reply: &Reply) -> u64
    ensures { result ≡ number_in reply.now }
{
    match reply {
        Reply::Rows(rows) => rows.len() as u64,
        Reply::Many(number) => *number,
        Reply::Conflict(number) => *number as u64,
        Reply::Removed(_) | Reply::Updated(_) => 1,
        Reply::Inserted | Reply::Present | Reply::Absent => 0,
    }
}

impl Asks for Frame {
    ghost use Rattle.rc_embed.specs.Asking.{asked_by};

    ghost asked = { asked_by };

    fn op(&self) -> u32 {
        self.op
    }

    fn count(&self) -> usize {
        self.count as usize
    }

    fn values(&self) -> &[u64] {
        &self.values[..self.count as usize]
    }
}

impl Frame {
    /// Tells the kind and the number of a reply.
    fn tell_reply(&mut self, reply: &Reply)
        ensures { self.new ≡ with_reply reply.now self.old }
    {
        self.kind = kind_of(reply);
        self.number = number_of(reply);
    }

    /// Tells where a call stands.
    fn tell_place(&mut self, at: Position)
        ensures { self.new ≡ with_place at self.old }
    {
        self.place = at.place;
        self.nth = at.nth;
    }

    /// Tells what stood in the way, where something did, and answers the code.
    fn tell_fault(&mut self, fault: CallFault) -> u32
        ensures frame { self.new ≡ with_fault fault self.old }
        ensures code { result ≡ call_code fault }
    {
        if let CallFault::Busy { stripe, found } = fault {
            self.stripe = stripe;
            match found {
                Found::Pass(pass) => {
                    self.found = 0;
                    self.who = pass;
                }
                Found::Readers(readers) => {
                    self.found = 1;
                    self.who = readers;
                }
                Found::Latch(pass) => {
                    self.found = 2;
                    self.who = pass;
                }
            }
        }
        call_code(fault)
    }
}

/// Tells each frame the reply to its call.
fn tell_replies(frames: &mut [Frame], session: &Session)
    requires { length (replies_of session.now) ≡ length frames.old }
    ensures { frames.new ≡ with_replies (replies_of session.now) frames.old }
{
    for at in 0..frames.len() {
        if let Some(reply) = session.reply_at(at) {
            frames[at].tell_reply(reply);
        }
    }
}

/// Tells each frame where the calls stand.
fn tell_places(frames: &mut [Frame], at: Position)
    ensures { frames.new ≡ map (with_place at) frames.old }
{
    for frame in frames.iter_mut() {
        frame.tell_place(at);
    }
}

/// Tells the first frame what stood in the way, where something did, and answers the code.
fn tell_first(frames: &mut [Frame], fault: CallFault) -> u32
    ensures frames { frames.new ≡ with_fault_first fault frames.old }
    ensures code { result ≡ call_code fault }
{
    if frames.is_empty() {
        return call_code(fault);
    }
    frames[0].tell_fault(fault)
}

impl Session {
    /// Makes the call that the frame asks for, as `try_call` does, and tells the frame its place
    /// and its reply, or what stood in the way.
    pub fn try_call_by(&mut self, frame: &mut Frame) -> u32
        ensures { AnswersCall self.old frame.old self.new frame.new result }
    {
        if let Some(fault) = self.fault_for(frame.op, frame.count()) {
            return call_code(fault);
        }
        match self.call_idle(frame.op, frame.values()) {
            Ok(at) => {
                frame.tell_place(at);
                self.tell_picked(frame);
                DONE
            }
            Err(fault) => frame.tell_fault(fault),
        }
    }

    /// Prepares the call that the frame asks for, as `begin` does, and tells the frame its reply,
    /// or what stood in the way.
    pub fn begin_by(&mut self, frame: &mut Frame) -> u32
        ensures { AnswersBegin self.old frame.old self.new frame.new result }
    {
        if let Some(fault) = self.fault_for(frame.op, frame.count()) {
            return call_code(fault);
        }
        match self.begin_idle(frame.op, frame.values()) {
            Ok(()) => {
                self.tell_picked(frame);
                DONE
            }
            Err(fault) => frame.tell_fault(fault),
        }
    }

    /// Makes the calls that the frames ask for as one, as `try_group` does, and tells each its place
    /// and its reply, or the first one what stood in the way.
    pub fn try_group_by(&mut self, frames: &mut [Frame]) -> u32
        ensures { AnswersGroup self.old frames.old self.new frames.new result }
    {
        if let Some(fault) = self.fault_of(frames) {
            return call_code(fault);
        }
        match self.group_idle(frames) {
            Ok(at) => {
                tell_places(frames, at);
                tell_replies(frames, self);
                DONE
            }
            Err(fault) => tell_first(frames, fault),
        }
    }

    /// Prepares the calls that the frames ask for as one, as `begin_group` does, and tells each its
    /// reply, or the first one what stood in the way.
    pub fn begin_group_by(&mut self, frames: &mut [Frame]) -> u32
        ensures { AnswersBeginGroup self.old frames.old self.new frames.new result }
    {
        if let Some(fault) = self.fault_of(frames) {
            return call_code(fault);
        }
        match self.begin_group_idle(frames) {
            Ok(()) => {
                tell_replies(frames, self);
                DONE
            }
            Err(fault) => tell_first(frames, fault),
        }
    }

    /// Opens a group over what the frames declare, as `open_group` does, a frame with no values calls
    /// with any; and tells the first one what stood in the way.
    pub fn open_group_by(&mut self, frames: &mut [Frame]) -> u32
        ensures { AnswersOpenGroup self.old frames.old self.new frames.new result }
    {
        if let Some(fault) = self.declared_fault(frames) {
            return call_code(fault);
        }
        match self.open_group_idle(frames) {
            Ok(()) => DONE,
            Err(fault) => tell_first(frames, fault),
        }
    }

    /// Makes the call that the frame asks for, of the open group, as `call_open` does, and tells the
    /// frame its reply.
    pub fn call_open_by(&mut self, frame: &mut Frame) -> u32
        ensures { AnswersCallOpen self.old frame.old self.new frame.new result }
    {
        if let Some(fault) = self.open_fault(frame.op, frame.count()) {
            return open_call_code(fault);
        }
        match self.go_on(frame.op, frame.values()) {
            Ok(()) => {
                self.tell_picked(frame);
                DONE
            }
            Err(fault) => open_call_code(fault),
        }
    }

    /// Tells the frame the kind and the number of the reply that is picked.
    fn tell_picked(&self, frame: &mut Frame)
        ensures { frame.new ≡ with_picked_reply (reply_of self.now) frame.old }
    {
        if let Some(reply) = self.reply() {
            frame.tell_reply(reply);
        }
    }

    /// Picks the reply to the call whose number stands in the frame as that of a row.
    pub fn pick_by(&mut self, frame: &Frame) -> u32
        ensures { AnswersPick self.old frame.now self.new result }
    {
        if self.pick(frame.row as usize) {
            DONE
        } else {
            NO_ROW
        }
    }

    /// Commits the prepared call or group, or the calls of the open group, and tells the frame the place,
    /// and the reply to the first call. An open group that has made no call is cancelled.
    pub fn commit_by(&mut self, frame: &mut Frame) -> u32
        ensures { AnswersCommit self.old frame.old self.new frame.new result }
    {
        match self.commit() {
            Ok(Some(at)) => {
                frame.tell_place(at);
                self.tell_picked(frame);
                DONE
            }
            Ok(None) => NO_CALL,
            Err(NotPrepared) => NOT_PREPARED,
        }
    }

    /// Cancels the prepared call or group, or the open group.
    pub fn cancel_by(&mut self) -> u32
        ensures { AnswersCancel self.old self.new result }
    {
        match self.cancel() {
            Ok(()) => DONE,
            Err(NotPrepared) => NOT_PREPARED,
        }
    }

    /// Learns what the frame tells of another session, and tells the frame what this one has seen
    /// then.
    pub fn learn_by(&mut self, frame: &mut Frame) -> u32
        ensures { AnswersLearn self.old frame.old self.new frame.new result }
    {
        match self.learn(frame.seen) {
            Ok(seen) => {
                frame.seen = seen;
                DONE
            }
            Err(LearnFault::Prepared) => PREPARED,
            Err(LearnFault::Unseen) => UNSEEN,
        }
    }

    /// Copies the row of the reply that the frame asks for into the frame's cells.
    pub fn row_by(&self, frame: &mut Frame) -> u32
        ensures { AnswersRow self.now frame.old frame.new result }
    {
        match self.copy_row(frame.row as usize, &mut frame.cells) {
            Some(width) => {
                frame.width = width as u64;
                DONE
            }
            None => NO_ROW,
        }
    }

    /// Copies the rows of the reply from the one on that the page asks for into its cells, one
    /// behind the other, as many as there is room for, and tells it how many.
    pub fn rows_by(&self, page: &mut Page) -> u32
        ensures { AnswersRows self.now page.old page.new result }
    {
        let count = self.copy_rows(page.row as usize, &mut page.cells);
        page.rows = count as u64;
        if count == 0 { NO_ROW } else { DONE }
    }
}

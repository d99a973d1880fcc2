//! A store in a caller's own program: it is opened by a specification's text, and its operations
//! are called by their numbers with plain numbers as values. All that a caller gives is tested
//! here, so that none of it can break a condition of the store; nothing here waits. (PLDI 2012,
//! concurrent relations.)
#![tactic(auto)]

mod calls;
mod closing;
mod codes;
mod declaring;
mod fault;
mod frame;
mod further;
mod group;
mod hold;
mod laws;
mod open_frame;
mod open_group;
mod opening;
mod planning;
mod prepared;
mod replies;
mod resume_frame;
mod resuming;
mod session;
mod shape_frame;
mod shaped;
mod shared;
mod telling;
mod text_page;

pub use closing::CloseBack;
pub use codes::{DONE, MEMORY, PREPARED};
pub use declaring::Declared;
pub use fault::{
    CallFault, LearnFault, NotIdle, NotPrepared, OpenCallFault, OpenFault, ResumeFault,
    SessionFault,
};
pub use frame::{Frame, MAX_CELLS, MAX_PAGE, MAX_VALUES, Page};
pub use group::{Asked, MAX_GROUP};
pub use laws::{
    calls_stand, closed_stores_are_of_the_text, declared_calls_are_covered, entries_stay,
    opened_stores_are_of_the_text, passes_come_back, receipts_are_of_the_text,
    resumed_stores_go_on, sessions_are_send, stores_are_send, told_replies_are_plain,
};
pub use open_frame::{
    OpenFrame, OperationFrame, open_by, open_with_by, open_with_plans_by, session_code,
};
pub use opening::{OpenStore, Options, open, open_with, open_with_plans};
pub use rc_store::Position;
pub use resume_frame::{ClosedPlace, NotClosed};
pub use resuming::{ResumeBack, resume};
pub use session::Session;
pub use shape_frame::{MAX_LINE, ShapeFrame};
pub use text_page::TextPage;

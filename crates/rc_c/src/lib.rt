//! Stores for callers in other languages: each function takes a handle and a frame, or a page, and
//! answers a code. What is done stands in `rc_embed`; here are the handles alone. (`bindings/c/relc.h` says
//! what each function wants.)
#![tactic(auto)]

ghost use Rattle.std.specs.Prelude.{◌≡◌, ◌∷◌, [], IfErr, IfOk, IsSome, None, Option, Some, length};
ghost use Rattle.std.specs.Borrow.{full_share, sem};
ghost use Rattle.std.specs.Ptr.{lies_at, room_at};
ghost use Rattle.rc_store.specs.Closed.{ClosedSeen};
ghost use Rattle.rc_embed.specs.Codes as codes;
ghost use Rattle.rc_embed.specs.Frames.{AnswersBegin, AnswersBeginGroup, AnswersCall, AnswersCommit};
ghost use Rattle.rc_embed.specs.Frames.{AnswersGroup, AnswersLearn};
ghost use Rattle.rc_embed.specs.Closing.{HasAllPasses};
ghost use Rattle.rc_embed.specs.OpenFrames.{IsRefusedBy, IsRefusedWithBy, KeepsAsked};
ghost use Rattle.rc_embed.specs.OpenGroupFrames.{AnswersCallOpen, AnswersOpenGroup};
ghost use Rattle.rc_embed.specs.Opened.{HasDealt, OpenSeen};
ghost use Rattle.rc_embed.specs.ResumedFrames.{HasClosedInto, IsResumedBy, IsUnclosedFor};
ghost use Rattle.rc_embed.specs.ResumedFrames.{IsUnresumedFrom};
ghost use Rattle.rc_embed.specs.Session.{IsIdle, SessionSeen};
ghost use Rattle.rc_embed.specs.contracts.opening.OpenStore as stores;
ghost use Rattle.rc_embed.specs.contracts.resume_frame.ClosedPlace as places;
ghost use Rattle.rc_embed.specs.contracts.session.Session as sessions;
ghost use Rattle.rc_c.specs.Answered.{AnswersSameFrame, AnswersSameOperation, AnswersSamePick};
ghost use Rattle.rc_c.specs.Answered.{AnswersSamePlans};
ghost use Rattle.rc_c.specs.Answered.{AnswersSameRow, AnswersSameRows, AnswersSameShape};
ghost use Rattle.rc_c.specs.Answered.{AnswersSession, lies_again};
ghost use Rattle.rc_c.specs.Closing.{AnswersClosed, AnswersResumed, left_at};
ghost use Rattle.rc_c.specs.GivenBack.{AnswersGivenBack, Handles, HasSettled};
ghost use Rattle.rc_c.specs.HandedOut.{HasOpenedThis, hands_out, lies_again_beside};
ghost use Rattle.rc_c.specs.Telling.{AnswersTold, IsTold, Two};

use rc_embed::{
    ClosedPlace, DONE, Frame, MEMORY, NotClosed, NotIdle, NotPrepared, OpenFrame, OpenStore,
    OperationFrame, PREPARED, Page, Session, ShapeFrame, TextPage, open_by, open_with_by,
    open_with_plans_by, session_code,
};
use std::alloc::Global;

/// Opens a store by the text, as the frame asks, in a block of its own that is never freed here; else the frame tells why not.
fn opened<'a>(alloc: Global, text: &[u8], frame: &mut OpenFrame) -> Result<&'a mut OpenStore, u32>
    ensures opened { IfOk result
        (λ store. HasOpenedThis text.now [] [] frame.old frame.new store.now) }
    ensures refused { IfErr result (IsRefusedBy text.now frame.old frame.new) }
    ensures asked { KeepsAsked frame.old frame.new }
{
    let store = match open_by(alloc, text, frame) {
        Ok(store) => store,
        Err(code) => return Err(code),
    };
    match Box::new(alloc, store) {
        Ok(held) => Ok(Box::leak(held)),
        Err(_) => Err(MEMORY),
    }
}

/// Opens a store by the text, as the frame asks, and hands out a pointer to it; else the frame
/// tells why not. (No pointer is written then.)
#[unsafe(no_mangle)]
pub extern "C" fn relc_open(
    alloc: Global,
    text: &[u8],
    frame: &mut OpenFrame,
    out: &mut *mut u8,
) -> u32
    ensures refused { (result ≡ codes.done → ⊥) → IsRefusedBy text.now frame.old frame.new result }
    ensures asked { KeepsAsked frame.old frame.new }
    ensures unwritten { (result ≡ codes.done → ⊥) → out.new ≡ out.old }
    ensures* opened { sem 𝓛 (hands_out stores.the_row result out.new
        (HasOpenedThis text.now [] [] frame.old frame.new)) }
{
    match opened(alloc, text, frame) {
        Ok(store) => {
            *out = store as *mut OpenStore as *mut u8;
            DONE
        }
        Err(code) => code,
    }
}

/// Opens a store so, with the plans of operations that are written in the second text.
fn opened_planned<'a>(
    alloc: Global,
    text: &[u8],
    plans: &[u8],
    frame: &mut OpenFrame,
) -> Result<&'a mut OpenStore, u32>
    ensures opened { IfOk result
        (λ store. HasOpenedThis text.now [] plans.now frame.old frame.new store.now) }
    ensures refused { IfErr result (IsRefusedWithBy text.now [] plans.now frame.old frame.new) }
    ensures asked { KeepsAsked frame.old frame.new }
{
    let store = match open_with_plans_by(alloc, text, plans, frame) {
        Ok(store) => store,
        Err(code) => return Err(code),
    };
    match Box::new(alloc, store) {
        Ok(held) => Ok(Box::leak(held)),
        Err(_) => Err(MEMORY),
    }
}

/// Opens a store so, with the plans of operations that are written in the second text. (What callers
/// in C are given takes no plans also where there is no second text: `relc_open_with_plans`.)
#[unsafe(no_mangle)]
pub extern "C" fn relc_open_planned(
    alloc: Global,
    text: &[u8],
    plans: &[u8],
    frame: &mut OpenFrame,
    out: &mut *mut u8,
) -> u32
    ensures refused { (result ≡ codes.done → ⊥)
        → IsRefusedWithBy text.now [] plans.now frame.old frame.new result }
    ensures asked { KeepsAsked frame.old frame.new }
    ensures unwritten { (result ≡ codes.done → ⊥) → out.new ≡ out.old }
    ensures* opened { sem 𝓛 (hands_out stores.the_row result out.new
        (HasOpenedThis text.now [] plans.now frame.old frame.new)) }
{
    match opened_planned(alloc, text, plans, frame) {
        Ok(store) => {
            *out = store as *mut OpenStore as *mut u8;
            DONE
        }
        Err(code) => code,
    }
}

/// Opens a store so, with the further operations of a text of shapes, and the plans of operations that
/// are written in the third text.
fn opened_shaped<'a>(
    alloc: Global,
    text: &[u8],
    shapes: &[u8],
    plans: &[u8],
    frame: &mut OpenFrame,
) -> Result<&'a mut OpenStore, u32>
    ensures opened { IfOk result
        (λ store. HasOpenedThis text.now shapes.now plans.now frame.old frame.new store.now) }
    ensures refused { IfErr result
        (IsRefusedWithBy text.now shapes.now plans.now frame.old frame.new) }
    ensures asked { KeepsAsked frame.old frame.new }
{
    let store = match open_with_by(alloc, text, shapes, plans, frame) {
        Ok(store) => store,
        Err(code) => return Err(code),
    };
    match Box::new(alloc, store) {
        Ok(held) => Ok(Box::leak(held)),
        Err(_) => Err(MEMORY),
    }
}

/// Opens a store so, with the further operations of a text of shapes, and the plans of operations that
/// are written in the third text. (What callers in C are given takes no shapes, or no plans, also where
/// there is no such text: `relc_open_with`.)
#[unsafe(no_mangle)]
pub extern "C" fn relc_open_shaped(
    alloc: Global,
    text: &[u8],
    shapes: &[u8],
    plans: &[u8],
    frame: &mut OpenFrame,
    out: &mut *mut u8,
) -> u32
    ensures refused { (result ≡ codes.done → ⊥)
        → IsRefusedWithBy text.now shapes.now plans.now frame.old frame.new result }
    ensures asked { KeepsAsked frame.old frame.new }
    ensures unwritten { (result ≡ codes.done → ⊥) → out.new ≡ out.old }
    ensures* opened { sem 𝓛 (hands_out stores.the_row result out.new
        (HasOpenedThis text.now shapes.now plans.now frame.old frame.new)) }
{
    match opened_shaped(alloc, text, shapes, plans, frame) {
        Ok(store) => {
            *out = store as *mut OpenStore as *mut u8;
            DONE
        }
        Err(code) => code,
    }
}

/// Copies a part of the text of the store's plans.
fn plans_on(store: &mut OpenStore, page: &mut TextPage) -> u32
    ensures { AnswersSamePlans store.old page.old store.new page.new result }
{
    store.plans_by(page)
}

/// Copies the text of the plans of the store at the pointer, from the byte on that the page asks for, as
/// many bytes as it has room for.
#[unsafe(no_mangle)]
pub unsafe extern "C" fn relc_plans(store: *mut u8, page: &mut TextPage) -> u32
    ghost held: { OpenSeen }
    requires* { sem 𝓛 (lies_at stores.the_row full_share store held) }
    ensures* { sem 𝓛 (lies_again stores.the_row store
        (λ after. AnswersSamePlans held page.old after page.new result)) }
{
    plans_on(&mut *(store as *mut OpenStore), page)
}

/// Looks the operation up that the frame names.
fn operation_on(store: &mut OpenStore, frame: &mut OperationFrame) -> u32
    ensures { AnswersSameOperation store.old frame.old store.new frame.new result }
{
    store.operation_by(frame)
}

/// Looks the operation up that the frame names, in the store at the pointer.
#[unsafe(no_mangle)]
pub unsafe extern "C" fn relc_operation(store: *mut u8, frame: &mut OperationFrame) -> u32
    ghost held: { OpenSeen }
    requires* { sem 𝓛 (lies_at stores.the_row full_share store held) }
    ensures* { sem 𝓛 (lies_again stores.the_row store
        (λ after. AnswersSameOperation held frame.old after frame.new result)) }
{
    operation_on(&mut *(store as *mut OpenStore), frame)
}

/// Looks the first operation up that asks as the frame's line does.
fn shape_on(store: &mut OpenStore, frame: &mut ShapeFrame) -> u32
    ensures { AnswersSameShape store.old frame.old store.new frame.new result }
{
    store.shape_by(frame)
}

/// Looks the first operation up that asks as the frame's line does, in the store at the pointer. (What
/// callers in C are given takes a line by pointer and length: `relc_shape`.)
#[unsafe(no_mangle)]
pub unsafe extern "C" fn relc_shape_of(store: *mut u8, frame: &mut ShapeFrame) -> u32
    ghost held: { OpenSeen }
    requires* { sem 𝓛 (lies_at stores.the_row full_share store held) }
    ensures* { sem 𝓛 (lies_again stores.the_row store
        (λ after. AnswersSameShape held frame.old after frame.new result)) }
{
    shape_on(&mut *(store as *mut OpenStore), frame)
}

/// Begins a session of the store, in a block of its own that is never freed here; else the code tells why none begins.
fn session_on<'a>(store: &mut OpenStore) -> Result<&'a mut Session, u32>
    ensures begun { IfOk result (λ session. HasDealt store.old store.new session.now) }
    ensures done { IfOk result (λ _. AnswersSession store.old store.new codes.done) }
    ensures fault { IfErr result (λ code. code ≡ codes.done → ⊥) }
    ensures refused { IfErr result (AnswersSession store.old store.new) }
{
    match store.session() {
        Ok(held) => Ok(Box::leak(held)),
        Err(fault) => Err(session_code(fault)),
    }
}

/// Begins a session of the store at the pointer, and hands out a pointer to it. (None is written
/// where none begins.)
#[unsafe(no_mangle)]
pub unsafe extern "C" fn relc_open_session(store: *mut u8, out: &mut *mut u8) -> u32
    ghost held: { OpenSeen }
    requires* { sem 𝓛 (lies_at stores.the_row full_share store held) }
    ensures unwritten { (result ≡ codes.done → ⊥) → out.new ≡ out.old }
    ensures* begun { sem 𝓛 (lies_again_beside stores.the_row store
        (λ after. AnswersSession held after result)
        (λ after. hands_out sessions.the_row result out.new (HasDealt held after))) }
{
    match session_on(&mut *(store as *mut OpenStore)) {
        Ok(session) => {
            *out = session as *mut Session as *mut u8;
            DONE
        }
        Err(code) => code,
    }
}

/// Makes the call that the frame asks for, and waits for nobody.
fn try_call_on(session: &mut Session, frame: &mut Frame) -> u32
    ensures { AnswersCall session.old frame.old session.new frame.new result }
{
    session.try_call_by(frame)
}

/// Makes the call that the frame asks for, by the session at the pointer, and waits for nobody.
#[unsafe(no_mangle)]
pub unsafe extern "C" fn relc_try_call(session: *mut u8, frame: &mut Frame) -> u32
    ghost held: { SessionSeen }
    requires* { sem 𝓛 (lies_at sessions.the_row full_share session held) }
    ensures* { sem 𝓛 (lies_again sessions.the_row session
        (λ after. AnswersCall held frame.old after frame.new result)) }
{
    try_call_on(&mut *(session as *mut Session), frame)
}

/// Prepares the call that the frame asks for, and waits for nobody.
fn prepare_on(session: &mut Session, frame: &mut Frame) -> u32
    ensures { AnswersBegin session.old frame.old session.new frame.new result }
{
    session.begin_by(frame)
}

/// Prepares the call that the frame asks for, by the session at the pointer, and waits for nobody.
#[unsafe(no_mangle)]
pub unsafe extern "C" fn relc_begin(session: *mut u8, frame: &mut Frame) -> u32
    ghost held: { SessionSeen }
    requires* { sem 𝓛 (lies_at sessions.the_row full_share session held) }
    ensures* { sem 𝓛 (lies_again sessions.the_row session
        (λ after. AnswersBegin held frame.old after frame.new result)) }
{
    prepare_on(&mut *(session as *mut Session), frame)
}

/// Makes the calls that the frames ask for as one, and waits for nobody.
fn try_group_on(session: &mut Session, frames: &mut [Frame]) -> u32
    ensures { AnswersGroup session.old frames.old session.new frames.new result }
{
    session.try_group_by(frames)
}

/// Makes the calls that the frames ask for as one, by the session at the pointer, and waits for
/// nobody.
#[unsafe(no_mangle)]
pub unsafe extern "C" fn relc_try_group(session: *mut u8, frames: &mut [Frame]) -> u32
    ghost held: { SessionSeen }
    requires* { sem 𝓛 (lies_at sessions.the_row full_share session held) }
    ensures* { sem 𝓛 (lies_again sessions.the_row session
        (λ after. AnswersGroup held frames.old after frames.new result)) }
{
    try_group_on(&mut *(session as *mut Session), frames)
}

/// Prepares the calls that the frames ask for as one, and waits for nobody.
fn prepare_group_on(session: &mut Session, frames: &mut [Frame]) -> u32
    ensures { AnswersBeginGroup session.old frames.old session.new frames.new result }
{
    session.begin_group_by(frames)
}

/// Prepares the calls that the frames ask for as one, by the session at the pointer, and waits for
/// nobody.
#[unsafe(no_mangle)]
pub unsafe extern "C" fn relc_begin_group(session: *mut u8, frames: &mut [Frame]) -> u32
    ghost held: { SessionSeen }
    requires* { sem 𝓛 (lies_at sessions.the_row full_share session held) }
    ensures* { sem 𝓛 (lies_again sessions.the_row session
        (λ after. AnswersBeginGroup held frames.old after frames.new result)) }
{
    prepare_group_on(&mut *(session as *mut Session), frames)
}

/// Opens a group over what the frames declare, and waits for nobody.
fn open_group_on(session: &mut Session, frames: &mut [Frame]) -> u32
    ensures { AnswersOpenGroup session.old frames.old session.new frames.new result }
{
    session.open_group_by(frames)
}

/// Opens a group over what the frames declare, by the session at the pointer, and waits for nobody.
#[unsafe(no_mangle)]
pub unsafe extern "C" fn relc_open_group(session: *mut u8, frames: &mut [Frame]) -> u32
    ghost held: { SessionSeen }
    requires* { sem 𝓛 (lies_at sessions.the_row full_share session held) }
    ensures* { sem 𝓛 (lies_again sessions.the_row session
        (λ after. AnswersOpenGroup held frames.old after frames.new result)) }
{
    open_group_on(&mut *(session as *mut Session), frames)
}

/// Makes the call that the frame asks for, of the open group.
fn call_open_on(session: &mut Session, frame: &mut Frame) -> u32
    ensures { AnswersCallOpen session.old frame.old session.new frame.new result }
{
    session.call_open_by(frame)
}

/// Makes the call that the frame asks for, of the group that the session at the pointer has opened.
#[unsafe(no_mangle)]
pub unsafe extern "C" fn relc_call_open(session: *mut u8, frame: &mut Frame) -> u32
    ghost held: { SessionSeen }
    requires* { sem 𝓛 (lies_at sessions.the_row full_share session held) }
    ensures* { sem 𝓛 (lies_again sessions.the_row session
        (λ after. AnswersCallOpen held frame.old after frame.new result)) }
{
    call_open_on(&mut *(session as *mut Session), frame)
}

/// Commits the prepared call or group, or the calls of the open group.
fn commit_on(session: &mut Session, frame: &mut Frame) -> u32
    ensures { AnswersCommit session.old frame.old session.new frame.new result }
{
    session.commit_by(frame)
}

/// Commits the call or the group that the session at the pointer has prepared, or has opened.
#[unsafe(no_mangle)]
pub unsafe extern "C" fn relc_commit(session: *mut u8, frame: &mut Frame) -> u32
    ghost held: { SessionSeen }
    requires* { sem 𝓛 (lies_at sessions.the_row full_share session held) }
    ensures* { sem 𝓛 (lies_again sessions.the_row session
        (λ after. AnswersCommit held frame.old after frame.new result)) }
{
    commit_on(&mut *(session as *mut Session), frame)
}

/// Cancels the prepared call or group, or the open group. (The frame is neither read nor written: so
/// the exports have one shape.)
fn cancel_on(session: &mut Session, frame: &mut Frame) -> u32
    ensures { AnswersSameFrame session.old frame.old session.new frame.new result }
{
    let _ = frame;
    session.cancel_by()
}

/// Cancels the call or the group that the session at the pointer has prepared, or has opened.
#[unsafe(no_mangle)]
pub unsafe extern "C" fn relc_cancel(session: *mut u8, frame: &mut Frame) -> u32
    ghost held: { SessionSeen }
    requires* { sem 𝓛 (lies_at sessions.the_row full_share session held) }
    ensures* { sem 𝓛 (lies_again sessions.the_row session
        (λ after. AnswersSameFrame held frame.old after frame.new result)) }
{
    cancel_on(&mut *(session as *mut Session), frame)
}

/// Picks the reply to a call of a group.
fn pick_on(session: &mut Session, frame: &mut Frame) -> u32
    ensures { AnswersSamePick session.old frame.old session.new frame.new result }
{
    session.pick_by(frame)
}

/// Picks the reply to the call whose number the frame has as that of a row, of those of the session at
/// the pointer: its rows are read from then on.
#[unsafe(no_mangle)]
pub unsafe extern "C" fn relc_pick(session: *mut u8, frame: &mut Frame) -> u32
    ghost held: { SessionSeen }
    requires* { sem 𝓛 (lies_at sessions.the_row full_share session held) }
    ensures* { sem 𝓛 (lies_again sessions.the_row session
        (λ after. AnswersSamePick held frame.old after frame.new result)) }
{
    pick_on(&mut *(session as *mut Session), frame)
}

/// Copies a row of the reply.
fn row_on(session: &mut Session, frame: &mut Frame) -> u32
    ensures { AnswersSameRow session.old frame.old session.new frame.new result }
{
    session.row_by(frame)
}

/// Copies the row that the frame asks for, of the reply of the session at the pointer.
#[unsafe(no_mangle)]
pub unsafe extern "C" fn relc_row(session: *mut u8, frame: &mut Frame) -> u32
    ghost held: { SessionSeen }
    requires* { sem 𝓛 (lies_at sessions.the_row full_share session held) }
    ensures* { sem 𝓛 (lies_again sessions.the_row session
        (λ after. AnswersSameRow held frame.old after frame.new result)) }
{
    row_on(&mut *(session as *mut Session), frame)
}

/// Copies several rows of the reply.
fn rows_on(session: &mut Session, page: &mut Page) -> u32
    ensures { AnswersSameRows session.old page.old session.new page.new result }
{
    session.rows_by(page)
}

/// Copies the rows from the one on that the page asks for, as many as it has room for, of the reply
/// of the session at the pointer.
#[unsafe(no_mangle)]
pub unsafe extern "C" fn relc_rows(session: *mut u8, page: &mut Page) -> u32
    ghost held: { SessionSeen }
    requires* { sem 𝓛 (lies_at sessions.the_row full_share session held) }
    ensures* { sem 𝓛 (lies_again sessions.the_row session
        (λ after. AnswersSameRows held page.old after page.new result)) }
{
    rows_on(&mut *(session as *mut Session), page)
}

/// Learns what the frame tells of another session.
fn learn_on(session: &mut Session, frame: &mut Frame) -> u32
    ensures { AnswersLearn session.old frame.old session.new frame.new result }
{
    session.learn_by(frame)
}

/// Lets the session at the pointer learn what the frame tells of another.
#[unsafe(no_mangle)]
pub unsafe extern "C" fn relc_learn(session: *mut u8, frame: &mut Frame) -> u32
    ghost held: { SessionSeen }
    requires* { sem 𝓛 (lies_at sessions.the_row full_share session held) }
    ensures* { sem 𝓛 (lies_again sessions.the_row session
        (λ after. AnswersLearn held frame.old after frame.new result)) }
{
    learn_on(&mut *(session as *mut Session), frame)
}

/// Tells the second session all that the first was told of the history.
fn tell_on(from: &mut Session, to: &mut Session) -> u32
    requires { to.old.store ≡ from.old.store }
    ensures { AnswersTold from.old to.old from.new to.new result }
{
    match from.tell(to) {
        Ok(()) => DONE,
        Err(NotIdle) => PREPARED,
    }
}

/// Tells the session at the second pointer all that the one at the first was told of the history. Both are of one store.
#[unsafe(no_mangle)]
pub unsafe extern "C" fn relc_tell(from: *mut u8, to: *mut u8) -> u32
    ghost held: { Two }
    requires one { held.to.store ≡ held.from.store }
    requires* from { sem 𝓛 (lies_at sessions.the_row full_share from held.from) }
    requires* to { sem 𝓛 (lies_at sessions.the_row full_share to held.to) }
    ensures* from { sem 𝓛 (lies_again sessions.the_row from (λ after. after ≡ held.from)) }
    ensures* to { sem 𝓛 (lies_again sessions.the_row to (λ after. IsTold held after result)) }
{
    tell_on(&mut *(from as *mut Session), &mut *(to as *mut Session))
}

/// Drops the store.
fn let_store_go(_store: OpenStore) {}

/// Ends the store at the pointer; its sessions live on. The memory behind the pointer is the
/// caller's again, to be freed.
#[unsafe(no_mangle)]
pub unsafe extern "C" fn relc_end_store(store: *mut u8)
    ghost held: { OpenSeen }
    requires* { sem 𝓛 (lies_at stores.the_row full_share store held) }
    ensures* { sem 𝓛 (room_at stores.the_row store) }
{
    let_store_go(std::ptr::read(store as *const OpenStore))
}

/// Cancels what the session has prepared or opened, if anything.
fn settled(session: Session) -> Session
    ensures { HasSettled session result }
{
    let mut session = session;
    match session.cancel() {
        Ok(()) => session,
        Err(NotPrepared) => session,
    }
}

/// Drops a session that has nothing prepared or open.
fn let_idle_go(session: Session)
    requires { IsIdle session.state }
{
    let _session = session;
}

/// Drops the session. What it has prepared or opened is cancelled before: nobody else could give its
/// stripes back.
fn let_session_go(session: Session) {
    let_idle_go(settled(session));
}

/// Ends the session at the pointer, and cancels what it has prepared or opened, if anything. The memory
/// behind the pointer is the caller's again, to be freed.
#[unsafe(no_mangle)]
pub unsafe extern "C" fn relc_end_session(session: *mut u8)
    ghost held: { SessionSeen }
    requires* { sem 𝓛 (lies_at sessions.the_row full_share session held) }
    ensures* { sem 𝓛 (room_at sessions.the_row session) }
{
    let_session_go(std::ptr::read(session as *const Session))
}

/// Takes the session back, and cancels before what it has prepared or opened, if anything. A store that
/// has all its passes takes none, and the session ends. (This doesn't come where the session is the
/// store's: a session of it is outside then.)
fn take_back_on(store: &mut OpenStore, session: Session) -> u32
    requires { session.store ≡ store.old.store }
    ensures { AnswersGivenBack store.old session store.new result }
{
    match store.take_back(settled(session)) {
        Ok(()) => {}
        Err(session) => let_idle_go(session),
    }
    DONE
}

/// Takes the session at the second pointer back to its store, the one at the first, and cancels before
/// what it has prepared or opened, if anything. The memory behind the session's pointer is the caller's
/// again, to be freed.
#[unsafe(no_mangle)]
pub unsafe extern "C" fn relc_take_back(store: *mut u8, session: *mut u8) -> u32
    ghost held: { Handles }
    requires its_own { held.session.store ≡ held.store.store }
    requires* store { sem 𝓛 (lies_at stores.the_row full_share store held.store) }
    requires* session { sem 𝓛 (lies_at sessions.the_row full_share session held.session) }
    ensures* store { sem 𝓛 (lies_again stores.the_row store
        (λ after. AnswersGivenBack held.store held.session after result)) }
    ensures* session { sem 𝓛 (room_at sessions.the_row session) }
{
    take_back_on(
        &mut *(store as *mut OpenStore),
        std::ptr::read(session as *const Session),
    )
}

/// Closes the store into a place that is never freed here; else it comes back, with the code that tells why not.
fn close_on<'a>(store: OpenStore) -> Result<&'a mut ClosedPlace, NotClosed>
    ensures closed { IfOk result
        (λ place. HasAllPasses store × HasClosedInto store place.now) }
    ensures same { IfErr result (λ back. (back.store ≡ store) × IsUnclosedFor store back.code) }
{
    match store.close_by() {
        Ok(place) => Ok(Box::leak(place)),
        Err(back) => Err(back),
    }
}

/// Closes the store at the pointer, all of whose sessions have been given back, and hands out a pointer to the place of the
/// closed store. The memory behind the store's pointer is the caller's again then, to be freed. Else the store lies there as it
/// did, and no pointer is written.
#[unsafe(no_mangle)]
pub unsafe extern "C" fn relc_shut_store(store: *mut u8, out: &mut *mut u8) -> u32
    ghost held: { OpenSeen }
    requires* { sem 𝓛 (lies_at stores.the_row full_share store held) }
    ensures unwritten { (result ≡ codes.done → ⊥) → out.new ≡ out.old }
    ensures* store { sem 𝓛 (left_at stores.the_row store
        (λ after. AnswersClosed held after result)) }
    ensures* closed { sem 𝓛 (hands_out places.the_row result out.new (HasClosedInto held)) }
{
    match close_on(std::ptr::read(store as *const OpenStore)) {
        Ok(place) => {
            *out = place as *mut ClosedPlace as *mut u8;
            DONE
        }
        Err(back) => {
            let NotClosed { store: again, code } = back;
            std::ptr::write(store as *mut OpenStore, again);
            code
        }
    }
}

/// The one store of the list, in the list's block, which is never freed here.
fn alone<'a>(stores: Vec<OpenStore>) -> &'a mut OpenStore
    requires { length stores.items ≡ 1 }
    ensures { stores.items ≡ result.now ∷ [] }
{
    match stores.leak() {
        [store, ..] => store,
        [] => unreachable!(),
    }
}

/// Opens the closed store at its place again by the texts, as the frame asks, in a block that is never freed here; else the frame tells
/// why not, and the code is answered.
fn resume_on<'a>(
    place: &mut ClosedPlace,
    text: &[u8],
    shapes: &[u8],
    plans: &[u8],
    frame: &mut OpenFrame,
) -> Result<&'a mut OpenStore, u32>
    requires { IsSome place.old }
    ensures resumed { IfOk result (λ store. (closed : ClosedSeen) → place.old ≡ Some closed
        → IsResumedBy closed text.now shapes.now plans.now frame.old store.now) }
    ensures none { IfOk result (λ _. (place.new ≡ None) × (frame.new.length ≡ 0)) }
    ensures same { IfErr result (λ _. place.new ≡ place.old) }
    ensures refused { IfErr result
        (IsUnresumedFrom place.old text.now shapes.now plans.now frame.old frame.new) }
    ensures asked { KeepsAsked frame.old frame.new }
{
    match place.resume_by(text, shapes, plans, frame) {
        Ok(stores) => Ok(alone(stores)),
        Err(code) => Err(code),
    }
}

/// Opens the closed store at the pointer again by the texts, as the frame asks, and hands out a pointer to the store; what lies
/// at the closed store's pointer is empty then, and `relc_end_closed` ends it. Else the frame tells why not, and the closed
/// store lies there as it did. (No pointer is written then. What callers in C are given takes no shapes, or no plans, also where
/// there is no such text.)
#[unsafe(no_mangle)]
pub unsafe extern "C" fn relc_resume_closed(
    closed: *mut u8,
    text: &[u8],
    shapes: &[u8],
    plans: &[u8],
    frame: &mut OpenFrame,
    out: &mut *mut u8,
) -> u32
    ghost held: { ClosedSeen }
    requires* { sem 𝓛 (lies_at places.the_row full_share closed (Some held)) }
    ensures unwritten { (result ≡ codes.done → ⊥) → out.new ≡ out.old }
    ensures* closed { sem 𝓛 (lies_again places.the_row closed
        (λ after. AnswersResumed held text.now shapes.now plans.now frame.old after frame.new result)) }
    ensures* resumed { sem 𝓛 (hands_out stores.the_row result out.new
        (IsResumedBy held text.now shapes.now plans.now frame.old)) }
{
    match resume_on(
        &mut *(closed as *mut ClosedPlace),
        text,
        shapes,
        plans,
        frame,
    ) {
        Ok(store) => {
            *out = store as *mut OpenStore as *mut u8;
            DONE
        }
        Err(code) => code,
    }
}

/// Drops the place, with the closed store where there is one.
fn let_closed_go(_place: ClosedPlace) {}

/// Ends what lies at the pointer of a closed store: the closed store, or nothing where a store went on from it. The memory
/// behind the pointer is the caller's again, to be freed.
#[unsafe(no_mangle)]
pub unsafe extern "C" fn relc_end_closed(closed: *mut u8)
    ghost held: { Option ClosedSeen }
    requires* { sem 𝓛 (lies_at places.the_row full_share closed held) }
    ensures* { sem 𝓛 (room_at places.the_row closed) }
{
    let_closed_go(std::ptr::read(closed as *const ClosedPlace))
}

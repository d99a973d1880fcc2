//! Why something isn't done.

ghost use Rattle.std.specs.Prelude.{◌≡◌};
ghost use Rattle.rc_embed.specs.Refused.{call_fault};
ghost use Rattle.rc_embed.specs.declared.fault.CallFault.TheVariants as call_faults;
ghost use Rattle.rc_embed.specs.declared.fault.OpenFault.TheVariants as open_faults;
ghost use Rattle.rc_embed.specs.declared.fault.ResumeFault.TheVariants as resume_faults;

use rc_handplan::HandRule;
use rc_plan::PlanRefusal;
use rc_reader::LineRule;
use rc_spec::{Found, Refusal, Spec};
use rc_store::TryFault;
use rc_tuple::Memory;

/// Why no store is opened.
#[derive(Debug, Drop)]
pub enum OpenFault {
    /// Memory was wanted.
    Memory,
    /// There are not 1 to 255 passes, not 1 to 2^48 calls, or not 1 to 2^32 - 1 rows where these
    /// are limited.
    Options,
    /// One of the texts is longer than 2^24 bytes.
    TooLong,
    /// The text breaks a line rule: the first, and its line, counted from 1.
    Line {
        rule: LineRule,
        line: u32,
    },
    /// The specification breaks a rule of acceptance: the specification, its first broken rule and
    /// the first item that breaks it.
    Rule(Spec, Refusal),
    /// The text of the shapes breaks a line rule: the first, and its line in that text, counted from 1.
    ShapeLine {
        rule: LineRule,
        line: u32,
    },
    /// The text of the plans breaks a rule of their lines: the first, and its line in that text, counted
    /// from 1.
    PlanLine {
        rule: HandRule,
        line: u32,
    },
    /// A plan that is written breaks a rule.
    Plan {
        /// The specification that the store would have.
        spec: Spec,
        /// The operation of the first such plan, by its number.
        op: u8,
        /// The first rule that the plan breaks, and the statement that breaks it, counted from 0.
        refusal: PlanRefusal,
    },
}

impl From<Memory> for OpenFault {
    ghost from_gives = { λ _ fault. fault ≡ open_faults.Memory };

    fn from(_: Memory) -> Self {
        OpenFault::Memory
    }
}

/// Why a closed store doesn't go on. It is as before.
#[derive(Debug, Drop)]
pub enum ResumeFault {
    /// The options are out of their ranges, a text is refused, or memory is wanted, as where a store is opened by them.
    Refused(OpenFault),
    /// The closed store had more passes than sessions are asked for.
    Sessions,
    /// Some pass of the closed store had made more calls than the limit.
    Limit,
    /// The specification of the texts, as a store has it, isn't the closed store's, nor that with further operations behind
    /// its own. So it is too where another most rows of a reply is asked for.
    Other,
}

impl From<OpenFault> for ResumeFault {
    ghost from_gives = { λ fault gives. gives ≡ resume_faults.Refused fault };

    fn from(fault: OpenFault) -> Self {
        ResumeFault::Refused(fault)
    }
}

/// Why no session begins. The store is as before.
#[derive(Clone, Copy, Debug, PartialEq, Eq)]
pub enum SessionFault {
    /// Memory was wanted.
    Memory,
    /// Each pass has a session, or has had one.
    NoneLeft,
}

/// Why a call, or calls that are asked for as one, aren't made, or aren't begun, or why a group isn't
/// opened. The session is as before.
#[derive(Clone, Copy, Debug, PartialEq, Eq)]
pub enum CallFault {
    /// Memory was wanted, and nothing stood in the way.
    Memory,
    /// Something stood in the way of a stripe that the call's plan names, or that is one of the
    /// group's locks.
    Busy {
        /// The number of the stripe, over all classes.
        stripe: u32,
        /// What was found in the way.
        found: Found,
    },
    /// The session has made as many calls as its store lets it.
    Spent,
    /// No operation has this number.
    UnknownOperation,
    /// The operation takes another number of values.
    Values,
    /// A call or a group is prepared, or a group is open, and neither committed nor cancelled.
    Prepared,
    /// A group has no call, or more than `MAX_GROUP`; or so much is declared of one.
    Count,
}

/// Why an open group doesn't make a call.
#[derive(Clone, Copy, Debug, PartialEq, Eq)]
pub enum OpenCallFault {
    /// No group is open. The session is as before.
    NotOpen,
    /// No operation has this number. The session is as before.
    UnknownOperation,
    /// The operation takes another number of values. The session is as before.
    Values,
    /// The group has made `MAX_GROUP` calls. It is open, and as before.
    Full,
    /// What the group declared doesn't suffice for the call. It is open, and as before.
    Uncovered,
    /// Memory was wanted, and the group is over: nothing of it stands in the history, and the session is
    /// as if it had been cancelled.
    Memory,
}

/// There is nothing to commit, or to cancel. The session is as before.
#[derive(Clone, Copy, Debug, PartialEq, Eq)]
pub struct NotPrepared;

/// A call or a group is prepared, or a group is open. The sessions are as before.
#[derive(Clone, Copy, Debug, PartialEq, Eq)]
pub struct NotIdle;

impl From<Memory> for CallFault {
    ghost from_gives = { λ _ fault. fault ≡ call_faults.Memory };

    fn from(_: Memory) -> Self {
        CallFault::Memory
    }
}

impl From<TryFault> for CallFault {
    ghost from_gives = { λ fault gives. gives ≡ call_fault fault };

    fn from(fault: TryFault) -> Self {
        call_fault(fault)
    }
}

/// Why a session doesn't learn what another one has seen.
#[derive(Clone, Copy, Debug, PartialEq, Eq)]
pub enum LearnFault {
    /// A call or a group is prepared, or a group is open. The session is as before.
    Prepared,
    /// The session has looked, and has seen less than that.
    Unseen,
}

/// The fault of calls that the store refused.
pub(crate) fn call_fault(fault: TryFault) -> CallFault
    ensures { result ≡ call_fault fault }
{
    match fault {
        TryFault::Memory => CallFault::Memory,
        TryFault::Busy { stripe, found } => CallFault::Busy { stripe, found },
        TryFault::Spent => CallFault::Spent,
    }
}

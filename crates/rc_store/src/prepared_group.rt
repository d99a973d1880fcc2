//! What is to be committed of a group, as its calls are made.

ghost use Rattle.std.specs.Prelude.{◌≡◌, ◌<◌, [], IfOk, Some, length};
ghost use Rattle.std.specs.List.{slice_get};
ghost use Rattle.rc_multi.specs.Group.{with_step};
ghost use Rattle.rc_row.specs.Passes.{KeepsAs, PassSeen};
ghost use Rattle.rc_store.specs.Running.{calls_of, replies_of};
ghost use Rattle.rc_store.specs.RunningInside.{HasReplyEach, IsOfPass, steps_in};

use crate::running_group::PreparedGroup;
use rc_rel::{Entry, Step, Steps};
use rc_row::{Keeping, Pass};
use rc_spec::{Call, Reply};
use rc_tuple::Memory;
use std::alloc::Global;

impl PreparedGroup {
    /// That of no call. Takes no memory.
    pub(crate) fn none(alloc: Global, keeping: Keeping, pass: &Pass) -> PreparedGroup
        requires { KeepsAs keeping pass.now.kept }
        ensures steps { steps_in result ≡ [] }
        ensures whole { IsOfPass pass.now result }
    {
        match keeping {
            Keeping::Entries => PreparedGroup::Entry(Entry {
                pass: pass.number(),
                nth: pass.made(),
                steps: Steps::new(alloc),
            }),
            Keeping::Counts => PreparedGroup::Counted(Vec::new(alloc), Vec::new(alloc)),
        }
    }

    /// How many calls it has.
    pub(crate) fn count(&self) -> usize
        requires { HasReplyEach self.now }
        ensures { result ≡ length (steps_in self.now) }
    {
        match self {
            PreparedGroup::Entry(entry) => entry.steps.list().len(),
            PreparedGroup::Counted(calls, _) => calls.len(),
        }
    }

    /// The call with this number, counted from 0.
    pub(crate) fn call(&self, at: usize) -> &Call
        requires each { HasReplyEach self.now }
        requires at { at < length (steps_in self.now) }
        ensures { slice_get (calls_of (steps_in self.now)) at ≡ Some result.now }
    {
        match self {
            PreparedGroup::Entry(entry) => &entry.steps.list()[at].call,
            PreparedGroup::Counted(calls, _) => &calls[at],
        }
    }

    /// Its reply.
    pub(crate) fn reply(&self, at: usize) -> &Reply
        requires each { HasReplyEach self.now }
        requires at { at < length (steps_in self.now) }
        ensures { slice_get (replies_of (steps_in self.now)) at ≡ Some result.now }
    {
        match self {
            PreparedGroup::Entry(entry) => &entry.steps.list()[at].reply,
            PreparedGroup::Counted(_, replies) => &replies[at],
        }
    }

    /// The same with one call more.
    pub(crate) fn with(self, call: Call, reply: Reply) -> Result<PreparedGroup, Memory>
        requires { HasReplyEach self }
        ensures steps { IfOk result
            (λ longer. steps_in longer ≡ with_step (steps_in self) call reply) }
        ensures whole { IfOk result
            (λ longer. (pass : PassSeen) → IsOfPass pass self → IsOfPass pass longer) }
    {
        match self {
            PreparedGroup::Entry(entry) => {
                let Entry { pass, nth, steps } = entry;
                let steps = steps.with(Step { call, reply })?;
                Ok(PreparedGroup::Entry(Entry { pass, nth, steps }))
            }
            PreparedGroup::Counted(calls, replies) => {
                let mut calls = calls;
                let mut replies = replies;
                calls.push(call)?;
                replies.push(reply)?;
                Ok(PreparedGroup::Counted(calls, replies))
            }
        }
    }
}

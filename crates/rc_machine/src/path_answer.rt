//! Calls that are answered by an access path.

ghost use Rattle.std.specs.Prelude.{◌≡◌, OnErr};
ghost use Rattle.rc_spec.specs.Locks.{StripeLock};
ghost use Rattle.rc_spec.specs.declared.spec.Spec.{Spec};
ghost use Rattle.rc_fragment.specs.Holder.{MayTake};
ghost use Rattle.rc_plan.specs.Compiled.{plan_at};
ghost use Rattle.rc_plan.specs.NamedStripes.{IsNamedBy};
ghost use Rattle.rc_machine.specs.Access.{HasLockedPath};
ghost use Rattle.rc_machine.specs.Machine.{HasRunCall, told_answer};
ghost use Rattle.rc_machine.specs.Stripes.{AreStripesOf};

use crate::Stop;
use crate::edge_change::{insert_by_edge, remove_by_edge, update_by_edge};
use crate::edge_query::answer_by_edge;
use crate::workspace::Workspace;
use rc_fragment::Holder;
use rc_plan::{AccessPath, Compiled};
use rc_spec::{Call, OpKind, Reply};

/// Answers the call, of whose path the stripes of the first Locks are held, from the rows of the path's edge, on the stripe
/// on which the arguments fall; a remove takes those of the late Locks. Where a take was refused each held stripe has its
/// rows as taken; where memory was wanted some may be changed; as taken they are what they were. After either the reply stays.
pub(crate) fn answer_by_path<H: Holder>(
    holder: &mut H,
    compiled: &Compiled,
    call: &Call,
    path: AccessPath,
    stripe: u32,
    space: &mut Workspace,
    reply: &mut Reply,
) -> Result<(), Stop>
    requires locked { HasLockedPath compiled.now call.now path stripe (H.seen holder.old) }
    requires stripes { AreStripesOf compiled.now.spec call.now.args space.old.class_stripes.items }
    requires sound { H.is_sound holder.old compiled.now.spec }
    requires lent { (lock : StripeLock) → IsNamedBy compiled.now.spec call.now.args (plan_at compiled.now.plans call.now.op) lock
        → MayTake (H.seen holder.old).lends lock.0 lock.1 }
    ensures run { HasRunCall compiled.now call.now (H.seen holder.old) (H.seen holder.new) (told_answer result reply.new) }
    ensures kept { OnErr result (reply.new ≡ reply.old) }
    ensures sound { (spec : Spec) → H.is_sound holder.old spec → H.is_sound holder.new spec }
{
    match compiled.accepted().spec().op(call.op).kind {
        OpKind::Query { .. } => {
            let finder = &mut space.finder;
            answer_by_edge(holder, compiled, call, path, stripe, finder, reply)
        }
        OpKind::Insert => insert_by_edge(holder, compiled, call, path, stripe, space, reply),
        OpKind::Remove => remove_by_edge(holder, compiled, call, path, stripe, space, reply),
        OpKind::Update => update_by_edge(holder, compiled, call, path, stripe, space, reply),
    }
}

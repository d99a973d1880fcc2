//! The run of a plan.

ghost use Rattle.std.specs.Prelude.{◌≡◌, [], IfErr, OnErr};
ghost use Rattle.rc_spec.specs.Calls.{Fits};
ghost use Rattle.rc_spec.specs.declared.spec.Spec.{Spec};
ghost use Rattle.rc_spec.specs.Locks.{StripeLock};
ghost use Rattle.rc_fragment.specs.Holder.{MayTake, held_of};
ghost use Rattle.rc_plan.specs.Compiled.{plan_at};
ghost use Rattle.rc_plan.specs.NamedStripes.{IsNamedBy};
ghost use Rattle.rc_machine.specs.Machine.{AreAsTaken, HasRunCall, told_answer};

use crate::Stop;
use crate::arguments::lock_arguments;
use crate::path_answer::answer_by_path;
use crate::step::step;
use crate::stripe::find_stripe;
use crate::workspace::Workspace;
use rc_fragment::{Holder, Reverts};
use rc_plan::Compiled;
use rc_spec::{Call, Reply};

/// Does what `run_statements` does, but hands the reply up, and after any stop each held stripe has its rows as taken.
pub fn run_plan<H: Reverts>(
    compiled: &Compiled,
    call: &Call,
    space: &mut Workspace,
    holder: &mut H,
) -> Result<Reply, Stop>
    requires fits { Fits compiled.now.spec call.now }
    requires sound { H.is_sound holder.old compiled.now.spec }
    requires free { held_of (H.seen holder.old) ≡ [] }
    requires lent { (lock : StripeLock) → IsNamedBy compiled.now.spec call.now.args (plan_at compiled.now.plans call.now.op) lock
        → MayTake (H.seen holder.old).lends lock.0 lock.1 }
    ensures run { HasRunCall compiled.now call.now (H.seen holder.old) (H.seen holder.new) result }
    ensures reverted { IfErr result (λ _. AreAsTaken (held_of (H.seen holder.new))) }
    ensures sound { (spec : Spec) → H.is_sound holder.old spec → H.is_sound holder.new spec }
{
    let mut reply = Reply::Absent;
    match run_statements(compiled, call, space, holder, &mut reply) {
        Ok(()) => Ok(reply),
        Err(Stop::Held(held)) => Err(Stop::Held(held)),
        Err(Stop::Memory) => {
            holder.revert();
            Err(Stop::Memory)
        }
    }
}

/// Runs the statements of the call's plan that come before its Commit over a sound holder that holds nothing: it takes
/// the stripes that the Locks name, reads and changes their rows, and tells the answer in the reply's place. (PLDI 2012, query
/// plans with two-phase locks.)
///
/// Where it answers, evaluation of the plan on the rows as taken gives the reply, the held stripes and their rows now.
/// On any relation of which the rows as taken are fragments the plain step gives the same reply, the call touches
/// exactly the held stripes, and they have the fragments of the relation after it. Where a take was refused each held
/// stripe has its rows as taken; where memory was wanted some may be changed. `Held` comes exactly where the count of
/// refused takes rose in this call, and is then the last refused take's. What the holder offers stays.
///
/// The holder lends whatever the plan may name at the arguments: all stripes, or those that it has.
///
/// A call of an operation that has an access path costs its first Locks, each of which hashes its tuple, once for each
/// class, or takes all stripes of a class, and then: a query one look-up, or the rows of one source; an insert one look-up,
/// and where it finds no row a change in each edge whose rows are kept; a remove one look-up, and where it finds a row its
/// late Locks, each of which hashes the removed tuple, and as many changes; an update one look-up, and where it finds a row
/// twice as many changes in the classes in which the two tuples don't have all rows alike. The tuple that a remove or an
/// update answers takes a block, where the space has none of an earlier reply in whose place another was told. Other calls
/// cost, for each Read and binding, a look-up or the rows of one source, on one stripe where the binding chooses it and
/// else on each of the class; and for an Apply a change in each edge whose rows are kept. A look-up at an edge whose rows
/// another's tell takes a step more for each row of its source that the holder's changes took out. What the workspace has
/// is of no matter.
pub fn run_statements<H: Holder>(
    compiled: &Compiled,
    call: &Call,
    space: &mut Workspace,
    holder: &mut H,
    reply: &mut Reply,
) -> Result<(), Stop>
    requires fits { Fits compiled.now.spec call.now }
    requires sound { H.is_sound holder.old compiled.now.spec }
    requires free { held_of (H.seen holder.old) ≡ [] }
    requires lent { (lock : StripeLock) → IsNamedBy compiled.now.spec call.now.args (plan_at compiled.now.plans call.now.op) lock
        → MayTake (H.seen holder.old).lends lock.0 lock.1 }
    ensures run { HasRunCall compiled.now call.now (H.seen holder.old) (H.seen holder.new) (told_answer result reply.new) }
    ensures kept { OnErr result (reply.new ≡ reply.old) }
    ensures sound { (spec : Spec) → H.is_sound holder.old spec → H.is_sound holder.new spec }
{
    let Some(path) = compiled.access_path(call.op) else {
        return run_in_turn(compiled, call, space, holder, reply);
    };
    // What is compiled is accepted.
    let _ = compiled.accepted();
    let plan = compiled.plan(call.op).list();
    lock_arguments(holder, compiled, call, plan, path.locks, space)?;
    let class = compiled.edge(path.edge).class;
    let stripe = find_stripe(compiled, class, &call.args, &mut space.class_stripes)?;
    answer_by_path(holder, compiled, call, path, stripe, space, reply)
}

/// Runs the statements one after another, up to the one that answers.
fn run_in_turn<H: Holder>(
    compiled: &Compiled,
    call: &Call,
    space: &mut Workspace,
    holder: &mut H,
    reply: &mut Reply,
) -> Result<(), Stop>
    requires fits { Fits compiled.now.spec call.now }
    requires sound { H.is_sound holder.old compiled.now.spec }
    requires free { held_of (H.seen holder.old) ≡ [] }
    requires lent { (lock : StripeLock) → IsNamedBy compiled.now.spec call.now.args (plan_at compiled.now.plans call.now.op) lock
        → MayTake (H.seen holder.old).lends lock.0 lock.1 }
    ensures run { HasRunCall compiled.now call.now (H.seen holder.old) (H.seen holder.new) (told_answer result reply.new) }
    ensures kept { OnErr result (reply.new ≡ reply.old) }
    ensures sound { (spec : Spec) → H.is_sound holder.old spec → H.is_sound holder.new spec }
{
    let plan = compiled.plan(call.op).list();
    let alloc = space.alloc();
    space.clear_for(compiled.accepted().spec().columns.list().len());
    space.bindings.begin(call.args.cols());
    space.bindings.push_projection(&call.args)?;
    for at in 0..plan.len() {
        if let Some(answer) = step(alloc, holder, compiled, call, plan, at, space)? {
            space.finder.spare.tell(reply, answer);
            return Ok(());
        }
    }
    unreachable!()
}

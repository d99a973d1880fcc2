//! Inserts, removes and updates that are answered from the rows of one edge.

ghost use Rattle.std.specs.Prelude.{◌≡◌, IfErr, OnErr};
ghost use Rattle.rc_spec.specs.Locks.{StripeLock};
ghost use Rattle.rc_spec.specs.Placement.{op_at};
ghost use Rattle.rc_spec.specs.declared.items.OpKind.TheVariants as kind;
ghost use Rattle.rc_spec.specs.declared.spec.Spec.{Spec};
ghost use Rattle.rc_fragment.specs.Holder.{MayTake};
ghost use Rattle.rc_plan.specs.Compiled.{plan_at};
ghost use Rattle.rc_plan.specs.NamedStripes.{IsNamedBy};
ghost use Rattle.rc_machine.specs.Access.{HasAnsweredByPath, HasLockedPath};
ghost use Rattle.rc_machine.specs.Machine.{HasRunCall, told_answer};
ghost use Rattle.rc_machine.specs.Stripes.{AreStripesOf};
ghost use Rattle.rc_machine.specs.declared.stop.Stop.TheVariants as stop;

use crate::Stop;
use crate::apply::{add_placed, add_rows, replace, sub_rows};
use crate::edge_read::EdgeRead;
use crate::edge_row::{find_row, find_tuple};
use crate::late::lock_found;
use crate::places::{make_room, place_classes_from};
use crate::workspace::Workspace;
use rc_fragment::{AddStop, Holder};
use rc_plan::{AccessPath, Compiled};
use rc_spec::{Call, Reply};
use std::slice;

/// Adds the call's tuple, where the path's edge has no row with its values at the pattern. Where memory is wanted the reply
/// stays, and some rows may be changed; as taken they are what they were. Where the edge is the first of its class whose rows are kept, its class
/// comes first, and the search for that row's place tells whether one has the values.
pub(crate) fn insert_by_edge<H: Holder>(
    holder: &mut H,
    compiled: &Compiled,
    call: &Call,
    path: AccessPath,
    stripe: u32,
    space: &mut Workspace,
    reply: &mut Reply,
) -> Result<(), Stop>
    requires insert { (op_at compiled.now.spec call.now.op).kind ≡ kind.Insert }
    requires locked { HasLockedPath compiled.now call.now path stripe (H.seen holder.old) }
    requires stripes { AreStripesOf compiled.now.spec call.now.args space.old.class_stripes.items }
    requires sound { H.is_sound holder.old compiled.now.spec }
    ensures answered { HasAnsweredByPath compiled.now call.now (H.seen holder.old) (H.seen holder.new) (told_answer result reply.new) }
    ensures kept { OnErr result (reply.new ≡ reply.old) }
    ensures memory { IfErr result (λ s. s ≡ stop.Memory) }
    ensures sound { (spec : Spec) → H.is_sound holder.old spec → H.is_sound holder.new spec }
{
    let fragment = holder.fragment(stripe);
    let class = compiled.edge(path.edge).class;
    if !fragment.is_first_kept(class, path.edge) {
        return insert_looked_up(holder, compiled, call, path, stripe, space, reply);
    }
    let tuple = &call.args;
    let stripes = &mut space.class_stripes;
    place_classes_from(compiled, path.edge, tuple, stripes, &mut space.places)?;
    let Some((first, others)) = space.places.split_first() else {
        unreachable!();
    };
    make_room(holder, compiled, slice::from_ref(first))?;
    match holder.add_new_tuple(stripe, class, path.edge, tuple) {
        Ok(()) => {}
        Err(AddStop::There) => {
            space.finder.spare.tell(reply, Reply::Present);
            return Ok(());
        }
        Err(AddStop::Memory) => return Err(Stop::Memory),
    }
    add_placed(holder, compiled, others, tuple)?;
    space.finder.spare.tell(reply, Reply::Inserted);
    Ok(())
}

/// The same by a look-up beforehand.
fn insert_looked_up<H: Holder>(
    holder: &mut H,
    compiled: &Compiled,
    call: &Call,
    path: AccessPath,
    stripe: u32,
    space: &mut Workspace,
    reply: &mut Reply,
) -> Result<(), Stop>
    requires insert { (op_at compiled.now.spec call.now.op).kind ≡ kind.Insert }
    requires locked { HasLockedPath compiled.now call.now path stripe (H.seen holder.old) }
    requires stripes { AreStripesOf compiled.now.spec call.now.args space.old.class_stripes.items }
    requires sound { H.is_sound holder.old compiled.now.spec }
    ensures answered { HasAnsweredByPath compiled.now call.now (H.seen holder.old) (H.seen holder.new) (told_answer result reply.new) }
    ensures kept { OnErr result (reply.new ≡ reply.old) }
    ensures memory { IfErr result (λ s. s ≡ stop.Memory) }
    ensures sound { (spec : Spec) → H.is_sound holder.old spec → H.is_sound holder.new spec }
{
    let read = EdgeRead::of(compiled, path.edge, path.mode);
    let fragment = holder.fragment(stripe);
    if find_row(fragment, &read, &call.args, &mut space.finder)?.is_some() {
        space.finder.spare.tell(reply, Reply::Present);
        return Ok(());
    }
    add_rows(
        holder,
        compiled,
        &call.args,
        &mut space.class_stripes,
        &mut space.places,
    )?;
    space.finder.spare.tell(reply, Reply::Inserted);
    Ok(())
}

/// Takes out the tuple that the row of the path's edge with the arguments' values is, if there is one, once it has the
/// stripes of the plan's late Locks, on which the tuple falls. Where memory is wanted or a take refused rows and reply stay.
pub(crate) fn remove_by_edge<H: Holder>(
    holder: &mut H,
    compiled: &Compiled,
    call: &Call,
    path: AccessPath,
    stripe: u32,
    space: &mut Workspace,
    reply: &mut Reply,
) -> Result<(), Stop>
    requires remove { (op_at compiled.now.spec call.now.op).kind ≡ kind.Remove }
    requires locked { HasLockedPath compiled.now call.now path stripe (H.seen holder.old) }
    requires stripes { AreStripesOf compiled.now.spec call.now.args space.old.class_stripes.items }
    requires sound { H.is_sound holder.old compiled.now.spec }
    requires lent { (lock : StripeLock) → IsNamedBy compiled.now.spec call.now.args (plan_at compiled.now.plans call.now.op) lock
        → MayTake (H.seen holder.old).lends lock.0 lock.1 }
    ensures run { HasRunCall compiled.now call.now (H.seen holder.old) (H.seen holder.new) (told_answer result reply.new) }
    ensures kept { OnErr result (reply.new ≡ reply.old) }
    ensures sound { (spec : Spec) → H.is_sound holder.old spec → H.is_sound holder.new spec }
{
    let alloc = space.alloc();
    let read = EdgeRead::of(compiled, path.edge, path.mode);
    let fragment = holder.fragment(stripe);
    let Some(removed) = find_tuple(alloc, fragment, &read, &call.args, &mut space.finder)? else {
        space.finder.spare.tell(reply, Reply::Absent);
        return Ok(());
    };
    // The stripes of the arguments are those of the tuple, which has their values.
    let stripes = &mut space.class_stripes;
    lock_found(holder, compiled, call, path, &removed, stripes)?;
    sub_rows(holder, compiled, &removed, stripes, &mut space.places)?;
    space.finder.spare.tell(reply, Reply::Removed(removed));
    Ok(())
}

/// Puts the call's tuple in the place of the one that the row of the path's edge with its values at the pattern is, if there
/// is one. Where memory is wanted the reply stays, and some rows may be changed; as taken they are what they were.
pub(crate) fn update_by_edge<H: Holder>(
    holder: &mut H,
    compiled: &Compiled,
    call: &Call,
    path: AccessPath,
    stripe: u32,
    space: &mut Workspace,
    reply: &mut Reply,
) -> Result<(), Stop>
    requires update { (op_at compiled.now.spec call.now.op).kind ≡ kind.Update }
    requires locked { HasLockedPath compiled.now call.now path stripe (H.seen holder.old) }
    requires sound { H.is_sound holder.old compiled.now.spec }
    ensures answered { HasAnsweredByPath compiled.now call.now (H.seen holder.old) (H.seen holder.new) (told_answer result reply.new) }
    ensures kept { OnErr result (reply.new ≡ reply.old) }
    ensures memory { IfErr result (λ s. s ≡ stop.Memory) }
    ensures sound { (spec : Spec) → H.is_sound holder.old spec → H.is_sound holder.new spec }
{
    let alloc = space.alloc();
    let read = EdgeRead::of(compiled, path.edge, path.mode);
    let fragment = holder.fragment(stripe);
    let Some(old) = find_tuple(alloc, fragment, &read, &call.args, &mut space.finder)? else {
        space.finder.spare.tell(reply, Reply::Absent);
        return Ok(());
    };
    replace(
        holder,
        compiled,
        &old,
        &call.args,
        &mut space.class_stripes,
        &mut space.places,
    )?;
    space.finder.spare.tell(reply, Reply::Updated(old));
    Ok(())
}

//! Apply: a tuple's rows added to all edges, or taken out of them.

ghost use Rattle.std.specs.Prelude.{◌≡◌, Some, IfOk, OnErr, OnOk};
ghost use Rattle.rc_tuple.specs.RisingSet.{In};
ghost use Rattle.rc_tuple.specs.Tuple.{Pairs};
ghost use Rattle.rc_spec.specs.Acceptance.{IsSealed};
ghost use Rattle.rc_spec.specs.CountedRows.{lowered, raised};
ghost use Rattle.rc_spec.specs.Fragments.{edge_numbers};
ghost use Rattle.rc_spec.specs.declared.spec.Spec.{Spec};
ghost use Rattle.rc_fragment.specs.Fragment.{edge_table};
ghost use Rattle.rc_fragment.specs.Holder.{held_of};
ghost use Rattle.rc_fragment.specs.Implied.{lowered_all, raised_all};
ghost use Rattle.rc_fragment.specs.Tuples.{CanAddTuple, HasTuple};
ghost use Rattle.rc_machine.specs.Applied.{AreTakenAlike, CanApply, CanInsert, CanRemove, CanReplace, HasApplied, HasRemoved, HasReplaced, replaced_in};
ghost use Rattle.rc_machine.specs.Apply.{ArePlaces, CanChange, IsSameButLent, all_changed, all_placed};
ghost use Rattle.rc_machine.specs.Stripes.{AreStripesOf};
ghost use Rattle.rc_machine.specs.declared.stripe.ClassStripe.{ClassStripe};

use crate::differing::differing;
use crate::places::{make_room, place_classes, place_classes_with};
use crate::stripe::ClassStripe;
use crate::workspace::Workspace;
use rc_fragment::Holder;
use rc_plan::Compiled;
use rc_spec::{OpKind, Reply};
use rc_tuple::{Memory, Tuple};
use std::alloc::Global;

/// Does what Apply says and answers. Where memory is wanted some rows may be changed; as taken they are what they were.
pub(crate) fn apply<H: Holder>(
    alloc: Global,
    holder: &mut H,
    compiled: &Compiled,
    kind: &OpKind,
    args: &Tuple,
    space: &mut Workspace,
) -> Result<Reply, Memory>
    requires sealed { IsSealed compiled.now.spec }
    requires table { (H.seen holder.old).table ≡ edge_table compiled.now.spec }
    requires can { CanApply compiled.now.spec kind.now args.now space.old.old_tuple space.old.bindings.tuples (held_of (H.seen holder.old)) }
    ensures ok { IfOk result (HasApplied compiled.now.spec kind.now args.now space.old.old_tuple space.old.bindings.tuples (held_of (H.seen holder.old)) (held_of (H.seen holder.new))) }
    ensures alike { OnErr result (AreTakenAlike (held_of (H.seen holder.old)) (held_of (H.seen holder.new))) }
    ensures lent { IsSameButLent (H.seen holder.old) (H.seen holder.new) }
    ensures sound { (spec : Spec) → H.is_sound holder.old spec → H.is_sound holder.new spec }
{
    match kind {
        OpKind::Query { .. } => unreachable!(),
        OpKind::Insert => {
            space.class_stripes.clear();
            add_rows(
                holder,
                compiled,
                args,
                &mut space.class_stripes,
                &mut space.places,
            )?;
            Ok(Reply::Inserted)
        }
        OpKind::Remove => remove_least(alloc, holder, compiled, space),
        OpKind::Update => replace_old(holder, compiled, args, space),
    }
}

/// Takes the rows of the least of the bindings out, if there is one. Where memory is wanted the rows stay.
fn remove_least<H: Holder>(
    alloc: Global,
    holder: &mut H,
    compiled: &Compiled,
    space: &mut Workspace,
) -> Result<Reply, Memory>
    requires sealed { IsSealed compiled.now.spec }
    requires table { (H.seen holder.old).table ≡ edge_table compiled.now.spec }
    requires can { (b : Pairs) → In b space.old.bindings.tuples → CanRemove compiled.now.spec b (held_of (H.seen holder.old)) }
    ensures ok { IfOk result (HasRemoved compiled.now.spec space.old.bindings.tuples (held_of (H.seen holder.old)) (held_of (H.seen holder.new))) }
    ensures err { OnErr result (held_of (H.seen holder.new) ≡ held_of (H.seen holder.old)) }
    ensures lent { IsSameButLent (H.seen holder.old) (H.seen holder.new) }
    ensures sound { (spec : Spec) → H.is_sound holder.old spec → H.is_sound holder.new spec }
{
    if space.bindings.is_empty() {
        return Ok(Reply::Absent);
    }
    let removed = space.bindings.get(0).tuple(alloc)?;
    space.class_stripes.clear();
    sub_rows(
        holder,
        compiled,
        &removed,
        &mut space.class_stripes,
        &mut space.places,
    )?;
    Ok(Reply::Removed(removed))
}

/// Puts the tuple in the place of the old one, which becomes the reply's, if there is one. Where memory is wanted some
/// rows may be changed.
fn replace_old<H: Holder>(
    holder: &mut H,
    compiled: &Compiled,
    args: &Tuple,
    space: &mut Workspace,
) -> Result<Reply, Memory>
    requires sealed { IsSealed compiled.now.spec }
    requires table { (H.seen holder.old).table ≡ edge_table compiled.now.spec }
    requires can { (o : Pairs) → space.old.old_tuple ≡ Some o → CanReplace compiled.now.spec o args.now (held_of (H.seen holder.old)) }
    ensures ok { IfOk result (HasReplaced compiled.now.spec args.now space.old.old_tuple (held_of (H.seen holder.old)) (held_of (H.seen holder.new))) }
    ensures alike { OnErr result (AreTakenAlike (held_of (H.seen holder.old)) (held_of (H.seen holder.new))) }
    ensures lent { IsSameButLent (H.seen holder.old) (H.seen holder.new) }
    ensures sound { (spec : Spec) → H.is_sound holder.old spec → H.is_sound holder.new spec }
{
    let Some(old) = space.old_tuple.take() else {
        return Ok(Reply::Absent);
    };
    replace(
        holder,
        compiled,
        &old,
        args,
        &mut space.class_stripes,
        &mut space.places,
    )?;
    Ok(Reply::Updated(old))
}

/// Takes the old tuple's rows out and adds the new one's, in the classes of which they don't have all rows alike. Where
/// memory is wanted some rows may be changed.
pub(crate) fn replace<H: Holder>(
    holder: &mut H,
    compiled: &Compiled,
    old: &Tuple,
    args: &Tuple,
    stripes: &mut Vec<ClassStripe>,
    places: &mut Vec<ClassStripe>,
) -> Result<(), Memory>
    requires sealed { IsSealed compiled.now.spec }
    requires table { (H.seen holder.old).table ≡ edge_table compiled.now.spec }
    requires can { CanReplace compiled.now.spec old.now args.now (held_of (H.seen holder.old)) }
    ensures ok { OnOk result (held_of (H.seen holder.new) ≡ replaced_in compiled.now.spec old.now args.now (held_of (H.seen holder.old))) }
    ensures alike { OnErr result (AreTakenAlike (held_of (H.seen holder.old)) (held_of (H.seen holder.new))) }
    ensures lent { IsSameButLent (H.seen holder.old) (H.seen holder.new) }
    ensures sound { (spec : Spec) → H.is_sound holder.old spec → H.is_sound holder.new spec }
{
    let cols = differing(old, args);
    stripes.clear();
    place_classes_with(compiled, cols, old, stripes, places)?;
    sub_placed(holder, compiled, places, old)?;
    stripes.clear();
    place_classes_with(compiled, cols, args, stripes, places)?;
    add_placed(holder, compiled, places, args)
}

/// Adds the tuple's row to each edge, on the stripe on which it falls. Where memory is wanted some rows may be added; as
/// taken they are what they were.
pub(crate) fn add_rows<H: Holder>(
    holder: &mut H,
    compiled: &Compiled,
    tuple: &Tuple,
    stripes: &mut Vec<ClassStripe>,
    places: &mut Vec<ClassStripe>,
) -> Result<(), Memory>
    requires sealed { IsSealed compiled.now.spec }
    requires table { (H.seen holder.old).table ≡ edge_table compiled.now.spec }
    requires stripes { AreStripesOf compiled.now.spec tuple.now stripes.old.items }
    requires can { CanInsert compiled.now.spec tuple.now (held_of (H.seen holder.old)) }
    ensures ok { OnOk result (held_of (H.seen holder.new) ≡ all_changed raised compiled.now.spec tuple.now (edge_numbers compiled.now.spec) (held_of (H.seen holder.old))) }
    ensures alike { OnErr result (AreTakenAlike (held_of (H.seen holder.old)) (held_of (H.seen holder.new))) }
    ensures lent { IsSameButLent (H.seen holder.old) (H.seen holder.new) }
    ensures sound { (spec : Spec) → H.is_sound holder.old spec → H.is_sound holder.new spec }
{
    place_classes(compiled, tuple, stripes, places)?;
    add_placed(holder, compiled, places, tuple)
}

/// Takes the tuple's row out of each edge, on the stripe on which it falls. Where memory is wanted the rows stay.
pub(crate) fn sub_rows<H: Holder>(
    holder: &mut H,
    compiled: &Compiled,
    tuple: &Tuple,
    stripes: &mut Vec<ClassStripe>,
    places: &mut Vec<ClassStripe>,
) -> Result<(), Memory>
    requires sealed { IsSealed compiled.now.spec }
    requires table { (H.seen holder.old).table ≡ edge_table compiled.now.spec }
    requires stripes { AreStripesOf compiled.now.spec tuple.now stripes.old.items }
    requires can { CanRemove compiled.now.spec tuple.now (held_of (H.seen holder.old)) }
    ensures ok { OnOk result (held_of (H.seen holder.new) ≡ all_changed lowered compiled.now.spec tuple.now (edge_numbers compiled.now.spec) (held_of (H.seen holder.old))) }
    ensures err { OnErr result (held_of (H.seen holder.new) ≡ held_of (H.seen holder.old)) }
    ensures lent { IsSameButLent (H.seen holder.old) (H.seen holder.new) }
    ensures sound { (spec : Spec) → H.is_sound holder.old spec → H.is_sound holder.new spec }
{
    place_classes(compiled, tuple, stripes, places)?;
    sub_placed(holder, compiled, places, tuple)
}

/// Adds the tuple's row to each edge of each class, on its stripe. Where memory is wanted some rows may be added; as taken
/// they are what they were.
pub(crate) fn add_placed<H: Holder>(
    holder: &mut H,
    compiled: &Compiled,
    places: &[ClassStripe],
    tuple: &Tuple,
) -> Result<(), Memory>
    requires sealed { IsSealed compiled.now.spec }
    requires table { (H.seen holder.old).table ≡ edge_table compiled.now.spec }
    requires places { ArePlaces compiled.now.spec places.now }
    requires can { (p : ClassStripe) → In p places.now → CanChange CanAddTuple (H.seen holder.old).table (held_of (H.seen holder.old)) tuple.now p }
    ensures ok { OnOk result (held_of (H.seen holder.new) ≡ all_placed raised_all (H.seen holder.old).table tuple.now places.now (held_of (H.seen holder.old))) }
    ensures alike { OnErr result (AreTakenAlike (held_of (H.seen holder.old)) (held_of (H.seen holder.new))) }
    ensures lent { IsSameButLent (H.seen holder.old) (H.seen holder.new) }
    ensures sound { (spec : Spec) → H.is_sound holder.old spec → H.is_sound holder.new spec }
{
    make_room(holder, compiled, places)?;
    for place in places {
        holder.add_tuple(place.stripe, place.class, tuple)?;
    }
    Ok(())
}

/// Takes the tuple's row out of each edge of each class, on its stripe. Where memory is wanted the rows stay.
fn sub_placed<H: Holder>(
    holder: &mut H,
    compiled: &Compiled,
    places: &[ClassStripe],
    tuple: &Tuple,
) -> Result<(), Memory>
    requires sealed { IsSealed compiled.now.spec }
    requires table { (H.seen holder.old).table ≡ edge_table compiled.now.spec }
    requires places { ArePlaces compiled.now.spec places.now }
    requires can { (p : ClassStripe) → In p places.now → CanChange HasTuple (H.seen holder.old).table (held_of (H.seen holder.old)) tuple.now p }
    ensures ok { OnOk result (held_of (H.seen holder.new) ≡ all_placed lowered_all (H.seen holder.old).table tuple.now places.now (held_of (H.seen holder.old))) }
    ensures err { OnErr result (held_of (H.seen holder.new) ≡ held_of (H.seen holder.old)) }
    ensures lent { IsSameButLent (H.seen holder.old) (H.seen holder.new) }
    ensures sound { (spec : Spec) → H.is_sound holder.old spec → H.is_sound holder.new spec }
{
    make_room(holder, compiled, places)?;
    for place in places {
        holder.sub_tuple(place.stripe, place.class, tuple);
    }
    Ok(())
}

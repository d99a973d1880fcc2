//! The classes of the edges in which a tuple's rows change, each with the stripe on which the tuple falls, and room for the
//! changes.

ghost use Rattle.std.specs.Prelude.{◌≡◌, ◌==◌, ◌<◌, ◌++◌, ◌∷◌, [], length, map, OnOk};
ghost use Rattle.std.specs.List.{list_any};
ghost use Rattle.rc_tuple.specs.RisingSet.{In};
ghost use Rattle.rc_tuple.specs.ColSet.{Within};
ghost use Rattle.rc_tuple.specs.Tuple.{cols_of};
ghost use Rattle.rc_spec.specs.Acceptance.{IsSealed};
ghost use Rattle.rc_spec.specs.Calls.{all_columns};
ghost use Rattle.rc_spec.specs.Fragments.{edge_numbers};
ghost use Rattle.rc_spec.specs.Placement.{class_at, class_of};
ghost use Rattle.rc_spec.specs.declared.spec.Spec.{Spec};
ghost use Rattle.rc_fragment.specs.Fragment.{edge_table};
ghost use Rattle.rc_fragment.specs.Holder.{IsHeldExclusive, held_of};
ghost use Rattle.rc_machine.specs.Apply.{HaveRoom, IsSameButLent, edges_with, place_in, with_place};
ghost use Rattle.rc_plan.specs.EdgeClasses.{class_edges, classes_of};
ghost use Rattle.rc_machine.specs.Stripes.{AreStripesOf};
ghost use Rattle.rc_machine.specs.declared.stripe.ClassStripe.{ClassStripe};

use crate::stripe::{ClassStripe, find_stripe};
use rc_fragment::Holder;
use rc_plan::Compiled;
use rc_tuple::{ColSet, Memory, Tuple};

/// Makes the places the classes of all edges, each once, with the stripe on which the tuple falls. The stripes are those of
/// the tuple that were found; each class's is found once. Memory is taken only where the places or the stripes had room for
/// fewer classes.
pub(crate) fn place_classes(
    compiled: &Compiled,
    tuple: &Tuple,
    stripes: &mut Vec<ClassStripe>,
    places: &mut Vec<ClassStripe>,
) -> Result<(), Memory>
    requires sealed { IsSealed compiled.now.spec }
    requires whole { cols_of tuple.now ≡ all_columns compiled.now.spec }
    requires stripes { AreStripesOf compiled.now.spec tuple.now stripes.old.items }
    ensures { OnOk result (places.new.items ≡ map (place_in compiled.now.spec tuple.now) (classes_of compiled.now.spec (edge_numbers compiled.now.spec))) }
{
    places.clear();
    for class in compiled.edge_classes() {
        push_place(compiled, *class, tuple, stripes, places)?;
    }
    Ok(())
}

/// Makes the places those classes, with that of the edge first.
pub(crate) fn place_classes_from(
    compiled: &Compiled,
    edge: u8,
    tuple: &Tuple,
    stripes: &mut Vec<ClassStripe>,
    places: &mut Vec<ClassStripe>,
) -> Result<(), Memory>
    requires sealed { IsSealed compiled.now.spec }
    requires known { edge < length compiled.now.spec.edges }
    requires whole { cols_of tuple.now ≡ all_columns compiled.now.spec }
    requires stripes { AreStripesOf compiled.now.spec tuple.now stripes.old.items }
    ensures { OnOk result (places.new.items ≡ map (place_in compiled.now.spec tuple.now) (classes_of compiled.now.spec (edge ∷ edge_numbers compiled.now.spec))) }
{
    places.clear();
    let first = compiled.edge(edge).class;
    push_place(compiled, first, tuple, stripes, places)?;
    for class in compiled.edge_classes() {
        if *class != first {
            push_place(compiled, *class, tuple, stripes, places)?;
        }
    }
    Ok(())
}

/// Makes the places the classes of the edges whose target has one of the columns, as `place_classes` makes them those of
/// all edges.
pub(crate) fn place_classes_with(
    compiled: &Compiled,
    cols: ColSet,
    tuple: &Tuple,
    stripes: &mut Vec<ClassStripe>,
    places: &mut Vec<ClassStripe>,
) -> Result<(), Memory>
    requires sealed { IsSealed compiled.now.spec }
    requires whole { cols_of tuple.now ≡ all_columns compiled.now.spec }
    requires stripes { AreStripesOf compiled.now.spec tuple.now stripes.old.items }
    ensures { OnOk result (places.new.items ≡ map (place_in compiled.now.spec tuple.now) (classes_of compiled.now.spec (edges_with compiled.now.spec cols))) }
{
    places.clear();
    let all = compiled.accepted().spec().edges.list().len();
    for edge in 0..all as u8 {
        if compiled.edge(edge).target.inter(cols).is_empty() {
            continue;
        }
        place_class(compiled, edge, tuple, stripes, places)?;
    }
    Ok(())
}

/// Adds the edge's class to the places, with the stripe on which the tuple falls, where it isn't among them.
fn place_class(
    compiled: &Compiled,
    edge: u8,
    tuple: &Tuple,
    stripes: &mut Vec<ClassStripe>,
    places: &mut Vec<ClassStripe>,
) -> Result<(), Memory>
    requires sealed { IsSealed compiled.now.spec }
    requires known { edge < length compiled.now.spec.edges }
    requires whole { cols_of tuple.now ≡ all_columns compiled.now.spec }
    requires stripes { AreStripesOf compiled.now.spec tuple.now stripes.old.items }
    ensures places { OnOk result (places.new.items ≡ with_place compiled.now.spec tuple.now places.old.items (class_of compiled.now.spec edge)) }
    ensures stripes { AreStripesOf compiled.now.spec tuple.now stripes.new.items }
{
    let class = compiled.edge(edge).class;
    if has_class(places, class) {
        return Ok(());
    }
    push_place(compiled, class, tuple, stripes, places)
}

/// Adds the class to the places, with the stripe on which the tuple falls.
fn push_place(
    compiled: &Compiled,
    class: u8,
    tuple: &Tuple,
    stripes: &mut Vec<ClassStripe>,
    places: &mut Vec<ClassStripe>,
) -> Result<(), Memory>
    requires sealed { IsSealed compiled.now.spec }
    requires known { class < length compiled.now.spec.classes }
    requires within { Within (class_at compiled.now.spec class).cols (cols_of tuple.now) }
    requires stripes { AreStripesOf compiled.now.spec tuple.now stripes.old.items }
    ensures places { OnOk result (places.new.items ≡ places.old.items ++ place_in compiled.now.spec tuple.now class ∷ []) }
    ensures stripes { AreStripesOf compiled.now.spec tuple.now stripes.new.items }
{
    let stripe = find_stripe(compiled, class, tuple, stripes)?;
    places.push(ClassStripe { class, stripe })?;
    Ok(())
}

/// Whether one of the places is of the class.
fn has_class(places: &[ClassStripe], class: u8) -> bool
    ensures { result ≡ list_any (λ p. p.class == class) places.now }
{
    places.iter().any(|place| place.class == class)
}

/// Makes room on the stripe of each class for the changes of a tuple. No row changes.
pub(crate) fn make_room<H: Holder>(
    holder: &mut H,
    compiled: &Compiled,
    places: &[ClassStripe],
) -> Result<(), Memory>
    requires sealed { IsSealed compiled.now.spec }
    requires table { (H.seen holder.old).table ≡ edge_table compiled.now.spec }
    requires exclusive { (p : ClassStripe) → In p places.now → IsHeldExclusive (held_of (H.seen holder.old)) p.stripe }
    requires used { (p : ClassStripe) → In p places.now → 0 < length (class_edges compiled.now.spec p.class) }
    ensures room { OnOk result (HaveRoom places.now (H.seen holder.new)) }
    ensures held { held_of (H.seen holder.new) ≡ held_of (H.seen holder.old) }
    ensures lent { IsSameButLent (H.seen holder.old) (H.seen holder.new) }
    ensures sound { (spec : Spec) → H.is_sound holder.old spec → H.is_sound holder.new spec }
{
    for place in places {
        holder.own(place.stripe, compiled.edge_count(place.class))?;
    }
    Ok(())
}

//! The classes that a write locks.

ghost use Rattle.std.specs.Prelude.{◌≡◌};
ghost use Rattle.rc_spec.specs.InRange.{IsInRange};
ghost use Rattle.rc_spec.specs.Placement.{IsPlaced};
ghost use Rattle.rc_query.specs.Planned.{written_classes};

use rc_query::ClassSet;
use rc_spec::Spec;

/// The classes that have an edge.
pub(crate) fn written_classes(spec: &Spec) -> ClassSet
    requires range { IsInRange spec.now }
    requires placed { IsPlaced spec.now }
    ensures { result ≡ written_classes spec.now }
{
    let mut classes = ClassSet::empty();
    for edge in 0..spec.edges.list().len() as u8 {
        classes = classes.with(spec.class_of(edge));
    }
    classes
}

//! The lock classes of a specification's edges, found once for all calls.

ghost use Rattle.std.specs.Prelude.{◌≡◌, ◌+◌, ◌<◌, ◌≤◌, length, take};
ghost use Rattle.rc_plan.specs.EdgeClasses.{AreEdgeClasses, AreEdgeCounts, class_edges, classes_kept, with_class};

use rc_spec::{Accepted, MAX_CLASSES, MAX_EDGES, Spec};

/// The lock classes of a specification's edges, and how many edges each has: an Apply changes a tuple's rows class by class,
/// and makes room for as many changes on a class's stripe as the class has edges.
#[derive(Clone, Copy, Debug)]
pub(crate) struct EdgeClasses {
    /// The classes of all edges, each once, in the order in which the edges come to them. What stands behind the last is of no
    /// matter.
    pub(crate) classes: [u8; MAX_EDGES],
    /// How many these are.
    pub(crate) len: usize,
    /// How many edges each class has, by its number. What stands behind the last is of no matter.
    pub(crate) counts: [u16; MAX_CLASSES],
}

impl EdgeClasses {
    /// The classes, in their order.
    pub(crate) fn classes(&self) -> &[u8]
        requires { self.now.len ≤ length self.now.classes }
        ensures { result.now ≡ classes_kept self.now }
    {
        &self.classes[..self.len]
    }

    /// Adds the class, where it isn't there.
    fn add(&mut self, class: u8)
        requires { self.old.len < length self.old.classes }
        ensures classes { classes_kept self.new ≡ with_class (classes_kept self.old) class }
        ensures most { self.new.len ≤ self.old.len + 1 }
        ensures same { (self.new.counts ≡ self.old.counts) × (length self.new.classes ≡ length self.old.classes) }
    {
        if self.classes().contains(&class) {
            return;
        }
        self.classes[self.len] = class;
        self.len += 1;
    }
}

/// The classes of all edges. Costs a walk over the edges for each class, and one over the placements for each edge of it.
pub(crate) fn edge_classes(accepted: &Accepted) -> EdgeClasses
    ensures { AreEdgeClasses accepted.now result }
{
    let spec = accepted.spec();
    let mut found = EdgeClasses {
        classes: [0; MAX_EDGES],
        len: 0,
        counts: edge_counts(accepted),
    };
    for edge in 0..spec.edges.list().len() as u8 {
        found.add(spec.class_of(edge));
    }
    found
}

/// How many edges each class has, by its number.
fn edge_counts(accepted: &Accepted) -> [u16; MAX_CLASSES]
    ensures { AreEdgeCounts accepted.now result }
{
    let spec = accepted.spec();
    let mut counts = [0; MAX_CLASSES];
    for class in 0..spec.classes.list().len() as u8 {
        counts[class as usize] = edge_count(spec, class);
    }
    counts
}

/// How many edges the class has.
fn edge_count(spec: &Spec, class: u8) -> u16
    requires { length spec.now.edges ≤ 24 }
    ensures { result ≡ length (class_edges spec.now class) }
{
    let mut count = 0;
    for edge in 0..spec.edges.list().len() as u8 {
        if spec.class_of(edge) == class {
            count += 1;
        }
    }
    count
}

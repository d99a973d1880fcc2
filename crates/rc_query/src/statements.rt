//! The parts of plans: locks, reads and the end.

ghost use Rattle.std.specs.Prelude.{◌≡◌, ◌+◌, ◌++◌, ℕ, ◌<◌, length, IfOk, OnOk};
ghost use Rattle.std.specs.List.{range_with_len};
ghost use Rattle.rc_tuple.specs.RisingSet.{In};
ghost use Rattle.rc_spec.specs.InRange.{IsInRange};
ghost use Rattle.rc_spec.specs.Placement.{IsPlaced};
ghost use Rattle.rc_spec.specs.Decomposition.{target_columns};
ghost use Rattle.rc_query.specs.Planned.{classes_of_edges, ending, left_after, locks, locks_and_reads, read_mode_where, which_where};

use rc_plan::{Plan, ReadMode, Statement, Which};
use rc_spec::{Mode, Spec};
use rc_tuple::{ColSet, Memory};

/// A set of numbers of lock classes. They are below 16, and the set takes numbers below 32.
pub type ClassSet = ColSet;

/// The classes of some edges.
pub fn classes_of_edges(spec: &Spec, edges: &[u8]) -> ClassSet
    requires known { (e : ℕ) → In e edges.now → e < length spec.now.edges }
    requires range { IsInRange spec.now }
    requires placed { IsPlaced spec.now }
    ensures { result ≡ classes_of_edges spec.now edges.now }
{
    let mut classes = ClassSet::empty();
    for edge in edges {
        classes = classes.with(spec.class_of(*edge));
    }
    classes
}

/// The stripes of a class that a lock takes where some columns are bound: keyed where they choose a stripe, else all.
fn which_where(spec: &Spec, columns: ColSet, class: u8) -> Which
    requires { class < length spec.now.classes }
    ensures { result ≡ which_where spec.now columns class }
{
    if spec.class(class).cols.within(columns) {
        Which::Keyed
    } else {
        Which::All
    }
}

/// How an edge is read where some columns are bound: by look-up where they have its key, else by scan.
fn read_mode_where(spec: &Spec, columns: ColSet, edge: u8) -> ReadMode
    requires { edge < length spec.now.edges }
    ensures { result ≡ read_mode_where spec.now columns edge }
{
    if spec.edge(edge).key.within(columns) {
        ReadMode::Lookup
    } else {
        ReadMode::Scan
    }
}

/// The columns that the target of an edge binds.
#[tactic(auto, using(rc_spec::specs::DecompositionLaws::edge_known))]
fn target_columns(spec: &Spec, edge: u8) -> ColSet
    requires known { edge < length spec.now.edges }
    requires range { IsInRange spec.now }
    ensures { result ≡ target_columns spec.now edge }
{
    spec.bound(spec.edge(edge).to)
}

/// Appends a lock of each class in a mode, rising, where some columns are bound.
fn push_locks(
    plan: &mut Plan,
    spec: &Spec,
    mode: Mode,
    columns: ColSet,
    classes: ClassSet,
) -> Result<(), Memory>
    requires { (c : ℕ) → In c classes → c < length spec.now.classes }
    ensures { OnOk result (plan.new ≡ plan.old ++ locks mode (which_where spec.now columns) classes) }
{
    for place in 0..classes.len() {
        let class = classes.nth(place).unwrap();
        let which = which_where(spec, columns, class);
        plan.push(Statement::Lock { class, which, mode })?;
    }
    Ok(())
}

/// The classes up to one.
#[tactic(auto, using(rc_tuple::specs::ColSetLaws::range_with_next))]
fn classes_up_to(class: u8) -> ClassSet
    requires { class < 32 }
    ensures { result ≡ range_with_len 0 (class + 1) }
{
    let mut classes = ClassSet::empty();
    for number in 0..class + 1 {
        classes = classes.with(number);
    }
    classes
}

/// Appends the locks and reads of a route, where some columns are bound and some classes are left to be locked in a mode:
/// before each read those that aren't after its edge's class are locked, rising. Answers the classes that are left then.
pub fn push_locks_and_reads(
    plan: &mut Plan,
    spec: &Spec,
    mode: Mode,
    columns: ColSet,
    classes: ClassSet,
    route: &[u8],
) -> Result<ClassSet, Memory>
    requires edges { (e : ℕ) → In e route.now → e < length spec.now.edges }
    requires classes { (c : ℕ) → In c classes → c < length spec.now.classes }
    requires range { IsInRange spec.now }
    requires placed { IsPlaced spec.now }
    ensures plan { OnOk result (plan.new ≡ plan.old ++ locks_and_reads spec.now mode columns classes route.now) }
    ensures left { IfOk result (λ left. left ≡ left_after spec.now classes route.now) }
{
    let mut columns = columns;
    let mut left = classes;
    for edge in route {
        let due = classes_up_to(spec.class_of(*edge));
        push_locks(plan, spec, mode, columns, left.inter(due))?;
        left = left.minus(due);
        plan.push(Statement::Read {
            edge: *edge,
            mode: read_mode_where(spec, columns, *edge),
        })?;
        columns = columns.union(target_columns(spec, *edge));
    }
    Ok(left)
}

/// Appends the end of a plan: its write or answer, the commit, and the releases of its classes, falling.
pub fn push_ending(plan: &mut Plan, last: Statement, classes: ClassSet) -> Result<(), Memory>
    ensures { OnOk result (plan.new ≡ plan.old ++ ending last classes) }
{
    plan.push(last)?;
    plan.push(Statement::Commit)?;
    let mut place = classes.len();
    while place > 0 {
        place -= 1;
        let class = classes.nth(place).unwrap();
        plan.push(Statement::Release { class })?;
    }
    Ok(())
}

//! What is known of a run before a statement, in values of fixed size.

ghost use Rattle.std.specs.Prelude.{◌≡◌, ℕ, ◌<◌, ◌↔◌, ◌∷◌, length, IsTrue, Some};
ghost use Rattle.rc_tuple.specs.RisingSet.{In};
ghost use Rattle.rc_tuple.specs.ColSet.{Within, union};
ghost use Rattle.rc_spec.specs.Decomposition.{bound};
ghost use Rattle.rc_spec.specs.InRange.{IsInRange, IsOpAmong};
ghost use Rattle.rc_plan.specs.PlanRules.{Phase, Progress, IsKnown, IsLocked, IsComplete, after, at_start, given_columns, pattern_columns};
ghost use Rattle.rc_check.specs.Sets.{sets_of};

use crate::phases::gives_tuple;
use rc_plan::{Statement, Which};
use rc_spec::{Op, Spec};
use rc_tuple::ColSet;

/// A set of node numbers, which are below 16. The set takes numbers below 32.
type NodeSet = ColSet;

/// A set of class numbers, which are below 16.
type ClassSet = ColSet;

/// A set of places in the list of dependencies, which are below 32.
type DepSet = ColSet;

/// How far a run has come.
#[derive(Clone, Copy, Debug, PartialEq, Eq)]
pub(crate) enum Stage {
    /// Before the write or the answer.
    Searching,
    /// Between the write or the answer and the commit.
    Decided,
    /// After the commit.
    Committed,
}

/// What is known of a run before a statement. Sets stand for the lists of what has come, and for the order of classes
/// and dependencies the least number above all that have come.
#[derive(Clone, Copy, Debug)]
pub(crate) struct ProgressSets {
    pub(crate) stage: Stage,
    /// The columns that the bindings have at least.
    pub(crate) columns: ColSet,
    /// The columns visited since the start or the last Probe.
    pub(crate) visited: ColSet,
    /// The targets of the edges read since the start or the last Probe.
    pub(crate) reached: NodeSet,
    /// The classes of which the stripes of the bindings are locked.
    pub(crate) keyed: ClassSet,
    /// The classes of which all stripes are locked.
    pub(crate) whole: ClassSet,
    pub(crate) released: ClassSet,
    /// The least class above all that are locked.
    pub(crate) next_class: u8,
    /// The columns of the last Probe.
    pub(crate) probe: Option<ColSet>,
    /// Whether CheckAbsent or CheckFound has come.
    pub(crate) sought: bool,
    /// The dependencies checked, by their places in the list.
    pub(crate) checked: DepSet,
    /// The least dependency above all that are checked.
    pub(crate) next_dep: u32,
}

/// The pattern's columns, as a set.
pub(crate) fn pattern_of(spec: &Spec, op: &Op) -> ColSet
    requires range { IsInRange spec.now }
    requires known { IsOpAmong (length spec.now.columns) op.now }
    ensures { result ≡ pattern_columns op.now }
{
    ColSet::from_list(op.pattern.list())
}

/// The columns of a call's tuple: an insert and an update have all, a query and a remove have the pattern's.
fn columns_given(spec: &Spec, op: &Op) -> ColSet
    requires range { IsInRange spec.now }
    requires known { IsOpAmong (length spec.now.columns) op.now }
    ensures { result ≡ given_columns spec.now op.now }
{
    if gives_tuple(&op.kind) {
        spec.all_columns()
    } else {
        pattern_of(spec, op)
    }
}

impl ProgressSets {
    /// What is known before the first statement.
    pub(crate) fn at_start(spec: &Spec, op: &Op) -> ProgressSets
        requires range { IsInRange spec.now }
        requires known { IsOpAmong (length spec.now.columns) op.now }
        ensures { result ≡ sets_of (at_start spec.now op.now) }
    {
        ProgressSets {
            stage: Stage::Searching,
            columns: columns_given(spec, op),
            visited: ColSet::empty(),
            reached: NodeSet::empty(),
            keyed: ClassSet::empty(),
            whole: ClassSet::empty(),
            released: ClassSet::empty(),
            next_class: 0,
            probe: None,
            sought: false,
            checked: DepSet::empty(),
            next_dep: 0,
        }
    }

    /// With a class locked.
    fn after_lock(self, class: u8, which: Which) -> ProgressSets
        requires { class < 32 }
        ensures { (p : Progress) → self ≡ sets_of p → result ≡ sets_of (record p { locked = (class, which) ∷ p.locked }) }
    {
        let next_class = self.next_class.max(class + 1);
        match which {
            Which::Keyed => ProgressSets {
                keyed: self.keyed.with(class),
                next_class,
                ..self
            },
            Which::All => ProgressSets {
                whole: self.whole.with(class),
                next_class,
                ..self
            },
        }
    }

    /// With an edge read that ends at the node.
    fn after_read(self, spec: &Spec, target: u8) -> ProgressSets
        requires few { target < 32 }
        requires known { target < length spec.now.nodes }
        ensures { (p : Progress) → self ≡ sets_of p → result ≡ sets_of (record p {
          columns = union p.columns (bound spec.now target);
          visited = union p.visited (bound spec.now target);
          reached = target ∷ p.reached;
        }) }
    {
        let target_columns = spec.bound(target);
        ProgressSets {
            columns: self.columns.union(target_columns),
            visited: self.visited.union(target_columns),
            reached: self.reached.with(target),
            ..self
        }
    }

    /// What is known after a statement.
    pub(crate) fn after(self, spec: &Spec, statement: &Statement) -> ProgressSets
        requires range { IsInRange spec.now }
        requires known { IsKnown spec.now statement.now }
        ensures { (p : Progress) → self ≡ sets_of p → result ≡ sets_of (after spec.now p statement.now) }
    {
        match *statement {
            Statement::Lock { class, which, .. } => self.after_lock(class, which),
            Statement::Probe { cols } => ProgressSets {
                columns: cols,
                visited: ColSet::empty(),
                reached: NodeSet::empty(),
                probe: Some(cols),
                ..self
            },
            Statement::Read { edge, .. } => { self.after_read(spec, spec.edge(edge).to) }
            Statement::CheckAbsent | Statement::CheckFound => ProgressSets {
                sought: true,
                ..self
            },
            Statement::CheckDep { dep } => ProgressSets {
                checked: self.checked.with(dep as u8 - 1),
                next_dep: self.next_dep.max(dep + 1),
                ..self
            },
            Statement::Apply | Statement::Emit => ProgressSets {
                stage: Stage::Decided,
                ..self
            },
            Statement::Commit => ProgressSets {
                stage: Stage::Committed,
                ..self
            },
            Statement::Release { class } => ProgressSets {
                released: self.released.with(class),
                ..self
            },
        }
    }

    /// Whether the write or the answer is still to come.
    pub(crate) fn is_searching(&self) -> bool
        ensures { (p : Progress) → self.now ≡ sets_of p → IsTrue result ↔ (p.phase ≡ Phase.Searching) }
    {
        self.stage == Stage::Searching
    }

    /// Whether the commit has come.
    pub(crate) fn is_committed(&self) -> bool
        ensures { (p : Progress) → self.now ≡ sets_of p → IsTrue result ↔ (p.phase ≡ Phase.Committed) }
    {
        self.stage == Stage::Committed
    }

    /// Whether the class is locked.
    pub(crate) fn has_locked(&self, class: u8) -> bool
        ensures { (p : Progress) → self.now ≡ sets_of p → IsTrue result ↔ IsLocked p class }
    {
        self.keyed.has(class) || self.whole.has(class)
    }

    /// Whether the last Probe has these columns.
    pub(crate) fn has_probed_for(&self, cols: ColSet) -> bool
        ensures { (p : Progress) → self.now ≡ sets_of p → IsTrue result ↔ (p.probe ≡ Some cols) }
    {
        match self.probe {
            Some(probe) => probe.equals(cols),
            None => false,
        }
    }

    /// Whether the last Probe has these columns, and they are visited.
    pub(crate) fn has_found(&self, cols: ColSet) -> bool
        ensures { (p : Progress) → self.now ≡ sets_of p → IsTrue result ↔ ((p.probe ≡ Some cols) × Within cols p.visited) }
    {
        match self.probe {
            Some(probe) => probe.equals(cols) && cols.within(self.visited),
            None => false,
        }
    }

    /// Whether each locked class is released.
    fn has_released_all(&self) -> bool
        ensures { (p : Progress) → self.now ≡ sets_of p → IsTrue result ↔ ((c : ℕ) → IsLocked p c → In c p.released) }
    {
        self.keyed.within(self.released) && self.whole.within(self.released)
    }

    /// Whether a plan may end: the commit has come, and each locked class is released.
    pub(crate) fn is_complete(&self) -> bool
        ensures { (p : Progress) → self.now ≡ sets_of p → IsTrue result ↔ IsComplete p }
    {
        self.is_committed() && self.has_released_all()
    }
}

//! How the calls of operations are answered.

ghost use Rattle.std.specs.Prelude.{◌≡◌, ◌+◌, ◌<◌, ◌≤◌, ◌++◌, ◌↔◌, [], false, IfSome, IsTrue, None, drop, length, take, true};
ghost use Rattle.std.specs.List.{list_all, list_any};
ghost use Rattle.rc_tuple.specs.ColSet.{Within, union};
ghost use Rattle.rc_spec.specs.Acceptance.{IsSealed};
ghost use Rattle.rc_spec.specs.Decomposition.{edge_at};
ghost use Rattle.rc_spec.specs.InRange.{AreBelow};
ghost use Rattle.rc_spec.specs.Placement.{class_at};
ghost use Rattle.rc_spec.specs.declared.items.OpKind.TheVariants.{Query};
ghost use Rattle.rc_plan.specs.Access.{AreAccessPaths, AreLate, Asks, AsksFor, AsksQuery, InsertsRow, IsAccessPath, IsLate, IsLockedFirst, IsPathOf, MayBeLate, RemovesRow, UpdatesRow, is_dep_check, is_given_lock, is_lock, is_lock_of, is_read_of};
ghost use Rattle.rc_plan.specs.Compiled.{ArePlansOf};
ghost use Rattle.rc_plan.specs.PlanRules.{AreKnown, IsKnown, given_columns, pattern_columns};
ghost use Rattle.rc_plan.specs.Resolved.{AreResolvedEdges};

use crate::{Plan, ReadMode, ResolvedEdge, Statement, Which};
use rc_spec::{Accepted, MAX_EDGES, Op, OpKind, Spec};
use rc_tuple::{ColSet, Cols};

/// The most operations of a specification.
pub(crate) const MAX_OPS: usize = 64;

/// An edge from whose rows, on the stripe on which the arguments fall, the calls of an operation are answered. (Access
/// paths: Selinger et al., SIGMOD 1979; query plans: PLDI 2011.)
#[derive(Clone, Copy, Debug)]
pub struct AccessPath {
    /// The edge, from 0.
    pub edge: u8,
    /// How its rows are found: by a look-up, where the operation's pattern is its source and key, or by a scan, where the
    /// pattern is its source and a query asks for key and extra columns.
    pub mode: ReadMode,
    /// With how many Locks the plan begins: each takes the stripe on which the arguments fall, or all stripes of its class.
    pub locks: usize,
    /// How many statements follow up to the last Lock of all: none, but in a remove that locks further classes once the
    /// edge is read. There they are Reads and Locks, each of which takes the stripe on which the row found falls, where one
    /// is.
    pub late: usize,
    /// Whether it is a query's that asks for just the edge's extra columns, in column order: then they are the row that a
    /// look-up answers.
    pub extra_alone: bool,
}

/// The path of each operation that has one, by the number of the operation. What stands behind the last is of no matter.
/// Costs, for each operation, a walk over its plan for each edge that the plan reads, and in a remove that locks further
/// classes one more for each such Lock.
pub(crate) fn access_paths(
    accepted: &Accepted,
    plans: &[Plan],
    edges: &[ResolvedEdge; MAX_EDGES],
) -> [Option<AccessPath>; MAX_OPS]
    requires planned { ArePlansOf accepted.now plans.now }
    requires resolved { AreResolvedEdges accepted.now edges.now }
    ensures { AreAccessPaths accepted.now plans.now result }
{
    let spec = accepted.spec();
    let mut paths = [None; MAX_OPS];
    for op in 0..spec.ops.list().len() as u8 {
        paths[op as usize] = access_path(spec, edges, spec.op(op), plans[op as usize].list());
    }
    paths
}

/// The path of an operation's calls by the last edge that its plan reads and that has one.
fn access_path(
    spec: &Spec,
    edges: &[ResolvedEdge; MAX_EDGES],
    op: &Op,
    plan: &[Statement],
) -> Option<AccessPath>
    requires sealed { IsSealed spec.now }
    requires resolved { AreResolvedEdges spec.now edges.now }
    requires pattern { AreBelow 32 op.now.pattern }
    requires outs { (outs ranges : _) → op.now.kind ≡ Query outs ranges → AreBelow 32 outs }
    requires known { AreKnown spec.now plan.now }
    ensures { IsPathOf spec.now op.now plan.now result }
{
    let mut path = None;
    for statement in plan {
        if let Statement::Read { edge, .. } = statement {
            path = path_by(spec, edges, op, plan, *edge).or(path);
        }
    }
    path
}

/// The path of an operation's calls by the rows of an edge.
fn path_by(
    spec: &Spec,
    edges: &[ResolvedEdge; MAX_EDGES],
    op: &Op,
    plan: &[Statement],
    edge: u8,
) -> Option<AccessPath>
    requires sealed { IsSealed spec.now }
    requires resolved { AreResolvedEdges spec.now edges.now }
    requires pattern { AreBelow 32 op.now.pattern }
    requires outs { (outs ranges : _) → op.now.kind ≡ Query outs ranges → AreBelow 32 outs }
    requires known { AreKnown spec.now plan.now }
    requires edge { edge < length spec.now.edges }
    ensures some { IfSome result (IsAccessPath spec.now op.now plan.now) }
    ensures none { result ≡ None → (p : _) → p.edge ≡ edge → IsAccessPath spec.now op.now plan.now p → ⊥ }
{
    let mode = read_mode(spec, edges, op, plan, edge)?;
    let locks = first_locks(plan);
    let late = late_statements(&plan[locks..]);
    let path = AccessPath {
        edge,
        mode,
        locks,
        late,
        extra_alone: asks_for(op, edges[edge as usize].extra),
    };
    if is_locked_first(spec, op, plan, path) {
        Some(path)
    } else {
        None
    }
}

/// Whether it is a query, whose outputs are the set's columns, in column order.
fn asks_for(op: &Op, cols: ColSet) -> bool
    ensures { IsTrue result ↔ AsksFor op.now.kind cols }
{
    match &op.kind {
        OpKind::Query { outs, .. } => lists(cols, outs.list()),
        OpKind::Insert | OpKind::Remove | OpKind::Update => false,
    }
}

/// How the rows of an edge are found by which the operation's calls are answered, where they are.
fn read_mode(
    spec: &Spec,
    edges: &[ResolvedEdge; MAX_EDGES],
    op: &Op,
    plan: &[Statement],
    edge: u8,
) -> Option<ReadMode>
    requires sealed { IsSealed spec.now }
    requires resolved { AreResolvedEdges spec.now edges.now }
    requires pattern { AreBelow 32 op.now.pattern }
    requires outs { (outs ranges : _) → op.now.kind ≡ Query outs ranges → AreBelow 32 outs }
    requires edge { edge < length spec.now.edges }
    ensures some { IfSome result (λ mode. Asks op.now.kind mode spec.now op.now plan.now (edge_at spec.now edge)) }
    ensures none { result ≡ None → (mode : _) → Asks op.now.kind mode spec.now op.now plan.now (edge_at spec.now edge) → ⊥ }
{
    match op.kind {
        OpKind::Query { .. } => query_mode(spec, edges, op, edge),
        OpKind::Insert if inserts_row(spec, edges, op, plan, edge) => Some(ReadMode::Lookup),
        OpKind::Remove if removes_row(spec, edges, op, edge) => Some(ReadMode::Lookup),
        OpKind::Update if updates_row(spec, edges, op, plan, edge) => Some(ReadMode::Lookup),
        OpKind::Insert | OpKind::Remove | OpKind::Update => None,
    }
}

/// Whether an insert's pattern is source and key of the edge, and its plan checks no dependency.
fn inserts_row(
    spec: &Spec,
    edges: &[ResolvedEdge; MAX_EDGES],
    op: &Op,
    plan: &[Statement],
    edge: u8,
) -> bool
    requires resolved { AreResolvedEdges spec.now edges.now }
    requires pattern { AreBelow 32 op.now.pattern }
    requires edge { edge < length spec.now.edges }
    ensures { IsTrue result ↔ InsertsRow spec.now op.now plan.now (edge_at spec.now edge) }
{
    is_given(&edges[edge as usize], op) && !checks_dependency(plan)
}

/// Whether a remove's arguments are source and key of the edge, whose target has all columns.
fn removes_row(spec: &Spec, edges: &[ResolvedEdge; MAX_EDGES], op: &Op, edge: u8) -> bool
    requires sealed { IsSealed spec.now }
    requires resolved { AreResolvedEdges spec.now edges.now }
    requires pattern { AreBelow 32 op.now.pattern }
    requires edge { edge < length spec.now.edges }
    ensures { IsTrue result ↔ RemovesRow spec.now op.now (edge_at spec.now edge) }
{
    let edge = &edges[edge as usize];
    is_given(edge, op) && edge.target.equals(spec.all_columns())
}

/// Whether an update's pattern is source and key of the edge, whose target has all columns, and its plan checks no
/// dependency.
fn updates_row(
    spec: &Spec,
    edges: &[ResolvedEdge; MAX_EDGES],
    op: &Op,
    plan: &[Statement],
    edge: u8,
) -> bool
    requires sealed { IsSealed spec.now }
    requires resolved { AreResolvedEdges spec.now edges.now }
    requires pattern { AreBelow 32 op.now.pattern }
    requires edge { edge < length spec.now.edges }
    ensures { IsTrue result ↔ UpdatesRow spec.now op.now plan.now (edge_at spec.now edge) }
{
    // An update asks of the edge what a remove does.
    removes_row(spec, edges, op, edge) && !checks_dependency(plan)
}

/// Whether the pattern is source and key of the edge.
fn is_given(edge: &ResolvedEdge, op: &Op) -> bool
    requires { AreBelow 32 op.now.pattern }
    ensures { IsTrue result ↔ (pattern_columns op.now ≡ union edge.now.source edge.now.key) }
{
    ColSet::from_list(op.pattern.list()).equals(edge.source.union(edge.key))
}

/// How the rows of an edge are found that answer a query's calls, where they do.
fn query_mode(spec: &Spec, edges: &[ResolvedEdge; MAX_EDGES], op: &Op, edge: u8) -> Option<ReadMode>
    requires resolved { AreResolvedEdges spec.now edges.now }
    requires pattern { AreBelow 32 op.now.pattern }
    requires outs { (outs ranges : _) → op.now.kind ≡ Query outs ranges → AreBelow 32 outs }
    requires edge { edge < length spec.now.edges }
    ensures some { IfSome result (λ mode. AsksQuery mode spec.now op.now (edge_at spec.now edge)) }
    ensures none { result ≡ None → (mode : _) → AsksQuery mode spec.now op.now (edge_at spec.now edge) → ⊥ }
{
    let OpKind::Query { outs, ranges } = &op.kind else {
        return None;
    };
    if !ranges.list().is_empty() {
        return None;
    }
    let pattern = ColSet::from_list(op.pattern.list());
    let edge = &edges[edge as usize];
    if spec.most_rows > 0 && is_given_row(edge, pattern, outs) {
        Some(ReadMode::Lookup)
    } else if is_given_source(edge, pattern, outs) {
        Some(ReadMode::Scan)
    } else {
        None
    }
}

/// Whether Locks come first that a call's tuple alone tells, one of them of the class of the path's edge, whose stripe the
/// values at the pattern tell, and then late statements.
fn is_locked_first(spec: &Spec, op: &Op, plan: &[Statement], path: AccessPath) -> bool
    requires sealed { IsSealed spec.now }
    requires pattern { AreBelow 32 op.now.pattern }
    requires known { AreKnown spec.now plan.now }
    requires edge { path.edge < length spec.now.edges }
    requires within { path.locks + path.late ≤ length plan.now }
    requires others { list_any is_lock (drop path.late (drop path.locks plan.now)) ≡ false }
    requires last { (n : _) → list_any is_lock (drop n (drop path.locks plan.now)) ≡ false → path.late ≤ n }
    ensures { IsTrue result ↔ IsLockedFirst spec.now op.now plan.now path }
{
    let class = spec.class_of(path.edge);
    if !is_striped(spec, op, class) {
        return false;
    }
    let given = given_columns(spec, op);
    let (first, rest) = plan.split_at(path.locks);
    are_given_locks(spec, given, first)
        && has_lock_of(class, first)
        && may_be_late(op, path.edge, &rest[..path.late])
}

/// Whether the values at the pattern tell a stripe of the class.
fn is_striped(spec: &Spec, op: &Op, class: u8) -> bool
    requires pattern { AreBelow 32 op.now.pattern }
    requires class { class < length spec.now.classes }
    ensures { IsTrue result ↔ Within (class_at spec.now class).cols (pattern_columns op.now) }
{
    let pattern = ColSet::from_list(op.pattern.list());
    spec.class(class).cols.within(pattern)
}

/// The columns of a call's tuple.
fn given_columns(spec: &Spec, op: &Op) -> ColSet
    requires sealed { IsSealed spec.now }
    requires pattern { AreBelow 32 op.now.pattern }
    ensures { result ≡ given_columns spec.now op.now }
{
    match op.kind {
        OpKind::Insert => spec.all_columns(),
        OpKind::Update => spec.all_columns(),
        OpKind::Query { .. } | OpKind::Remove => ColSet::from_list(op.pattern.list()),
    }
}

/// Whether each is a Lock that a tuple with these columns alone tells.
fn are_given_locks(spec: &Spec, cols: ColSet, statements: &[Statement]) -> bool
    requires { AreKnown spec.now statements.now }
    ensures { result ≡ list_all (is_given_lock spec.now cols) statements.now }
{
    statements
        .iter()
        .all(|statement| is_given_lock(spec, cols, statement))
}

/// Whether one is a Lock of the class.
fn has_lock_of(class: u8, statements: &[Statement]) -> bool
    ensures { result ≡ list_any (is_lock_of class) statements.now }
{
    statements
        .iter()
        .any(|statement| is_lock_of(class, statement))
}

/// Whether the statements may stand between the first Locks and others: those of a remove, which may lock once the edge is
/// read.
fn may_be_late(op: &Op, edge: u8, statements: &[Statement]) -> bool
    ensures { IsTrue result ↔ MayBeLate op.now.kind edge statements.now }
{
    match op.kind {
        OpKind::Remove => are_late(edge, statements),
        OpKind::Query { .. } | OpKind::Insert | OpKind::Update => statements.is_empty(),
    }
}

/// Whether each is a Read, or a Lock of the stripes on which the bindings fall that stands behind a Read of the edge.
fn are_late(edge: u8, statements: &[Statement]) -> bool
    ensures { IsTrue result ↔ AreLate edge statements.now }
{
    for (at, statement) in statements.iter().enumerate() {
        if !is_late(edge, &statements[..at], statement) {
            return false;
        }
    }
    true
}

/// Whether the statement, behind these, is such a one.
fn is_late(edge: u8, before: &[Statement], statement: &Statement) -> bool
    ensures { IsTrue result ↔ IsLate edge before.now statement.now }
{
    match statement {
        Statement::Lock {
            which: Which::Keyed,
            ..
        } => reads(edge, before),
        Statement::Read { .. } => true,
        _ => false,
    }
}

/// Whether one reads the edge.
fn reads(edge: u8, statements: &[Statement]) -> bool
    ensures { result ≡ list_any (is_read_of edge) statements.now }
{
    statements
        .iter()
        .any(|statement| is_read_of(edge, statement))
}

/// Whether one checks a dependency.
fn checks_dependency(statements: &[Statement]) -> bool
    ensures { result ≡ list_any is_dep_check statements.now }
{
    statements.iter().any(is_dep_check)
}

/// With how many Locks, at most, the plan begins.
fn first_locks(plan: &[Statement]) -> usize
    ensures within { result ≤ length plan.now }
    ensures locks { list_all is_lock (take result plan.now) ≡ true }
    ensures most { (n : _) → n ≤ length plan.now → list_all is_lock (take n plan.now) ≡ true → n ≤ result }
{
    for (at, statement) in plan.iter().enumerate() {
        if !is_lock(statement) {
            return at;
        }
    }
    plan.len()
}

/// Behind how many of the statements, at least, none is a Lock.
fn late_statements(statements: &[Statement]) -> usize
    ensures within { result ≤ length statements.now }
    ensures none { list_any is_lock (drop result statements.now) ≡ false }
    ensures least { (n : _) → list_any is_lock (drop n statements.now) ≡ false → result ≤ n }
{
    let mut late = 0;
    for (at, statement) in statements.iter().enumerate() {
        if is_lock(statement) {
            late = at + 1;
        }
    }
    late
}

/// Whether the arguments are source and key of the edge, and the outputs are columns of its target.
fn is_given_row(edge: &ResolvedEdge, pattern: ColSet, outs: &Cols) -> bool
    requires { AreBelow 32 outs.now }
    ensures { IsTrue result ↔ ((pattern ≡ union edge.now.source edge.now.key) × Within outs.now edge.now.target) }
{
    pattern.equals(edge.source.union(edge.key))
        && ColSet::from_list(outs.list()).within(edge.target)
}

/// Whether the arguments are the source of the edge, and the outputs its key, which has a column, and then its extra
/// columns, each in column order.
fn is_given_source(edge: &ResolvedEdge, pattern: ColSet, outs: &Cols) -> bool
    requires { edge.now.keys ≡ length edge.now.key }
    ensures { IsTrue result ↔ ((pattern ≡ edge.now.source) × (edge.now.key ≡ [] → ⊥) × (outs.now ≡ edge.now.key ++ edge.now.extra)) }
{
    let outs = outs.list();
    pattern.equals(edge.source)
        && !edge.key.is_empty()
        && edge.keys <= outs.len()
        && lists(edge.key, &outs[..edge.keys])
        && lists(edge.extra, &outs[edge.keys..])
}

/// Whether the list has the set's columns, in column order.
fn lists(cols: ColSet, list: &[u8]) -> bool
    ensures { IsTrue result ↔ (list.now ≡ cols) }
{
    if list.len() != cols.len() as usize {
        return false;
    }
    for (place, col) in list.iter().enumerate() {
        if cols.nth(place as u32) != Some(*col) {
            return false;
        }
    }
    true
}

fn is_lock(statement: &Statement) -> bool
    ensures { result ≡ is_lock statement.now }
{
    matches!(statement, Statement::Lock { .. })
}

/// Whether it is a Lock that a tuple with these columns alone tells: of the stripe on which it falls, or of all stripes.
fn is_given_lock(spec: &Spec, cols: ColSet, statement: &Statement) -> bool
    requires { IsKnown spec.now statement.now }
    ensures { result ≡ is_given_lock spec.now cols statement.now }
{
    match statement {
        Statement::Lock {
            class,
            which: Which::Keyed,
            ..
        } => spec.class(*class).cols.within(cols),
        Statement::Lock {
            which: Which::All,
            ..
        } => true,
        _ => false,
    }
}

/// Whether it is a Lock of the class.
fn is_lock_of(class: u8, statement: &Statement) -> bool
    ensures { result ≡ is_lock_of class statement.now }
{
    match statement {
        Statement::Lock { class: locked, .. } => *locked == class,
        _ => false,
    }
}

/// Whether the statement reads the edge.
pub fn is_read_of(edge: u8, statement: &Statement) -> bool
    ensures { result ≡ is_read_of edge statement.now }
{
    match statement {
        Statement::Read { edge: read, .. } => *read == edge,
        _ => false,
    }
}

fn is_dep_check(statement: &Statement) -> bool
    ensures { result ≡ is_dep_check statement.now }
{
    matches!(statement, Statement::CheckDep { .. })
}

ghost use Rattle.std.specs.Prelude.{◌≡◌, ◌<◌, ◌≤◌, [], get_or, length, remove, true, IfOk, OnOk, OnErr};
ghost use Rattle.rc_tuple.specs.RisingSet.{IsRising, put};
ghost use Rattle.rc_tuple.specs.Tuple.{tuple_cmp, cols_of};
ghost use Rattle.rc_spec.specs.declared.items.OpKind.TheVariants.{Insert, Remove, Update};
ghost use Rattle.rc_spec.specs.Calls.{all_columns, Fits, GivesTuple};
ghost use Rattle.rc_spec.specs.InRange.{IsInRange, AreBelow};
ghost use Rattle.rc_spec.specs.Plain.{first_broken_dependency, plain, plain_by, updated_unless};
ghost use Rattle.rc_rel.specs.KnownDeps.{IsKnownToSatisfy};
ghost use Rattle.rc_rel.specs.Over.{AreOver};

use crate::change::{copy_tuples, first_agreeing, first_match, put_tuple};
use crate::dependencies::{any_agrees, first_broken_dependency, same_deps};
use crate::scan::query;
use rc_spec::{Call, Op, OpKind, Range, Reply, Spec};
use rc_tuple::{ColSet, Cols, Dep, Memory, Tuple};
use std::alloc::Global;
use std::marker::Model;

/// A relation as the rising list of its tuples, on which calls are made one after another.
#[derive(Debug, Drop)]
pub struct PlainRel {
    tuples: Vec<Tuple>,
    /// Dependencies that the tuples are known to satisfy.
    known: Vec<Dep>,
}

impl Model for PlainRel {
    ghost use Rattle.std.specs.Prelude.{List};
    ghost use Rattle.rc_tuple.specs.Tuple.{Pairs};
    ghost use Rattle.rc_rel.specs.KnownDeps.{IsKnownToSatisfy};

    ghost Value = { List Pairs };

    ghost view = { λ a. a.tuples.items };

    ghost invariant = { λ a. IsKnownToSatisfy a.tuples.items a.known.items };
}

impl PlainRel {
    /// The relation without tuples, which takes no memory.
    pub fn empty(alloc: Global) -> PlainRel
        ensures { result ≡ [] }
    {
        PlainRel {
            tuples: Vec::new(alloc),
            known: Vec::new(alloc),
        }
    }

    /// The tuples, rising.
    pub fn rows(&self) -> &[Tuple]
        ensures rows { result.now ≡ self.now }
        ensures rising { IsRising tuple_cmp self.now }
    {
        &self.tuples
    }

    /// Makes a call: the reply and the relation afterwards are those of the plain step. Where memory is
    /// wanted the relation stays as it was. (PLDI 2012, relational operations.)
    pub fn run(&mut self, spec: &Spec, call: &Call) -> Result<Reply, Memory>
        requires range { IsInRange spec.now }
        requires fits { Fits spec.now call.now }
        requires over { AreOver (all_columns spec.now) self.old }
        ensures ok { IfOk result (λ reply. plain spec.now self.old call.now ≡ record { reply = reply; relation = self.new }) }
        ensures err { OnErr result (self.new ≡ self.old) }
        ensures over { AreOver (all_columns spec.now) self.new }
    {
        let op = spec.op(call.op);
        step(&mut self.tuples, &mut self.known, spec, op, call)
    }
}

/// Makes a call of the operation.
fn step(
    tuples: &mut Vec<Tuple>,
    known: &mut Vec<Dep>,
    spec: &Spec,
    op: &Op,
    call: &Call,
) -> Result<Reply, Memory>
    requires few { length spec.now.deps ≤ 32 }
    requires pattern { AreBelow 32 op.now.pattern }
    requires over { GivesTuple op.now.kind → AreOver (cols_of call.now.args) tuples.old.items }
    requires kept { IsKnownToSatisfy tuples.old.items known.old.items }
    ensures ok { IfOk result (λ reply. plain_by spec.now.most_rows op.now.kind op.now.pattern spec.now.deps call.now.args call.now.ranges tuples.old.items ≡ record { reply = reply; relation = tuples.new.items }) }
    ensures err { OnErr result (tuples.new.items ≡ tuples.old.items) }
    ensures kept { IsKnownToSatisfy tuples.new.items known.new.items }
{
    let (deps, args) = (spec.deps.list(), &call.args);
    match &op.kind {
        OpKind::Query { outs, .. } => {
            let (alloc, ranges) = (*tuples.allocator(), call.ranges.list());
            query(alloc, spec.most_rows, tuples, outs, args, ranges)
        }
        OpKind::Insert => insert(tuples, known, deps, &op.pattern, args),
        OpKind::Remove => Ok(remove(tuples, args)),
        OpKind::Update => update(tuples, known, deps, &op.pattern, args),
    }
}

/// Adds the tuple, unless one agrees with it on the pattern or it breaks a dependency.
fn insert(
    tuples: &mut Vec<Tuple>,
    known: &mut Vec<Dep>,
    deps: &[Dep],
    pattern: &Cols,
    args: &Tuple,
) -> Result<Reply, Memory>
    requires few { length deps.now ≤ 32 }
    requires pattern { AreBelow 32 pattern.now }
    requires over { AreOver (cols_of args.now) tuples.old.items }
    requires kept { IsKnownToSatisfy tuples.old.items known.old.items }
    ensures ok { IfOk result (λ reply. plain_by 0 Insert pattern.now deps.now args.now [] tuples.old.items ≡ record { reply = reply; relation = tuples.new.items }) }
    ensures err { OnErr result (tuples.new.items ≡ tuples.old.items) }
    ensures kept { IsKnownToSatisfy tuples.new.items known.new.items }
{
    if any_agrees(tuples, args, ColSet::from_list(pattern.list())) {
        return Ok(Reply::Present);
    }
    let is_known = same_deps(known, deps);
    if let Some(number) = first_broken_dependency(tuples, args, deps, is_known) {
        return Ok(Reply::Conflict(number));
    }
    let tuple = args.copy()?;
    remember(known, deps, is_known)?;
    put_tuple(tuples, tuple)?;
    Ok(Reply::Inserted)
}

/// Remembers the dependencies, unless they are those that are known.
fn remember(known: &mut Vec<Dep>, deps: &[Dep], is_known: bool) -> Result<(), Memory>
    requires { is_known ≡ true → known.old.items ≡ deps.now }
    ensures ok { OnOk result (known.new.items ≡ deps.now) }
    ensures err { OnErr result (known.new.items ≡ known.old.items) }
{
    if !is_known {
        *known = Vec::from_slice(*known.allocator(), deps)?;
    }
    Ok(())
}

/// Takes the first matching tuple out.
fn remove(tuples: &mut Vec<Tuple>, args: &Tuple) -> Reply
    requires { IsRising tuple_cmp tuples.old.items }
    ensures { plain_by 0 Remove [] [] args.now [] tuples.old.items ≡ record { reply = result; relation = tuples.new.items } }
{
    match first_match(tuples, args) {
        Some(at) => Reply::Removed(tuples.remove(at)),
        None => Reply::Absent,
    }
}

/// Puts the tuple in the place of the first that agrees with it on the pattern, unless it breaks a dependency then.
fn update(
    tuples: &mut Vec<Tuple>,
    known: &mut Vec<Dep>,
    deps: &[Dep],
    pattern: &Cols,
    args: &Tuple,
) -> Result<Reply, Memory>
    requires few { length deps.now ≤ 32 }
    requires pattern { AreBelow 32 pattern.now }
    requires over { AreOver (cols_of args.now) tuples.old.items }
    requires kept { IsKnownToSatisfy tuples.old.items known.old.items }
    ensures ok { IfOk result (λ reply. plain_by 0 Update pattern.now deps.now args.now [] tuples.old.items ≡ record { reply = reply; relation = tuples.new.items }) }
    ensures err { OnErr result (tuples.new.items ≡ tuples.old.items) }
    ensures kept { IsKnownToSatisfy tuples.new.items known.new.items }
{
    match first_agreeing(tuples, args, ColSet::from_list(pattern.list())) {
        Some(at) => replace_at(tuples, known, deps, args, at),
        None => Ok(Reply::Absent),
    }
}

/// Puts the tuple in the place of another, by its place in the list, unless it breaks a dependency then.
fn replace_at(
    tuples: &mut Vec<Tuple>,
    known: &mut Vec<Dep>,
    deps: &[Dep],
    args: &Tuple,
    at: usize,
) -> Result<Reply, Memory>
    requires at { at < length tuples.old.items }
    requires few { length deps.now ≤ 32 }
    requires over { AreOver (cols_of args.now) tuples.old.items }
    requires kept { IsKnownToSatisfy tuples.old.items known.old.items }
    ensures ok { IfOk result (λ reply. updated_unless (first_broken_dependency 1 deps.now (put tuple_cmp args.now (remove tuples.old.items at))) (get_or tuples.old.items at [])
        (put tuple_cmp args.now (remove tuples.old.items at)) tuples.old.items ≡ record { reply = reply; relation = tuples.new.items }) }
    ensures err { OnErr result (tuples.new.items ≡ tuples.old.items) }
    ensures kept { IsKnownToSatisfy tuples.new.items known.new.items }
{
    let mut rest = copy_tuples(*tuples.allocator(), tuples)?;
    let old = rest.remove(at);
    let is_known = same_deps(known, deps);
    if let Some(number) = first_broken_dependency(&rest, args, deps, is_known) {
        return Ok(Reply::Conflict(number));
    }
    put_tuple(&mut rest, args.copy()?)?;
    remember(known, deps, is_known)?;
    *tuples = rest;
    Ok(Reply::Updated(old))
}

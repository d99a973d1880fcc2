//! What a store shares with its sessions.

ghost use Rattle.std.specs.Prelude.{◌≡◌, ◌<◌, ◌≤◌, All, None, OnOk, length, map, take};
ghost use Rattle.std.specs.List.{AllByRecursion};
ghost use Rattle.rc_multi.specs.GroupLocks.{HasOperation};
ghost use Rattle.rc_spec.specs.Calls.{Fits};
ghost use Rattle.rc_spec.specs.InRange.{IsInRange};
ghost use Rattle.rc_plan.specs.Compiled.{IsCompiled};
ghost use Rattle.rc_row.specs.Passes.{compiled_of, spec_of};
ghost use Rattle.rc_work.specs.CallColumns.{HasKnownColumns, call_of, written_columns_at};
ghost use Rattle.rc_embed.specs.Asked.{TakesValues, calls_by};
ghost use Rattle.rc_embed.specs.Declaring.{declared_by, declared_call, declared_fault_at};
ghost use Rattle.rc_embed.specs.Declaring.{first_declared_fault, pattern_at};
ghost use Rattle.rc_embed.specs.Refused.{fault_at, first_fault, spent_by};

use crate::fault::CallFault;
use crate::group::Asks;
use rc_row::Pass;
use rc_spec::{Call, Ranges, Spec};
use rc_store::{Quiet, Store};
use rc_tuple::{Cols, Memory, Tuple};
use rc_work::refill_call;
use std::alloc::Global;
use std::marker::Model;

/// A store, and the columns of each operation's values, which are looked up once.
#[derive(Drop)]
pub(crate) struct Shared {
    pub(crate) store: Store<Quiet>,
    pub(crate) columns: Vec<Cols>,
    pub(crate) limit: u64,
}

impl Model for Shared {
    ghost use Rattle.rc_store.specs.Store.{StoreSeen};

    ghost Value = { StoreSeen };

    ghost use Rattle.rc_embed.specs.SharedInside.{IsWholeShared};

    ghost view = { λ s. s.store };

    ghost invariant = { IsWholeShared };
}

impl Shared {
    /// The specification.
    pub(crate) fn spec(&self) -> &Spec
        ensures value { result.now ≡ spec_of self.now.row }
        ensures range { IsInRange (spec_of self.now.row) }
        ensures known { HasKnownColumns (spec_of self.now.row) }
    {
        // A read of a field tells the check what holds of every shared store.
        let _ = &self.limit;
        self.store.compiled().accepted().spec()
    }

    /// Tells the check that the specification and the plans are accepted ones.
    pub(crate) fn is_compiled(&self)
        ensures { IsCompiled (spec_of self.now.row) (compiled_of self.now.row).plans }
    {
        let _ = self.store.compiled().accepted();
    }

    /// How many entries each pass may make.
    fn limit(&self) -> u64
        ensures { result ≡ self.now.limit }
    {
        self.limit
    }

    /// The columns of the values of an operation, a range column twice.
    pub(crate) fn columns(&self, op: u32) -> &[u8]
        requires { op < length (spec_of self.now.row).ops }
        ensures value { result.now ≡ written_columns_at (spec_of self.now.row) op }
        ensures few { length result.now ≤ 64 }
    {
        self.columns[op as usize].list()
    }

    /// The columns of an operation's pattern, in the order in which it is written.
    pub(crate) fn pattern(&self, op: u32) -> &[u8]
        requires { op < length (spec_of self.now.row).ops }
        ensures value { result.now ≡ pattern_at (spec_of self.now.row) op }
        ensures few { length result.now ≤ 32 }
    {
        self.spec().op(op as u8).pattern.list()
    }

    /// What is wrong with a call of the operation with so many values, if anything: no operation has
    /// this number, or it takes another number of values.
    pub(crate) fn fault_at(&self, op: u32, count: usize) -> Option<CallFault>
        ensures fault { result ≡ fault_at (spec_of self.now.row) op count }
        ensures few { result ≡ None → count ≤ 64 }
    {
        if op as usize >= self.spec().ops.list().len() {
            return Some(CallFault::UnknownOperation);
        }
        if count != self.columns(op).len() {
            return Some(CallFault::Values);
        }
        None
    }

    /// What is wrong with the first of the calls that has such a fault, if one has.
    pub(crate) fn first_fault<A: Asks>(&self, calls: &[A]) -> Option<CallFault>
        ensures { result ≡ first_fault (spec_of self.now.row) (map A.asked calls.now) }
    {
        for call in calls {
            if let Some(fault) = self.fault_at(call.op(), call.count()) {
                return Some(fault);
            }
        }
        None
    }

    /// What is wrong with what is declared of the operation by so many values, if anything: no operation
    /// has this number, or there are values, and its pattern has another number of columns.
    pub(crate) fn declared_fault_at(&self, op: u32, count: usize) -> Option<CallFault>
        ensures { result ≡ declared_fault_at (spec_of self.now.row) op count }
    {
        let spec = self.spec();
        if op as usize >= spec.ops.list().len() {
            return Some(CallFault::UnknownOperation);
        }
        if count != 0 && count != spec.op(op as u8).pattern.list().len() {
            return Some(CallFault::Values);
        }
        None
    }

    /// What is wrong with the first of what is declared that has such a fault, if something has.
    pub(crate) fn first_declared_fault<A: Asks>(&self, declared: &[A]) -> Option<CallFault>
        ensures { result ≡ first_declared_fault (spec_of self.now.row) (map A.asked declared.now) }
    {
        for one in declared {
            if let Some(fault) = self.declared_fault_at(one.op(), one.count()) {
                return Some(fault);
            }
        }
        None
    }

    /// Whether the pass has made as many entries as the store lets it: the fault then.
    pub(crate) fn spent_by(&self, pass: &Pass) -> Option<CallFault>
        ensures { result ≡ spent_by self.now pass.now }
    {
        if pass.made() == self.limit() {
            Some(CallFault::Spent)
        } else {
            None
        }
    }

    /// Makes the call that of an operation with values that it takes, its tuple in the memory that
    /// the call has. Memory is taken, and wanted, only where it had room for fewer values, and for
    /// the bounds of an operation with range columns.
    pub(crate) fn refill_call(&self, call: &mut Call, op: u32, values: &[u64]) -> Result<(), Memory>
        requires { TakesValues (spec_of self.now.row) op values.now }
        ensures call { OnOk result (call.new ≡ call_of (spec_of self.now.row) op values.now) }
        ensures fits { OnOk result (Fits (spec_of self.now.row) call.new) }
    {
        let spec = self.spec();
        let number = op as u8;
        refill_call(call, spec, number, self.columns(op), values)?;
        Ok(())
    }

    /// Makes the first calls those that are asked for, each in the memory that it has, and adds calls
    /// where there are fewer.
    pub(crate) fn refill_all<A: Asks>(
        &self,
        calls: &mut Vec<Call>,
        asked: &[A],
    ) -> Result<(), Memory>
        requires { first_fault (spec_of self.now.row) (map A.asked asked.now) ≡ None }
        ensures many { OnOk result (length asked.now ≤ length calls.new.items) }
        ensures calls { OnOk result (take (length asked.now) calls.new.items
            ≡ calls_by (spec_of self.now.row) (map A.asked asked.now)) }
        ensures fit { OnOk result (AllByRecursion (Fits (spec_of self.now.row))
            (take (length asked.now) calls.new.items)) }
    {
        // A call of `spec` tells the check that no operation takes more than 64 values.
        let _ = self.spec();
        grow(calls, asked.len())?;
        for (at, call) in asked.iter().enumerate() {
            self.refill_call(&mut calls[at], call.op(), call.values())?;
        }
        Ok(())
    }

    /// Makes the call what stands for the calls of an operation with these values of its pattern, in the
    /// memory that it has. Memory is taken, and wanted, only where it had room for fewer values.
    fn declare_call(&self, call: &mut Call, op: u32, values: &[u64]) -> Result<(), Memory>
        requires known { op < length (spec_of self.now.row).ops }
        requires few { length values.now ≤ length (pattern_at (spec_of self.now.row) op) }
        ensures { OnOk result (call.new ≡ declared_call (spec_of self.now.row) op values.now) }
    {
        let spec = self.spec();
        let number = op as u8;
        let pattern = spec.op(number).pattern.list();
        call.op = number;
        call.args.refill(&pattern[..values.len()], values)?;
        call.ranges.clear();
        Ok(())
    }

    /// Makes the first calls those that stand for what is declared, each in the memory that it has, and
    /// adds calls where there are fewer.
    pub(crate) fn declare_all<A: Asks>(
        &self,
        calls: &mut Vec<Call>,
        declared: &[A],
    ) -> Result<(), Memory>
        requires { first_declared_fault (spec_of self.now.row) (map A.asked declared.now) ≡ None }
        ensures many { OnOk result (length declared.now ≤ length calls.new.items) }
        ensures calls { OnOk result (take (length declared.now) calls.new.items
            ≡ declared_by (spec_of self.now.row) (map A.asked declared.now)) }
        ensures known { OnOk result (All (HasOperation (spec_of self.now.row))
            (take (length declared.now) calls.new.items)) }
    {
        // A call of `spec` tells the check that no pattern has more than 32 columns.
        let _ = self.spec();
        grow(calls, declared.len())?;
        for (at, one) in declared.iter().enumerate() {
            self.declare_call(&mut calls[at], one.op(), one.values())?;
        }
        Ok(())
    }
}

/// A call whose memory is yet to be taken.
pub(crate) fn blank_call(alloc: Global) -> Call {
    Call {
        op: 0,
        args: Tuple::empty(alloc),
        ranges: Ranges::new(alloc),
    }
}

/// Adds calls until there are so many.
fn grow(calls: &mut Vec<Call>, count: usize) -> Result<(), Memory>
    ensures { OnOk result (count ≤ length calls.new.items) }
{
    let alloc = *calls.allocator();
    while calls.len() < count {
        calls.push(blank_call(alloc))?;
    }
    Ok(())
}

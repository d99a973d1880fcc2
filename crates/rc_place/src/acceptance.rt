ghost use Rattle.std.specs.Prelude.{◌≡◌, IfOk, IfErr, IsOk};
ghost use Rattle.rc_spec.specs.Acceptance.{IsAccepted, IsFirstBroken, IsItemOf};
ghost use Rattle.rc_place.specs.Fault.{IfHandedBack};

use crate::judging::judge;
use rc_graph::order_nodes;
use rc_spec::{Accepted, Refusal, WellFormed};
use rc_tuple::Memory;
use std::alloc::Global;

/// Why a specification was not accepted.
#[derive(Debug, Drop)]
pub enum AcceptFault {
    /// Memory was wanted and not given.
    Memory,
    /// The specification as it was, its first broken rule and the first item that breaks it.
    Refused(WellFormed, Refusal),
}

/// Tests a specification by all rules, and keeps it if it meets them: step by step of the table, each at all items of its
/// kind. It is refused for the first broken rule and the first item that breaks it, and handed back as it was.
/// Memory is taken for the order of the nodes alone. (PLDI 2011, adequacy; PLDI 2012, lock placement.)
#[tactic(auto, using(rc_spec::specs::AcceptanceLaws::first_broken_item))]
pub fn accept(alloc: Global, spec: WellFormed) -> Result<Accepted, AcceptFault>
    ensures value { IfOk result (λ accepted. accepted ≡ spec) }
    ensures accepted { IsOk result → IsAccepted spec }
    ensures same { IfErr result (IfHandedBack (λ back refusal. back ≡ spec)) }
    ensures first { IfErr result (IfHandedBack (λ back refusal. IsFirstBroken spec refusal)) }
    ensures item { IfErr result (IfHandedBack (λ back refusal. IsItemOf spec refusal.item)) }
{
    if let Err(refusal) = judge(&spec) {
        return Err(AcceptFault::Refused(spec, refusal));
    }
    match order_nodes(alloc, &spec) {
        Ok(order) => Ok(Accepted::seal(spec, order)),
        Err(Memory) => Err(AcceptFault::Memory),
    }
}

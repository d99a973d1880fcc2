//! A plan that is written for an operation.

ghost use Rattle.std.specs.Prelude.{◌≡◌, OnOk, nat_le, length};
ghost use Rattle.std.specs.List.{list_any};
ghost use Rattle.rc_handplan.specs.Hands.{is_of, with_plan, with_statement};

use rc_plan::{Plan, Statement};
use rc_tuple::Memory;

/// The most statements of a plan that is written.
pub const MAX_STATEMENTS: usize = 256;

/// A plan that is written for an operation.
#[derive(Debug, Drop)]
pub struct Hand {
    /// The operation, by its number.
    pub op: u8,
    /// The statements, in written order.
    pub plan: Plan,
}

impl Hand {
    /// Whether it is the plan of this operation.
    pub(crate) fn is_of(&self, op: u8) -> bool
        ensures { result ≡ is_of op self.now }
    {
        self.op == op
    }

    /// Whether it has as many statements as a plan may have.
    pub(crate) fn is_full(&self) -> bool
        ensures { result ≡ nat_le 256 (length self.now.plan) }
    {
        self.plan.list().len() >= MAX_STATEMENTS
    }

    /// Adds a statement behind the others.
    pub(crate) fn push(&mut self, statement: Statement) -> Result<(), Memory>
        ensures { OnOk result (self.new ≡ with_statement self.old statement) }
    {
        self.plan.push(statement)
    }
}

/// Whether a plan of the operation is among these.
pub(crate) fn has_plan(hands: &[Hand], op: u8) -> bool
    ensures { result ≡ list_any (is_of op) hands.now }
{
    hands.iter().any(|hand| hand.is_of(op))
}

/// Begins a plan of the operation behind the others.
pub(crate) fn begin_plan(hands: &mut Vec<Hand>, op: u8) -> Result<(), Memory>
    ensures { OnOk result (hands.new.items ≡ with_plan hands.old.items op) }
{
    let plan = Plan::new(*hands.allocator());
    hands.push(Hand { op, plan })?;
    Ok(())
}

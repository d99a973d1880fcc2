//! The steps of an entry.

ghost use Rattle.std.specs.Prelude.{◌≡◌, [], ◌∷◌, ◌++◌, IfOk};

use crate::entry::Step;
use rc_tuple::Memory;
use std::alloc::Global;
use std::marker::Model;
use std::slice;

/// Steps, in the order in which they were made. One alone, as in the entry of a call, stands in place; more, as in that of a
/// group, take a block. Contracts see the list of the steps.
#[derive(Drop, Debug)]
pub struct Steps {
    kept: Kept,
}

/// Where steps stand.
#[derive(Drop, Debug)]
enum Kept {
    /// One, in place.
    One(Step),
    /// Any number of them, in a block.
    Many(Vec<Step>),
}

impl Model for Steps {
    ghost use Rattle.std.specs.Prelude.{List};
    ghost use Rattle.rc_rel.specs.Steps.{steps_of};
    ghost use Rattle.rc_rel.specs.declared.entry.Step.{Step};

    ghost Value = { List Step };

    ghost view = { λ s. steps_of s.kept };
}

impl Steps {
    /// No step. Takes no memory.
    pub fn new(alloc: Global) -> Steps
        ensures { result ≡ [] }
    {
        Steps::from_vec(Vec::new(alloc))
    }

    /// The one step. Takes no memory.
    pub fn of_one(step: Step) -> Steps
        ensures { result ≡ step ∷ [] }
    {
        Steps {
            kept: Kept::One(step),
        }
    }

    /// The steps of a vector. Takes no memory.
    pub fn from_vec(steps: Vec<Step>) -> Steps
        ensures { result ≡ steps.items }
    {
        Steps {
            kept: Kept::Many(steps),
        }
    }

    /// The steps, in order.
    pub fn list(&self) -> &[Step]
        ensures { result.now ≡ self.now }
    {
        match &self.kept {
            Kept::One(step) => slice::from_ref(step),
            Kept::Many(steps) => steps,
        }
    }

    /// The steps with one more at the end. Costs what a push to a vector does, and a block where there was one step.
    pub fn with(self, step: Step) -> Result<Steps, Memory>
        ensures { IfOk result (λ longer. longer ≡ self ++ step ∷ []) }
    {
        let mut steps = self.into_vec()?;
        steps.push(step)?;
        Ok(Steps::from_vec(steps))
    }

    /// The steps as a vector. Takes memory where one stands in place.
    fn into_vec(self) -> Result<Vec<Step>, Memory>
        ensures { IfOk result (λ steps. steps.items ≡ self) }
    {
        let Steps { kept } = self;
        match kept {
            Kept::One(step) => {
                let mut steps = Vec::with_capacity(step.call.args.alloc(), 1)?;
                steps.push_reserved(step);
                Ok(steps)
            }
            Kept::Many(steps) => Ok(steps),
        }
    }

    /// The same steps again.
    pub fn copy(&self) -> Result<Steps, Memory>
        ensures { IfOk result (λ copy. copy ≡ self.now) }
    {
        match &self.kept {
            Kept::One(step) => Ok(Steps::of_one(step.copy()?)),
            Kept::Many(steps) => Ok(Steps::from_vec(copy_all(steps)?)),
        }
    }
}

/// Another vector of the same steps.
fn copy_all(steps: &Vec<Step>) -> Result<Vec<Step>, Memory>
    ensures { IfOk result (λ copy. copy.items ≡ steps.now.items) }
{
    let mut copy = Vec::with_capacity(*steps.allocator(), steps.len())?;
    for step in steps {
        copy.push_reserved(step.copy()?);
    }
    Ok(copy)
}

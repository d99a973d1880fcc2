//! The relation that the calls of a report leave.

ghost use Rattle.std.specs.Prelude.{◌≡◌, ◌<◌, ◌^◌, List, [], length, IfOk};
ghost use Rattle.rc_tuple.specs.Tuple.{Pairs};
ghost use Rattle.rc_spec.specs.Calls.{Fits};
ghost use Rattle.rc_spec.specs.Plain.{plain};
ghost use Rattle.rc_audit.specs.Keeping.{HasMade, Keeps};

use rc_instance::Instance;
use rc_machine::{Stop, Workspace, run_plan};
use rc_maps::Seed;
use rc_plan::Compiled;
use rc_spec::{Accepted, Call, Reply};
use rc_tuple::{Memory, Tuples};
use std::alloc::Global;

/// A relation in the containers of its specification, on which calls are made by their plans.
#[derive(Debug, Drop)]
pub(crate) struct Relation {
    instance: Instance,
    space: Workspace,
}

impl Relation {
    /// The relation with no tuple. The seed is that of its hash tables.
    pub(crate) fn empty(alloc: Global, seed: Seed, accepted: &Accepted) -> Result<Relation, Memory>
        ensures { IfOk result (λ relation. Keeps accepted.now relation []) }
    {
        Ok(Relation {
            instance: Instance::empty(alloc, seed, accepted)?,
            space: Workspace::new(alloc),
        })
    }

    /// Makes the call and answers. Where memory is wanted the relation is of no use. Costs what the
    /// call's plan does.
    pub(crate) fn make(&mut self, compiled: &Compiled, call: &Call) -> Result<Reply, Memory>
        requires fits { Fits compiled.now.spec call.now }
        requires kept { (r : List Pairs) × Keeps compiled.now.spec self.old r }
        ensures { (r : List Pairs) → Keeps compiled.now.spec self.old r
            → length (plain compiled.now.spec r call.now).relation < 2 ^ 63
            → HasMade compiled.now.spec r call.now self.new result }
    {
        match run_plan(compiled, call, &mut self.space, &mut self.instance) {
            Ok(reply) => {
                self.instance.release_all();
                Ok(reply)
            }
            Err(Stop::Memory) => Err(Memory),
            Err(Stop::Held(_)) => unreachable!(),
        }
    }

    /// The tuples, rising. The seed is that of the hash tables by which they are joined.
    pub(crate) fn tuples(
        &self,
        alloc: Global,
        seed: Seed,
        accepted: &Accepted,
    ) -> Result<Tuples, Memory>
        requires { (r : List Pairs) × Keeps accepted.now self.now r }
        ensures { IfOk result (λ tuples. (r : List Pairs)
            → Keeps accepted.now self.now r → tuples ≡ r) }
    {
        self.instance.represents(alloc, seed, accepted)
    }
}

ghost use Rattle.std.specs.Prelude.{◌≡◌, ◌<◌, IfSome, None, length};
ghost use Rattle.rc_spec.specs.Acceptance.{IsSealed};
ghost use Rattle.rc_spec.specs.Fragments.{edge_numbers};
ghost use Rattle.rc_spec.specs.InRange.{IsSetBelow};
ghost use Rattle.rc_spec.specs.Placement.{class_at, op_at};
ghost use Rattle.rc_spec.specs.Stripes.{band_start};
ghost use Rattle.rc_plan.specs.Access.{HasNoPath, IsAccessPath};
ghost use Rattle.rc_plan.specs.Compiled.{ArePlansOf, IsPlanOf, plan_at};
ghost use Rattle.rc_plan.specs.EdgeClasses.{class_edges, classes_of};
ghost use Rattle.rc_plan.specs.Resolved.{IsResolvedEdge};

use crate::access::{MAX_OPS, access_paths};
use crate::edge_classes::{EdgeClasses, edge_classes};
use crate::resolved::{band_starts, resolve_edges};
use crate::{AccessPath, Plan, ResolvedEdge};
use rc_spec::{Accepted, Class, MAX_CLASSES, MAX_EDGES};
use std::marker::Model;

/// An accepted specification with a plan for each of its operations, each of which keeps K1 to K7. What plans ask of
/// edges and classes stands beside them, found once for all calls; contracts see the specification and the plans alone.
#[derive(Debug, Drop)]
pub struct Compiled {
    accepted: Accepted,
    plans: Vec<Plan>,
    /// Each edge, by its number.
    edges: [ResolvedEdge; MAX_EDGES],
    /// The number, among all stripes, of the first of each class.
    starts: [u32; MAX_CLASSES],
    /// The classes of the edges.
    classes: EdgeClasses,
    /// The path of each operation that has one, by its number.
    paths: [Option<AccessPath>; MAX_OPS],
}

impl Model for Compiled {
    ghost use Rattle.rc_plan.specs.Compiled.{SpecWithPlans};
    ghost use Rattle.rc_plan.specs.Access.{IsCompiledWith};

    ghost Value = { SpecWithPlans };

    ghost view = { λ c. record { spec = c.accepted; plans = c.plans.items } };

    ghost invariant = { λ c. IsCompiledWith c.accepted c.plans.items c.edges c.starts c.classes c.paths };
}

impl Compiled {
    /// Keeps an accepted specification with as many plans as operations, each for its own. Takes no memory, and costs, for
    /// each edge, a walk over the placements and the classes, for each class one over the classes and the edges, and for each operation one
    /// over its plan for each edge that the plan reads.
    pub fn seal(accepted: Accepted, plans: Vec<Plan>) -> Compiled
        requires { ArePlansOf accepted plans.items }
        ensures { result ≡ record { spec = accepted; plans = plans.items } }
    {
        let edges = resolve_edges(&accepted);
        let starts = band_starts(&accepted);
        let classes = edge_classes(&accepted);
        let paths = access_paths(&accepted, &plans, &edges);
        Compiled {
            accepted,
            plans,
            edges,
            starts,
            classes,
            paths,
        }
    }

    /// The specification.
    pub fn accepted(&self) -> &Accepted
        ensures value { result.now ≡ self.now.spec }
        ensures sealed { IsSealed self.now.spec }
        ensures planned { ArePlansOf self.now.spec self.now.plans }
    {
        &self.accepted
    }

    /// The plan of an operation, by its number.
    pub fn plan(&self, op: u8) -> &Plan
        requires { op < length self.now.spec.ops }
        ensures value { result.now ≡ plan_at self.now.plans op }
        ensures accepted { IsPlanOf self.now.spec op result.now }
    {
        &self.plans[op as usize]
    }

    /// The path on which the calls of an operation are answered without the statements of its plan, by its number; `None`
    /// where no edge that the plan reads has one.
    pub fn access_path(&self, op: u8) -> Option<AccessPath>
        requires { op < length self.now.spec.ops }
        ensures some { IfSome result (IsAccessPath self.now.spec (op_at self.now.spec op) (plan_at self.now.plans op)) }
        ensures none { result ≡ None → HasNoPath self.now.spec (op_at self.now.spec op) (plan_at self.now.plans op) }
    {
        self.paths[op as usize]
    }

    /// What plans ask of an edge, by its number.
    pub fn edge(&self, number: u8) -> &ResolvedEdge
        requires { number < length self.now.spec.edges }
        ensures { IsResolvedEdge self.now.spec number result.now }
    {
        &self.edges[number as usize]
    }

    /// The classes of all edges, each once, in the order in which the edges come to them.
    pub fn edge_classes(&self) -> &[u8]
        ensures { result.now ≡ classes_of self.now.spec (edge_numbers self.now.spec) }
    {
        self.classes.classes()
    }

    /// How many edges a class has, by its number.
    pub fn edge_count(&self, class: u8) -> u16
        requires { class < length self.now.spec.classes }
        ensures { result ≡ length (class_edges self.now.spec class) }
    {
        self.classes.counts[class as usize]
    }

    /// A lock class, by its number.
    pub fn class(&self, number: u8) -> &Class
        requires { number < length self.now.spec.classes }
        ensures value { result.now ≡ class_at self.now.spec number }
        ensures known { IsSetBelow (length self.now.spec.columns) result.now.cols }
    {
        self.accepted.spec().class(number)
    }

    /// The number, among all stripes, of the first of a class, by the number of the class.
    pub fn band_start(&self, class: u8) -> u32
        requires { class < length self.now.spec.classes }
        ensures { result ≡ band_start self.now.spec class }
    {
        self.starts[class as usize]
    }
}

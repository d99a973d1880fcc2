ghost use Rattle.rc_plan.specs.Laws.{AcceptedPlansServe, AcceptedPlansServeInTurn, CompiledPlansServe, CompiledPlansServeInTurn, LocksRise, NamedStripesAreLocked, OneFirstBrokenPlanRule, PlanChecksAreRules, ReadsAreEarly, RefusedPlansBreakRules};

/// The law of accepted plans. Over an adequate and well placed specification, take a plan that keeps K1 to K7 for an
/// operation that keeps its rule, a call that fits, a relation that satisfies the dependencies, and stripes held in modes,
/// among which are those that evaluation on their rows names. Then evaluation gives the plain reply, names what it
/// names on all rows, and leaves the rows of the relation after; a stripe that isn't named Exclusive keeps its
/// rows (PLDI 2012, serializability of well-locked plans).
pub fn accepted_plans_serve()
    ensures { AcceptedPlansServe }
{}

/// The same for several calls, evaluated one after another over one set of held stripes.
pub fn accepted_plans_serve_in_turn()
    ensures { AcceptedPlansServeInTurn }
{}

/// The law of accepted plans over an accepted specification with its plans, where a call is evaluated by the plan of its
/// own operation.
pub fn compiled_plans_serve()
    ensures { CompiledPlansServe }
{}

/// The same for several calls, evaluated one after another over one set of held stripes.
pub fn compiled_plans_serve_in_turn()
    ensures { CompiledPlansServeInTurn }
{}

/// Each stripe that evaluation of a plan that keeps K1 to K7 names, on any rows, is of a class that the plan locks, in
/// that Lock's mode. Where the Lock takes the stripes of the bindings and the call's arguments have the columns that
/// choose a stripe, it is the arguments' stripe (PLDI 2012, well-locked query plans).
pub fn named_stripes_are_locked()
    ensures { NamedStripesAreLocked }
{}

/// A plan keeps K1 to K7 exactly where each check of its list holds; a plan with a first broken rule doesn't keep
/// them, and it has one such rule and statement at most.
pub fn plan_checks_are_rules()
    ensures checks { PlanChecksAreRules }
    ensures refuses { RefusedPlansBreakRules }
    ensures one { OneFirstBrokenPlanRule }
{}

/// In the run of a plan that keeps K1 to K7 stripes are named rising; and the rows of an edge that fall on stripes
/// named in the end fall on those named before the edge is read, so rows may be read while locks are taken (PLDI
/// 2012, the order of locks).
pub fn accepted_plans_lock_in_order()
    ensures rising { LocksRise }
    ensures early { ReadsAreEarly }
{}

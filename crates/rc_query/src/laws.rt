ghost use Rattle.rc_query.specs.Laws.{HasPlannedPlan, OnePlannedPlan, PlannedPlansAreAccepted, PlansOverGoodRoutesAreAccepted};

/// Planned plans are accepted: they keep K1 to K7 for their operations, and their numbers are the specification's. Where
/// the decomposition is adequate and well placed this is so over any good routes; and where the specification is
/// accepted, over the chosen ones.
pub fn planned_plans_are_accepted()
    ensures good_routes { PlansOverGoodRoutesAreAccepted }
    ensures chosen_routes { PlannedPlansAreAccepted }
{}

/// Each operation of an accepted specification has one planned plan and no other.
pub fn one_planned_plan()
    ensures some { HasPlannedPlan }
    ensures one { OnePlannedPlan }
{}

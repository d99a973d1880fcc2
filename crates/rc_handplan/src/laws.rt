//! Laws of the plans that lines give, and of the choice between these and the planned ones.

ghost use Rattle.rc_handplan.specs.Alone.{NoTextNoPlans};
ghost use Rattle.rc_handplan.specs.Chosen.{OneChosenPlan, PlannedPlansMayBeWritten};
ghost use Rattle.rc_handplan.specs.FirstBroken.{FirstBrokenPlanLine, NothingIsRead};

/// Plans are read up to the line before which they end, each line before it breaking no rule; else
/// the refusal is of the first line that breaks a rule, or the lines run out. Nothing else is what
/// lines give.
pub fn first_broken_plan_line()
    ensures { FirstBrokenPlanLine }
{}

/// Where the first line doesn't begin with `plan`, or there is none, no plan is read, nothing is
/// refused, and all lines are left.
pub fn without_plans_nothing_is_read()
    ensures { NothingIsRead }
{}

/// A text without a byte, in which plans stand alone, has no plan.
pub fn without_a_text_no_plan_is_read()
    ensures { NoTextNoPlans }
{}

/// Written plans decide what the plans of all operations are: each has one chosen plan.
pub fn one_chosen_plan()
    ensures { OneChosenPlan }
{}

/// Where each plan that is written is the one that the planning rules give its operation, the chosen
/// plans are the planned ones: so are they where none is written.
pub fn planned_plans_may_be_written()
    ensures { PlannedPlansMayBeWritten }
{}

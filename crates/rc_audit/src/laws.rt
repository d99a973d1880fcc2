ghost use Rattle.rc_audit.specs.Judging.{PassedLinesBegin};
ghost use Rattle.rc_audit.specs.PlanLinesLaws.{PlanLinesAreWritten};
ghost use Rattle.rc_audit.specs.VerdictLaws.{OneVerdict};

/// There is one verdict on the same lines. So a report is legal exactly where its lines are those
/// of a run, and bad at exactly one line.
pub fn one_verdict()
    ensures { OneVerdict }
{}

/// The lines that a judge passed begin a good report.
pub fn passed_lines_begin()
    ensures { PassedLinesBegin }
{}

/// The lines that are wanted of a plan are those in which it is printed.
pub fn plan_lines_are_written()
    ensures { PlanLinesAreWritten }
{}

ghost use Rattle.rc_work.specs.DeterminedLaws.{OperationTestIsExact};
ghost use Rattle.rc_work.specs.OpenRunLaws.{WithoutShapesWorksAreRead};
ghost use Rattle.rc_work.specs.PartLaws.{PartsAreRefused, PartsAreWorks};
ghost use Rattle.rc_work.specs.PartReadingLaws.{WorksAreParts};
ghost use Rattle.rc_work.specs.PrintedLaws.{TextsPrintAsWritten};
ghost use Rattle.rc_work.specs.RankingLaws.{TurnsWithoutGroupsAreSingle};
ghost use Rattle.rc_work.specs.RunLengthLaws.{RunsHaveAllTurns};
ghost use Rattle.rc_work.specs.RunsLaws.{EntriesAreTurns, RunsMakeCalls, RunsMakeTurns, SingleTurnsAreSingleSteps};

/// In a run of a workload each thread's calls over all rounds stand once and in its order.
pub fn runs_make_calls()
    ensures { RunsMakeCalls }
{}

/// And so do its turns: each is an entry, whose steps make the turn's calls.
pub fn runs_make_turns()
    ensures { RunsMakeTurns }
{}

/// A run has as many entries as the workload has turns.
pub fn runs_have_all_turns()
    ensures { RunsHaveAllTurns }
{}

/// Each entry of a run has the calls of a turn of its thread.
pub fn entries_are_turns()
    ensures { EntriesAreTurns }
{}

/// Where no groups are read, each turn of a workload has one call.
pub fn turns_without_groups_are_single()
    ensures { TurnsWithoutGroupsAreSingle }
{}

/// Where each turn has one call, each entry of a run has one step.
pub fn single_turns_are_single_steps()
    ensures { SingleTurnsAreSingleSteps }
{}

/// The text of a call is printed as it was written: the text of its rank among a workload's texts is that text, in
/// quotes.
pub fn texts_print_as_written()
    ensures { TextsPrintAsWritten }
{}

/// A workload that is read up to its `end` is that of its lines up to there; where it is refused, so
/// is the whole, for the same rule and line; and where the first lines are a workload, it is read,
/// whatever stands behind it.
pub fn parts_are_works()
    ensures works { PartsAreWorks }
    ensures refused { PartsAreRefused }
    ensures found { WorksAreParts }
{}

/// The test by which a line of a workload breaks W4 is exact: it passes where the operation keeps O1 to O3.
pub fn operation_test_is_exact()
    ensures { OperationTestIsExact }
{}

/// Where no line brings an operation, a workload is read as one without such lines, and it has no shapes.
pub fn without_shapes_works_are_read()
    ensures { WithoutShapesWorksAreRead }
{}

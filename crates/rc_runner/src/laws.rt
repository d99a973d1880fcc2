ghost use Rattle.rc_runner.specs.RoundLaws.{RoundsStart, ARoundGoesOn};
ghost use Rattle.rc_runner.specs.CloseLaws.{RoundsRun};

/// Passes with no entries have made no rounds.
pub fn rounds_start()
    ensures { RoundsStart }
{}

/// Where the passes have made some rounds, each then makes its turns of one more, and all learn what each has seen,
/// they have made that round too.
pub fn a_round_goes_on()
    ensures { ARoundGoesOn }
{}

/// Where the passes have made the rounds of a workload, and their entries with places are those of a legal and
/// numbered history, that history is a run of the workload.
pub fn rounds_run()
    ensures { RoundsRun }
{}

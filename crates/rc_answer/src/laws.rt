ghost use Rattle.rc_answer.specs.CutLaws.{CutRunsAreRefused};
ghost use Rattle.rc_answer.specs.HandLaws.{WithoutPlansHandIsRun};
ghost use Rattle.rc_answer.specs.OpenLaws.{WithoutShapesOpenIsRun};

/// Where a text gives a specification and a workload, `run` refuses each prefix of it that ends before the `d` of its last
/// content line, which is `end`, and so does `group`: a text that is cut is never taken for another.
pub fn cut_runs_are_refused()
    ensures { CutRunsAreRefused }
{}

/// Where the first content line behind a specification doesn't begin with `plan`, or there is none,
/// `hand` may write exactly what `run` may.
pub fn without_plans_hand_is_run()
    ensures { WithoutPlansHandIsRun }
{}

/// Where no line behind a specification brings its own operation, `open` may write exactly what `run` may.
pub fn without_shapes_open_is_run()
    ensures { WithoutShapesOpenIsRun }
{}

ghost use Rattle.std.specs.Prelude.{◌≡◌, Ok};
ghost use Rattle.rc_text.specs.Lines.{printed_lines};
ghost use Rattle.rc_reader.specs.Grammar.{spec_of};
ghost use Rattle.rc_generate.specs.Sample.{sample_graph};
ghost use Rattle.rc_generate.specs.SampleText.{sample_lines};
ghost use Rattle.rc_generate.specs.GeneratedLaws.{GeneratedAsOneThread, GeneratedRepliesAreTheSame, GeneratedRunsAreSmall, GeneratedSummaryIsOneThreads};
ghost use Rattle.rc_generate.specs.SharedRunsLaws.{SharedRunsAreAsOneThread, SharedRunsHaveSameReplies};

/// Every run of a workload whose threads make calls of their own shards has the steps of one thread that makes all calls
/// in written order, in some order, and leaves the same relation; and each thread has the same replies in every run.
pub fn shared_runs_are_as_one_thread()
    ensures steps { SharedRunsAreAsOneThread }
    ensures replies { SharedRunsHaveSameReplies }
{}

/// So has every run of the generated workload, and its summary is that of one thread that makes the calls in order; and
/// each thread has the same replies in every run.
pub fn generated_runs_are_as_one_thread()
    ensures steps { GeneratedAsOneThread }
    ensures summary { GeneratedSummaryIsOneThreads }
    ensures replies { GeneratedRepliesAreTheSame }
{}

/// A run of the generated workload has a step for each call, and lists at most 256 rows for each.
pub fn generated_runs_are_small()
    ensures { GeneratedRunsAreSmall }
{}

/// The text of the sample is read as the sample.
pub fn sample_text_is_read()
    ensures { spec_of (printed_lines sample_lines) ≡ Ok sample_graph }
{}

ghost use Rattle.rc_generate.specs.ExistenceLaws.{HistoriesExist};
ghost use Rattle.rc_generate.specs.ShardLaws.{SameInEverySchedule, ShardsAreApart, ShardsAreAsOneThread};
ghost use Rattle.rc_generate.specs.SummaryLaws.{RowsAreFew, SummariesAddUp, SummariesAreOfCalls, SummariesAreOneThreads};

/// Where each pass makes calls of its own shard alone, its own entries are a legal history by themselves, and leave its
/// shard of the last relation.
pub fn shards_are_apart()
    ensures { ShardsAreApart }
{}

/// Where each pass makes calls of its own shard alone, they have the same replies in every schedule, and the last
/// relation is the same.
pub fn same_in_every_schedule()
    ensures { SameInEverySchedule }
{}

/// Where each pass makes the calls of its own shard, the steps are those of one thread that makes all calls in order, in
/// some order, and the last relation is the same.
pub fn shards_are_as_one_thread()
    ensures { ShardsAreAsOneThread }
{}

/// The summary of a history whose steps and last relation are those of one thread is that thread's.
pub fn summaries_are_one_threads()
    ensures { SummariesAreOneThreads }
{}

/// The summary of a legal history is that of one thread that makes its calls in the order of the history.
pub fn summaries_are_of_calls()
    ensures { SummariesAreOfCalls }
{}

/// For any calls there is a legal history in which each pass makes those of its shard.
pub fn histories_exist()
    ensures { HistoriesExist }
{}

/// The calls of a summary are those of each kind together, and updates, for which it has no count; there are as many as
/// steps; those with many rows are queries.
pub fn summaries_add_up()
    ensures { SummariesAddUp }
{}

/// The replies of a legal history list for each step at most as many rows as the specification says.
pub fn rows_are_few()
    ensures { RowsAreFew }
{}

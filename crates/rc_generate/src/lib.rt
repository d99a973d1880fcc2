//! The sample specification, a workload generated on it by a seed, and a run's summary with its text. With the laws of calls
//! that are shared out among threads by the value of one column, its shards: what they answer and the relation that they
//! leave do not depend on the order in which the threads come.
#![tactic(auto)]

mod generating;
mod laws;
mod sample;
mod shard_laws;
mod summary;
mod summary_text;

pub use generating::generate;
pub use laws::{
    generated_runs_are_as_one_thread, generated_runs_are_small, sample_text_is_read,
    shared_runs_are_as_one_thread,
};
pub use sample::sample_spec;
pub use shard_laws::{
    histories_exist, rows_are_few, same_in_every_schedule, shards_are_apart,
    shards_are_as_one_thread, summaries_add_up, summaries_are_of_calls, summaries_are_one_threads,
};
pub use summary::{Summary, summarise};
pub use summary_text::print_summary;

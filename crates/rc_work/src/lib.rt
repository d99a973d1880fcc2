//! Workloads: what a text says of them, their runs, and the report of a run.
#![tactic(auto)]

mod also;
mod calls;
mod columns;
mod draft;
mod forms;
mod laws;
mod open_work;
mod part;
mod prefix_laws;
mod printing;
mod ranking;
mod raw;
mod reading;
mod reading_laws;
mod report;
mod rules;
mod shape_forms;
mod shapes;
mod shapes_text;
mod words;
mod work;

pub use also::Also;
pub use calls::refill_call;
pub use columns::written_columns_at;
pub use laws::{
    entries_are_turns, operation_test_is_exact, parts_are_works, runs_have_all_turns,
    runs_make_calls, runs_make_turns, single_turns_are_single_steps, texts_print_as_written,
    turns_without_groups_are_single, without_shapes_works_are_read,
};
pub use open_work::{OpenWork, read_open};
pub use part::read_work_part;
pub use prefix_laws::{cut_texts_are_refused, last_letter_is_there};
pub use printing::{print_tuple, push_count_line, push_step_line};
pub use reading::read_work;
pub use reading_laws::{first_broken_part_line, first_broken_shape_line, first_broken_work_line};
pub use report::{Report, print_final_line};
pub use shapes::shape_place;
pub use shapes_text::read_shapes;
pub use work::{Calls, Round, Rounds, Turn, Work};

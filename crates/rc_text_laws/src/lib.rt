//! Laws of texts: every specification that keeps the limits of a text is read back from its lines, and what a line does is
//! told by what it says and by the kinds of the lines before it; plans are read back from their
//! lines; a printed report tells everything of the run.
#![tactic(auto)]

mod plans;
mod reports;
mod specifications;

pub use plans::{
    opened_plans_are_given_back, printed_plans_are_read_back, printed_plans_are_taken,
};
pub use reports::{
    audits_are_one, groups_are_legal, journals_are_legal, one_report_one_history,
    one_report_one_journal, one_report_one_run, one_text_one_history,
    printed_texts_by_hand_tell_runs, printed_texts_have_one_history, printed_texts_tell_runs,
    reports_tell_runs, run_lines_are_written, runs_are_legal, texts_are_quotable,
};
pub use specifications::{
    forms_are_exact, limits_and_order_are_told_by_kinds, lines_do_what_they_say,
    specifications_are_read_back,
};

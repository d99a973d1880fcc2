//! Lines, words and numbers of the text language, and how they are written.
#![tactic(auto)]

mod bytes;
mod language;
mod laws;
mod lines;
mod numbers;
mod words;
mod writing;

pub use language::{Language, Unread, read_lines};
pub use laws::{
    leading_zeros_do_not_count, lines_are_the_text, next_word_is_exact, printed_lines_are_read,
    printed_numbers_are_read, written_words_are_read,
};
pub use lines::{Line, Lines, MAX_TEXT_BYTES, first_line_length};
pub use numbers::{NumFault, is_number, read_u64};
pub use words::{Word, WordFault, Words};
pub use writing::{push_bytes, push_quoted, push_u64};

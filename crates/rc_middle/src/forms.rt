//! The forms, each of which answers a text: a specification, and lines behind it.

use crate::checks::check;
use crate::rows::push_rows;
use crate::specs::{accepted_of, behind_spec};
use crate::stop::Stop;
use rc_spec::Accepted;

/// Appends what the form that the words name answers to the input.
pub(crate) fn fill(words: &[String], input: &[u8], out: &mut Vec<u8>) -> Result<(), Stop> {
    let Ok(text) = str::from_utf8(input) else {
        return Err(Stop::Input);
    };
    let lines = behind_spec(text)?;
    let accepted = accepted_of(*out.allocator(), text)?;
    fill_from(&accepted, words, lines, out)
}

/// Appends what the form answers to the lines behind a specification.
fn fill_from(
    accepted: &Accepted,
    words: &[String],
    lines: &str,
    out: &mut Vec<u8>,
) -> Result<(), Stop> {
    match words {
        [form] if form.as_str() == "rows" => push_rows(accepted, lines, out),
        [form, op] if form.as_str() == "checks" => check(accepted, op.as_str(), lines, out),
        _ => Err(Stop::Words),
    }
}

//! What a line is, by its first word.

ghost use Rattle.std.specs.Prelude.{◌≡◌, length};
ghost use Rattle.rc_handplan.specs.Starts.{start_of_word, line_start, ends_plans};

use crate::hand::Hand;
use rc_text::{Word, Words};

/// The word that closes plans: the first of the line behind them.
#[derive(Clone, Copy, Debug, PartialEq, Eq)]
pub enum Closing {
    /// `work`: this line is the first of a workload, which others read.
    Work,
    /// `end`: the plans stand alone, and this line is the last.
    End,
}

/// What a line is, by its first word.
#[derive(Clone, Copy, Debug, PartialEq, Eq)]
pub(crate) enum LineStart {
    /// It begins with `plan`.
    Plan,
    /// It begins with `work`.
    Work,
    /// It begins with `end`.
    End,
    /// It begins with another word, or its first word has a fault or is quoted.
    Other,
}

fn start_of_word(word: &[u8]) -> LineStart
    ensures { result ≡ start_of_word word.now }
{
    if word == b"plan".as_slice() {
        LineStart::Plan
    } else if word == b"work".as_slice() {
        LineStart::Work
    } else if word == b"end".as_slice() {
        LineStart::End
    } else {
        LineStart::Other
    }
}

/// What a line is.
pub(crate) fn line_start(bytes: &[u8]) -> LineStart
    ensures { result ≡ line_start bytes.now }
{
    match Words::new(bytes).next_word() {
        Ok(Some(Word::Plain(word))) => start_of_word(word),
        _ => LineStart::Other,
    }
}

/// Whether the lines of these plans end before a line: it begins with the word that closes them, or
/// there is no plan, and the line begins none.
pub(crate) fn ends_plans(closing: Closing, hands: &[Hand], start: LineStart) -> bool
    ensures { result ≡ ends_plans closing hands.now start }
{
    match (closing, start) {
        (_, LineStart::Plan) => false,
        (Closing::Work, LineStart::Work) | (Closing::End, LineStart::End) => true,
        _ => hands.is_empty(),
    }
}

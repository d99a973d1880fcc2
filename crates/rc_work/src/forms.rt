//! What a line says, with its words as they stand.

ghost use Rattle.std.specs.Prelude.{◌≡◌};
ghost use Rattle.std.specs.List.{list_all};
ghost use Rattle.std.specs.Option.{option_map};
ghost use Rattle.rc_text.specs.Words.{text_of};
ghost use Rattle.rc_work.specs.LineForms.{word_texts, form_text, round_line, end_line, alone, is_value, call_form, group_form, thread_form, form_of};

use crate::also::Also;
use rc_text::{Word, is_number};

/// What a line behind the header says.
#[derive(Clone, Copy, Debug)]
pub(crate) enum Form<'a> {
    Round,
    End,
    Call {
        thread: &'a [u8],
        op: &'a [u8],
        /// Each is digits or quoted.
        values: &'a [Word<'a>],
    },
    /// So many calls of a thread are to come, as one turn.
    Group {
        thread: &'a [u8],
        /// Digits.
        size: &'a [u8],
    },
}

/// Whether a word stands for a value.
fn is_value(word: &Word<'_>) -> bool
    ensures { result ≡ is_value (text_of word.now) }
{
    match word {
        Word::Plain(word) => is_number(word),
        Word::Quoted(_) => true,
    }
}

/// Whether each word stands for a value.
pub(crate) fn are_values(words: &[Word<'_>]) -> bool
    ensures { result ≡ list_all is_value (word_texts words.now) }
{
    for word in words {
        if !is_value(word) {
            return false;
        }
    }
    true
}

/// What a call says, from the words behind the first.
fn call_form<'a>(thread: &'a [u8], words: &'a [Word<'a>]) -> Option<Form<'a>>
    ensures { option_map form_text result ≡ call_form thread.now (word_texts words.now) }
{
    match words {
        [Word::Plain(op), values @ ..] if are_values(values) => {
            Some(Form::Call { thread, op, values })
        }
        _ => None,
    }
}

/// What a group says, from the words behind the first.
fn group_form<'a>(thread: &'a [u8], words: &'a [Word<'a>]) -> Option<Form<'a>>
    ensures { option_map form_text result ≡ group_form thread.now (word_texts words.now) }
{
    match words {
        [Word::Plain(sign), Word::Plain(size)] if *sign == b"&".as_slice() && is_number(size) => {
            Some(Form::Group { thread, size })
        }
        _ => None,
    }
}

/// What a line says that begins with a thread, from the words behind it.
fn thread_form<'a>(also: Also, thread: &'a [u8], words: &'a [Word<'a>]) -> Option<Form<'a>>
    ensures { option_map form_text result ≡ thread_form also thread.now (word_texts words.now) }
{
    match also {
        Also::Nothing => call_form(thread, words),
        Also::Groups => match group_form(thread, words) {
            Some(form) => Some(form),
            None => call_form(thread, words),
        },
    }
}

/// What a line of these words says, if it has one of the forms.
#[tactic(auto, unfolding(crate::specs::LineForms::form_of))]
pub(crate) fn form_of<'a>(also: Also, words: &'a [Word<'a>]) -> Option<Form<'a>>
    ensures { option_map form_text result ≡ form_of also (word_texts words.now) }
{
    let [Word::Plain(first), words @ ..] = words else {
        return None;
    };
    if *first == b"round".as_slice() {
        words.is_empty().then_some(Form::Round)
    } else if *first == b"end".as_slice() {
        words.is_empty().then_some(Form::End)
    } else if is_number(first) {
        thread_form(also, first, words)
    } else {
        None
    }
}

//! What a line says that brings its own operation, with its words as they stand.

ghost use Rattle.std.specs.Prelude.{◌≡◌, ◌≤◌, length, codes};
ghost use Rattle.std.specs.List.{list_all, position_or_len};
ghost use Rattle.std.specs.Option.{option_map};
ghost use Rattle.rc_text.specs.Words.{text_of};
ghost use Rattle.rc_work.specs.LineForms.{word_texts};
ghost use Rattle.rc_work.specs.ShapeForms.{are_plain, change_form, form_with, has_mark, is_mark, is_plain, kind_text, parts_at, parts_text, query_form, query_lists, shape_form, shape_text, signed_form, split_ranges, update_form};

use crate::forms::are_values;
use rc_text::{Word, is_number};

/// What the operation of a line does, with the words of its columns.
#[derive(Clone, Copy, Debug)]
pub(crate) enum Kind<'a> {
    Query {
        ranges: &'a [Word<'a>],
        outs: &'a [Word<'a>],
    },
    Insert,
    Remove,
    Update,
}

/// What a line says that brings its own operation. No word of a column is quoted.
#[derive(Clone, Copy, Debug)]
pub(crate) struct ShapeForm<'a> {
    pub(crate) thread: &'a [u8],
    pub(crate) pattern: &'a [Word<'a>],
    pub(crate) kind: Kind<'a>,
    /// Each is digits or quoted.
    pub(crate) values: &'a [Word<'a>],
}

/// The words before a mark, and those behind it.
#[derive(Clone, Copy, Debug)]
struct Parts<'a> {
    before: &'a [Word<'a>],
    behind: &'a [Word<'a>],
}

/// Whether a word isn't quoted, and is this one.
fn is_mark(mark: &[u8], word: &Word<'_>) -> bool
    ensures { result ≡ is_mark mark.now (text_of word.now) }
{
    match word {
        Word::Plain(word) => *word == mark,
        Word::Quoted(_) => false,
    }
}

/// Where a mark stands first, or the length.
fn mark_place(words: &[Word<'_>], mark: &[u8]) -> usize
    ensures within { result ≤ length words.now }
    ensures place { result ≡ position_or_len (is_mark mark.now) (word_texts words.now) }
{
    for (i, word) in words.iter().enumerate() {
        if is_mark(mark, word) {
            return i;
        }
    }
    words.len()
}

/// Whether a mark is one of the words.
fn has_mark(words: &[Word<'_>], mark: &[u8]) -> bool
    ensures { result ≡ has_mark mark.now (word_texts words.now) }
{
    for word in words {
        if is_mark(mark, word) {
            return true;
        }
    }
    false
}

/// Whether no word is quoted.
fn are_all_plain(words: &[Word<'_>]) -> bool
    ensures { result ≡ list_all is_plain (word_texts words.now) }
{
    for word in words {
        if matches!(word, Word::Quoted(_)) {
            return false;
        }
    }
    true
}

/// The words before the first mark, and those behind it, where it stands among them.
fn parts_at<'a>(mark: &[u8], words: &'a [Word<'a>]) -> Option<Parts<'a>>
    ensures { option_map parts_text result ≡ parts_at mark.now (word_texts words.now) }
{
    let (before, rest) = words.split_at(mark_place(words, mark));
    match rest {
        [_, behind @ ..] => Some(Parts { before, behind }),
        [] => None,
    }
}

/// Whether no column of the kind is quoted.
fn are_plain(kind: Kind<'_>) -> bool
    ensures { result ≡ are_plain (kind_text kind.entry) }
{
    match kind {
        Kind::Query { ranges, outs } => are_all_plain(ranges) && are_all_plain(outs),
        Kind::Insert | Kind::Remove | Kind::Update => true,
    }
}

/// The form of these parts, where no column is quoted and the values are digits or quoted.
fn form_with<'a>(
    thread: &'a [u8],
    pattern: &'a [Word<'a>],
    kind: Kind<'a>,
    values: &'a [Word<'a>],
) -> Option<ShapeForm<'a>>
    ensures { option_map shape_text result
        ≡ form_with thread.now (word_texts pattern.now) (kind_text kind.entry) (word_texts values.now) }
{
    if are_all_plain(pattern) && are_plain(kind) && are_values(values) {
        Some(ShapeForm {
            thread,
            pattern,
            kind,
            values,
        })
    } else {
        None
    }
}

/// An insert, a remove or an update, from the words behind the sign.
fn change_form<'a>(thread: &'a [u8], kind: Kind<'a>, words: &'a [Word<'a>]) -> Option<ShapeForm<'a>>
    ensures { option_map shape_text result
        ≡ change_form thread.now (kind_text kind.entry) (word_texts words.now) }
{
    let parts = parts_at(b"=", words)?;
    form_with(thread, parts.before, kind, parts.behind)
}

/// An update, where the text may have one.
fn update_form<'a>(later: bool, thread: &'a [u8], words: &'a [Word<'a>]) -> Option<ShapeForm<'a>>
    ensures { option_map shape_text result ≡ update_form later thread.now (word_texts words.now) }
{
    if later {
        change_form(thread, Kind::Update, words)
    } else {
        None
    }
}

/// The words of the pattern, and those of the range columns.
fn split_ranges<'a>(later: bool, words: &'a [Word<'a>]) -> Option<Parts<'a>>
    ensures { option_map parts_text result ≡ split_ranges later (word_texts words.now) }
{
    if !later {
        return if has_mark(words, b":") {
            None
        } else {
            Some(Parts {
                before: words,
                behind: &[],
            })
        };
    }
    let (before, rest) = words.split_at(mark_place(words, b":"));
    match rest {
        [] => Some(Parts {
            before,
            behind: rest,
        }),
        [_] => None,
        [_, behind @ ..] => Some(Parts { before, behind }),
    }
}

/// A query, from its columns and from its values with its outputs.
fn query_lists<'a>(
    thread: &'a [u8],
    columns: Option<Parts<'a>>,
    values: Option<Parts<'a>>,
) -> Option<ShapeForm<'a>>
    ensures { option_map shape_text result
        ≡ query_lists thread.now (option_map parts_text columns.entry) (option_map parts_text values.entry) }
{
    let columns = columns?;
    let values = values?;
    if has_mark(values.behind, b"->") {
        return None;
    }
    let kind = Kind::Query {
        ranges: columns.behind,
        outs: values.behind,
    };
    form_with(thread, columns.before, kind, values.before)
}

/// A query, from the words behind the sign.
fn query_form<'a>(later: bool, thread: &'a [u8], words: &'a [Word<'a>]) -> Option<ShapeForm<'a>>
    ensures { option_map shape_text result ≡ query_form later thread.now (word_texts words.now) }
{
    let parts = parts_at(b"=", words)?;
    if has_mark(parts.before, b"->") {
        return None;
    }
    query_lists(
        thread,
        split_ranges(later, parts.before),
        parts_at(b"->", parts.behind),
    )
}

/// What the words behind a sign say.
fn signed_form<'a>(
    later: bool,
    thread: &'a [u8],
    sign: &[u8],
    words: &'a [Word<'a>],
) -> Option<ShapeForm<'a>>
    ensures { option_map shape_text result
        ≡ signed_form later thread.now sign.now (word_texts words.now) }
{
    match sign {
        b"?" => query_form(later, thread, words),
        b"+" => change_form(thread, Kind::Insert, words),
        b"-" => change_form(thread, Kind::Remove, words),
        b"!" => update_form(later, thread, words),
        _ => None,
    }
}

/// What a line of these words says that brings its own operation, if it has one of the forms. A later text, of version 2, has
/// queries with ranges and updates.
#[tactic(auto, unfolding(crate::specs::ShapeForms::shape_form))]
pub(crate) fn shape_form<'a>(later: bool, words: &'a [Word<'a>]) -> Option<ShapeForm<'a>>
    ensures { option_map shape_text result ≡ shape_form later (word_texts words.now) }
{
    match words {
        [Word::Plain(first), Word::Plain(sign), words @ ..] if is_number(first) => {
            signed_form(later, first, sign, words)
        }
        _ => None,
    }
}

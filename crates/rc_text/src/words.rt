//! The words of a line.

ghost use Rattle.std.specs.Prelude.{◌≡◌, ◌<◌, length, IfOk, IsSome};
ghost use Rattle.rc_text.specs.Words.{IsFound, TakesWord, plain_at, quoted_at, ends_word, next_word_of, words_of, word_then};

use crate::bytes::{blank_place, is_blank, is_text, quote_place, skip_blanks};
use std::marker::Model;

/// A word of a line.
#[derive(Clone, Copy, Debug, PartialEq, Eq)]
pub enum Word<'a> {
    /// A word that does not begin with a quote.
    Plain(&'a [u8]),
    /// The text between the quotes of a quoted word.
    Quoted(&'a [u8]),
}

/// What is wrong with a word. Where both hold, it is the first.
#[derive(Clone, Copy, Debug, PartialEq, Eq)]
pub enum WordFault {
    /// It holds a byte that is neither 32 to 126 nor a tab.
    BadByte,
    /// It begins with a quote, and has no closing one, or something else than a space, a tab or the
    /// line's end stands after that.
    Quote,
}

type Found<'a> = Result<Option<(Word<'a>, &'a [u8])>, WordFault>;

/// The plain word that begins here, and what stands after it.
fn plain_at(bytes: &[u8]) -> Found<'_>
    ensures { IsFound result (plain_at bytes.now) }
{
    let (text, after) = bytes.split_at(blank_place(bytes));
    if is_text(text) {
        Ok(Some((Word::Plain(text), after)))
    } else {
        Err(WordFault::BadByte)
    }
}

fn ends_word(after: &[u8]) -> bool
    ensures { result ≡ ends_word after.now }
{
    match after {
        [] => true,
        [byte, ..] => is_blank(*byte),
    }
}

/// The quoted word whose text begins here, behind the first quote, and what stands after it.
fn quoted_at(bytes: &[u8]) -> Found<'_>
    ensures { IsFound result (quoted_at bytes.now) }
{
    let (text, rest) = bytes.split_at(quote_place(bytes));
    if !is_text(text) {
        return Err(WordFault::BadByte);
    }
    match rest {
        [_, after @ ..] if ends_word(after) => Ok(Some((Word::Quoted(text), after))),
        _ => Err(WordFault::Quote),
    }
}

/// The next word, and what stands after it.
#[tactic(auto, unfolding(crate::specs::Words::next_word_of))]
fn next_word_of(bytes: &[u8]) -> Found<'_>
    ensures { IsFound result (next_word_of bytes.now) }
{
    let bytes = skip_blanks(bytes);
    match bytes {
        [] => Ok(None),
        [b'"', text @ ..] => quoted_at(text),
        _ => plain_at(bytes),
    }
}

/// A reader of a line's words, one after another. Contracts see the bytes that are left.
#[derive(Debug, Drop)]
pub struct Words<'a> {
    rest: &'a [u8],
}

impl<'a> Model for Words<'a> {
    ghost use Rattle.std.specs.Prelude.{List, ℕ};

    ghost Value = { List ℕ };

    ghost view = { λ words. words.rest.now };
}

impl<'a> Words<'a> {
    /// The words of these bytes, which are a line without its end.
    pub fn new(bytes: &'a [u8]) -> Self
        ensures { result ≡ bytes.now }
    {
        Words { rest: bytes }
    }

    /// The next word, or `None` exactly where no word is left.
    /// A fault takes nothing, so the same one comes again.
    pub fn next_word(&mut self) -> Result<Option<Word<'a>>, WordFault>
        ensures next { TakesWord self.old result self.new }
        ensures list { words_of self.old ≡ word_then result (words_of self.new) }
        ensures shorter { IfOk result (λ word. IsSome word → length self.new < length self.old) }
    {
        match next_word_of(self.rest) {
            Ok(None) => Ok(None),
            Ok(Some((word, rest))) => {
                self.rest = rest;
                Ok(Some(word))
            }
            Err(fault) => Err(fault),
        }
    }
}

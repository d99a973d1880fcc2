//! The content lines of a text.

ghost use Rattle.std.specs.Prelude.{◌≡◌, ◌+◌, ◌<◌, ◌≤◌, ◌^◌, ◌∷◌, [], length, take, drop, IfSome, IfNone};
ghost use Rattle.rc_text.specs.Lines.{lines_of, without_last, bytes_of_line, is_content, content_of, content_from, past_end_of, after_line, IsLineStart};

use crate::bytes::skip_blanks;
use std::marker::Model;

/// The most bytes of a text whose lines are read.
pub const MAX_TEXT_BYTES: usize = 1 << 24;

/// A content line: one that is neither blank nor a comment.
#[derive(Clone, Copy, Debug, PartialEq, Eq)]
pub struct Line<'a> {
    /// Counted from 1, with the blank lines and the comments.
    pub number: u32,
    /// The line without its line feed, and without a carriage return directly before its end.
    pub bytes: &'a [u8],
    /// Where in the text the next line begins.
    pub next: usize,
}

/// How long the first line is, with its line feed.
pub fn first_line_length(text: &[u8]) -> usize
    requires { 0 < length text.now }
    ensures within { (0 < result) × (result ≤ length text.now) }
    ensures first { lines_of text.now ≡ take result text.now ∷ lines_of (drop result text.now) }
{
    for (i, byte) in text.iter().enumerate() {
        if *byte == b'\n' {
            return i + 1;
        }
    }
    text.len()
}

/// The bytes without the last one, where that is `last`.
#[tactic(auto, using(crate::specs::LinesLaws::last_byte))]
fn without_last(bytes: &[u8], last: u8) -> &[u8]
    ensures { result.now ≡ without_last last bytes.now }
{
    match bytes {
        [front @ .., byte] if *byte == last => front,
        _ => bytes,
    }
}

fn bytes_of_line(line: &[u8]) -> &[u8]
    ensures { result.now ≡ bytes_of_line line.now }
{
    without_last(without_last(line, b'\n'), b'\r')
}

fn is_content(bytes: &[u8]) -> bool
    ensures { result ≡ is_content bytes.now }
{
    match skip_blanks(bytes) {
        [] | [b'#', ..] => false,
        _ => true,
    }
}

/// A reader of a text's content lines, one after another. Contracts see its place in the text.
#[derive(Debug, Drop)]
pub struct Lines<'a> {
    bytes: &'a [u8],
    at: usize,
    line: u32,
}

impl<'a> Model for Lines<'a> {
    ghost use Rattle.rc_text.specs.Lines.{TextPlace};

    ghost Value = { TextPlace };

    ghost use Rattle.rc_text.specs.Reader.{place_of, IsReadable};

    ghost view = { place_of };

    ghost invariant = { IsReadable };
}

impl<'a> Lines<'a> {
    /// The lines of a text of at most 2^24 bytes, from `at` on, where the line with the number `line` begins.
    /// `at` may be the text's end, and `line` one more than the number of its last line.
    pub fn new(bytes: &'a [u8], at: usize, line: u32) -> Self
        requires short { length bytes.now ≤ 2 ^ 24 }
        requires start { IsLineStart (record { text = bytes.now; at = at; line = line }) }
        ensures { result ≡ record { text = bytes.now; at = at; line = line } }
    {
        Lines { bytes, at, line }
    }

    /// The next content line, or `None` exactly where none is left, as then at every later call.
    pub fn next_line(&mut self) -> Option<Line<'a>>
        ensures line { IfSome result (λ line. content_from self.old ≡ content_of line ∷ content_from self.new) }
        ensures none { IfNone result (content_from self.old ≡ []) }
        ensures rest { IfNone result (content_from self.new ≡ []) }
        ensures after { IfSome result (λ line. self.new ≡ after_line self.old line) }
        ensures number { IfSome result (λ line. line.number ≤ 2 ^ 24) }
        ensures start { IsLineStart self.new }
        ensures text { self.new.text ≡ self.old.text }
    {
        while self.at < self.bytes.len() {
            let number = self.line;
            let rest = &self.bytes[self.at..];
            let length = first_line_length(rest);
            let bytes = bytes_of_line(&rest[..length]);
            self.at += length;
            self.line += 1;
            if is_content(bytes) {
                return Some(Line {
                    number,
                    bytes,
                    next: self.at,
                });
            }
        }
        None
    }

    /// One more than the number of the text's last line: 1 for an empty text.
    pub fn past_end(&self) -> u32
        ensures { result ≡ past_end_of self.now.text }
    {
        let mut rest = &self.bytes[self.at..];
        let mut line = self.line;
        while !rest.is_empty() {
            rest = &rest[first_line_length(rest)..];
            line += 1;
        }
        line
    }
}

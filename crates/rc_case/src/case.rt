//! A case: what a program is given, and how it is to end.

ghost use Rattle.std.specs.Prelude.{◌≡◌, ◌↔◌, IsTrue};

use std::alloc::{AllocError, Global};
use std::fmt;

/// The status of a case to which there is no answer.
const NO_ANSWER: u8 = 2;

/// The streams of a case, which are a source of its input and a sink.
#[derive(Debug, Drop)]
pub struct Streams {
    /// The most bytes that pass in one call; 0 stands for 1.
    pub piece: usize,
    /// The numbers of the reads that fail, from 1.
    pub failed_reads: Vec<u64>,
    /// The numbers of the writes that fail, from 1.
    pub failed_writes: Vec<u64>,
}

/// How a program ended.
#[derive(Debug, Drop)]
pub struct End {
    /// The exit status.
    pub status: u8,
    /// How many bytes of the input were left.
    pub left: usize,
    /// What was written.
    pub text: Vec<u8>,
}

/// A program's words, its input and streams, and how it is to end.
#[derive(Debug, Drop)]
pub struct Case {
    pub name: String,
    /// The words of the command line, the program's name first.
    pub words: Vec<String>,
    pub input: Vec<u8>,
    pub streams: Streams,
    pub wanted: End,
}

impl Streams {
    /// Streams that pass all in one call and never fail.
    fn new(alloc: Global) -> Streams {
        Streams {
            piece: 1 << 25,
            failed_reads: Vec::new(alloc),
            failed_writes: Vec::new(alloc),
        }
    }
}

impl End {
    /// An end with this status and text, with nothing left.
    pub fn new(status: u8, text: Vec<u8>) -> End {
        End {
            status,
            left: 0,
            text,
        }
    }

    /// The end where there is no answer, with a line that says why.
    pub fn without_answer<D: fmt::Display>(alloc: Global, why: &D) -> Result<End, AllocError> {
        let text = format!(in alloc; "{why}\n")?;
        Ok(End::new(NO_ANSWER, text.into_bytes()))
    }

    /// Whether the status, the text and what is left are the same.
    pub fn is(&self, other: &End) -> bool
        ensures { IsTrue result ↔ (self.now.status ≡ other.now.status) × (self.now.left ≡ other.now.left) × (self.now.text.items ≡ other.now.text.items) }
    {
        self.status == other.status && self.left == other.left && self.text == other.text
    }
}

impl Case {
    /// No words and no input, over streams that pass all and never fail; status 0 and no text are wanted.
    pub(crate) fn new(alloc: Global, name: &str) -> Result<Case, AllocError> {
        Ok(Case {
            name: name.to_string(alloc)?,
            words: Vec::new(alloc),
            input: Vec::new(alloc),
            streams: Streams::new(alloc),
            wanted: End::new(0, Vec::new(alloc)),
        })
    }
}

//! The words of a line.

ghost use Rattle.std.specs.Prelude.{◌≡◌, IfOk};
ghost use Rattle.std.specs.Option.{option_map};
ghost use Rattle.rc_reader.specs.Forms.{texts, plain_words_of};

use rc_text::{Word, Words};
use rc_tuple::Memory;
use std::alloc::Global;

/// The words of a line, or `None` where one has a fault or is quoted.
pub(crate) fn plain_words(alloc: Global, bytes: &[u8]) -> Result<Option<Vec<&[u8]>>, Memory>
    ensures { IfOk result (λ words.
        option_map (λ v. texts v.items) words ≡ plain_words_of bytes.now) }
{
    let mut words = Vec::new(alloc);
    let mut rest = Words::new(bytes);
    loop {
        match rest.next_word() {
            Ok(Some(Word::Plain(word))) => words.push(word)?,
            Ok(None) => return Ok(Some(words)),
            _ => return Ok(None),
        }
    }
}

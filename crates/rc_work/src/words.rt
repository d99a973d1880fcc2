//! The words of a line, collected.

ghost use Rattle.std.specs.Prelude.{◌≡◌, IfOk};
ghost use Rattle.std.specs.Option.{option_map};
ghost use Rattle.rc_work.specs.LineForms.{word_texts, words_read};

use rc_text::{Word, Words};
use rc_tuple::Memory;
use std::alloc::Global;

/// The words of a line, if none has a fault.
pub(crate) fn line_words(alloc: Global, bytes: &[u8]) -> Result<Option<Vec<Word<'_>>>, Memory>
    ensures { IfOk result (λ words. option_map (λ v. word_texts v.items) words ≡ words_read bytes.now) }
{
    let mut words = Vec::new(alloc);
    let mut rest = Words::new(bytes);
    loop {
        match rest.next_word() {
            Ok(Some(word)) => words.push(word)?,
            Ok(None) => return Ok(Some(words)),
            Err(_) => return Ok(None),
        }
    }
}

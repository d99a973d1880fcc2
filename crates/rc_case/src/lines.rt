//! Parts of lines: words, numbers, and texts in which `\n` stands for a line's end.

use crate::LineFault;
use std::alloc::{AllocError, Global};

/// The words of a line, each behind one space; none of an empty one.
pub(crate) fn words(alloc: Global, rest: &str) -> Result<Vec<String>, AllocError> {
    let mut found = Vec::new(alloc);
    if rest.is_empty() {
        return Ok(found);
    }
    for word in rest.split(' ') {
        found.push(word.to_string(alloc)?)?;
    }
    Ok(found)
}

/// The numbers of a line, each behind one space.
pub(crate) fn numbers(alloc: Global, rest: &str) -> Result<Vec<u64>, LineFault> {
    let mut found = Vec::new(alloc);
    for word in rest.split(' ') {
        match word.parse::<u64>() {
            Ok(number) => found.push(number)?,
            Err(_) => return Err(LineFault::NoForm),
        }
    }
    Ok(found)
}

/// The only number of a line.
pub(crate) fn number(rest: &str) -> Result<u64, LineFault> {
    match rest.parse::<u64>() {
        Ok(number) => Ok(number),
        Err(_) => Err(LineFault::NoForm),
    }
}

/// The byte of that number.
pub(crate) fn byte(number: u64) -> Result<u8, LineFault> {
    match u8::try_from(number) {
        Ok(byte) => Ok(byte),
        Err(_) => Err(LineFault::NoForm),
    }
}

/// The text with a line's end for each `\n`.
pub(crate) fn unescaped(alloc: Global, text: &str) -> Result<Vec<u8>, AllocError> {
    let mut made = Vec::new(alloc);
    let mut is_first = true;
    for part in text.split("\\n") {
        if !is_first {
            made.push(b'\n')?;
        }
        made.extend_from_slice(part.as_bytes())?;
        is_first = false;
    }
    Ok(made)
}

/// What stands before and behind the first `part` of a text.
fn split_at_part<'a>(text: &'a [u8], part: &[u8]) -> Option<(&'a [u8], &'a [u8])> {
    for at in 0..text.len() {
        if let Some(after) = text[at..].strip_prefix(part) {
            return Some((&text[..at], after));
        }
    }
    None
}

/// The text with `new` in place of the first `old`.
pub(crate) fn replaced(
    alloc: Global,
    text: &[u8],
    old: &[u8],
    new: &[u8],
) -> Result<Vec<u8>, LineFault> {
    let Some((before, after)) = split_at_part(text, old) else {
        return Err(LineFault::NoText);
    };
    let mut made = before.to_vec(alloc)?;
    made.extend_from_slice(new)?;
    made.extend_from_slice(after)?;
    Ok(made)
}

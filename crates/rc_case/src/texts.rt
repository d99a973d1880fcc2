//! Named texts, and changes of the text that is being made.

use crate::LineFault;
use crate::lines::{byte, numbers, replaced, unescaped};
use std::alloc::Global;

/// A text that cases use.
#[derive(Debug, Drop)]
pub(crate) struct Named {
    pub(crate) name: String,
    pub(crate) text: Vec<u8>,
}

/// A copy of the text of that name; of several the last.
pub(crate) fn text_of(alloc: Global, texts: &[Named], name: &str) -> Result<Vec<u8>, LineFault> {
    for named in texts.iter().rev() {
        if named.name.as_str() == name {
            return Ok(named.text.to_vec(alloc)?);
        }
    }
    Err(LineFault::NoText)
}

/// Appends a line.
pub(crate) fn push_line(text: &mut Vec<u8>, line: &str) -> Result<(), LineFault> {
    text.extend_from_slice(line.as_bytes())?;
    text.push(b'\n')?;
    Ok(())
}

/// Appends the bytes of these numbers.
pub(crate) fn push_bytes(alloc: Global, text: &mut Vec<u8>, rest: &str) -> Result<(), LineFault> {
    let list = numbers(alloc, rest)?;
    for number in &list {
        text.push(byte(*number)?)?;
    }
    Ok(())
}

/// Appends a byte many times: its number, and how often.
pub(crate) fn fill(alloc: Global, text: &mut Vec<u8>, rest: &str) -> Result<(), LineFault> {
    let list = numbers(alloc, rest)?;
    let [number, count] = list.as_slice() else {
        return Err(LineFault::NoForm);
    };
    let filled = vec![in alloc; byte(*number)?; *count as usize]?;
    text.extend_from_slice(&filled)?;
    Ok(())
}

/// Puts what stands behind ` => ` in place of what stands before it, once.
pub(crate) fn change(alloc: Global, text: &mut Vec<u8>, rest: &str) -> Result<(), LineFault> {
    let Some((old, new)) = rest.split_once(" => ") else {
        return Err(LineFault::NoForm);
    };
    let (old, new) = (unescaped(alloc, old)?, unescaped(alloc, new)?);
    let made = replaced(alloc, text, &old, &new)?;
    *text = made;
    Ok(())
}

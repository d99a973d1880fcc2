//! Specifications that are read from texts, and accepted.

use crate::stop::Stop;
use rc_place::{AcceptFault, accept};
use rc_reader::{ReadRefusal, read_spec};
use rc_spec::Accepted;
use rc_text::MAX_TEXT_BYTES;
use std::alloc::Global;

/// The specification with which a text begins, accepted. What stands behind its line `end` isn't read.
pub(crate) fn accepted_of(alloc: Global, text: &str) -> Result<Accepted, Stop> {
    if text.len() > MAX_TEXT_BYTES {
        return Err(Stop::Input);
    }
    let (spec, _) = match read_spec(alloc, text.as_bytes()) {
        Ok(read) => read,
        Err(ReadRefusal::Memory) => return Err(Stop::Memory),
        Err(ReadRefusal::Line { .. }) => return Err(Stop::Input),
    };
    match accept(alloc, spec) {
        Ok(accepted) => Ok(accepted),
        Err(AcceptFault::Memory) => Err(Stop::Memory),
        Err(AcceptFault::Refused(_, _)) => Err(Stop::Refused),
    }
}

/// What stands behind the line `end` of the specification with which a text begins.
pub(crate) fn behind_spec(text: &str) -> Result<&str, Stop> {
    match text.split_once("\nend\n") {
        Some((_, rest)) => Ok(rest),
        None => Err(Stop::Input),
    }
}

//! Writes lines to a sink, each with its line feed at a time.

ghost use Rattle.std.specs.Prelude.{◌≡◌, ◌∷◌, [], OnOk, OnErr};
ghost use Rattle.rc_io.specs.Bytes.{Adds, AddsPrefix};
ghost use Rattle.rc_rel.specs.History.{AllFit};
ghost use Rattle.rc_text.specs.Lines.{printed_lines};
ghost use Rattle.rc_work.specs.Report.{report};
ghost use Rattle.rc_answer.specs.Answers.{IsAcceptedText};
ghost use Rattle.rc_answer.specs.Writes.{CountsFaults, Writes};

use crate::status::{Status, Stop};
use rc_io::{Sink, write_all};
use rc_text::first_line_length;
use rc_work::Report;
use std::alloc::Global;

/// Writes a line, which is given without its line feed.
pub(crate) fn write_line<K: Sink>(sink: &mut K, mut line: Vec<u8>) -> Result<(), Stop>
    ensures ok { OnOk result (Adds (K.held sink.old) (printed_lines (line.items ∷ [])) (K.held sink.new)) }
    ensures prefix { OnErr result (AddsPrefix (K.held sink.old) (printed_lines (line.items ∷ [])) (K.held sink.new)) }
    ensures faults { CountsFaults (K.faults sink.old) (K.faults sink.new) result }
{
    if line.push(b'\n').is_err() {
        return Err(Stop::Memory);
    }
    write_all(sink, &line)?;
    Ok(())
}

/// Writes a text line by line.
pub(crate) fn write_text<K: Sink>(sink: &mut K, text: &[u8]) -> Result<(), Stop>
    ensures ok { OnOk result (Adds (K.held sink.old) text.now (K.held sink.new)) }
    ensures prefix { OnErr result (AddsPrefix (K.held sink.old) text.now (K.held sink.new)) }
    ensures faults { CountsFaults (K.faults sink.old) (K.faults sink.new) result }
{
    let mut rest = text;
    while !rest.is_empty() {
        let (line, others) = rest.split_at(first_line_length(rest));
        write_all(sink, line)?;
        rest = others;
    }
    Ok(())
}

/// Writes that a specification is accepted.
pub(crate) fn write_accepted<K: Sink>(sink: &mut K) -> Result<Status, Stop>
    ensures written { Writes IsAcceptedText (K.held sink.old) (K.held sink.new) result }
    ensures faults { CountsFaults (K.faults sink.old) (K.faults sink.new) result }
{
    write_all(sink, b"accepted\n")?;
    Ok(Status::Done)
}

/// Writes a report line by line.
pub(crate) fn write_report<K: Sink>(
    alloc: Global,
    sink: &mut K,
    printed: &Report,
) -> Result<(), Stop>
    requires { AllFit printed.now.spec.now printed.now.entries.now }
    ensures ok { OnOk result (Adds (K.held sink.old) (printed_lines (report printed.now.spec.now printed.now.ranks.now printed.now.entries.now printed.now.rows.now)) (K.held sink.new)) }
    ensures prefix { OnErr result (AddsPrefix (K.held sink.old) (printed_lines (report printed.now.spec.now printed.now.ranks.now printed.now.entries.now printed.now.rows.now)) (K.held sink.new)) }
    ensures faults { CountsFaults (K.faults sink.old) (K.faults sink.new) result }
{
    for number in 0..printed.part_count() {
        match printed.part(alloc, number)? {
            Some(part) => write_text(sink, &part)?,
            None => return Ok(()),
        }
    }
    Ok(())
}

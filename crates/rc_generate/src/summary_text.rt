//! The text of a summary.

ghost use Rattle.std.specs.Prelude.{◌≡◌, ◌++◌, ◌∷◌, [], IfOk, OnOk};
ghost use Rattle.rc_text.specs.Lines.{printed_lines};
ghost use Rattle.rc_work.specs.Report.{count_line};
ghost use Rattle.rc_generate.specs.SummaryText.{summary_text};

use crate::summary::Summary;
use rc_text::{push_bytes, push_u64};
use rc_tuple::Memory;
use std::alloc::Global;

/// Appends a line with a word and a count.
fn push_count(out: &mut Vec<u8>, word: &[u8], count: u64) -> Result<(), Memory>
    ensures { OnOk result (out.new.items ≡ out.old.items ++ printed_lines (count_line word.now count ∷ [])) }
{
    push_bytes(out, word)?;
    out.push(b' ')?;
    push_u64(out, count)?;
    out.push(b'\n')?;
    Ok(())
}

/// Appends the text of a summary.
fn push_summary(out: &mut Vec<u8>, summary: &Summary) -> Result<(), Memory>
    ensures { OnOk result (out.new.items ≡ out.old.items ++ summary_text summary.now) }
{
    push_count(out, b"calls", summary.calls)?;
    push_count(out, b"inserted", summary.inserted)?;
    push_count(out, b"present", summary.present)?;
    push_count(out, b"conflict", summary.conflict)?;
    push_count(out, b"removed", summary.removed)?;
    push_count(out, b"absent", summary.absent)?;
    push_count(out, b"queries", summary.queries)?;
    push_count(out, b"rows", summary.rows)?;
    push_count(out, b"many", summary.many)?;
    push_count(out, b"final", summary.tuples)?;
    push_bytes(out, b"end\n")?;
    Ok(())
}

/// The text of a summary: a line with each count, and the line `end`.
pub fn print_summary(alloc: Global, summary: &Summary) -> Result<Vec<u8>, Memory>
    ensures { IfOk result (λ text. text.items ≡ summary_text summary.now) }
{
    let mut text = Vec::new(alloc);
    push_summary(&mut text, summary)?;
    Ok(text)
}

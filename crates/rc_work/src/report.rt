ghost use Rattle.std.specs.Prelude.{◌≡◌, ◌++◌, ◌∷◌, [], IfOk, OnOk, length, map, slice_get};
ghost use Rattle.std.specs.Option.{option_map};
ghost use Rattle.rc_text.specs.Lines.{printed_lines};
ghost use Rattle.rc_rel.specs.History.{AllFit, StepsFit};
ghost use Rattle.rc_spec.specs.Calls.{Fits};
ghost use Rattle.rc_work.specs.Report.{parts, step_line, group_head, head_lines, entry_lines, final_lines, final_parts, count_line};

use crate::printing::{print_tuple, push_count_line, push_spaced, push_spaced_u64, push_step_line};
use rc_rel::{Entry, Step};
use rc_spec::Spec;
use rc_text::push_u64;
use rc_tuple::{Memory, Tuple};
use rc_values::Ranks;
use std::alloc::Global;

/// What a report is printed from: the entries of a journal, and the tuples of the final relation.
#[derive(Clone, Copy)]
pub struct Report<'a> {
    pub spec: &'a Spec,
    pub ranks: &'a Ranks,
    /// The entries in order, whose calls fit.
    pub entries: &'a [Entry],
    /// The tuples after the last entry, rising.
    pub rows: &'a [Tuple],
}

impl<'a> Report<'a> {
    /// How many parts the report has: the lines of an entry are one, and so is each other line.
    pub fn part_count(&self) -> u64
        ensures { result ≡ length (parts self.now.spec.now self.now.ranks.now self.now.entries.now
            self.now.rows.now) }
    {
        (self.entries.len() + self.rows.len() + 3) as u64
    }

    /// The text of the part with this number, counted from 0: its lines, each with its line feed. `None` exactly where the
    /// report has no such part.
    #[tactic(auto, unfolding(crate::specs::Report::parts))]
    pub fn part(&self, alloc: Global, number: u64) -> Result<Option<Vec<u8>>, Memory>
        requires { AllFit self.now.spec.now self.now.entries.now }
        ensures { IfOk result (λ part. option_map (λ bytes. bytes.items) part
            ≡ option_map printed_lines (slice_get (parts self.now.spec.now self.now.ranks.now
            self.now.entries.now self.now.rows.now) number)) }
    {
        let number = number as usize;
        if number == 0 {
            return Ok(Some(counted(alloc, b"journal", self.entries.len() as u64)?));
        }
        let place = number - 1;
        if place < self.entries.len() {
            return Ok(Some(self.entry_text(alloc, place, &self.entries[place])?));
        }
        self.part_after(alloc, place - self.entries.len())
    }

    /// The text of the part with this number, counted from the one with the number of tuples.
    fn part_after(&self, alloc: Global, number: usize) -> Result<Option<Vec<u8>>, Memory>
        ensures { IfOk result (λ part. option_map (λ bytes. bytes.items) part
            ≡ option_map printed_lines (slice_get (final_parts self.now.spec.now self.now.ranks.now
            self.now.rows.now) number)) }
    {
        match print_final_line(alloc, self.spec, self.ranks, self.rows, number)? {
            Some(line) => Ok(Some(with_feed(line)?)),
            None => Ok(None),
        }
    }

    /// The lines of an entry with its place.
    fn entry_text(&self, alloc: Global, place: usize, entry: &Entry) -> Result<Vec<u8>, Memory>
        requires { StepsFit self.now.spec.now entry.now.steps }
        ensures { IfOk result (λ text. text.items
            ≡ printed_lines (entry_lines self.now.spec.now self.now.ranks.now place entry.now)) }
    {
        let mut text = Vec::new(alloc);
        push_head(&mut text, place, entry)?;
        self.push_steps(&mut text, place, entry.pass, entry.steps.list())?;
        Ok(text)
    }

    /// Appends a line for each step of an entry with this place and of this thread.
    fn push_steps(
        &self,
        text: &mut Vec<u8>,
        place: usize,
        thread: u32,
        steps: &[Step],
    ) -> Result<(), Memory>
        requires { StepsFit self.now.spec.now steps.now }
        ensures { OnOk result (text.new.items ≡ text.old.items
            ++ printed_lines (map (step_line self.now.spec.now self.now.ranks.now place thread)
            steps.now)) }
    {
        for step in steps {
            push_step_line(text, self.spec, self.ranks, place as u64, thread, step)?;
            text.push(b'\n')?;
        }
        Ok(())
    }
}

/// The line of a final relation with this number, counted from that with the number of tuples: the
/// tuples, in order, and then `end`. `None` exactly where there is no such line.
pub fn print_final_line(
    alloc: Global,
    spec: &Spec,
    ranks: &Ranks,
    rows: &[Tuple],
    number: usize,
) -> Result<Option<Vec<u8>>, Memory>
    ensures { IfOk result (λ line. option_map (λ bytes. bytes.items) line
        ≡ slice_get (final_lines spec.now ranks.now rows.now) number) }
{
    if number == 0 {
        let mut line = Vec::new(alloc);
        push_count_line(&mut line, b"final", rows.len() as u64)?;
        return Ok(Some(line));
    }
    let place = number - 1;
    if place < rows.len() {
        return Ok(Some(print_tuple(alloc, spec, ranks, &rows[place])?));
    }
    if place == rows.len() {
        return Ok(Some(Vec::from_slice(alloc, b"end")?));
    }
    Ok(None)
}

/// Appends the line that says how many steps an entry with this place has, where they are two or more.
fn push_head(text: &mut Vec<u8>, place: usize, entry: &Entry) -> Result<(), Memory>
    ensures { OnOk result (text.new.items
        ≡ text.old.items ++ printed_lines (head_lines place entry.now)) }
{
    let count = entry.steps.list().len();
    if count < 2 {
        return Ok(());
    }
    push_u64(text, place as u64)?;
    push_spaced_u64(text, u64::from(entry.pass))?;
    push_spaced(text, b"&")?;
    push_spaced_u64(text, count as u64)?;
    text.push(b'\n')?;
    Ok(())
}

/// The line with its line feed.
fn with_feed(line: Vec<u8>) -> Result<Vec<u8>, Memory>
    ensures { IfOk result (λ text. text.items ≡ printed_lines (line.items ∷ [])) }
{
    let mut text = line;
    text.push(b'\n')?;
    Ok(text)
}

/// The line of a word with a count, with its line feed.
fn counted(alloc: Global, name: &[u8], count: u64) -> Result<Vec<u8>, Memory>
    ensures { IfOk result (λ text. text.items ≡ printed_lines (count_line name.now count ∷ [])) }
{
    let mut line = Vec::new(alloc);
    push_count_line(&mut line, name, count)?;
    with_feed(line)
}

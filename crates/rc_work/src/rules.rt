//! The rules that a line may break, and what it adds where it breaks none.

ghost use Rattle.std.specs.Prelude.{◌≡◌, ◌≤◌, false, length, IfOk};
ghost use Rattle.std.specs.List.{list_any};
ghost use Rattle.rc_text.specs.Words.{text_of};
ghost use Rattle.rc_spec.specs.InRange.{IsInRange};
ghost use Rattle.rc_spec.specs.declared.spec.Spec.{Spec};
ghost use Rattle.rc_work.specs.LineForms.{word_texts, form_text, round_line, end_line, call_line, group_line};
ghost use Rattle.rc_work.specs.LineRules.{thread_of, group_size, raw_value, raw_values, is_too_large, is_wrong_kind, has_wrong_kind, call_thread, read_call, after_form};
ghost use Rattle.rc_work.specs.Answers.{Gives, TakesLine};

use crate::columns::written_columns;
use crate::draft::{Draft, UnfilledGroup};
use crate::forms::Form;
use crate::printing::kind_at;
use crate::raw::{RawCall, RawCalls, RawTurn, RawValue, RawValues};
use rc_reader::{LineFault, LineRule, number_among};
use rc_spec::{ColKind, Op, Spec};
use rc_text::{Word, read_u64};
use rc_tuple::Memory;
use rc_values::{MAX_LEN, Name64};
use std::alloc::Global;

/// The most rounds of a workload.
const MAX_ROUNDS: usize = 64;

/// The fewest and the most calls of a group.
const MIN_GROUP: u64 = 2;

const MAX_GROUP: u64 = 16;

/// The thread that a word names, if it is below the number of threads.
pub(crate) fn thread_of(threads: u32, word: &[u8]) -> Option<u32>
    ensures { result ≡ thread_of threads word.now }
{
    match read_u64(word) {
        Ok(number) if number < u64::from(threads) => Some(number as u32),
        _ => None,
    }
}

/// The number of calls that a word gives a group, if it is 2 to 16.
fn group_size(word: &[u8]) -> Option<u32>
    ensures { result ≡ group_size word.now }
{
    match read_u64(word) {
        Ok(number) if MIN_GROUP <= number && number <= MAX_GROUP => Some(number as u32),
        _ => None,
    }
}

/// The value that a word stands for, unless it is too large.
fn raw_value(alloc: Global, word: &Word<'_>) -> Result<Option<RawValue>, Memory>
    ensures { IfOk result (λ value. value ≡ raw_value (text_of word.now)) }
{
    match word {
        Word::Plain(word) => match read_u64(word) {
            Ok(number) => Ok(Some(RawValue::Number(number))),
            Err(_) => Ok(None),
        },
        Word::Quoted(text) if text.len() <= MAX_LEN => {
            Ok(Some(RawValue::Text(Name64::new(alloc, text)?)))
        }
        Word::Quoted(_) => Ok(None),
    }
}

/// Whether a number has more than 64 bits, or a text more than 64 bytes.
fn is_too_large(word: &Word<'_>) -> bool
    ensures { result ≡ is_too_large (text_of word.now) }
{
    match word {
        Word::Plain(word) => read_u64(word).is_err(),
        Word::Quoted(text) => text.len() > MAX_LEN,
    }
}

/// Whether some value is too large.
fn has_too_large(words: &[Word<'_>]) -> bool
    ensures { result ≡ list_any is_too_large (word_texts words.now) }
{
    for word in words {
        if is_too_large(word) {
            return true;
        }
    }
    false
}

/// The values that words stand for, without those that are too large.
fn raw_values(alloc: Global, words: &[Word<'_>]) -> Result<RawValues, Memory>
    ensures { IfOk result (λ values. values ≡ raw_values (word_texts words.now)) }
{
    let mut values = RawValues::new(alloc);
    for word in words {
        if let Some(value) = raw_value(alloc, word)? {
            values.push(value)?;
        }
    }
    Ok(values)
}

/// Whether the value is none for a column of this kind.
fn is_wrong_kind(kind: ColKind, value: &RawValue) -> bool
    ensures { result ≡ is_wrong_kind kind value.now }
{
    match (kind, value) {
        (ColKind::Num, RawValue::Number(_)) => false,
        (ColKind::Num, RawValue::Text(_)) => true,
        (ColKind::Text, RawValue::Number(_)) => true,
        (ColKind::Text, RawValue::Text(_)) => false,
    }
}

/// Whether some value is none for the column beside it.
fn has_wrong_kind(spec: &Spec, cols: &[u8], values: &[RawValue]) -> bool
    requires { length values.now ≡ length cols.now }
    ensures { result ≡ has_wrong_kind spec.now cols.now values.now }
{
    for (i, value) in values.iter().enumerate() {
        if is_wrong_kind(kind_at(spec, cols[i]), value) {
            return true;
        }
    }
    false
}

/// The thread of a call, unless it breaks one of the rules S5 to S8. The caller says whether it is one too many.
pub(crate) fn call_thread(
    draft: &Draft,
    is_full: bool,
    thread: &[u8],
    words: &[Word<'_>],
) -> Result<u32, LineFault>
    ensures gives { Gives result (call_thread draft.now is_full thread.now (word_texts words.now)) }
    ensures few { IfOk result (λ thread. is_full ≡ false) }
{
    let Some(thread) = thread_of(draft.threads, thread) else {
        return Err(LineFault::Broken(LineRule::S5));
    };
    if has_too_large(words) {
        return Err(LineFault::Broken(LineRule::S5));
    }
    if is_full {
        return Err(LineFault::Broken(LineRule::S6));
    }
    if draft.rounds.list().is_empty() {
        return Err(LineFault::Broken(LineRule::S7));
    }
    if draft.ended {
        return Err(LineFault::Broken(LineRule::S8));
    }
    Ok(thread)
}

/// The call of an operation that has this number, unless its values break W2 or W3. Values of another count aren't kept, since
/// a line may have millions of words that are no call's.
pub(crate) fn read_call(
    alloc: Global,
    spec: &Spec,
    op: &Op,
    number: u8,
    words: &[Word<'_>],
) -> Result<RawCall, LineFault>
    requires few { length spec.now.columns ≤ 32 }
    requires within { list_any is_too_large (word_texts words.now) ≡ false }
    ensures { Gives result (read_call spec.now op.now number (word_texts words.now)) }
{
    let cols = written_columns(alloc, spec, op)?;
    if words.len() != cols.list().len() {
        return Err(LineFault::Broken(LineRule::W2));
    }
    let values = raw_values(alloc, words)?;
    if has_wrong_kind(spec, cols.list(), values.list()) {
        return Err(LineFault::Broken(LineRule::W3));
    }
    let op = number;
    Ok(RawCall { op, cols, values })
}

fn add_round(draft: &mut Draft) -> Result<(), LineFault>
    ensures { (spec : Spec) → TakesLine result draft.new (after_form spec draft.old round_line) }
{
    if draft.rounds.list().len() >= MAX_ROUNDS {
        return Err(LineFault::Broken(LineRule::S6));
    }
    if draft.ended {
        return Err(LineFault::Broken(LineRule::S8));
    }
    if draft.group.is_some() {
        return Err(LineFault::Broken(LineRule::W5));
    }
    draft.rounds.push_round()?;
    Ok(())
}

fn add_end(draft: &mut Draft) -> Result<(), LineFault>
    ensures { (spec : Spec) → TakesLine result draft.new (after_form spec draft.old end_line) }
{
    if draft.ended {
        return Err(LineFault::Broken(LineRule::S8));
    }
    if draft.group.is_some() {
        return Err(LineFault::Broken(LineRule::W5));
    }
    draft.ended = true;
    Ok(())
}

fn add_group(alloc: Global, draft: &mut Draft, thread: &[u8], size: &[u8]) -> Result<(), LineFault>
    ensures { (spec : Spec) → TakesLine result draft.new
        (after_form spec draft.old (group_line thread.now size.now)) }
{
    let Some(thread) = thread_of(draft.threads, thread) else {
        return Err(LineFault::Broken(LineRule::S5));
    };
    let Some(size) = group_size(size) else {
        return Err(LineFault::Broken(LineRule::S5));
    };
    if draft.ended {
        return Err(LineFault::Broken(LineRule::S8));
    }
    if draft.group.is_some() {
        return Err(LineFault::Broken(LineRule::W5));
    }
    let calls = RawCalls::new(alloc);
    draft.group = Some(UnfilledGroup {
        size,
        turn: RawTurn { thread, calls },
    });
    Ok(())
}

fn add_call(
    alloc: Global,
    spec: &Spec,
    draft: &mut Draft,
    thread: &[u8],
    op: &[u8],
    words: &[Word<'_>],
) -> Result<(), LineFault>
    requires { IsInRange spec.now }
    ensures { TakesLine result draft.new (after_form spec.now draft.old (call_line thread.now op.now (word_texts words.now))) }
{
    let thread = call_thread(draft, draft.is_full(), thread, words)?;
    let Some(number) = number_among(spec.ops.list(), op) else {
        return Err(LineFault::Broken(LineRule::W1));
    };
    let op = &spec.ops.list()[number];
    let call = read_call(alloc, spec, op, number as u8, words)?;
    if draft.is_others(thread) {
        return Err(LineFault::Broken(LineRule::W5));
    }
    draft.push_call(alloc, thread, call)?;
    Ok(())
}

/// Takes a line of this form into the draft. After a refusal the draft is of no use.
pub(crate) fn take_form(
    alloc: Global,
    spec: &Spec,
    draft: &mut Draft,
    form: Form<'_>,
) -> Result<(), LineFault>
    requires { IsInRange spec.now }
    ensures { TakesLine result draft.new (after_form spec.now draft.old (form_text form.entry)) }
{
    match form {
        Form::Round => add_round(draft),
        Form::End => add_end(draft),
        Form::Call { thread, op, values } => add_call(alloc, spec, draft, thread, op, values),
        Form::Group { thread, size } => add_group(alloc, draft, thread, size),
    }
}

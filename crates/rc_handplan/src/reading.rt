//! Reads the plans behind a specification, line by line.

ghost use Rattle.std.specs.Prelude.{◌≡◌, ◌≤◌, ◌^◌, length, List, Ok, IfOk, IfErr, IsOk};
ghost use Rattle.rc_text.specs.Lines.{IsLineStart, content_from};
ghost use Rattle.rc_reader.specs.Answers.{rest_place};
ghost use Rattle.rc_handplan.specs.declared.hand.Hand.{Hand};
ghost use Rattle.rc_handplan.specs.declared.refusal.HandRefusal.TheVariants as refusals;
ghost use Rattle.rc_handplan.specs.Answers.{HasReadPlans, Refuses};
ghost use Rattle.rc_handplan.specs.HandGrammar.{closed_by, hands_reading_to, plans_of, says_end};
ghost use Rattle.rc_handplan.specs.Hands.{AreHands};

use crate::hand::Hand;
use crate::lines::take_line;
use crate::refusal::{HandRefusal, HandRule};
use crate::starts::{Closing, ends_plans, line_start};
use crate::words::plain_words;
use rc_reader::Rest;
use rc_spec::Accepted;
use rc_text::Lines;
use rc_tuple::Memory;
use std::alloc::Global;

/// Reads the plans that stand from a place on, in a text of at most 2^24 bytes, and says where the
/// lines behind them begin. The first line that begins with the word that closes them is not read; nor
/// is any where the first line begins no plan. A refusal is for the first broken rule and its line, or
/// is want of memory. Each line costs a walk over its words, of which each is sought among the items of
/// its kind.
pub fn read_plans(
    alloc: Global,
    bytes: &[u8],
    rest: Rest,
    accepted: &Accepted,
    closing: Closing,
) -> Result<(Vec<Hand>, Rest), HandRefusal>
    requires short { length bytes.now ≤ 2 ^ 24 }
    requires start { IsLineStart (rest_place bytes.now rest) }
    ensures read { IfOk result (λ read. HasReadPlans bytes.now rest read.0.items read.1
        (hands_reading_to closing accepted.now (rest_place bytes.now rest))) }
    ensures refused { IfErr result (λ refusal. Refuses refusal
        (hands_reading_to closing accepted.now (rest_place bytes.now rest))) }
    ensures hands { IfOk result (λ read. AreHands accepted.now read.0.items) }
{
    let mut lines = Lines::new(bytes, rest.at, rest.line);
    let mut hands = Vec::new(alloc);
    let mut behind = rest;
    while let Some(line) = lines.next_line() {
        let start = line_start(line.bytes);
        if ends_plans(closing, &hands, start) {
            return Ok((hands, behind));
        }
        if let Err(fault) = take_line(alloc, accepted.spec(), &mut hands, start, line.bytes) {
            return Err(fault.at(line.number));
        }
        behind.at = line.next;
        behind.line = line.number + 1;
    }
    if hands.is_empty() {
        Ok((hands, behind))
    } else {
        Err(HandRefusal::Line {
            rule: HandRule::S8,
            line: lines.past_end(),
        })
    }
}

/// Whether a line says `end`, and nothing else.
fn says_end(alloc: Global, bytes: &[u8]) -> Result<bool, Memory>
    ensures { IfOk result (λ says. says ≡ says_end bytes.now) }
{
    let Some(words) = plain_words(alloc, bytes)? else {
        return Ok(false);
    };
    match words.as_slice() {
        [word] => Ok(*word == b"end".as_slice()),
        _ => Ok(false),
    }
}

/// Tests what stands behind plans that stand alone.
fn check_end(alloc: Global, bytes: &[u8], behind: Rest) -> Result<(), HandRefusal>
    requires short { length bytes.now ≤ 2 ^ 24 }
    requires start { IsLineStart (rest_place bytes.now behind) }
    ensures closed { IsOk result → (hands : List Hand)
        → closed_by hands (content_from (rest_place bytes.now behind)) ≡ Ok hands }
    ensures refused { IfErr result (λ refusal. (hands : List Hand)
        → Refuses refusal (closed_by hands (content_from (rest_place bytes.now behind)))) }
{
    let mut lines = Lines::new(bytes, behind.at, behind.line);
    let Some(line) = lines.next_line() else {
        return Ok(());
    };
    if !says_end(alloc, line.bytes)? {
        return Err(refused_at(HandRule::H2, line.number));
    }
    match lines.next_line() {
        None => Ok(()),
        Some(next) => Err(refused_at(HandRule::S8, next.number)),
    }
}

/// The refusal for a broken rule and its line.
fn refused_at(rule: HandRule, line: u32) -> HandRefusal
    ensures { result ≡ refusals.Line rule line }
{
    HandRefusal::Line { rule, line }
}

/// Reads a text of at most 2^24 bytes in which plans of an accepted specification's operations stand
/// alone, the line `end` behind them. A text without a content line has no plan. A refusal is for the
/// first broken rule and its line, or is want of memory.
pub fn read_plans_only(
    alloc: Global,
    bytes: &[u8],
    accepted: &Accepted,
) -> Result<Vec<Hand>, HandRefusal>
    requires { length bytes.now ≤ 2 ^ 24 }
    ensures read { IfOk result (λ hands. plans_of accepted.now bytes.now ≡ Ok hands.items) }
    ensures refused { IfErr result (λ refusal. Refuses refusal (plans_of accepted.now bytes.now)) }
    ensures hands { IfOk result (λ hands. AreHands accepted.now hands.items) }
{
    // (No header tells a version.)
    let start = Rest {
        at: 0,
        line: 1,
        version: 0,
    };
    let (hands, behind) = read_plans(alloc, bytes, start, accepted, Closing::End)?;
    check_end(alloc, bytes, behind)?;
    Ok(hands)
}

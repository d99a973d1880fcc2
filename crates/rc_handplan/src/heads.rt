//! Reads the line that begins a plan.

ghost use Rattle.std.specs.Prelude.{◌≡◌, IfOk};
ghost use Rattle.rc_reader.specs.Forms.{texts};
ghost use Rattle.rc_spec.specs.InRange.{IsInRange};
ghost use Rattle.rc_handplan.specs.Answers.{TakesLine};
ghost use Rattle.rc_handplan.specs.HandGrammar.{op_in_words, op_in_head, after_head};

use crate::hand::{Hand, begin_plan, has_plan};
use crate::refusal::{HandRule, LineFault};
use crate::words::plain_words;
use rc_reader::number_among;
use rc_spec::Spec;
use rc_tuple::Memory;
use std::alloc::Global;

/// The operation that the words of a head name, which are two.
fn op_in_words(spec: &Spec, words: &[&[u8]]) -> Option<u8>
    requires { IsInRange spec.now }
    ensures { result ≡ op_in_words spec.now (texts words.now) }
{
    match words {
        [_, name] => {
            let op = number_among(spec.ops.list(), name)?;
            Some(op as u8)
        }
        _ => None,
    }
}

/// The operation that a head names.
fn op_in_head(alloc: Global, spec: &Spec, bytes: &[u8]) -> Result<Option<u8>, Memory>
    requires { IsInRange spec.now }
    ensures { IfOk result (λ op. op ≡ op_in_head spec.now bytes.now) }
{
    match plain_words(alloc, bytes)? {
        Some(words) => Ok(op_in_words(spec, &words)),
        None => Ok(None),
    }
}

/// Reads a line that begins with `plan`: behind the plans begins one more.
pub(crate) fn take_head(
    alloc: Global,
    spec: &Spec,
    hands: &mut Vec<Hand>,
    bytes: &[u8],
) -> Result<(), LineFault>
    requires { IsInRange spec.now }
    ensures { TakesLine result hands.new.items
        (after_head spec.now hands.old.items bytes.now) }
{
    let Some(op) = op_in_head(alloc, spec, bytes)? else {
        return Err(LineFault::Broken(HandRule::H1));
    };
    if has_plan(hands, op) {
        return Err(LineFault::Broken(HandRule::H1));
    }
    begin_plan(hands, op)?;
    Ok(())
}

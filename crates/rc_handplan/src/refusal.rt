//! Why plans are not read.

ghost use Rattle.std.specs.Prelude.{◌≡◌, Some};
ghost use Rattle.rc_handplan.specs.declared.refusal.HandRefusal.TheVariants as refusals;
ghost use Rattle.rc_handplan.specs.declared.refusal.LineFault.TheVariants as faults;

use rc_tuple::Memory;
use std::fmt;

/// The rules of the lines of plans, in the order in which a line is tested by them.
#[derive(Clone, Copy, Debug, PartialEq, Eq)]
pub enum HandRule {
    /// Behind `plan` stands something else than the name of one operation, or the operation has a
    /// plan already.
    H1,
    /// A word has a fault or is quoted, or the line has none of the forms of a statement, nor, where plans
    /// stand alone, is it their `end`.
    H2,
    /// A word names no class, edge or column, a column is named twice, or `check` has a number that
    /// is 0 or above the number of dependencies.
    H3,
    /// It is the 257th statement of its plan.
    H4,
    /// The lines run out before the word that closes the plans; or, where they stand alone, a line stands
    /// behind their `end`.
    S8,
}

impl fmt::Display for HandRule {
    ghost use Rattle.rc_handplan.specs.RuleText.{hand_rule_text};

    ghost output = { λ rule. Some (hand_rule_text rule) };

    fn fmt<W: fmt::Write>(&self, f: &mut fmt::Formatter<W>) -> fmt::Result {
        match self {
            HandRule::H1 => write!(f, "H1"),
            HandRule::H2 => write!(f, "H2"),
            HandRule::H3 => write!(f, "H3"),
            HandRule::H4 => write!(f, "H4"),
            HandRule::S8 => write!(f, "S8"),
        }
    }
}

/// Why plans are not read.
#[derive(Clone, Copy, Debug, PartialEq, Eq)]
pub enum HandRefusal {
    /// Memory was wanted and not given.
    Memory,
    /// The first broken rule, and the line that breaks it, counted from 1. Where the lines run out,
    /// it is one past the last.
    Line { rule: HandRule, line: u32 },
}

impl From<Memory> for HandRefusal {
    ghost from_gives = { λ _ refusal. refusal ≡ refusals.Memory };

    fn from(_: Memory) -> Self {
        HandRefusal::Memory
    }
}

/// Why a line is not read.
#[derive(Clone, Copy, Debug, PartialEq, Eq)]
pub(crate) enum LineFault {
    /// Memory was wanted and not given.
    Memory,
    /// The first rule that the line breaks.
    Broken(HandRule),
}

impl LineFault {
    ghost use Rattle.rc_handplan.specs.Answers.{refusal_at};

    /// The refusal of the plans for this fault of the line with this number.
    pub(crate) fn at(self, line: u32) -> HandRefusal
        ensures { result ≡ refusal_at self line }
    {
        match self {
            LineFault::Memory => HandRefusal::Memory,
            LineFault::Broken(rule) => HandRefusal::Line { rule, line },
        }
    }
}

impl From<Memory> for LineFault {
    ghost from_gives = { λ _ fault. fault ≡ faults.Memory };

    fn from(_: Memory) -> Self {
        LineFault::Memory
    }
}

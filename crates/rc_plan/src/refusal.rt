ghost use Rattle.std.specs.Prelude.{Some};

use std::fmt;

/// The rules that an accepted plan keeps.
#[derive(Clone, Copy, Debug, PartialEq, Eq)]
pub enum PlanRule {
    /// Phases: locks and searches, then the write or the answer, then the commit, then each locked class is released once.
    K1,
    /// The order of locks: a class is locked after those with smaller numbers.
    K2,
    /// The cover of reads: a row is read only where its stripe is locked.
    K3,
    /// The cover of writes: each class that has an edge is locked before the write.
    K4,
    /// The steps of reads: the edge is reached, a look-up has its key, and the join loses no tuple.
    K5,
    /// What was found: the columns that a statement needs are visited.
    K6,
    /// The checks of an insert: first for the pattern, then for each dependency that it may break, rising.
    K7,
}

impl fmt::Display for PlanRule {
    ghost use Rattle.rc_plan.specs.PlanText.{plan_rule_text};

    ghost output = { λ rule. Some (plan_rule_text rule) };

    fn fmt<W: fmt::Write>(&self, f: &mut fmt::Formatter<W>) -> fmt::Result {
        match self {
            PlanRule::K1 => write!(f, "K1"),
            PlanRule::K2 => write!(f, "K2"),
            PlanRule::K3 => write!(f, "K3"),
            PlanRule::K4 => write!(f, "K4"),
            PlanRule::K5 => write!(f, "K5"),
            PlanRule::K6 => write!(f, "K6"),
            PlanRule::K7 => write!(f, "K7"),
        }
    }
}

/// The first broken rule of a plan, and the statement that breaks it.
#[derive(Clone, Copy, Debug, PartialEq, Eq)]
pub struct PlanRefusal {
    /// The first broken rule.
    pub rule: PlanRule,
    /// The number of the statement, from 0; where the plan ends too early, how many statements it has.
    pub at: u32,
}

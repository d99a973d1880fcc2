//! The lines with which a report ends.

ghost use Rattle.std.specs.Prelude.{◌≡◌, ◌<◌, ◌+◌, ◌^◌, ℕ, List, length, IfOk, IsSome, option_map};
ghost use Rattle.std.specs.List.{slice_get};
ghost use Rattle.rc_spec.specs.declared.spec.Spec.{Spec};
ghost use Rattle.rc_audit.specs.Judging.{tail_lines};

use rc_spec::Spec;
use rc_tuple::{Memory, Tuples};
use rc_values::Ranks;
use rc_work::print_final_line;
use std::alloc::Global;

/// What stands behind the entries.
#[derive(Debug, Drop)]
pub(crate) enum Tail {
    /// The lines of the relation with these tuples, which rise.
    Relation(Tuples),
    /// The line `end` alone.
    End,
}

impl Tail {
    /// The line with this number, counted from 0. `None` exactly where there is no such line.
    pub(crate) fn print_line(
        &self,
        alloc: Global,
        spec: &Spec,
        ranks: &Ranks,
        number: usize,
    ) -> Result<Option<Vec<u8>>, Memory>
        ensures line { IfOk result (λ line. option_map (λ bytes. bytes.items) line
            ≡ slice_get (tail_lines spec.now ranks.now self.now) number) }
        ensures few { IfOk result (λ line. IsSome line → number + 1 < 2 ^ 64) }
    {
        match self {
            Tail::Relation(rows) => print_final_line(alloc, spec, ranks, rows.list(), number),
            Tail::End if number == 0 => Ok(Some(Vec::from_slice(alloc, b"end")?)),
            Tail::End => Ok(None),
        }
    }

    /// How many lines they are.
    pub(crate) fn count(&self) -> usize
        ensures { (spec : Spec) (ranks : List (List ℕ))
            → result ≡ length (tail_lines spec ranks self.now) }
    {
        match self {
            Tail::Relation(rows) => rows.list().len() + 2,
            Tail::End => 1,
        }
    }
}

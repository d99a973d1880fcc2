ghost use Rattle.std.specs.Prelude.{◌≡◌};
ghost use Rattle.rc_tuple.specs.ColSet.{Within};
ghost use Rattle.rc_spec.specs.Acceptance.{IsSealed};
ghost use Rattle.rc_spec.specs.Calls.{all_columns};
ghost use Rattle.rc_plan.specs.PlanRules.{pattern_columns};
ghost use Rattle.rc_query.specs.Ops.{MayBePlanned};

use rc_spec::{Accepted, Op};
use rc_tuple::ColSet;

/// The pattern's columns of an operation.
pub fn pattern_of(accepted: &Accepted, op: &Op) -> ColSet
    requires { MayBePlanned accepted.now op.now }
    ensures value { result ≡ pattern_columns op.now }
    ensures known { Within result (all_columns accepted.now) }
    ensures sealed { IsSealed accepted.now }
{
    let _ = accepted.spec();
    ColSet::from_list(op.pattern.list())
}

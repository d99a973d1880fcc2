ghost use Rattle.std.specs.Prelude.{◌≡◌, ◌↔◌, ◌<◌, ◌≤◌, ℕ, length};
ghost use Rattle.rc_tuple.specs.Tuple.{Pairs};
ghost use Rattle.rc_spec.specs.OrderLaws.{EdgesLeadForward, NodesStandOnce};
ghost use Rattle.rc_spec.specs.Acceptance.{IsAccepted, IsFirstBroken, IsItemOf, IsKept, checks};
ghost use Rattle.rc_spec.specs.First.{EachHolds};
ghost use Rattle.rc_spec.specs.Laws.{AdequacyLosesNoTuple, AgreeingTuplesShareStripes, EmptyHasNoRows, FragmentsAreParts, FragmentsArePieces, InstancesRepresent, RowsFallWithTuples, StripesAreOfOneClass, StripesHoldAll};
ghost use Rattle.rc_spec.specs.Placement.{IsPlaced};
ghost use Rattle.rc_spec.specs.Stripes.{physical_stripe, stripe_total};
ghost use Rattle.rc_spec.specs.declared.refusal.Refusal.{Refusal};
ghost use Rattle.rc_spec.specs.declared.spec.Spec.{Spec};

/// A specification is accepted exactly where each check of its list holds.
pub fn checks_are_rules()
    ensures { (spec : Spec) → EachHolds (IsKept spec) (checks spec) ↔ IsAccepted spec }
{}

/// A specification with a first broken rule isn't accepted; no other rule or item is its first broken one, and the item
/// is one of its own.
pub fn refused_is_not_accepted()
    ensures refuses { (spec : Spec) (refusal : Refusal) → IsFirstBroken spec refusal → IsAccepted spec → ⊥ }
    ensures known { (spec : Spec) (refusal : Refusal) → IsFirstBroken spec refusal → IsItemOf spec refusal.item }
    ensures one { (spec : Spec) (a b : Refusal) → IsFirstBroken spec a → IsFirstBroken spec b → a ≡ b }
{}

/// A well placed specification has at most 256 stripes, and each tuple falls on one of them.
pub fn stripes_are_few()
    ensures total { (spec : Spec) → IsPlaced spec → stripe_total spec ≤ 256 }
    ensures below { (spec : Spec) (c : ℕ) (t : Pairs) → IsPlaced spec → c < length spec.classes → physical_stripe spec c t < stripe_total spec }
{}

/// Adequacy: the contents of each relation that satisfies the dependencies represent that relation, so an adequate
/// decomposition loses no tuple (PLDI 2011, adequacy; each join is one of Heath's theorem).
pub fn adequacy_loses_no_tuple()
    ensures { AdequacyLosesNoTuple }
{}

/// Tuples that agree and have the columns of a class fall on one stripe of it; and in a well placed specification no
/// stripe is of two classes.
pub fn stripes_part_tuples()
    ensures agreeing { AgreeingTuplesShareStripes }
    ensures classes { StripesAreOfOneClass }
{}

/// The row of a tuple in an edge falls on the stripe of the edge's class on which the tuple falls, where the
/// specification is adequate and well placed.
pub fn rows_fall_with_tuples()
    ensures { RowsFallWithTuples }
{}

/// Each row of the contents of a well placed specification falls on a stripe, so the fragments of all stripes
/// together are all rows.
pub fn stripes_hold_all()
    ensures { StripesHoldAll }
{}

/// The fragments of several stripes are those of each, put together; and of them the rows on one of the stripes are
/// its fragment.
pub fn fragments_are_parts()
    ensures parts { FragmentsAreParts }
    ensures pieces { FragmentsArePieces }
{}

/// The rows of the fragments of all stripes represent the relation, where the specification is adequate and well
/// placed.
pub fn instances_represent()
    ensures { InstancesRepresent }
{}

/// The fragments of the empty relation have no row.
pub fn empty_has_no_rows()
    ensures { EmptyHasNoRows }
{}

/// In a topological order the source of each edge stands before its target.
pub fn edges_lead_forward()
    ensures { EdgesLeadForward }
{}

/// In a topological order each node stands once, and nothing else.
pub fn nodes_stand_once()
    ensures { NodesStandOnce }
{}

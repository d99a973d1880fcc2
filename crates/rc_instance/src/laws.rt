ghost use Rattle.rc_instance.specs.InstanceLaws.{MadeOfRelation, ReleasedToRelation};
ghost use Rattle.rc_instance.specs.RelationLaws.{InstanceIsItsRelation};

/// Where each stripe's rows now are its fragment of a relation that satisfies the dependencies, the rows of all stripes
/// represent that relation.
pub fn instance_is_its_relation()
    ensures { InstanceIsItsRelation }
{}

/// An instance made of kept fragments of a relation is of that relation, and so sound; and so is one that was released,
/// where the rows of each stripe that was held, and what each other offered, are the fragments of the relation.
pub fn instances_become_sound()
    ensures made { MadeOfRelation }
    ensures released { ReleasedToRelation }
{}

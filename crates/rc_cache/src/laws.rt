ghost use Rattle.rc_cache.specs.Apart.{PlansAreApart};

/// The plan of an operation depends on its kind and its columns, and on the specification without its operations: a plan
/// that is planned and accepted for one is so for each that asks alike, whatever operations the specification has.
pub fn plans_are_apart()
    ensures { PlansAreApart }
{}

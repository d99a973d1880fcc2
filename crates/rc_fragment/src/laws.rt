ghost use Rattle.rc_fragment.specs.HolderLaws.{FragmentsAreReadable};

/// The fragments of one relation that satisfies the dependencies and has fewer than 2^63 tuples are what a reader of
/// containers needs: each row lies on its own stripe, has the columns of its edge's target and a count from 1 to below
/// 2^63; and over all stripes an edge has one row of each source and key, and in a singleton one of each source.
pub fn fragments_are_readable()
    ensures { FragmentsAreReadable }
{}

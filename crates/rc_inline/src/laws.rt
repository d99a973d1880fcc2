//! What inlining and placing together leave of a specification: which calls there are, and what they do.

ghost use Rattle.rc_inline.specs.ApartLaws.{EmbeddingLeavesOperations};
ghost use Rattle.rc_inline.specs.InliningLaws.{InliningKeepsCalls, InliningKeepsFitting};
ghost use Rattle.rc_inline.specs.InliningLaws.{InliningKeepsNames, InliningKeepsSchemas};
ghost use Rattle.rc_inline.specs.PlacingLaws.{ClassesAreShared, ClassesAreWidest, EmbeddingKeepsCalls, EmbeddingKeepsFitting};
ghost use Rattle.rc_inline.specs.PlacingLaws.{EmbeddingKeepsNames, EmbeddingKeepsSchemas, OrderIsTested};
ghost use Rattle.rc_inline.specs.PlacingLaws.{StripingStays, UnorderedStay};
ghost use Rattle.rc_inline.specs.SchemaLaws.{CallsOfOneSchema, FittingOfOneSchema};

/// What a call does depends on the schema of its specification alone: on the columns, the dependencies, the lock classes, the
/// operations and the most rows of a reply, and not on nodes, edges and placements. By two specifications of one schema it
/// fits alike, has the same reply and leaves the same relation. (PLDI 2011, a decomposition represents a relation: what the
/// relation's operations answer doesn't tell how.)
pub fn schemas_decide_calls()
    ensures calls { CallsOfOneSchema }
    ensures fitting { FittingOfOneSchema }
{}

/// Inlining keeps the schema of a specification, and its names apart. (PLDI 2011, decompositions: edge contraction leaves the
/// relation's columns, dependencies and operations.)
pub fn inlining_keeps_schemas()
    ensures schema { InliningKeepsSchemas }
    ensures names { InliningKeepsNames }
{}

/// So a call fits the specification with its singletons inlined exactly where it fits the written one, has the same reply and
/// leaves the same relation. (PLDI 2011, the relation's operations.)
pub fn inlining_keeps_calls()
    ensures calls { InliningKeepsCalls }
    ensures fitting { InliningKeepsFitting }
{}

/// What `place_together` makes of the edges: the columns that choose the stripes of an edge's rows stay. Where each edge keeps
/// the order of classes (P3) when all are moved, which the test tells, edges whose classes have the same columns are on one
/// class then, and no class with these columns has more stripes; else none is moved. (PLDI 2012, lock placement.)
pub fn placing_shares_classes()
    ensures columns { StripingStays }
    ensures tested { OrderIsTested }
    ensures shared { ClassesAreShared }
    ensures widest { ClassesAreWidest }
    ensures stay { UnorderedStay }
{}

/// What an embedded store makes of a specification keeps its schema, and its names apart. (PLDI 2011, decompositions; PLDI
/// 2012, lock placement: neither tells what the relation's operations answer.)
pub fn embedding_keeps_schemas()
    ensures schema { EmbeddingKeepsSchemas }
    ensures names { EmbeddingKeepsNames }
{}

/// So a call fits it exactly where it fits the written one, has the same reply and leaves the same relation. (PLDI 2011, the
/// relation's operations.)
pub fn embedding_keeps_calls()
    ensures calls { EmbeddingKeepsCalls }
    ensures fitting { EmbeddingKeepsFitting }
{}

/// What an embedded store makes of a specification doesn't depend on its operations, and leaves them.
pub fn embedding_leaves_operations()
    ensures { EmbeddingLeavesOperations }
{}

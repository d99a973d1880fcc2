//! How much a specification and a reply have at most. (`MAX_COLS` of the columns stands with their sets.)

/// The most dependencies.
pub const MAX_DEPS: usize = 32;

/// The most nodes.
pub const MAX_NODES: usize = 16;

/// The most edges, and so the most placements.
pub const MAX_EDGES: usize = 24;

/// The most lock classes.
pub const MAX_CLASSES: usize = 16;

/// The most physical stripes of all classes together.
pub const MAX_STRIPES: usize = 256;

/// The most rows that a query answers one by one where nothing else is asked; of more it answers their number.
pub const MAX_ROWS: u64 = 256;

use rc_spec::Mode;
use rc_tuple::{ColSet, SmallList};

/// Which stripes of a lock class a statement locks.
#[derive(Clone, Copy, Debug, PartialEq, Eq)]
pub enum Which {
    /// Those on which the bindings fall.
    Keyed,
    /// All of them.
    All,
}

/// How the rows of an edge are found.
#[derive(Clone, Copy, Debug, PartialEq, Eq)]
pub enum ReadMode {
    /// By the values of source and key.
    Lookup,
    /// By the values of the source, among all its rows.
    Scan,
}

/// A statement of a plan. A run keeps bindings, which are tuples over the columns known so far (PLDI 2011, query
/// plans; PLDI 2012, plans with locks). Classes, edges, columns and dependencies are those of a specification, by
/// number.
#[derive(Clone, Copy, Debug)]
pub enum Statement {
    /// Locks, rising, the stripes of a class on which the bindings fall, or all of them.
    Lock {
        /// The class, from 0.
        class: u8,
        /// Which of its stripes.
        which: Which,
        /// How each is locked.
        mode: Mode,
    },
    /// Begins a search of an insert or an update: the one binding is the new tuple's projection on the columns.
    Probe {
        /// The columns.
        cols: ColSet,
    },
    /// Joins the bindings with the rows of an edge.
    Read {
        /// The edge, from 0.
        edge: u8,
        /// How its rows are found.
        mode: ReadMode,
    },
    /// Ends an insert with the reply Present where a binding is left.
    CheckAbsent,
    /// Ends an update with the reply Absent where no binding is left; else the one binding is kept as the old tuple.
    CheckFound,
    /// Ends an insert with the reply Conflict where a binding differs from the new tuple on the right side of a
    /// dependency, and an update where one differs from it on the pattern too.
    CheckDep {
        /// The dependency, from 1.
        dep: u32,
    },
    /// Adds the new tuple's rows to all edges, or takes out those of the one binding; an update takes out those of the old
    /// tuple and adds those of the new one.
    Apply,
    /// Answers a query from the bindings.
    Emit,
    /// Gives the call its place in the history.
    Commit,
    /// Gives back the stripes of a class.
    Release {
        /// The class, from 0.
        class: u8,
    },
}

/// The statements of a plan, in the order in which they run.
pub type Plan = SmallList<Statement>;

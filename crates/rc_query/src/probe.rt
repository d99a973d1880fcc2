use rc_plan::Statement;
use rc_route::Route;
use rc_tuple::ColSet;

/// A search of an insert or an update: what it begins with, the route that it reads, and what is checked behind it.
#[derive(Debug, Drop)]
pub struct PlannedProbe {
    /// The columns of the new tuple with which the search begins.
    pub columns: ColSet,
    /// The edges that it reads.
    pub route: Route,
    /// The statement behind its reads, a check.
    pub check: Statement,
}

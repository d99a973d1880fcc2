/// Of what a report consists.
#[derive(Clone, Copy, Debug, PartialEq, Eq)]
pub enum Form {
    /// All that is printed of a run: the plans, the journal, and the relation at its end.
    Run,
    /// The same of a run in which calls may be made as one.
    Group,
    /// The journal alone: the number of its entries, the entries, and `end`.
    Journal,
}

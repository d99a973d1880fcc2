/// Which lines are read beside those that every workload may have.
#[derive(Clone, Copy, Debug, PartialEq, Eq)]
pub enum Also {
    /// None: each turn has one call.
    Nothing,
    /// Lines `THREAD & N`: the next 2 to 16 lines are calls of that thread, and one turn.
    Groups,
}

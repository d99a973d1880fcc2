use crate::closing::Closing;
use crate::entries::Entries;
use crate::opening::Opening;

/// Which lines of a report come next.
#[derive(Debug, Drop)]
pub(crate) enum Stage {
    Opening(Opening),
    Entries(Entries),
    Closing(Closing),
}

//! The fragment of a lock stripe: the rows of all edges that fall on it, in containers.
#![tactic(auto)]

mod changes;
mod container;
mod cow;
mod edge_rows;
mod fragment;
mod held;
mod holder;
mod keep;
mod laws;
mod note;
mod places;
mod rows;
mod shape;
mod source_table;
mod stored;
mod values;

pub use cow::CowFragment;
pub use fragment::Fragment;
pub use held::{AddStop, Held, TakeStop};
pub use holder::{Holder, Reverts};
pub use keep::Keep;
pub use laws::fragments_are_readable;
pub use shape::EdgeShape;
pub use values::values_at;

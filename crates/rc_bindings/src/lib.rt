//! Bindings: the tuples that a plan has found so far, over the same columns, in registers that lie one behind the other.
//! A projection moves nothing, and a merge is a write. (Registers of a virtual machine; the bindings of a query plan are
//! those of PLDI 2011, section 4.)
#![tactic(auto)]

mod binding;
mod bindings;

pub use binding::Binding;
pub use bindings::Bindings;

//! Specifications and when they are accepted, lock stripes, calls and replies, and what a call does to a relation.
#![tactic(auto)]

mod accepted;
mod call;
mod counted_rows;
mod fitting;
mod items;
mod laws;
mod limits;
mod lock;
mod named;
mod names;
mod query_rows;
mod range;
mod refusal;
mod row_ends;
mod row_list;
mod spec;
mod stripes;
mod well_formed;

pub use accepted::{Accepted, NodeOrder};
pub use call::{Call, Reply};
pub use counted_rows::CountedRow;
pub use fitting::fits;
pub use items::{Class, ColKind, Column, Edge, EdgeKind, Name, Node, Op, OpKind, Place};
pub use laws::{
    adequacy_loses_no_tuple, checks_are_rules, edges_lead_forward, empty_has_no_rows,
    fragments_are_parts, instances_represent, nodes_stand_once, refused_is_not_accepted,
    rows_fall_with_tuples, stripes_are_few, stripes_hold_all, stripes_part_tuples,
};
pub use limits::{MAX_CLASSES, MAX_DEPS, MAX_EDGES, MAX_NODES, MAX_ROWS, MAX_STRIPES};
pub use lock::{Found, Mode};
pub use named::Named;
pub use names::is_name;
pub use query_rows::QueryRows;
pub use range::{Range, Ranges, in_ranges};
pub use refusal::{Item, ItemKind, Refusal, Rule, print_refusal};
pub use row_list::RowList;
pub use spec::{Classes, Columns, Deps, Edges, Nodes, Ops, Places, Spec};
pub use stripes::{band_start, mix, physical_stripe, stripe_of, stripe_total};
pub use well_formed::WellFormed;

//! Queries that are answered from the rows of one edge.

ghost use Rattle.std.specs.Prelude.{◌≡◌, List, ◌++◌, [], true, IfErr, IfOk, OnErr, OnOk};
ghost use Rattle.rc_tuple.specs.RisingSet.{In};
ghost use Rattle.rc_tuple.specs.Tuple.{Pairs, cols_of};
ghost use Rattle.rc_spec.specs.Decomposition.{bound, edge_at};
ghost use Rattle.rc_spec.specs.Fragments.{EdgeRow};
ghost use Rattle.rc_spec.specs.Placement.{op_at};
ghost use Rattle.rc_spec.specs.Plain.{plain};
ghost use Rattle.rc_fragment.specs.Fragment.{shape_of};
ghost use Rattle.rc_fragment.specs.Holder.{AreOfOneRelation, AreOfRelation, held_of};
ghost use Rattle.rc_plan.specs.Access.{extra_of};
ghost use Rattle.rc_plan.specs.PlanRules.{IsQuery};
ghost use Rattle.rc_machine.specs.Access.{HasListed, HasLockedPath, HasLookedUp, leaving};
ghost use Rattle.rc_machine.specs.EdgeRead.{IsReadOver};
ghost use Rattle.rc_machine.specs.declared.stop.Stop.TheVariants as stop;

use crate::Stop;
use crate::edge_read::EdgeRead;
use crate::edge_row::{find_row, push_picked, push_values};
use crate::workspace::Finder;
use rc_fragment::{Fragment, Holder};
use rc_plan::{AccessPath, Compiled, ReadMode};
use rc_spec::{Call, OpKind, Reply, RowList};
use rc_tuple::{Cols, Memory, Tuple};
use std::mem;

/// Answers a query from the rows of its path's edge, on the stripe on which the arguments fall, which is held.
/// Only want of memory stops it, and then the reply stays.
pub(crate) fn answer_by_edge<H: Holder>(
    holder: &H,
    compiled: &Compiled,
    call: &Call,
    path: AccessPath,
    stripe: u32,
    finder: &mut Finder,
    reply: &mut Reply,
) -> Result<(), Stop>
    requires locked { HasLockedPath compiled.now call.now path stripe (H.seen holder.now) }
    requires query { IsQuery (op_at compiled.now.spec call.now.op).kind }
    requires one { AreOfOneRelation compiled.now.spec (held_of (H.seen holder.now)) }
    ensures answered { OnOk result ((r : List Pairs) → AreOfRelation compiled.now.spec (held_of (H.seen holder.now)) r
        → plain compiled.now.spec r call.now ≡ leaving reply.new r) }
    ensures kept { OnErr result (reply.new ≡ reply.old) }
    ensures memory { IfErr result (λ s. s ≡ stop.Memory) }
{
    let OpKind::Query { outs, .. } = &compiled.accepted().spec().op(call.op).kind else {
        unreachable!()
    };
    let read = EdgeRead::of(compiled, path.edge, path.mode);
    let fragment = holder.fragment(stripe);
    let args = &call.args;
    match path.mode {
        ReadMode::Lookup => {
            look_up(fragment, &read, args, outs, path.extra_alone, finder, reply)?;
        }
        ReadMode::Scan => {
            let told = list(fragment, &read, args, outs, finder)?;
            finder.spare.tell(reply, told);
        }
    }
    Ok(())
}

/// Tells the outputs of the row that has the arguments' values of source and key, if there is one. Where the outputs are the
/// extra columns alone, they are the row that was found. Takes memory only where they are more than a list keeps without a block,
/// or the space had room for fewer; where that is wanted the reply stays.
// In its caller's place this one, which answers most queries, tells its row with no move.
#[inline(always)]
fn look_up(
    fragment: &Fragment,
    read: &EdgeRead,
    args: &Tuple,
    outs: &Cols,
    alone: bool,
    finder: &mut Finder,
    reply: &mut Reply,
) -> Result<(), Memory>
    requires read { IsReadOver fragment.now.table read.now }
    requires columns { (w : EdgeRow) → In w fragment.now.now → cols_of w.1 ≡ bound read.now.spec.now (edge_at read.now.spec.now w.0).to }
    requires alone { alone ≡ true → outs.now ≡ extra_of read.now.spec.now (edge_at read.now.spec.now read.now.edge) }
    ensures answered { OnOk result (HasLookedUp (shape_of read.now.spec.now read.now.edge) fragment.now.now read.now.edge args.now outs.now reply.new) }
    ensures kept { OnErr result (reply.new ≡ reply.old) }
{
    let Some(values) = find_row(fragment, read, args, finder)? else {
        let none = RowList::new(*finder.rows.allocator());
        finder.spare.tell(reply, Reply::Rows(none));
        return Ok(());
    };
    if alone {
        return finder.spare.tell_row(reply, values);
    }
    finder.rows.clear();
    let extra = read.resolved.extra;
    push_picked(&mut finder.rows, outs.list(), args, extra, values)?;
    finder.spare.tell_row(reply, &finder.rows)
}

/// The rows that have the arguments' values of the source, where there are so many at most as a reply may have, and else
/// their number. The outputs are the edge's key and its extra columns, so that what a scan tells is the reply. They stand in the
/// spare block, if there is one, and memory is taken only where that has room for fewer values.
fn list(
    fragment: &Fragment,
    read: &EdgeRead,
    args: &Tuple,
    outs: &Cols,
    finder: &mut Finder,
) -> Result<Reply, Memory>
    requires read { IsReadOver fragment.now.table read.now }
    requires columns { (w : EdgeRow) → In w fragment.now.now → cols_of w.1 ≡ bound read.now.spec.now (edge_at read.now.spec.now w.0).to }
    requires outs { outs.now ≡ (edge_at read.now.spec.now read.now.edge).key ++ extra_of read.now.spec.now (edge_at read.now.spec.now read.now.edge) }
    requires keyed { (edge_at read.now.spec.now read.now.edge).key ≡ [] → ⊥ }
    ensures { IfOk result (HasListed (shape_of read.now.spec.now read.now.edge) fragment.now.now read.now.edge args.now outs.now read.now.spec.now.most_rows) }
{
    finder.source.clear();
    push_values(args, read.resolved.source, &mut finder.source)?;
    let none = Vec::new(*finder.rows.allocator());
    let mut values = mem::replace(&mut finder.spare.block, none);
    values.clear();
    fragment.scan(read.edge, &finder.source, &mut values)?;
    let width = outs.list().len();
    let rows = values.as_slice().len() / width;
    if rows as u64 > read.spec.most_rows {
        finder.spare.keep(values);
        return Ok(Reply::Many(rows as u64));
    }
    Ok(Reply::Rows(RowList::of_width(values, rows, width)))
}

//! Operations by what they ask, whatever their names.

ghost use Rattle.std.specs.Prelude.{◌≡◌, ◌↔◌, IfOk, IsTrue};
ghost use Rattle.rc_cache.specs.Apart.{HaveOneShape};

use rc_spec::{Op, OpKind};
use rc_tuple::Memory;

/// Whether the kinds are the same, with the same columns in the same order.
fn same_kind(kind: &OpKind, other: &OpKind) -> bool
    ensures { IsTrue result ↔ (kind.now ≡ other.now) }
{
    match (kind, other) {
        (
            OpKind::Query { outs, ranges },
            OpKind::Query {
                outs: other_outs,
                ranges: other_ranges,
            },
        ) => outs.list() == other_outs.list() && ranges.list() == other_ranges.list(),
        (OpKind::Insert, OpKind::Insert) => true,
        (OpKind::Remove, OpKind::Remove) => true,
        (OpKind::Update, OpKind::Update) => true,
        _ => false,
    }
}

/// Whether the operations ask alike, whatever their names: kind and all columns are equal, in written order.
pub(crate) fn have_one_shape(op: &Op, other: &Op) -> bool
    ensures { IsTrue result ↔ HaveOneShape op.now other.now }
{
    op.pattern.list() == other.pattern.list() && same_kind(&op.kind, &other.kind)
}

/// The same kind once more.
fn copy_kind(kind: &OpKind) -> Result<OpKind, Memory>
    ensures { IfOk result (λ copy. copy ≡ kind.now) }
{
    match kind {
        OpKind::Query { outs, ranges } => {
            let outs = outs.copy()?;
            let ranges = ranges.copy()?;
            Ok(OpKind::Query { outs, ranges })
        }
        OpKind::Insert => Ok(OpKind::Insert),
        OpKind::Remove => Ok(OpKind::Remove),
        OpKind::Update => Ok(OpKind::Update),
    }
}

/// The same operation once more.
pub(crate) fn copy_op(op: &Op) -> Result<Op, Memory>
    ensures { IfOk result (λ copy. copy ≡ op.now) }
{
    let name = op.name.copy()?;
    let pattern = op.pattern.copy()?;
    let kind = copy_kind(&op.kind)?;
    Ok(Op {
        name,
        pattern,
        kind,
    })
}

//! Values with their keys, as a walk over a table gathers them.

ghost use Rattle.std.specs.Prelude.{◌≡◌, [], ◌∷◌, ◌++◌, length, take, IfSome, IfNone, OnOk, OnErr};
ghost use Rattle.rc_maps.specs.Keyed.{has_row, values_of_walk};

use rc_edges::Entry;
use rc_tuple::Memory;

/// A value with its key.
#[derive(Clone, Copy)]
pub struct Keyed<'a, V> {
    pub key: &'a [u64],
    pub value: &'a V,
}

/// Whether the entry's row is there.
pub(crate) fn has_row(entry: &Entry) -> bool
    ensures { result ≡ has_row entry.now }
{
    !entry.is_tombstone()
}

/// Adds for each row that is there its key and then its extra values at the end of the list, in
/// their order. Where memory is wanted the list stays as it was.
pub(crate) fn add_rows(all: &[Keyed<'_, Entry>], out: &mut Vec<u64>) -> Result<(), Memory>
    ensures ok { OnOk result (out.new.items ≡ out.old.items ++ values_of_walk all.now) }
    ensures err { OnErr result (out.new.items ≡ out.old.items) }
{
    let len = out.len();
    match push_rows(all, out) {
        Ok(()) => Ok(()),
        Err(memory) => {
            out.truncate(len);
            Err(memory)
        }
    }
}

/// Adds each row's key and extra values at the end; where memory is wanted some may have been added.
fn push_rows(all: &[Keyed<'_, Entry>], out: &mut Vec<u64>) -> Result<(), Memory>
    ensures ok { OnOk result (out.new.items ≡ out.old.items ++ values_of_walk all.now) }
    ensures err { OnErr result (take (length out.old.items) out.new.items ≡ out.old.items) }
{
    // All rows of a table are as wide as the first, so that one block takes them all. An entry
    // without a row adds nothing: for it the room is more than is needed.
    if let Some(first) = all.first() {
        let extra = first.value.extra().map_or(0, |extra| extra.len());
        out.reserve(all.len().saturating_mul(first.key.len() + extra))?;
    }
    for keyed in all {
        keyed.value.push_row(keyed.key, out)?;
    }
    Ok(())
}

/// The only value of a key of one column; `None` where the key has another length.
pub(crate) fn only(key: &[u64]) -> Option<&u64>
    ensures one { IfSome result (λ value. key.now ≡ value.now ∷ []) }
    ensures other { IfNone result (length key.now ≡ 1 → ⊥) }
{
    match key {
        [value] => Some(value),
        _ => None,
    }
}

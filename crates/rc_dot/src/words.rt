//! Words of a drawing.

ghost use Rattle.std.specs.Prelude.{◌≡◌, ◌++◌, length, OnOk};
ghost use Rattle.rc_tuple.specs.RisingSet.{In};
ghost use Rattle.rc_spec.specs.InRange.{IsSetBelow};
ghost use Rattle.rc_dot.specs.Dot.{colour_of, columns_text};

use rc_plan::push_column;
use rc_spec::{Named, Spec};
use rc_text::push_bytes;
use rc_tuple::{ColSet, Memory};

/// Appends the names of columns in column order, parted by a space.
pub(crate) fn push_columns(text: &mut Vec<u8>, spec: &Spec, cols: ColSet) -> Result<(), Memory>
    requires { IsSetBelow (length spec.now.columns) cols }
    ensures { OnOk result (text.new.items ≡ text.old.items ++ columns_text spec.now cols) }
{
    let Some(first) = cols.nth(0) else {
        return Ok(());
    };
    push_bytes(text, spec.columns.list()[first as usize].name())?;
    for place in 1..cols.len() {
        push_column(text, spec, cols.nth(place).unwrap())?;
    }
    Ok(())
}

/// The colour of a lock class.
#[tactic(auto, unfolding(crate::specs::Dot::colour_of))]
pub(crate) fn colour_of(class: u8) -> &'static [u8]
    ensures { result.now ≡ colour_of class }
{
    match class % 8 {
        0 => b"#1b6ca8",
        1 => b"#b5442f",
        2 => b"#3c7d3c",
        3 => b"#7a4a9e",
        4 => b"#a0720b",
        5 => b"#0b7a75",
        6 => b"#a03668",
        _ => b"#555555",
    }
}

//! The rows that edges keep of tuples, and the stripes on which they fall.

ghost use Rattle.std.specs.Prelude.{◌<◌, length};

use crate::stop::Stop;
use rc_spec::{Accepted, physical_stripe};
use rc_text::{push_bytes, push_u64};
use rc_tuple::{ColSet, Memory, Tuple, Vals};
use std::alloc::Global;

/// `rows`: of the tuple of each line, appends a line for each edge: its name, the values of its row, and the stripe.
pub(crate) fn push_rows(accepted: &Accepted, lines: &str, out: &mut Vec<u8>) -> Result<(), Stop> {
    for line in lines.lines() {
        let tuple = tuple(*out.allocator(), line)?;
        push_rows_of(accepted, &tuple, out)?;
    }
    Ok(())
}

/// The tuple with these values for the columns in their order.
fn tuple(alloc: Global, line: &str) -> Result<Tuple, Stop> {
    let mut cols = ColSet::empty();
    let mut vals = Vals::new(alloc);
    for (col, word) in line.split(' ').enumerate() {
        if col >= 32 {
            return Err(Stop::Line);
        }
        cols = cols.with(col as u8);
        vals.push(word.parse::<u64>().map_err(|_| Stop::Line)?)?;
    }
    if vals.list().len() != cols.len() as usize {
        return Err(Stop::Line);
    }
    Ok(Tuple::new(cols, vals)?)
}

fn push_rows_of(accepted: &Accepted, tuple: &Tuple, out: &mut Vec<u8>) -> Result<(), Memory> {
    for edge in 0..accepted.spec().edges.list().len() as u8 {
        push_row(accepted, edge, tuple, out)?;
    }
    Ok(())
}

/// Appends the line of the edge's row of a tuple.
fn push_row(accepted: &Accepted, edge: u8, tuple: &Tuple, out: &mut Vec<u8>) -> Result<(), Memory>
    requires { edge < length accepted.now.edges }
{
    let spec = accepted.spec();
    let row = tuple.project(spec.bound(spec.edge(edge).to))?;
    let stripe = physical_stripe(spec, accepted.class_of(edge), &row);
    push_bytes(out, spec.edge(edge).name.list())?;
    push_values(&row, out)?;
    push_bytes(out, b" on ")?;
    push_u64(out, u64::from(stripe))?;
    push_bytes(out, b"\n")
}

/// Appends the values of a tuple, with a space before each.
fn push_values(tuple: &Tuple, out: &mut Vec<u8>) -> Result<(), Memory> {
    for pair in tuple.pairs() {
        push_bytes(out, b" ")?;
        push_u64(out, pair.1)?;
    }
    Ok(())
}

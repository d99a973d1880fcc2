//! Where the rows of a list end.

ghost use Rattle.std.specs.Prelude.{◌≡◌, ◌<◌, ◌≤◌, ◌+◌, ◌*◌, ◌^◌, [], ◌∷◌, ◌++◌, get_or, length, IfOk, IfSome, OnErr, OnOk};
ghost use Rattle.rc_spec.specs.RowEnds.{AreInRange, ends_of, even_ends};

use rc_tuple::Memory;
use std::alloc::Global;
use std::marker::Model;

/// The places where the rows of a list end, in order. As long as all rows have the same number of values, they take no memory.
#[derive(Drop, Debug)]
pub struct RowEnds {
    form: Ends,
}

#[derive(Drop, Debug)]
enum Ends {
    /// All rows have the same number of values: how many rows there are, and how many values each has.
    Even { rows: usize, width: usize },
    /// Rows of different lengths: the end of each, one behind the other.
    Each(Vec<usize>),
}

impl Model for RowEnds {
    ghost use Rattle.std.specs.Prelude.{ℕ, List};
    ghost use Rattle.rc_spec.specs.RowEnds.{AreInRange, ends_of};

    ghost Value = { List ℕ };

    ghost view = { λ e. ends_of e.form };

    ghost invariant = { λ e. AreInRange e.form };
}

impl RowEnds {
    /// No end.
    pub fn new() -> RowEnds
        ensures { result ≡ [] }
    {
        RowEnds {
            form: Ends::Even { rows: 0, width: 0 },
        }
    }

    /// The ends of so many rows of one width. Takes no memory.
    pub fn of_width(rows: usize, width: usize) -> RowEnds
        requires { rows * width < 2 ^ 64 }
        ensures { result ≡ even_ends 0 width rows }
    {
        RowEnds {
            form: Ends::Even { rows, width },
        }
    }

    /// How many rows there are.
    pub fn len(&self) -> usize
        ensures { result ≡ length self.now }
    {
        match &self.form {
            Ends::Even { rows, .. } => *rows,
            Ends::Each(ends) => ends.len(),
        }
    }

    /// How many values each row has, where all have as many; `None` once a row of another length was added. The cost is constant.
    pub fn width(&self) -> Option<usize>
        ensures { IfSome result (λ width. self.now ≡ even_ends 0 width (length self.now)) }
    {
        match &self.form {
            Ends::Even { width, .. } => Some(*width),
            Ends::Each(_) => None,
        }
    }

    /// Where the row with this number begins, which is where the one before it ends. The number of rows gives where the last
    /// one ends. The cost is constant.
    pub fn start_of(&self, at: usize) -> usize
        requires { at ≤ length self.now }
        ensures { result ≡ get_or (0 ∷ self.now) at 0 }
    {
        match &self.form {
            Ends::Even { width, .. } => at * *width,
            Ends::Each(ends) => start_among(ends, at),
        }
    }

    /// Where the row with this number ends. The cost is constant.
    pub fn end_of(&self, at: usize) -> usize
        requires { at < length self.now }
        ensures { result ≡ get_or self.now at 0 }
    {
        match &self.form {
            Ends::Even { width, .. } => at * *width + *width,
            Ends::Each(ends) => ends[at],
        }
    }

    /// Adds the end of one more row. Where memory is wanted the ends stay. The cost is constant while all rows have one width;
    /// the first row of another width costs as much as there are rows, and from then on the rows that follow share the memory.
    pub fn push(&mut self, alloc: Global, end: usize) -> Result<(), Memory>
        requires { get_or (0 ∷ self.old) (length self.old) 0 ≤ end }
        ensures ok { OnOk result (self.new ≡ self.old ++ end ∷ []) }
        ensures err { OnErr result (self.new ≡ self.old) }
    {
        match &mut self.form {
            Ends::Even { rows, width } => self.form = even_and(alloc, *rows, *width, end)?,
            Ends::Each(ends) => ends.push(end)?,
        }
        Ok(())
    }

    /// Another list of the same ends. Costs nothing while all rows have one width, and then as much as there are rows.
    pub fn copy(&self, alloc: Global) -> Result<RowEnds, Memory>
        ensures { IfOk result (λ copy. copy ≡ self.now) }
    {
        let form = match &self.form {
            Ends::Even { rows, width } => Ends::Even {
                rows: *rows,
                width: *width,
            },
            Ends::Each(ends) => Ends::Each(Vec::from_slice(alloc, ends)?),
        };
        Ok(RowEnds { form })
    }
}

/// Where the row with this number begins, by the ends of all.
fn start_among(ends: &[usize], at: usize) -> usize
    requires { at ≤ length ends.now }
    ensures { result ≡ get_or (0 ∷ ends.now) at 0 }
{
    if at == 0 { 0 } else { ends[at - 1] }
}

/// The ends of so many rows of one width, and of one row more that ends here. Without a row before it, it gives the width.
fn even_and(alloc: Global, rows: usize, width: usize, end: usize) -> Result<Ends, Memory>
    requires { rows * width ≤ end }
    ensures in_range { IfOk result AreInRange }
    ensures ends { IfOk result (λ ends. ends_of ends ≡ even_ends 0 width rows ++ end ∷ []) }
{
    if rows == 0 {
        return Ok(Ends::Even {
            rows: 1,
            width: end,
        });
    }
    let more = rows.checked_add(1).ok_or(Memory)?;
    if end - rows * width == width {
        return Ok(Ends::Even { rows: more, width });
    }
    let mut ends = even(alloc, rows, width, more)?;
    ends.push(end)?;
    Ok(Ends::Each(ends))
}

/// The ends of so many rows of one width, with room for so many ends.
fn even(alloc: Global, rows: usize, width: usize, room: usize) -> Result<Vec<usize>, Memory>
    requires { rows * width < 2 ^ 64 }
    ensures { IfOk result (λ ends. ends.items ≡ even_ends 0 width rows) }
{
    let mut ends = Vec::with_capacity(alloc, room)?;
    let mut end = 0;
    for _ in 0..rows {
        end += width;
        ends.push(end)?;
    }
    Ok(ends)
}

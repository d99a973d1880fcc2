//! What is declared of a group before its calls are known.

use crate::group::Asks;

/// What a group declares of an operation that it may call: the calls with these values, or all of them.
#[derive(Clone, Copy, Debug)]
pub struct Declared<'a> {
    /// The number of the operation.
    pub op: u32,
    /// The values of the columns of its pattern, in the order in which this is written; or none, for
    /// calls with any values.
    pub values: &'a [u64],
}

impl<'a> Asks for Declared<'a> {
    ghost use Rattle.rc_embed.specs.Asking.{declared_as};

    ghost asked = { declared_as };

    fn op(&self) -> u32 {
        self.op
    }

    fn count(&self) -> usize {
        self.values.len()
    }

    fn values(&self) -> &[u64] {
        self.values
    }
}

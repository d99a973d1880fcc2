//! Sinks, and writing whole.

ghost use Rattle.std.specs.Prelude.{◌≡◌, ℕ, ◌<◌, ◌≤◌, List, Option, length, take, IfOk, OnOk, OnErr};
ghost use Rattle.rc_io.specs.Bytes.{Adds, AddsPrefix};
ghost use Rattle.rc_io.specs.Counts.{Rose};

use crate::Failed;

/// Where bytes are written, piece by piece.
pub trait Sink {
    /// The bytes that it holds, where the sink tells them.
    ghost held: { Self → Option (List ℕ) };

    /// How many faults there were, up to the last value of a `u64`, where the count stays.
    ghost faults: { Self → ℕ };

    /// Takes bytes from the front of `buf`, at least one, and answers how many. After a fault what
    /// is held is as before.
    fn write_some(&mut self, buf: &[u8]) -> Result<usize, Failed>
        requires { 0 < length buf.now }
        ensures some { IfOk result (λ n. (0 < n) × (n ≤ length buf.now)) }
        ensures bytes { IfOk result (λ n. Adds (held self.old) (take n buf.now) (held self.new)) }
        ensures stays { OnErr result (held self.new ≡ held self.old) }
        ensures failed { OnErr result (Rose (faults self.old) (faults self.new)) }
        ensures quiet { OnOk result (faults self.new ≡ faults self.old) }
        ensures count { faults self.old ≤ faults self.new };
}

/// Why not all bytes were written.
#[derive(Clone, Copy, Debug, PartialEq, Eq)]
pub enum WriteFault {
    /// A write failed.
    Sink,
}

impl From<Failed> for WriteFault {
    fn from(_: Failed) -> Self {
        WriteFault::Sink
    }
}

/// Writes all the bytes. After a fault, which comes only where the sink's count of faults rose, some first
/// bytes of them were added. Takes no memory.
pub fn write_all<K: Sink>(sink: &mut K, bytes: &[u8]) -> Result<(), WriteFault>
    ensures ok { OnOk result (Adds (K.held sink.old) bytes.now (K.held sink.new)) }
    ensures prefix { OnErr result (AddsPrefix (K.held sink.old) bytes.now (K.held sink.new)) }
    ensures failed { OnErr result (Rose (K.faults sink.old) (K.faults sink.new)) }
    ensures quiet { OnOk result (K.faults sink.new ≡ K.faults sink.old) }
    ensures count { K.faults sink.old ≤ K.faults sink.new }
{
    let mut at = 0;
    while at < bytes.len() {
        at += sink.write_some(&bytes[at..])?;
    }
    Ok(())
}

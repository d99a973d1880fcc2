//! Sources, and reading to the end.

ghost use Rattle.std.specs.Prelude.{◌≡◌, ℕ, ◌+◌, ◌<◌, ◌≤◌, List, Option, None, length, take, vec_len, IfOk, IfErr, OnErr, OnOk, IsErrOf};
ghost use Rattle.rc_io.specs.Bytes.{Takes, IsEmpty};
ghost use Rattle.rc_io.specs.Counts.{Rose};
ghost use Rattle.rc_io.specs.Faults.{IsCountTaken};

use std::alloc::{AllocError, Global};

/// A read or a write failed.
#[derive(Clone, Copy, Debug, PartialEq, Eq)]
pub struct Failed;

/// Bytes that are read piece by piece.
pub trait Source {
    /// The bytes that are left, where the source tells them.
    ghost left: { Self → Option (List ℕ) };

    /// How many faults there were, up to the last value of a `u64`, where the count stays.
    ghost faults: { Self → ℕ };

    /// Reads the next bytes into the front of `buf` and answers how many: 0 at the end alone. After
    /// a fault what is left is as before.
    fn read_some(&mut self, buf: &mut [u8]) -> Result<usize, Failed>
        requires { 0 < length buf.old }
        ensures fits { IfOk result (λ n. n ≤ length buf.new) }
        // So 0 is answered where nothing is left, too.
        ensures bytes { IfOk result (λ n. Takes (left self.old) (take n buf.new) (left self.new)) }
        ensures end { IfOk result (λ n. n ≡ 0 → IsEmpty (left self.old)) }
        ensures stays { OnErr result (left self.new ≡ left self.old) }
        ensures failed { OnErr result (Rose (faults self.old) (faults self.new)) }
        ensures quiet { OnOk result (faults self.new ≡ faults self.old) }
        ensures count { faults self.old ≤ faults self.new };
}

/// Why not all bytes were read.
#[derive(Clone, Copy, Debug, PartialEq, Eq)]
pub enum ReadFault {
    /// Memory was wanted and not given.
    Memory,
    /// A read failed.
    Source,
    /// There are more bytes than the limit.
    TooLong,
}

impl From<AllocError> for ReadFault {
    ghost use Rattle.std.specs.Prelude.{◌≡◌};
    ghost use Rattle.rc_io.specs.declared.source.ReadFault.TheVariants.{Memory};

    ghost from_gives = { λ _ fault. fault ≡ Memory };

    fn from(_: AllocError) -> Self {
        ReadFault::Memory
    }
}

impl From<Failed> for ReadFault {
    ghost use Rattle.std.specs.Prelude.{◌≡◌};
    ghost use Rattle.rc_io.specs.declared.source.ReadFault.TheVariants.{Source};

    ghost from_gives = { λ _ fault. fault ≡ Source };

    fn from(_: Failed) -> Self {
        ReadFault::Source
    }
}

/// How many bytes a read asks for at most.
const PIECE: usize = 4096;

/// All bytes up to the end, of which there are at most `limit`. Where there are more, one byte
/// beyond the limit is taken. After a fault the bytes that were taken are dropped. `Source` comes only
/// where the source's count of faults rose, which any other answer leaves as it was, and `TooLong` exactly where
/// that one byte was taken.
pub fn read_all<S: Source>(alloc: Global, source: &mut S, limit: u64) -> Result<Vec<u8>, ReadFault>
    ensures all { IfOk result (λ v. Takes (S.left source.old) v.items (S.left source.new)
        × IsEmpty (S.left source.new)) }
    ensures within { IfOk result (λ v. vec_len v ≤ limit) }
    ensures taken { IfErr result (λ fault. (bytes : List ℕ) × IsCountTaken fault limit (length bytes)
        × Takes (S.left source.old) bytes (S.left source.new)) }
    ensures failed { IsErrOf result ReadFault.Source →
        Rose (S.faults source.old) (S.faults source.new) }
    ensures quiet { (IsErrOf result ReadFault.Source → ⊥)
        → S.faults source.new ≡ S.faults source.old }
    ensures count { S.faults source.old ≤ S.faults source.new }
{
    let mut out = Vec::new(alloc);
    let mut buf = [0u8; PIECE];
    let mut taken = 0u64;
    'pieces: loop {
        let room = limit - taken;
        let most = room.min(PIECE as u64 - 1) as usize + 1;
        let n = source.read_some(&mut buf[..most])?;
        if n == 0 {
            return Ok(out);
        }
        if n as u64 > room {
            return Err(ReadFault::TooLong);
        }
        out.extend_from_slice(&buf[..n])?;
        taken += n as u64;
    }
}
